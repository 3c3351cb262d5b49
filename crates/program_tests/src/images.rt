//! Stores as their bytes, and what lasts in them.

use crate::script::{FRESH, Outside, ROOM};
use disk_model::{Choice, MemoryDisk};
use keystore_run::Status;
use ks_outside::Disk;
use std::alloc::Global;

/// The places of a store's selector and of its areas.
pub const SELECTOR: u64 = 268_435_456;

const AREA_A: u64 = 268_439_552;

const AREA_B: u64 = 1_342_181_376;

/// How many bytes of an area are looked at; no store here has more.
const MOST: u64 = 70_000;

/// The bytes of a store: its magic and the seal behind it, its selector, and its areas.
#[derive(Drop)]
pub struct Image {
    front: [u8; 9],
    selector: [u8; 1],
    area_a: Vec<u8>,
    area_b: Vec<u8>,
}

/// How many calls lay an image on a disk: calls that fail are counted with these.
pub const LAID: u64 = 4;

/// The bytes of a disk from a place on, to its end.
fn area_at(alloc: Global, disk: &mut MemoryDisk, place: u64) -> Option<Vec<u8>> {
    let size = disk.len().ok()?.saturating_sub(place).min(MOST);
    let mut area = vec![in alloc; 0u8; size as usize].ok()?;
    let _ = disk.read(place, area.as_mut_slice());
    Some(area)
}

/// The store on a disk.
pub fn image_of(alloc: Global, disk: &mut MemoryDisk) -> Option<Image> {
    let area_a = area_at(alloc, disk, AREA_A)?;
    let area_b = area_at(alloc, disk, AREA_B)?;
    let mut front = [0u8; 9];
    let mut selector = [0u8; 1];
    let _ = disk.read(0, &mut front);
    let _ = disk.read(SELECTOR, &mut selector);
    Some(Image {
        front,
        selector,
        area_a,
        area_b,
    })
}

/// A disk on which a store stands that has nothing in area B, synced, and whose calls with these numbers fail.
pub fn laid<'a>(alloc: Global, image: &Image, failing: &'a [u64]) -> Option<MemoryDisk<'a>> {
    if !image.area_b.is_empty() {
        return None;
    }
    let mut disk = MemoryDisk::with_room(alloc, ROOM, failing).ok()?;
    let _ = disk.write_at(0, &image.front);
    let _ = disk.write_at(SELECTOR, &image.selector);
    let _ = disk.write_at(AREA_A, image.area_a.as_slice());
    let _ = disk.sync();
    Some(disk)
}

/// What asks for all that lasts: whether a key that was used up is there, the keys of each owner, the uses that are left, the list of the
/// older key and whether it opens, the grants, and the next two numbers.
const ASKS: &str = r#"{"t":[0,1000],"do":"connect","uid":10001}
{"t":[0,1000],"c":1,"do":"createOperation","key":{"domain":0,"alias":"o"},"params":[["PURPOSE",2],["MAC_LENGTH",256]]}
{"t":[0,1000],"do":"connect","uid":10002}
{"t":[0,1000],"do":"connect","uid":110001}
{"t":[0,1000],"c":1,"do":"listEntriesBatched","domain":0}
{"t":[0,1000],"c":2,"do":"listEntriesBatched","domain":0}
{"t":[0,1000],"c":3,"do":"listEntriesBatched","domain":0}
{"t":[0,1000],"c":1,"do":"getKeyEntry","key":{"domain":0,"alias":"o"}}
{"t":[0,1000],"c":1,"do":"getKeyEntry","key":{"domain":0,"alias":"u"}}
{"t":[0,1000],"c":1,"do":"getKeyEntry","key":{"domain":0,"alias":"v"}}
{"t":[0,1000],"c":1,"do":"createOperation","key":{"domain":0,"alias":"v"},"params":[["PURPOSE",2],["MAC_LENGTH",256]]}
{"t":[0,1000],"c":1,"do":"createOperation","key":{"domain":0,"alias":"u"},"params":[["PURPOSE",2],["MAC_LENGTH",256]]}
{"t":[0,1000],"c":2,"do":"createOperation","key":{"domain":1,"nspace":1},"params":[]}
{"t":[0,1000],"c":2,"do":"createOperation","key":{"domain":1,"nspace":2},"params":[]}
{"t":[0,1000],"c":1,"do":"importKey","key":{"domain":0,"alias":"z"},"params":[["PURPOSE",2],["ALGORITHM",128],["DIGEST",4],["MIN_MAC_LENGTH",64],["NO_AUTH_REQUIRED",true]],"format":3,"material":"0b0b0b0b0b0b0b0b0b0b0b0b0b0b0b0b0b0b0b0b"}
{"t":[0,1000],"c":1,"do":"grant","key":{"domain":0,"alias":"z"},"uid":10002,"bits":256}
"#;

/// How a run over a disk ended, and what it wrote.
pub fn run_over<D: Disk>(alloc: Global, disk: &mut D, script: &str) -> Option<(Status, String)> {
    let outside = Outside {
        words: "run",
        script,
        ..FRESH
    };
    let ended = outside.run(alloc, disk)?;
    let status = ended.status;
    let text = String::from_str(alloc, ended.text());
    drop(ended);
    Some((status, text.ok()?))
}

/// Each write that no sync followed is as it was written, or is gone.
static WRITTEN: [Choice; 0] = [];

static GONE: [Choice; 1024] = [Choice::Old; 1024];

/// What lasts on a disk, as its replies to what asks for all of it.
pub fn asked_on(alloc: Global, disk: &mut MemoryDisk) -> Option<String> {
    let outside = Outside {
        words: "run",
        script: ASKS,
        ..FRESH
    };
    outside.text(alloc, disk)
}

/// Whether both hold the same bytes.
fn is_same(alloc: Global, one: &mut MemoryDisk, other: &mut MemoryDisk) -> bool {
    match (image_of(alloc, one), image_of(alloc, other)) {
        (Some(one), Some(other)) => {
            one.front == other.front
                && one.selector == other.selector
                && one.area_a.as_slice() == other.area_a.as_slice()
                && one.area_b.as_slice() == other.area_b.as_slice()
        }
        _ => false,
    }
}

/// What lasts on a disk as it stands, and where the power goes.
#[derive(Drop)]
pub struct Lasting {
    pub stands: String,
    pub remains: String,
}

pub fn lasting_on(alloc: Global, disk: &MemoryDisk) -> Option<Lasting> {
    let mut written = disk.image_after(disk.count(), &WRITTEN).ok()?;
    let mut gone = disk.image_after(disk.count(), &GONE).ok()?;
    let is_same = is_same(alloc, &mut written, &mut gone);
    let stands = asked_on(alloc, &mut written);
    let remains = if is_same {
        copied(alloc, &stands)
    } else {
        asked_on(alloc, &mut gone)
    };
    drop(written);
    drop(gone);
    Some(Lasting {
        stands: stands?,
        remains: remains?,
    })
}

/// The same text once more.
fn copied(alloc: Global, text: &Option<String>) -> Option<String> {
    match text {
        Some(text) => String::from_str(alloc, text.as_str()).ok(),
        None => None,
    }
}
