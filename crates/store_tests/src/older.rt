//! A journal that is brought to areas.

use crate::rebound::Rebound;
use crate::two_areas::{AREA_A, Found, SELECTOR, disk_of, newest, opened};
use disk_calls::write_synced;
use disk_model::{Choice, MemoryDisk};
use journal_compact::{Areas, Selected};
use journal_records::StoreFault;
use ks_outside::Disk;
use lasting_table::TableReplay;
use std::alloc::Global;
use use_journal::Journal;

/// A journal without a record, and one with the key 1 of the alias m.
static EMPTY: &[u8] = b"KSJRNL01\x00";

static ONE: &[u8] =
    b"KSJRNL01\x4b\x00\x00\x00\x28\x01\x00\x00\x00\x00\x00\x00\x00\x01\x00\x00\x00\x00\x00\x00\x00\x27\x11\
\x00\x00\x00\x01m\x00\x00\x00\x03\xaa\xbb\xcc\x00\x00\x00\x02\x00\x00\x00\x00\x00\x00\x00";

/// The snapshot of nothing, and a closing byte.
static NOTHING: &[u8] =
    b"\x4b\x00\x00\x00\x11\x08\x00\x00\x00\x00\x00\x00\x00\x01\x00\x00\x00\x00\x00\x00\x00\x01\x00";

/// Whether these bytes stand at a place.
fn stand_at(disk: &mut MemoryDisk, at: u64, bytes: &[u8]) -> bool {
    let mut out = [0; 32];
    match disk.read(at, &mut out) {
        Ok(count) => count >= bytes.len() && out.starts_with(bytes),
        Err(_) => false,
    }
}

/// Brings a journal without a record to areas; whether that was done.
fn adopt_empty(alloc: Global, disk: &mut MemoryDisk) -> bool {
    let table = TableReplay::new(alloc).into_table();
    table.storable();
    let adopted = Areas::adopt(disk, &table).is_ok();
    drop(table);
    adopted
}

/// The same of a journal with the key 1.
fn adopt_one(disk: &mut MemoryDisk) -> bool {
    let table = Rebound { times: 0 };
    table.storable();
    Areas::adopt(disk, &table).is_ok()
}

/// A disk of nine bytes, and what it becomes: the front with the seal behind it, the selector, and the snapshot of nothing.
fn nine_bytes(alloc: Global) -> Option<bool> {
    let mut disk = disk_of(alloc, &[])?;
    let mut right = write_synced(&mut disk, 0, EMPTY).is_ok();
    right &= adopt_empty(alloc, &mut disk);
    right &= stand_at(&mut disk, 0, b"KSJRNL02\x4b\xff\xff\xff\xff");
    right &= stand_at(&mut disk, SELECTOR, b"A");
    right &= stand_at(&mut disk, AREA_A, NOTHING);
    let wanted = Found {
        selected: Selected::A,
        bytes: 22,
        records: 1,
        newest: None,
    };
    right &= opened(alloc, &mut disk) == Ok(wanted);
    drop(disk);
    Some(right)
}

#[test]
fn an_empty_journal_becomes_a_store_of_areas(rt: HostRuntime) {
    assert_eq!(rt; nine_bytes(rt.alloc()), Some(true));
}

/// Whether a store is a journal, how many records it has, and the key of the newest one; None where it is neither a journal nor a store of areas.
fn found(alloc: Global, disk: &mut MemoryDisk) -> Option<(bool, usize, Option<u64>)> {
    match Journal::open(alloc, disk) {
        Ok((_, records)) => Some((true, records.as_slice().len(), newest(&records))),
        Err(_) => match opened(alloc, disk) {
            Ok(read) => Some((false, read.records, read.newest)),
            Err(_) => None,
        },
    }
}

/// The journal with the key 1, and the store of areas that it becomes.
const OLDER: Option<(bool, usize, Option<u64>)> = Some((true, 1, Some(1)));

const NEWER: Option<(bool, usize, Option<u64>)> = Some((false, 2, Some(1)));

/// A journal is brought to areas with this call of the disk failing, and is a journal then or not. Calls 1 and 2 write it; 3 to 9 write the
/// snapshot and the selector, sync, write the version, sync, write the seal, sync.
struct Cut {
    failing: &'static [u64],
    older: bool,
}

static CUTS: [Cut; 7] = [
    Cut {
        failing: &[3],
        older: true,
    },
    Cut {
        failing: &[4],
        older: true,
    },
    Cut {
        failing: &[5],
        older: true,
    },
    Cut {
        failing: &[6],
        older: true,
    },
    // the version stands, though its sync failed
    Cut {
        failing: &[7],
        older: false,
    },
    Cut {
        failing: &[8],
        older: false,
    },
    Cut {
        failing: &[9],
        older: false,
    },
];

/// Whether it is not brought over, has the key as the row says, and is brought over where that is tried again.
fn goes_on(alloc: Global, row: &Cut, disk: &mut MemoryDisk) -> bool {
    let mut right = write_synced(disk, 0, ONE).is_ok();
    right &= !adopt_one(disk);
    let wanted = if row.older { OLDER } else { NEWER };
    right &= found(alloc, disk) == wanted;
    right &= !row.older || adopt_one(disk);
    right && found(alloc, disk) == NEWER
}

/// The number of the first row that goes otherwise.
fn first_other(alloc: Global) -> Option<usize> {
    for (number, row) in CUTS.iter().enumerate() {
        let mut disk = disk_of(alloc, row.failing)?;
        let right = goes_on(alloc, row, &mut disk);
        drop(disk);
        if !right {
            return Some(number);
        }
    }
    None
}

#[test]
fn each_call_of_bringing_over_fails(rt: HostRuntime) {
    let alloc = rt.alloc();
    assert_eq!(rt; first_other(alloc), None);
}

/// What a write may hold after a crash: what was there, the version of a journal, an open gate.
static CHOICES: [Choice; 3] = [Choice::Old, Choice::Filled(0x31), Choice::Filled(0x4b)];

/// What is found on the image of a moment, where each write that no sync followed is so.
fn found_after(
    alloc: Global,
    disk: &MemoryDisk,
    calls: usize,
    choice: Choice,
) -> Option<(bool, usize, Option<u64>)> {
    let choices = [choice; 16];
    let mut image = disk.image_after(calls.min(disk.count()), &choices).ok()?;
    let read = found(alloc, &mut image);
    drop(image);
    read
}

/// Whether each image of the moments from one call on is the journal or the store of areas.
fn each_holds(alloc: Global, disk: &MemoryDisk, first: usize) -> bool {
    let mut right = true;
    for choice in &CHOICES {
        for calls in first..=disk.count() {
            let read = found_after(alloc, disk, calls, *choice);
            right &= read == OLDER || read == NEWER;
        }
    }
    right
}

/// Whether it is so from the journal on, and the last image is the store of areas.
fn holds_through(alloc: Global) -> Option<bool> {
    let mut disk = disk_of(alloc, &[])?;
    let mut right = write_synced(&mut disk, 0, ONE).is_ok();
    let before = disk.count();
    right &= adopt_one(&mut disk);
    right &= each_holds(alloc, &disk, before);
    right &= found(alloc, &mut disk) == NEWER;
    drop(disk);
    Some(right)
}

#[test]
fn each_image_of_bringing_over_holds_the_key(rt: HostRuntime) {
    assert_eq!(rt; holds_through(rt.alloc()), Some(true));
}

/// Whether a version that is damaged later is told: where it is that of a journal, at the seal over its first gate.
fn seals(alloc: Global) -> Option<bool> {
    let mut disk = disk_of(alloc, &[])?;
    let mut right = write_synced(&mut disk, 0, ONE).is_ok();
    right &= adopt_one(&mut disk);
    right &= write_synced(&mut disk, 7, b"1").is_ok();
    right &= found(alloc, &mut disk).is_none();
    right &= match Journal::open(alloc, &mut disk) {
        Ok(_) => false,
        Err(fault) => fault == StoreFault::Corrupted { offset: 8 },
    };
    drop(disk);
    Some(right)
}

#[test]
fn a_damaged_version_is_told_by_the_seal(rt: HostRuntime) {
    assert_eq!(rt; seals(rt.alloc()), Some(true));
}
