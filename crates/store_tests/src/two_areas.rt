use crate::rebound::Rebound;
use disk_calls::write_synced;
use disk_model::{Choice, DiskRoom, MemoryDisk};
use journal_compact::{AREA_BYTES, Areas, Selected};
use journal_records::{Change, Record, StoreFault};
use ks_outside::Disk;
use record_areas::Records;
use std::alloc::Global;
use tags::Settled;

/// The places of the selector and of both areas.
pub(crate) const SELECTOR: u64 = 268_435_456;

pub(crate) const AREA_A: u64 = 268_439_552;

pub(crate) const AREA_B: u64 = 1_342_181_376;

/// The record of a key of the alias m, and a closing byte; its number stands from place 6 on.
static CREATE: [u8; 46] =
    *b"\x4b\x00\x00\x00\x28\x01\x00\x00\x00\x00\x00\x00\x00\x00\x00\x00\x00\x00\x00\x00\x00\x27\x11\
\x00\x00\x00\x01m\x00\x00\x00\x03\xaa\xbb\xcc\x00\x00\x00\x02\x00\x00\x00\x00\x00\x00\x00";

/// How many bytes the records of an area have at the most before the store is written anew.
const MOST: u64 = 500;

/// Room for the tests.
const ROOM: DiskRoom = DiskRoom {
    calls: 512,
    bytes: 8192,
    pages: 8,
};

/// A disk.
pub(crate) fn disk_of<'a>(alloc: Global, failing: &'a [u64]) -> Option<MemoryDisk<'a>> {
    MemoryDisk::with_room(alloc, ROOM, failing).ok()
}

/// Writes the store anew, with the key that was imported anew so many times; whether that was done.
pub(crate) fn compact<D: Disk>(areas: &mut Areas, disk: &mut D, times: u32) -> bool {
    let table = Rebound { times };
    table.storable();
    areas.is_settled() && areas.compact(disk, &table).is_ok()
}

/// Adds the record of the key that was imported anew so many times; whether that was done.
pub(crate) fn add<D: Disk>(areas: &mut Areas, disk: &mut D, times: u32) -> bool {
    let mut closed = CREATE;
    closed[6..14].copy_from_slice(&(u64::from(times) + 1).to_be_bytes());
    if !areas.is_settled() || areas.record_bytes() > AREA_BYTES - 46 {
        return false;
    }
    areas.append(disk, &closed).is_ok()
}

/// Imports a key for the so-many-th time anew; the store is written anew before, where it is time.
fn import(areas: &mut Areas, disk: &mut MemoryDisk, times: u32) -> bool {
    if areas.record_bytes() > MOST && !compact(areas, disk, times.saturating_sub(1)) {
        return false;
    }
    add(areas, disk, times)
}

/// A store that is formatted, and opened.
pub(crate) fn fresh<D: Disk>(alloc: Global, disk: &mut D) -> Option<Areas> {
    if Areas::format(disk).is_err() {
        return None;
    }
    match Areas::open(alloc, disk) {
        Ok((areas, _)) => Some(areas),
        Err(_) => None,
    }
}

/// The number of the key of the newest record.
pub(crate) fn newest(records: &Records) -> Option<u64> {
    let (_, it) = records.as_slice().last()?;
    match it {
        Record::Change {
            change: Change::Create { id, .. },
        } => Some(*id),
        Record::Held { key } => Some(key.id),
        _ => None,
    }
}

/// What an opening finds: the selected area, how many bytes its records have and how many they are, and the newest key.
#[derive(Clone, Copy, Debug, PartialEq, Eq)]
pub(crate) struct Found {
    pub(crate) selected: Selected,
    pub(crate) bytes: u64,
    pub(crate) records: usize,
    pub(crate) newest: Option<u64>,
}

/// Opens a store.
pub(crate) fn opened(alloc: Global, disk: &mut MemoryDisk) -> Result<Found, StoreFault> {
    let (areas, records) = Areas::open(alloc, disk)?;
    Ok(Found {
        selected: areas.selected(),
        bytes: areas.record_bytes(),
        records: records.as_slice().len(),
        newest: newest(&records),
    })
}

/// A hundred imports, and what is found behind them.
fn hundred(alloc: Global) -> Option<Result<Found, StoreFault>> {
    let mut disk = disk_of(alloc, &[])?;
    let mut all = true;
    if let Some(mut areas) = fresh(alloc, &mut disk) {
        for times in 0..100 {
            all &= import(&mut areas, &mut disk, times);
        }
    }
    let read = opened(alloc, &mut disk);
    drop(disk);
    if all { Some(read) } else { None }
}

#[test]
fn a_hundred_imports_go_back_and_forth(rt: HostRuntime) {
    let wanted = Found {
        selected: Selected::B,
        bytes: 431,
        records: 10,
        newest: Some(100),
    };
    assert_eq!(rt; hundred(rt.alloc()), Some(Ok(wanted)));
}

/// A store of one import and its snapshot beside; the compaction meets this failing call. Calls 1 to 6 format, 7 to 12 open, 13 to 16 import, 17 to
/// 22 write the store anew: the snapshot, the selector and the seal, each with a sync.
struct Torn {
    failing: &'static [u64],
    selected: Selected,
    records: usize,
}

static TORN: [Torn; 6] = [
    Torn {
        failing: &[17],
        selected: Selected::A,
        records: 2,
    },
    Torn {
        failing: &[18],
        selected: Selected::A,
        records: 2,
    },
    Torn {
        failing: &[19],
        selected: Selected::A,
        records: 2,
    },
    // the selector stands, though its sync failed
    Torn {
        failing: &[20],
        selected: Selected::B,
        records: 3,
    },
    Torn {
        failing: &[21],
        selected: Selected::B,
        records: 3,
    },
    Torn {
        failing: &[22],
        selected: Selected::B,
        records: 3,
    },
];

/// Settles; None where nothing waits, or a call fails.
fn settle(areas: &mut Areas, disk: &mut MemoryDisk) -> Option<Settled> {
    if areas.is_settled() {
        return None;
    }
    areas.settle(disk).ok()
}

/// Whether a compaction fails, settles as lost, and leaves the area that the row says, in which the next import goes on.
fn settles(alloc: Global, row: &Torn, disk: &mut MemoryDisk) -> bool {
    let Some(mut areas) = fresh(alloc, disk) else {
        return false;
    };
    let mut right = import(&mut areas, disk, 0);
    right &= !compact(&mut areas, disk, 0);
    right &= settle(&mut areas, disk) == Some(Settled::Lost);
    right &= areas.selected() == row.selected;
    right &= add(&mut areas, disk, 1);
    match opened(alloc, disk) {
        Ok(read) => {
            right
                && read.selected == row.selected
                && read.records == row.records
                && read.newest == Some(2)
        }
        Err(_) => false,
    }
}

/// The number of the first row that goes otherwise.
fn first_other(alloc: Global) -> Option<usize> {
    for (number, row) in TORN.iter().enumerate() {
        let mut disk = disk_of(alloc, row.failing)?;
        let right = settles(alloc, row, &mut disk);
        drop(disk);
        if !right {
            return Some(number);
        }
    }
    None
}

#[test]
fn each_call_of_a_compaction_fails(rt: HostRuntime) {
    let alloc = rt.alloc();
    assert_eq!(rt; first_other(alloc), None);
}

/// Which area is found, or why none, where this byte stands as the selector.
fn found_by(
    alloc: Global,
    disk: &mut MemoryDisk,
    selector: &[u8],
) -> Option<Result<Selected, StoreFault>> {
    if write_synced(disk, SELECTOR, selector).is_err() {
        return None;
    }
    match opened(alloc, disk) {
        Ok(read) => Some(Ok(read.selected)),
        Err(fault) => Some(Err(fault)),
    }
}

/// Whether each selector but that of the selected area is told by the seal of the other one, from A to B and back.
fn seals(alloc: Global, disk: &mut MemoryDisk) -> bool {
    let Some(mut areas) = fresh(alloc, disk) else {
        return false;
    };
    let mut right = import(&mut areas, disk, 0);
    right &= compact(&mut areas, disk, 0);
    let left = Err(StoreFault::Corrupted { offset: AREA_A });
    right &= found_by(alloc, disk, b"A") == Some(left);
    right &= found_by(alloc, disk, b"x") == Some(Ok(Selected::B));
    right &= compact(&mut areas, disk, 0);
    let left = Err(StoreFault::Corrupted { offset: AREA_B });
    right &= found_by(alloc, disk, b"B") == Some(left);
    right &= found_by(alloc, disk, b"\x00") == Some(left);
    right && found_by(alloc, disk, b"A") == Some(Ok(Selected::A))
}

/// The same on a disk.
fn sealed(alloc: Global) -> Option<bool> {
    let mut disk = disk_of(alloc, &[])?;
    let right = seals(alloc, &mut disk);
    drop(disk);
    Some(right)
}

#[test]
fn a_damaged_selector_is_told_by_a_seal(rt: HostRuntime) {
    assert_eq!(rt; sealed(rt.alloc()), Some(true));
}

/// What stands at the front of a disk, as its selector and at the start of area A, and what is found there.
struct Marks {
    front: &'static [u8],
    selector: &'static [u8],
    area: &'static [u8],
    found: Result<usize, StoreFault>,
}

static MARKS: [Marks; 8] = [
    Marks {
        front: b"KSJRNL",
        selector: b"",
        area: b"",
        found: Err(StoreFault::Corrupted { offset: 0 }),
    },
    Marks {
        front: b"KSJRML02",
        selector: b"A",
        area: b"\x00",
        found: Err(StoreFault::Corrupted { offset: 0 }),
    },
    Marks {
        front: b"KSJRNL0",
        selector: b"",
        area: b"",
        found: Err(StoreFault::Corrupted { offset: 7 }),
    },
    Marks {
        front: b"KSJRNL01",
        selector: b"A",
        area: b"\x00",
        found: Err(StoreFault::Corrupted { offset: 7 }),
    },
    Marks {
        front: b"KSJRNL02",
        selector: b"",
        area: b"",
        found: Err(StoreFault::Corrupted { offset: SELECTOR }),
    },
    Marks {
        front: b"KSJRNL02",
        selector: b"A",
        area: b"",
        found: Err(StoreFault::Corrupted { offset: AREA_A }),
    },
    Marks {
        front: b"KSJRNL0\xff",
        selector: b"A",
        area: b"\x00",
        found: Ok(0),
    },
    Marks {
        front: b"KSJRNL02",
        selector: b"x",
        area: b"\x00",
        found: Err(StoreFault::Corrupted { offset: AREA_B }),
    },
];

/// Writes bytes, where there are some.
fn write_some(disk: &mut MemoryDisk, at: u64, bytes: &[u8]) -> bool {
    bytes.is_empty() || write_synced(disk, at, bytes).is_ok()
}

/// What is found on a disk with these marks.
fn found_of(alloc: Global, row: &Marks) -> Option<Result<usize, StoreFault>> {
    let mut disk = disk_of(alloc, &[])?;
    let mut written = write_some(&mut disk, 0, row.front);
    written &= write_some(&mut disk, SELECTOR, row.selector);
    written &= write_some(&mut disk, AREA_A, row.area);
    let read = match opened(alloc, &mut disk) {
        Ok(read) => Ok(read.records),
        Err(fault) => Err(fault),
    };
    drop(disk);
    if written { Some(read) } else { None }
}

/// The number of the first row that is found otherwise.
fn first_misread(alloc: Global) -> Option<usize> {
    for (number, row) in MARKS.iter().enumerate() {
        if found_of(alloc, row) != Some(row.found) {
            return Some(number);
        }
    }
    None
}

#[test]
fn marks_are_told_by_their_places(rt: HostRuntime) {
    let alloc = rt.alloc();
    assert_eq!(rt; first_misread(alloc), None);
}

/// What a write may hold after a crash.
static CHOICES: [Choice; 3] = [Choice::Old, Choice::Filled(0x41), Choice::Filled(0x4b)];

/// What is found on the image of a moment, where each write that no sync followed is so.
fn found_after(
    alloc: Global,
    disk: &MemoryDisk,
    calls: usize,
    choice: Choice,
) -> Option<Result<Found, StoreFault>> {
    let choices = [choice; 32];
    let mut image = disk.image_after(calls.min(disk.count()), &choices).ok()?;
    let read = opened(alloc, &mut image);
    drop(image);
    Some(read)
}

/// Whether each image of the moments from one call on holds the key of this number, as two records or as this many.
fn each_holds(alloc: Global, disk: &MemoryDisk, first: usize, newest: u64, records: usize) -> bool {
    let mut right = true;
    for choice in &CHOICES {
        for calls in first..=disk.count() {
            right &= match found_after(alloc, disk, calls, *choice) {
                Some(Ok(read)) => {
                    read.newest == Some(newest) && (read.records == 2 || read.records == records)
                }
                _ => false,
            };
        }
    }
    right
}

/// Four imports, and the store written anew: each image of each moment behind the imports holds the fourth key.
fn holds_through(alloc: Global) -> Option<bool> {
    let mut disk = disk_of(alloc, &[])?;
    let mut right = false;
    if let Some(mut areas) = fresh(alloc, &mut disk) {
        right = add(&mut areas, &mut disk, 0) && add(&mut areas, &mut disk, 1);
        right &= add(&mut areas, &mut disk, 2) && add(&mut areas, &mut disk, 3);
        let before = disk.count();
        right &= compact(&mut areas, &mut disk, 3);
        right &= each_holds(alloc, &disk, before, 4, 4);
    }
    drop(disk);
    Some(right)
}

#[test]
fn each_image_of_a_compaction_holds_the_key(rt: HostRuntime) {
    assert_eq!(rt; holds_through(rt.alloc()), Some(true));
}
