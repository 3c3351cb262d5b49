//! Opening a database over a store of the older format.

use crate::databases::{Told, told, told_anew};
use disk_calls::write_synced;
use disk_model::{DiskRoom, MemoryDisk};
use journal_records::StoreFault;
use key_database::KeyDatabase;
use ks_outside::Disk;
use std::alloc::Global;

/// Room for the tests.
const ROOM: DiskRoom = DiskRoom {
    calls: 128,
    bytes: 4096,
    pages: 8,
};

/// What the front of a store is that was brought to areas.
const NEWER: &[u8] = b"KSJRNL02\x4b\xff\xff\xff\xff";

/// A journal with the key 1 of uid 10001.
const ONE: &[u8] =
    b"KSJRNL01\x4b\x00\x00\x00\x28\x01\x00\x00\x00\x00\x00\x00\x00\x01\x00\x00\x00\x00\x00\x00\x00\x27\x11\
\x00\x00\x00\x01m\x00\x00\x00\x03\xaa\xbb\xcc\x00\x00\x00\x02\x00\x00\x00\x00\x00\x00\x00";

/// What it tells.
const ONE_TOLD: Told = ((1, 0), 0, (2, 1));

/// The bytes of a disk, and what opening a database over it tells, or the place of what is wrong.
struct Older {
    bytes: &'static [u8],
    told: Result<Told, u64>,
}

static OLDER: [Older; 10] = [
    Older {
        bytes: b"KSJRNL01\x00",
        told: Ok(((0, 0), 0, (1, 1))),
    },
    Older {
        bytes: ONE,
        told: Ok(ONE_TOLD),
    },
    // it ends behind its header, or within a record, or behind its last one
    Older {
        bytes: b"KSJRNL01",
        told: Err(8),
    },
    Older {
        bytes: b"KSJRNL01\x4b\x00\x00\x00\x09\x03\x00\x00",
        told: Err(8),
    },
    Older {
        bytes: b"KSJRNL01\x4b\x00\x00\x00\x05\x07\x00\x00\x00\x00",
        told: Err(18),
    },
    // no version, and other bytes
    Older {
        bytes: b"KSJRNL0",
        told: Err(7),
    },
    Older {
        bytes: b"KSJRML01\x00",
        told: Err(0),
    },
    // a row of a snapshot, also behind a change
    Older {
        bytes: b"KSJRNL01\x4b\x00\x00\x00\x11\x08\x00\x00\x00\x00\x00\x00\x00\x01\x00\x00\x00\x00\x00\x00\x00\x01\x00",
        told: Err(8),
    },
    Older {
        bytes: b"KSJRNL01\x4b\x00\x00\x00\x05\x07\x00\x00\x00\x00\x4b\x00\x00\x00\x11\x08\x00\x00\x00\x00\x00\x00\x00\x01\x00\x00\x00\x00\x00\x00\x00\x01\x00",
        told: Err(18),
    },
    // a use of no key
    Older {
        bytes: b"KSJRNL01\x4b\x00\x00\x00\x05\x07\x00\x00\x00\x00\x4b\x00\x00\x00\x09\x03\x00\x00\x00\x00\x00\x00\x00\x01\x00",
        told: Err(18),
    },
];

/// What opening a database over a disk tells.
fn told_or_place(alloc: Global, disk: &mut MemoryDisk) -> Option<Result<Told, u64>> {
    match KeyDatabase::open(alloc, disk) {
        Ok(database) => {
            let told = told(database.table());
            drop(database);
            Some(Ok(told))
        }
        Err(StoreFault::Corrupted { offset }) => Some(Err(offset)),
        Err(_) => None,
    }
}

/// Whether the disk begins with these bytes.
fn begins(disk: &mut MemoryDisk, bytes: &[u8]) -> bool {
    let mut out = [0; 64];
    match disk.read(0, &mut out) {
        Ok(count) => count >= bytes.len() && out.starts_with(bytes),
        Err(_) => false,
    }
}

/// Whether a store is told as its row says, and is then one of areas that tells the same; one that is refused has not one byte changed.
fn is_told(alloc: Global, row: &Older, disk: &mut MemoryDisk) -> bool {
    let mut right = write_synced(disk, 0, row.bytes).is_ok();
    right &= told_or_place(alloc, disk) == Some(row.told);
    match row.told {
        Ok(told) => {
            right &= begins(disk, NEWER);
            right && told_anew(alloc, disk) == Some(told)
        }
        Err(_) => right && begins(disk, row.bytes) && disk.len() == Ok(row.bytes.len() as u64),
    }
}

/// The number of the first row that is told otherwise.
fn first_other(alloc: Global) -> Option<usize> {
    for (number, row) in OLDER.iter().enumerate() {
        let mut disk = MemoryDisk::with_room(alloc, ROOM, &[]).ok()?;
        let right = is_told(alloc, row, &mut disk);
        drop(disk);
        if !right {
            return Some(number);
        }
    }
    None
}

#[test]
fn an_older_store_is_brought_over_or_refused(rt: HostRuntime) {
    assert_eq!(rt; first_other(rt.alloc()), None);
}

/// Whether an opening of the journal with the key 1, in which a call of the disk fails, goes through; and whether what it leaves goes through, with
/// the same key.
fn goes_through(alloc: Global, disk: &mut MemoryDisk) -> (bool, bool) {
    let written = write_synced(disk, 0, ONE).is_ok();
    let first = told_or_place(alloc, disk);
    let anew = told_anew(alloc, disk) == Some(ONE_TOLD) && begins(disk, &NEWER[..8]);
    (first.is_some(), written && anew)
}

/// How many calls of the disk an opening makes, where whichever of them fails the next opening goes through. Calls 1 and 2 write the journal; the
/// one that no longer fails the first opening is met by the next one.
fn calls(alloc: Global) -> Option<u64> {
    for call in 0..40 {
        let failing = [call + 3];
        let mut disk = MemoryDisk::with_room(alloc, ROOM, &failing).ok()?;
        let (whole, right) = goes_through(alloc, &mut disk);
        drop(disk);
        if whole {
            return Some(call);
        }
        if !right {
            return None;
        }
    }
    None
}

#[test]
fn each_call_of_an_opening_fails(rt: HostRuntime) {
    assert_eq!(rt; calls(rt.alloc()), Some(12));
}
