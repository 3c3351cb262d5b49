//! Stores on a sure disk: what fails there leaves nothing, and their place tells what was added.

use crate::databases::{apply, fresh, told_anew};
use crate::rebound::Rebound;
use crate::sure_disk::SureDisk;
use crate::two_areas;
use disk_model::DiskRoom;
use journal_compact::{Areas, Selected, StorePlace};
use journal_records::ApplyFault;
use key_database::KeyDatabase;
use std::alloc::Global;
use tags::Settled;

/// Room for the tests.
const ROOM: DiskRoom = DiskRoom {
    calls: 64,
    bytes: 4096,
    pages: 8,
};

/// A key of uid 10001, a grant of it, and its end: how many bytes each record has.
static STEPS: [(&[u8], u64); 3] = [
    (
        b"\x4b\x00\x00\x00\x26\x01\x00\x00\x00\x00\x00\x00\x00\x01\x00\x00\x00\x00\x00\x00\x00\x27\x11\x00\x00\x00\x01\x6d\x00\x00\x00\x01\xaa\x00\x00\x00\x02\x00\x00\x00\x00\x00\x02",
        43,
    ),
    (
        b"\x4b\x00\x00\x00\x19\x04\x00\x00\x00\x00\x00\x00\x00\x01\x00\x00\x00\x00\x00\x00\x00\x01\x00\x00\x27\x12\x00\x00\x01\x00",
        30,
    ),
    (
        b"\x4b\x00\x00\x00\x09\x02\x00\x00\x00\x00\x00\x00\x00\x01",
        14,
    ),
];

/// Behind the three writes of a formatting each step has two, of which one fails here and is asked for again: the numbers of those that fail.
static FAILING: [&[u64]; 2] = [&[4, 7, 10], &[5, 9, 13]];

/// Whether a step adds so many bytes of records to the area, and no compaction.
fn adds(before: StorePlace, later: StorePlace, bytes: u64) -> bool {
    let same = later.selected == before.selected && later.compactions == before.compactions;
    same && later.bytes.checked_sub(before.bytes) == Some(bytes)
}

/// Whether a step of which a write fails leaves nothing, here and on the disk, is lost, and is made where it is asked for again.
fn is_lost_and_made(
    alloc: Global,
    database: &mut KeyDatabase,
    disk: &mut SureDisk,
    record: &[u8],
    bytes: u64,
) -> bool {
    let (before, was) = (database.place(), told_anew(alloc, disk));
    let refused = apply(alloc, database, disk, record) == Some(Err(ApplyFault::Device));
    let left = (database.place(), told_anew(alloc, disk));
    if database.is_settled() {
        return false;
    }
    let lost = database.settle(disk) == Ok(Settled::Lost) && database.place() == before;
    let made = apply(alloc, database, disk, record) == Some(Ok(()));
    let added = adds(before, database.place(), bytes) && told_anew(alloc, disk) != was;
    refused & (left == (before, was)) & lost & made & added
}

/// Whether each step does over an empty store.
fn each_is_lost_and_made(alloc: Global, disk: &mut SureDisk) -> bool {
    let Some(mut database) = fresh(alloc, disk) else {
        return false;
    };
    let mut all = true;
    for (record, bytes) in &STEPS {
        all &= is_lost_and_made(alloc, &mut database, disk, record, *bytes);
    }
    drop(database);
    all
}

/// Whether they do over a disk of which these writes fail.
fn loses_each(alloc: Global, failing: &[u64]) -> bool {
    match SureDisk::with_room(alloc, ROOM, failing) {
        Ok(mut disk) => {
            let all = each_is_lost_and_made(alloc, &mut disk);
            drop(disk);
            all
        }
        Err(_) => false,
    }
}

#[test]
fn a_change_that_fails_on_a_sure_disk_is_lost(rt: HostRuntime) {
    let mut all = true;
    for failing in &FAILING {
        all &= loses_each(rt.alloc(), failing);
    }
    assert!(rt; all);
}

/// The writes of a compaction behind one record: the snapshot, the selector and the seal. Which of them fails, and where the store is found to
/// be then; the snapshot of one key has 71 bytes, and its record has 45.
static COMPACTIONS: [(&[u64], StorePlace); 4] = [
    (
        &[],
        StorePlace {
            selected: Selected::B,
            bytes: 71,
            compactions: 1,
        },
    ),
    (
        &[6],
        StorePlace {
            selected: Selected::A,
            bytes: 45,
            compactions: 0,
        },
    ),
    (
        &[7],
        StorePlace {
            selected: Selected::A,
            bytes: 45,
            compactions: 0,
        },
    ),
    (
        &[8],
        StorePlace {
            selected: Selected::B,
            bytes: 71,
            compactions: 1,
        },
    ),
];

/// Where the store is behind a compaction, settled where that failed; it is where it was until then.
fn place_behind(areas: &mut Areas, disk: &mut SureDisk) -> Option<StorePlace> {
    let before = areas.place();
    if two_areas::compact(areas, disk, 0) {
        return Some(areas.place());
    }
    if areas.is_settled() || areas.place() != before {
        return None;
    }
    match areas.settle(disk) {
        Ok(Settled::Lost) => Some(areas.place()),
        _ => None,
    }
}

/// Where it is over a disk of which these writes fail.
fn place_on(alloc: Global, failing: &[u64]) -> Option<StorePlace> {
    let mut disk = SureDisk::with_room(alloc, ROOM, failing).ok()?;
    let place = match two_areas::fresh(alloc, &mut disk) {
        Some(mut areas) => {
            let made = two_areas::add(&mut areas, &mut disk, 0);
            let place = place_behind(&mut areas, &mut disk);
            if made { place } else { None }
        }
        None => None,
    };
    drop(disk);
    place
}

#[test]
fn the_place_behind_a_compaction_on_a_sure_disk(rt: HostRuntime) {
    let mut all = true;
    for (failing, place) in &COMPACTIONS {
        all &= place_on(rt.alloc(), failing) == Some(*place);
    }
    assert!(rt; all);
}
