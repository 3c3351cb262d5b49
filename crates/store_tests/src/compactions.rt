//! A database whose store is written anew.

use crate::databases::{apply, fresh, told, told_anew};
use disk_model::{DiskRoom, MemoryDisk};
use journal_records::ApplyFault;
use key_database::KeyDatabase;
use ks_outside::Disk;
use std::alloc::Global;
use std::test::Fail;
use tags::Settled;

/// Room for the tests.
const ROOM: DiskRoom = DiskRoom {
    calls: 2048,
    bytes: 131_072,
    pages: 40,
};

/// Where the selector is, and where area B begins.
const SELECTOR: u64 = 268_435_456;

const AREA_B: u64 = 1_342_181_376;

/// A key of uid 10001 under the alias `m`, with a blob of 255 bytes and a list of 18: a record of 313 bytes.
fn rebound(id: u64) -> [u8; 313] {
    let mut record = [0; 313];
    record[..6].copy_from_slice(b"\x4b\x00\x00\x01\x34\x01");
    record[6..14].copy_from_slice(&id.to_be_bytes());
    record[21] = 0x27;
    record[22] = 0x11;
    record[26] = 1;
    record[27] = b'm';
    record[31] = 255;
    record[290] = 18;
    record
}

/// Whether the keys of these numbers are made, one behind another.
fn import(
    alloc: Global,
    database: &mut KeyDatabase,
    disk: &mut MemoryDisk,
    from: u64,
    to: u64,
) -> bool {
    let mut all = true;
    for id in from..to {
        all &= apply(alloc, database, disk, &rebound(id)) == Some(Ok(()));
    }
    all
}

fn byte_at(disk: &mut MemoryDisk, at: u64) -> Option<u8> {
    let mut byte = [0];
    match disk.read(at, &mut byte) {
        Ok(1) => Some(byte[0]),
        _ => None,
    }
}

/// Whether 300 keys under one alias leave the last, in area B, with 27,883 bytes of records.
fn import_all(alloc: Global, disk: &mut MemoryDisk) -> bool {
    let Some(mut database) = fresh(alloc, disk) else {
        return false;
    };
    let made = import(alloc, &mut database, disk, 1, 301);
    drop(database);
    let selected = byte_at(disk, SELECTOR) == Some(0x42);
    let begins = byte_at(disk, AREA_B) == Some(0x4b);
    let ends = byte_at(disk, AREA_B + 27_883) == Some(0);
    let anew = told_anew(alloc, disk) == Some(((1, 0), 0, (301, 1)));
    made & selected & begins & ends & anew
}

#[test]
fn three_hundred_keys_under_one_name(rt: HostRuntime) -> Result<(), Fail> {
    let mut disk = MemoryDisk::with_room(rt.alloc(), ROOM, &[])?;
    let all = import_all(rt.alloc(), &mut disk);
    drop(disk);
    assert!(rt; all);
    Ok(())
}

/// Whether the change that is to be written behind a compaction is refused, settles so and leaves so many keys made; and whether the
/// next one is made then, and found anew.
fn refuses_one(
    alloc: Global,
    database: &mut KeyDatabase,
    disk: &mut MemoryDisk,
    settled: Settled,
    next: u64,
) -> bool {
    let made = apply(alloc, database, disk, &rebound(213));
    if made != Some(Err(ApplyFault::Device)) || database.is_settled() {
        return false;
    }
    let is_settled = database.settle(disk) == Ok(settled);
    let here = told(database.table()) == ((1, 0), 0, (next, 1));
    let anew = told_anew(alloc, disk) == Some(((1, 0), 0, (next, 1)));
    let end = next.saturating_add(3);
    let goes_on = database.is_settled() && import(alloc, database, disk, next, end);
    let later = told_anew(alloc, disk) == Some(((1, 0), 0, (end, 1)));
    is_settled & here & anew & goes_on & later
}

/// Whether it is over a disk of which this call fails.
fn refuses_at(alloc: Global, call: u64, settled: Settled, next: u64) -> bool {
    let failing = [call];
    let Ok(mut disk) = MemoryDisk::with_room(alloc, ROOM, &failing) else {
        return false;
    };
    let Some(mut database) = fresh(alloc, &mut disk) else {
        drop(disk);
        return false;
    };
    let made = import(alloc, &mut database, &mut disk, 1, 213);
    let refused = refuses_one(alloc, &mut database, &mut disk, settled, next);
    drop(database);
    drop(disk);
    made & refused
}

/// The calls 861 to 866 write the store anew, and 867 to 870 the change.
#[test]
fn each_call_of_a_compaction_fails(rt: HostRuntime) {
    let mut all = true;
    for call in 861..870 {
        all &= refuses_at(rt.alloc(), call, Settled::Lost, 213);
    }
    all &= refuses_at(rt.alloc(), 870, Settled::Kept, 214);
    assert!(rt; all);
}
