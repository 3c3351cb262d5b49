//! A database over a disk, and the table of what lasts without one.

ghost use Rattle.std.specs.Prelude.{◌≡◌, OnOk};
ghost use Rattle.lasting_table.specs.TableView.{lasting_in, HasRoomFor};

use disk_model::{DiskRoom, MemoryDisk};
use journal_records::{ApplyFault, Change, parse};
use key_database::KeyDatabase;
use key_domains::{GrantedRow, KeyLookups, KeyRow, Permissions};
use ks_outside::Disk;
use lasting_table::LastingTable;
use std::alloc::Global;
use std::test::Fail;
use tags::{NoMemory, Settled};

/// Room for the tests.
const ROOM: DiskRoom = DiskRoom {
    calls: 128,
    bytes: 16_384,
    pages: 4,
};

/// How many keys uid 10001 and namespace 10001 have, how many grants there are, and the next numbers.
pub(crate) type Told = ((u64, u64), usize, (u64, u64));

/// Records, as `framed` of `tools/keystore/store.py` spells them, and what is told after each: keys of uid 10001 but where it is said, with a
/// blob and a list of their own, and grants to uids from 10002 on.
static STEPS: [(&[u8], Told); 22] = [
    (
        b"\x4b\x00\x00\x00\x26\x01\x00\x00\x00\x00\x00\x00\x00\x01\x00\x00\x00\x00\x00\x00\x00\x27\x11\x00\x00\x00\x01\x6d\x00\x00\x00\x01\xaa\x00\x00\x00\x02\x00\x00\x00\x00\x00\x00",
        ((1, 0), 0, (2, 1)),
    ),
    (
        b"\x4b\x00\x00\x00\x19\x04\x00\x00\x00\x00\x00\x00\x00\x01\x00\x00\x00\x00\x00\x00\x00\x01\x00\x00\x27\x12\x00\x00\x01\x00",
        ((1, 0), 1, (2, 2)),
    ),
    // a rebinding ends the key and its grant
    (
        b"\x4b\x00\x00\x00\x26\x01\x00\x00\x00\x00\x00\x00\x00\x02\x00\x00\x00\x00\x00\x00\x00\x27\x11\x00\x00\x00\x01\x6d\x00\x00\x00\x01\xaa\x00\x00\x00\x02\x00\x00\x00\x00\x00\x00",
        ((1, 0), 0, (3, 2)),
    ),
    (
        b"\x4b\x00\x00\x00\x19\x04\x00\x00\x00\x00\x00\x00\x00\x02\x00\x00\x00\x00\x00\x00\x00\x02\x00\x00\x27\x12\x00\x00\x01\x00",
        ((1, 0), 1, (3, 3)),
    ),
    (
        b"\x4b\x00\x00\x00\x19\x04\x00\x00\x00\x00\x00\x00\x00\x03\x00\x00\x00\x00\x00\x00\x00\x02\x00\x00\x27\x13\x00\x00\x01\x00",
        ((1, 0), 2, (3, 4)),
    ),
    // and so does a last use
    (
        b"\x4b\x00\x00\x00\x26\x01\x00\x00\x00\x00\x00\x00\x00\x03\x00\x00\x00\x00\x00\x00\x00\x27\x11\x00\x00\x00\x01\x6e\x00\x00\x00\x01\xaa\x00\x00\x00\x02\x00\x00\x00\x00\x00\x02",
        ((2, 0), 2, (4, 4)),
    ),
    (
        b"\x4b\x00\x00\x00\x19\x04\x00\x00\x00\x00\x00\x00\x00\x04\x00\x00\x00\x00\x00\x00\x00\x03\x00\x00\x27\x12\x00\x00\x01\x00",
        ((2, 0), 3, (4, 5)),
    ),
    (
        b"\x4b\x00\x00\x00\x09\x03\x00\x00\x00\x00\x00\x00\x00\x03",
        ((2, 0), 3, (4, 5)),
    ),
    (
        b"\x4b\x00\x00\x00\x09\x03\x00\x00\x00\x00\x00\x00\x00\x03",
        ((1, 0), 2, (4, 5)),
    ),
    // a namespace of the same number is another owner
    (
        b"\x4b\x00\x00\x00\x26\x01\x00\x00\x00\x00\x00\x00\x00\x04\x02\x00\x00\x00\x00\x00\x00\x27\x11\x00\x00\x00\x01\x6d\x00\x00\x00\x01\xaa\x00\x00\x00\x02\x00\x00\x00\x00\x00\x00",
        ((1, 1), 2, (5, 5)),
    ),
    (
        b"\x4b\x00\x00\x00\x19\x04\x00\x00\x00\x00\x00\x00\x00\x05\x00\x00\x00\x00\x00\x00\x00\x04\x00\x00\x27\x12\x00\x00\x01\x00",
        ((1, 1), 3, (5, 6)),
    ),
    (
        b"\x4b\x00\x00\x00\x0a\x06\x00\x00\x00\x00\x00\x00\x00\x27\x11",
        ((0, 1), 1, (5, 6)),
    ),
    // a user's keys, and not those of the next user, nor a namespace's
    (
        b"\x4b\x00\x00\x00\x26\x01\x00\x00\x00\x00\x00\x00\x00\x05\x00\x00\x00\x00\x00\x00\x01\x86\xa0\x00\x00\x00\x01\x6d\x00\x00\x00\x01\xaa\x00\x00\x00\x02\x00\x00\x00\x00\x00\x00",
        ((0, 1), 1, (6, 6)),
    ),
    (
        b"\x4b\x00\x00\x00\x26\x01\x00\x00\x00\x00\x00\x00\x00\x06\x00\x00\x00\x00\x00\x00\x01\x86\x9f\x00\x00\x00\x01\x6d\x00\x00\x00\x01\xaa\x00\x00\x00\x02\x00\x00\x00\x00\x00\x00",
        ((0, 1), 1, (7, 6)),
    ),
    (
        b"\x4b\x00\x00\x00\x26\x01\x00\x00\x00\x00\x00\x00\x00\x07\x00\x00\x00\x00\x00\x00\x00\x27\x11\x00\x00\x00\x01\x6f\x00\x00\x00\x01\xaa\x00\x00\x00\x02\x00\x00\x00\x00\x00\x00",
        ((1, 1), 1, (8, 6)),
    ),
    (
        b"\x4b\x00\x00\x00\x19\x04\x00\x00\x00\x00\x00\x00\x00\x06\x00\x00\x00\x00\x00\x00\x00\x05\x00\x00\x27\x12\x00\x00\x01\x00",
        ((1, 1), 2, (8, 7)),
    ),
    (
        b"\x4b\x00\x00\x00\x19\x04\x00\x00\x00\x00\x00\x00\x00\x07\x00\x00\x00\x00\x00\x00\x00\x06\x00\x00\x27\x12\x00\x00\x01\x00",
        ((1, 1), 3, (8, 8)),
    ),
    (
        b"\x4b\x00\x00\x00\x05\x07\x00\x00\x00\x00",
        ((0, 1), 2, (8, 8)),
    ),
    (
        b"\x4b\x00\x00\x00\x05\x07\x00\x00\x00\x01",
        ((0, 1), 1, (8, 8)),
    ),
    // one grant, and then its key
    (
        b"\x4b\x00\x00\x00\x19\x04\x00\x00\x00\x00\x00\x00\x00\x08\x00\x00\x00\x00\x00\x00\x00\x04\x00\x00\x27\x13\x00\x00\x01\x00",
        ((0, 1), 2, (8, 9)),
    ),
    (
        b"\x4b\x00\x00\x00\x09\x05\x00\x00\x00\x00\x00\x00\x00\x05",
        ((0, 1), 1, (8, 9)),
    ),
    (
        b"\x4b\x00\x00\x00\x09\x02\x00\x00\x00\x00\x00\x00\x00\x04",
        ((0, 0), 0, (8, 9)),
    ),
];

/// Makes room by the kind of a change, as a caller does who draws bytes of the change later.
fn make_room(table: &mut LastingTable, change: &Change) -> Result<(), NoMemory>
    ensures room { OnOk result (HasRoomFor change.now table.new) }
    ensures same { lasting_in table.new ≡ lasting_in table.old }
{
    match change {
        Change::Create { .. } => table.reserve_key(),
        Change::Grant { .. } => table.reserve_grant(),
        _ => Ok(()),
    }
}

/// Makes a change of a table, where its need is met.
pub(crate) fn make(alloc: Global, table: &mut LastingTable, record: &[u8]) -> bool {
    let Ok(change) = parse(alloc, record) else {
        return false;
    };
    if !table.meets(&change) {
        return false;
    }
    let Ok(()) = make_room(table, &change) else {
        return false;
    };
    table.make(change);
    true
}

/// Makes a change of a database, where it is settled and the need is met.
pub(crate) fn apply<D: Disk>(
    alloc: Global,
    database: &mut KeyDatabase,
    disk: &mut D,
    record: &[u8],
) -> Option<Result<(), ApplyFault>> {
    let Ok(change) = parse(alloc, record) else {
        return None;
    };
    let (settled, met) = (database.is_settled(), database.table().meets(&change));
    if !settled || !met {
        drop(change);
        return None;
    }
    Some(database.apply(disk, change))
}

/// What a table tells.
pub(crate) fn told(table: &LastingTable) -> Told {
    (
        (table.count(0, 10_001), table.count(2, 10_001)),
        table.grants().len(),
        table.next_numbers(),
    )
}

/// What the database of a disk tells, opened anew.
pub(crate) fn told_anew<D: Disk>(alloc: Global, disk: &mut D) -> Option<Told> {
    match KeyDatabase::open(alloc, disk) {
        Ok(database) => {
            let told = told(database.table());
            drop(database);
            Some(told)
        }
        Err(_) => None,
    }
}

/// Makes an empty store on a disk, and opens its database.
pub(crate) fn fresh<D: Disk>(alloc: Global, disk: &mut D) -> Option<KeyDatabase> {
    match KeyDatabase::format(disk) {
        Ok(()) => KeyDatabase::open(alloc, disk).ok(),
        Err(_) => None,
    }
}

/// Whether each of the steps is made in a database and in a table, with the same told by both, and by the database opened anew.
fn make_steps(
    alloc: Global,
    table: &mut LastingTable,
    database: &mut KeyDatabase,
    disk: &mut MemoryDisk,
) -> bool {
    let mut same = true;
    for (record, wanted) in &STEPS {
        let made = make(alloc, table, record);
        let applied = apply(alloc, database, disk, record) == Some(Ok(()));
        let anew = told_anew(alloc, disk);
        let all = (made, applied, told(table), told(database.table()), anew);
        same &= all == (true, true, *wanted, *wanted, Some(*wanted));
    }
    same
}

/// The same over an empty store.
fn make_all(alloc: Global, disk: &mut MemoryDisk) -> bool {
    match fresh(alloc, disk) {
        Some(mut database) => {
            let mut table = LastingTable::empty(alloc);
            let made = make_steps(alloc, &mut table, &mut database, disk);
            drop(database);
            drop(table);
            made
        }
        None => false,
    }
}

#[test]
fn what_a_key_ends_with_it(rt: HostRuntime) -> Result<(), Fail> {
    let mut disk = MemoryDisk::with_room(rt.alloc(), ROOM, &[])?;
    let same = make_all(rt.alloc(), &mut disk);
    drop(disk);
    assert!(rt; same);
    Ok(())
}

/// A key of uid 10001, and a grant of it to uid 10002.
static SHARED: [&[u8]; 2] = [
    b"\x4b\x00\x00\x00\x26\x01\x00\x00\x00\x00\x00\x00\x00\x01\x00\x00\x00\x00\x00\x00\x00\x27\x11\x00\x00\x00\x01\x6d\x00\x00\x00\x01\xaa\x00\x00\x00\x02\x00\x00\x00\x00\x00\x00",
    b"\x4b\x00\x00\x00\x19\x04\x00\x00\x00\x00\x00\x00\x00\x01\x00\x00\x00\x00\x00\x00\x00\x01\x00\x00\x27\x12\x00\x00\x01\x00",
];

const ROW: KeyRow = KeyRow {
    id: 1,
    domain: 0,
    nspace: 10_001,
};

/// What the look-ups of access find: the key `m` of uid 10001, of uid 10002, of namespace 10001 and of domain 256; key 1; grant 1; and the
/// bits of that key for uid 10002.
type Found = (
    [Option<KeyRow>; 4],
    Option<KeyRow>,
    Option<GrantedRow>,
    Option<u32>,
);

fn found<K: KeyLookups>(keys: &K) -> Found {
    let named = [
        keys.by_name(0, 10_001, b"m"),
        keys.by_name(0, 10_002, b"m"),
        keys.by_name(2, 10_001, b"m"),
        keys.by_name(256, 10_001, b"m"),
    ];
    let bits = match keys.shared_with(1, 10_002) {
        Some(bits) => Some(bits.bits()),
        None => None,
    };
    (named, keys.by_id(1), keys.by_grant(1), bits)
}

/// What they find in a table with that key and that grant.
fn shared_found(alloc: Global) -> Found {
    let mut table = LastingTable::empty(alloc);
    for record in &SHARED {
        make(alloc, &mut table, record);
    }
    let found = found(&table);
    drop(table);
    found
}

#[test]
fn the_look_ups_of_access(rt: HostRuntime) {
    let granted = GrantedRow {
        key: ROW,
        uid: 10_002,
        bits: Permissions::of_bits(256),
    };
    let named = [Some(ROW), None, None, None];
    let wanted = (named, Some(ROW), Some(granted), Some(256));
    assert!(rt; shared_found(rt.alloc()) == wanted);
}

/// Of the calls 13 to 16, which make the first key, the one that fails; how it settles, and how many keys there are then.
static FAULTS: [(&[u64], Settled, u64); 4] = [
    (&[13], Settled::Lost, 0),
    (&[14], Settled::Lost, 0),
    (&[15], Settled::Lost, 0),
    (&[16], Settled::Kept, 1),
];

/// How many keys the database of a disk has, opened anew.
fn count_anew(alloc: Global, disk: &mut MemoryDisk) -> Option<(u64, u64)> {
    match told_anew(alloc, disk) {
        Some(told) => Some(told.0),
        None => None,
    }
}

/// Whether a database that waits settles so, and has so many keys then, here and opened anew.
fn settles(
    alloc: Global,
    database: &mut KeyDatabase,
    disk: &mut MemoryDisk,
    settled: Settled,
    count: u64,
) -> bool {
    if database.is_settled() {
        return false;
    }
    let is_settled = database.settle(disk) == Ok(settled);
    let found = (told(database.table()).0, count_anew(alloc, disk));
    is_settled & (found == ((count, 0), Some((count, 0))))
}

/// Whether the making of a key is refused, makes no key that is told, and settles so.
fn refuses(
    alloc: Global,
    database: &mut KeyDatabase,
    disk: &mut MemoryDisk,
    settled: Settled,
    count: u64,
) -> bool {
    let made = apply(alloc, database, disk, SHARED[0]);
    let refused = made == Some(Err(ApplyFault::Device)) && told(database.table()).0 == (0, 0);
    refused & settles(alloc, database, disk, settled, count)
}

/// Whether it does over an empty store on this disk.
fn refuses_fresh(alloc: Global, disk: &mut MemoryDisk, settled: Settled, count: u64) -> bool {
    match fresh(alloc, disk) {
        Some(mut database) => {
            let refused = refuses(alloc, &mut database, disk, settled, count);
            drop(database);
            refused
        }
        None => false,
    }
}

/// Whether it does over a disk of which these calls fail.
fn fails_so(alloc: Global, failing: &[u64], settled: Settled, count: u64) -> bool {
    match MemoryDisk::with_room(alloc, ROOM, failing) {
        Ok(mut disk) => {
            let refused = refuses_fresh(alloc, &mut disk, settled, count);
            drop(disk);
            refused
        }
        Err(_) => false,
    }
}

#[test]
fn each_call_of_a_change_fails(rt: HostRuntime) {
    let mut all = true;
    for (failing, settled, count) in &FAULTS {
        all &= fails_so(rt.alloc(), failing, *settled, *count);
    }
    assert!(rt; all);
}
