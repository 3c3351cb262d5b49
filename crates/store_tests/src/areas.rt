use disk_calls::{read_still, sync_still, write_synced};
use disk_model::{DiskRoom, MemoryDisk};
use journal_records::{AREA_KINDS, AppendFault, Record, StoreFault};
use ks_outside::{Disk, Failed};
use record_areas::{Area, Records};
use std::alloc::Global;
use std::test::Fail;
use tags::Settled;

/// A use of key 1, and the removal of user 0, each with a closing byte: 15 and 11 bytes.
static USE: &[u8] = b"\x4b\x00\x00\x00\x09\x03\x00\x00\x00\x00\x00\x00\x00\x01\x00";

static REMOVED: &[u8] = b"\x4b\x00\x00\x00\x05\x07\x00\x00\x00\x00\x00";

/// The row of the next numbers 2 and 1.
const NEXT: &[u8] =
    b"\x4b\x00\x00\x00\x11\x08\x00\x00\x00\x00\x00\x00\x00\x02\x00\x00\x00\x00\x00\x00\x00\x01\x00";

/// Another blob and another list of key 2.
const UPGRADE: &[u8] =
    b"\x4b\x00\x00\x00\x14\x0b\x00\x00\x00\x00\x00\x00\x00\x02\x00\x00\x00\x02\xbb\xcc\x00\x00\x00\x01\x00\x00";

/// Where the area of the tests begins, and before which place it ends.
const START: u64 = 3;

const LIMIT: u64 = 100;

/// Room for the tests.
const ROOM: DiskRoom = DiskRoom {
    calls: 96,
    bytes: 2048,
    pages: 2,
};

/// A disk with a mark before the area, one behind it, and an area without a record.
fn marked<'a>(alloc: Global, failing: &'a [u64]) -> Option<MemoryDisk<'a>> {
    let mut disk = MemoryDisk::with_room(alloc, ROOM, failing).ok()?;
    let before = write_synced(&mut disk, 0, b"abc\x00").is_ok();
    let behind = write_synced(&mut disk, LIMIT, b"xyz").is_ok();
    if before && behind { Some(disk) } else { None }
}

/// Syncs, and reads the area up to a limit with records of these kinds.
fn opened_to<D: Disk>(
    alloc: Global,
    disk: &mut D,
    limit: u64,
    kinds: u8,
) -> Result<(Area, Records), StoreFault> {
    let Ok(()) = sync_still(disk) else {
        return Err(StoreFault::Device);
    };
    Area::read(alloc, disk, START, limit.max(START), kinds)
}

/// The same of the area of the tests.
fn opened<D: Disk>(alloc: Global, disk: &mut D, kinds: u8) -> Result<(Area, Records), StoreFault> {
    opened_to(alloc, disk, LIMIT, kinds)
}

/// How many records the area has, or why it was not read.
fn count<D: Disk>(alloc: Global, disk: &mut D, kinds: u8) -> Result<usize, StoreFault> {
    let (_, records) = opened(alloc, disk, kinds)?;
    Ok(records.as_slice().len())
}

/// Adds a record; None where the area waits, or the record has no bytes.
fn add<D: Disk>(area: &mut Area, disk: &mut D, closed: &[u8]) -> Option<Result<(), AppendFault>> {
    if !area.is_settled() || closed.len() < 2 {
        return None;
    }
    Some(area.append(disk, closed))
}

/// Settles; None where the area does not wait.
fn settle<D: Disk>(area: &mut Area, disk: &mut D) -> Option<Result<Settled, Failed>> {
    if area.is_settled() {
        return None;
    }
    Some(area.settle(disk))
}

/// Whether both marks stand.
fn has_marks<D: Disk>(disk: &mut D) -> bool {
    let Ok(()) = sync_still(disk) else {
        return false;
    };
    let mut bytes = [0; 103];
    let read = read_still(disk, 0, &mut bytes);
    read == Ok(103) && bytes.starts_with(b"abc") && bytes.ends_with(b"xyz")
}

/// Four uses and four removals fill the area to its last byte but the closing one's place; and no more go in.
fn fills(alloc: Global, disk: &mut MemoryDisk) -> Option<(u64, usize, bool)> {
    let (mut area, _) = opened(alloc, disk, 7).ok()?;
    let mut added = true;
    for closed in [USE, REMOVED, USE, REMOVED, USE, REMOVED, USE, REMOVED] {
        added &= add(&mut area, disk, closed) == Some(Ok(()));
    }
    added &= add(&mut area, disk, REMOVED) == Some(Err(AppendFault::Full));
    added &= has_marks(disk);
    let records = count(alloc, disk, 7).ok()?;
    Some((area.end(), records, added))
}

#[test]
fn an_area_is_filled_to_its_last_byte(rt: HostRuntime) -> Result<(), Fail> {
    let alloc = rt.alloc();
    let mut disk = marked(alloc, &[]).ok_or("a disk")?;
    let filled = fills(alloc, &mut disk);
    drop(disk);
    assert_eq!(rt; filled, Some((99, 8, true)));
    Ok(())
}

/// A use is added with this call of the disk failing: calls 1 to 4 write the marks, 5 and 6 open the area, 7 to 10 add the use.
struct Torn {
    failing: &'static [u64],
    settled: Settled,
    records: usize,
}

static TORN: [Torn; 4] = [
    Torn {
        failing: &[7],
        settled: Settled::Lost,
        records: 0,
    },
    Torn {
        failing: &[8],
        settled: Settled::Lost,
        records: 0,
    },
    Torn {
        failing: &[9],
        settled: Settled::Lost,
        records: 0,
    },
    Torn {
        failing: &[10],
        settled: Settled::Kept,
        records: 1,
    },
];

/// Whether the use is refused, settles as the row says, and is in the area then exactly where it was kept.
fn settles(alloc: Global, row: &Torn, disk: &mut MemoryDisk) -> Option<bool> {
    let (mut area, _) = opened(alloc, disk, 7).ok()?;
    let mut right = add(&mut area, disk, USE) == Some(Err(AppendFault::Device));
    right &= settle(&mut area, disk) == Some(Ok(row.settled));
    right &= count(alloc, disk, 7) == Ok(row.records);
    right &= add(&mut area, disk, REMOVED) == Some(Ok(()));
    right &= count(alloc, disk, 7) == Ok(row.records.saturating_add(1));
    right &= has_marks(disk);
    Some(right)
}

/// The number of the first row that goes otherwise.
fn first_other(alloc: Global) -> Option<usize> {
    for (number, row) in TORN.iter().enumerate() {
        let mut disk = marked(alloc, row.failing)?;
        let right = settles(alloc, row, &mut disk) == Some(true);
        drop(disk);
        if !right {
            return Some(number);
        }
    }
    None
}

#[test]
fn each_call_of_an_append_fails(rt: HostRuntime) {
    let alloc = rt.alloc();
    assert_eq!(rt; first_other(alloc), None);
}

/// What stands from the area's start on, which kinds may, and what is read.
struct Bytes {
    bytes: &'static [u8],
    kinds: u8,
    read: Result<usize, StoreFault>,
}

static BYTES: [Bytes; 11] = [
    // a use, a shut gate, and a use behind it that is never read
    Bytes {
        bytes: b"\x4b\x00\x00\x00\x09\x03\x00\x00\x00\x00\x00\x00\x00\x01\x00\x4b\x00\x00\x00\x09\x03",
        kinds: 7,
        read: Ok(1),
    },
    Bytes {
        bytes: NEXT,
        kinds: AREA_KINDS,
        read: Ok(1),
    },
    Bytes {
        bytes: NEXT,
        kinds: 7,
        read: Err(StoreFault::Corrupted { offset: 3 }),
    },
    Bytes {
        bytes: UPGRADE,
        kinds: AREA_KINDS,
        read: Ok(1),
    },
    Bytes {
        bytes: UPGRADE,
        kinds: 7,
        read: Err(StoreFault::Corrupted { offset: 3 }),
    },
    // no gate behind a use
    Bytes {
        bytes: b"\x4b\x00\x00\x00\x09\x03\x00\x00\x00\x00\x00\x00\x00\x01\x4b",
        kinds: 7,
        read: Err(StoreFault::Corrupted { offset: 17 }),
    },
    // a length that passes the limit, and one that passes it by a byte
    Bytes {
        bytes: b"\x4b\xff\xff\xff\xff\x03",
        kinds: 7,
        read: Err(StoreFault::Corrupted { offset: 3 }),
    },
    Bytes {
        bytes: b"\x4b\x00\x00\x00\x5d\x03",
        kinds: 7,
        read: Err(StoreFault::Corrupted { offset: 3 }),
    },
    // a kind that is none, and a body with a byte behind its fields
    Bytes {
        bytes: b"\x4b\x00\x00\x00\x09\x0c\x00\x00\x00\x00\x00\x00\x00\x01\x00",
        kinds: AREA_KINDS,
        read: Err(StoreFault::Corrupted { offset: 3 }),
    },
    Bytes {
        bytes: b"\x4b\x00\x00\x00\x0a\x03\x00\x00\x00\x00\x00\x00\x00\x01\x00\x00",
        kinds: AREA_KINDS,
        read: Err(StoreFault::Corrupted { offset: 3 }),
    },
    // a use, and then a body that is none
    Bytes {
        bytes: b"\x4b\x00\x00\x00\x09\x03\x00\x00\x00\x00\x00\x00\x00\x01\x4b\x00\x00\x00\x00\x00",
        kinds: 7,
        read: Err(StoreFault::Corrupted { offset: 17 }),
    },
];

/// The number of the first row that is read otherwise.
fn first_misread(alloc: Global) -> Option<usize> {
    for (number, row) in BYTES.iter().enumerate() {
        let mut disk = marked(alloc, &[])?;
        let _ = write_synced(&mut disk, START, row.bytes);
        let right = count(alloc, &mut disk, row.kinds) == row.read;
        drop(disk);
        if !right {
            return Some(number);
        }
    }
    None
}

#[test]
fn what_stands_in_an_area_is_read(rt: HostRuntime) {
    let alloc = rt.alloc();
    assert_eq!(rt; first_misread(alloc), None);
}

/// What stands first in an area of many pieces, and what is read. Call 7 of the disk, where it fails, is the one that reads the second piece.
struct Long {
    failing: &'static [u64],
    bytes: &'static [u8],
    read: Result<usize, StoreFault>,
}

static LONG: [Long; 9] = [
    // behind a gate that is shut no piece is read, and in a length that no body of its kind has, neither
    Long {
        failing: &[7],
        bytes: b"\x4b\x00\x00\x00\x09\x03\x00\x00\x00\x00\x00\x00\x00\x01\x00\x4b",
        read: Ok(1),
    },
    Long {
        failing: &[7],
        bytes: b"\x4b\x00\x02\x00\x09\x03\x00\x00\x00\x00\x00\x00\x00\x01\x00",
        read: Err(StoreFault::Corrupted { offset: 3 }),
    },
    // a new key, and a key of a snapshot, whose texts do not fill the length
    Long {
        failing: &[7],
        bytes: b"\x4b\x00\x02\x00\x22\x01\x00\x00\x00\x00\x00\x00\x00\x01\x00\x00\x00\x00\x00\x00\x00\x27\x11\x00\x00\x00\x01m\x00\x00\x00\x01\xaa\x00\x00\x00\x02\x00\x00\x00\x00\x00\x02\x00",
        read: Err(StoreFault::Corrupted { offset: 3 }),
    },
    Long {
        failing: &[7],
        bytes: b"\x4b\x00\x02\x00\x26\x09\x00\x00\x00\x00\x00\x00\x00\x01\x00\x00\x00\x00\x00\x00\x00\x27\x11\x00\x00\x00\x01m\x00\x00\x00\x01\xaa\x00\x00\x00\x02\x00\x00\x00\x00\x00\x02\x00\x00\x00\x02\x00",
        read: Err(StoreFault::Corrupted { offset: 3 }),
    },
    // another blob and list of a key that do not fill it, and a blob of nearly all its bytes
    Long {
        failing: &[7],
        bytes: b"\x4b\x00\x02\x00\x16\x0b\x00\x00\x00\x00\x00\x00\x00\x02\x00\x00\x00\x02\xbb\xcc\x00\x00\x00\x03\x00\x01\x02\x00",
        read: Err(StoreFault::Corrupted { offset: 3 }),
    },
    Long {
        failing: &[],
        bytes: b"\x4b\x00\x02\x00\x00\x0b\x00\x00\x00\x00\x00\x00\x00\x02\x00\x01\xff\xef\xbb",
        read: Ok(1),
    },
    // a new key whose blob passes the end of its body
    Long {
        failing: &[7],
        bytes: b"\x4b\x00\x02\x00\x00\x01\x00\x00\x00\x00\x00\x00\x00\x01\x00\x00\x00\x00\x00\x00\x00\x27\x11\x00\x00\x00\x01m\x00\x01\xff\xe6\xaa",
        read: Err(StoreFault::Corrupted { offset: 3 }),
    },
    // a new key of 131,072 bytes, nearly all of them its blob, which reaches into a third piece
    Long {
        failing: &[7],
        bytes: b"\x4b\x00\x02\x00\x00\x01\x00\x00\x00\x00\x00\x00\x00\x01\x00\x00\x00\x00\x00\x00\x00\x27\x11\x00\x00\x00\x01m\x00\x01\xff\xdd\xaa",
        read: Err(StoreFault::Device),
    },
    Long {
        failing: &[],
        bytes: b"\x4b\x00\x02\x00\x00\x01\x00\x00\x00\x00\x00\x00\x00\x01\x00\x00\x00\x00\x00\x00\x00\x27\x11\x00\x00\x00\x01m\x00\x01\xff\xdd\xaa",
        read: Ok(1),
    },
];

/// What is read of a disk of 200,001 bytes that begins so.
fn read_long(alloc: Global, row: &Long) -> Option<Result<usize, StoreFault>> {
    let mut disk = MemoryDisk::with_room(alloc, ROOM, row.failing).ok()?;
    let _ = write_synced(&mut disk, 200_000, b"x");
    let _ = write_synced(&mut disk, START, row.bytes);
    let read = match opened_to(alloc, &mut disk, 300_000, AREA_KINDS) {
        Ok((_, records)) => Ok(records.as_slice().len()),
        Err(fault) => Err(fault),
    };
    drop(disk);
    Some(read)
}

/// The number of the first row that is read otherwise.
fn first_long_misread(alloc: Global) -> Option<usize> {
    for (number, row) in LONG.iter().enumerate() {
        if read_long(alloc, row) != Some(row.read) {
            return Some(number);
        }
    }
    None
}

#[test]
fn a_long_record_is_looked_at_first(rt: HostRuntime) {
    let alloc = rt.alloc();
    assert_eq!(rt; first_long_misread(alloc), None);
}

/// The area of a disk of which no byte stands at its start.
fn short(alloc: Global) -> Option<Result<usize, StoreFault>> {
    let mut disk = MemoryDisk::with_room(alloc, ROOM, &[]).ok()?;
    let _ = write_synced(&mut disk, 0, b"ab");
    let read = count(alloc, &mut disk, 7);
    drop(disk);
    Some(read)
}

#[test]
fn no_byte_stands_at_the_start(rt: HostRuntime) {
    let alloc = rt.alloc();
    assert_eq!(rt;
        short(alloc),
        Some(Err(StoreFault::Corrupted { offset: 3 }))
    );
}

/// The words of the records of an area.
fn words_of(alloc: Global, records: &Records) -> Option<String> {
    let mut words = String::new(alloc);
    for (at, it) in records.as_slice() {
        let word = match it {
            Record::Next { .. } => "next",
            Record::Change { .. } => "change",
            Record::Held { .. } => "held",
            Record::HeldGrant { .. } => "grant",
        };
        words.push_str(word).ok()?;
        words
            .push_str(if *at == START {
                " at the start, "
            } else {
                ", "
            })
            .ok()?;
    }
    Some(words)
}

/// A row and a change behind it, in words.
fn in_words(alloc: Global) -> Option<String> {
    let mut disk = marked(alloc, &[])?;
    let _ = write_synced(&mut disk, START, NEXT);
    let words = match opened(alloc, &mut disk, AREA_KINDS) {
        Ok((mut area, records)) => {
            let _ = add(&mut area, &mut disk, REMOVED);
            drop(records);
            match opened(alloc, &mut disk, AREA_KINDS) {
                Ok((_, later)) => words_of(alloc, &later),
                Err(_) => None,
            }
        }
        Err(_) => None,
    };
    drop(disk);
    words
}

#[test]
fn a_row_and_a_change(rt: HostRuntime) -> Result<(), Fail> {
    let words = in_words(rt.alloc()).ok_or("records")?;
    assert_eq!(rt; words.as_str(), "next at the start, change, ");
    Ok(())
}
