ghost use Rattle.disk_model.specs.Listed.{five, over, past, two, synced, AreImages, AreNoImages, of_five, not_of_five, of_over, not_of_over, of_past, not_of_past, of_two, not_of_two, of_synced, not_of_synced};

use disk_calls::{read_synced, read_synced_byte, write_synced};
use disk_model::{Choice, DiskRoom, MemoryDisk, StoppedDisk};
use ks_outside::{Disk, Failed};
use std::alloc::{AllocError, Global};
use std::test::Fail;

/// Room for the tests.
const ROOM: DiskRoom = DiskRoom {
    calls: 8,
    bytes: 64,
    pages: 4,
};

/// Whether a disk has these bytes and no more.
fn holds<D: Disk>(alloc: Global, disk: &mut D, bytes: &[u8]) -> bool {
    match read_synced(alloc, disk) {
        Ok(found) => found.as_slice() == bytes,
        Err(_) => false,
    }
}

/// Whether a crash after so many writes and syncs leaves these bytes.
fn leaves(
    alloc: Global,
    disk: &MemoryDisk,
    calls: usize,
    choices: &[Choice],
    bytes: &[u8],
) -> bool {
    match disk.image_after(calls.min(disk.count()), choices) {
        Ok(mut image) => holds(alloc, &mut image, bytes),
        Err(_) => false,
    }
}

/// Five bytes, synced.
fn five<'a>(alloc: Global, failing: &'a [u64]) -> Result<MemoryDisk<'a>, AllocError> {
    let mut disk = MemoryDisk::with_room(alloc, ROOM, failing)?;
    match write_synced(&mut disk, 0, b"abcde") {
        Ok(()) => Ok(disk),
        Err(_) => Err(AllocError),
    }
}

/// A call of a disk.
enum Ask {
    /// so many bytes from a place on
    Read { at: u64, count: usize },
    Write { at: u64, piece: &'static [u8] },
    Len,
    Sync,
}

/// What a disk answers: how many bytes were read, or are there, and else 0.
fn answer<D: Disk>(disk: &mut D, ask: &Ask) -> Result<u64, Failed> {
    match ask {
        Ask::Read { at, count } => {
            let mut out = [9; 8];
            let end = (*count).min(out.len());
            let read = disk.read(*at, &mut out[..end])?;
            Ok(read as u64)
        }
        Ask::Write { at, piece } => {
            disk.write_at(*at, piece)?;
            Ok(0)
        }
        Ask::Len => disk.len(),
        Ask::Sync => {
            disk.sync()?;
            Ok(0)
        }
    }
}

/// The number of the first call that is answered otherwise, counted from 0.
fn first_other<D: Disk>(disk: &mut D, calls: &[(Ask, Result<u64, Failed>)]) -> Option<usize> {
    for i in 0..calls.len() {
        let (ask, wanted) = &calls[i];
        if answer(disk, ask) != *wanted {
            return Some(i);
        }
    }
    None
}

static FAR_APART: [(Ask, Result<u64, Failed>); 7] = [
    (Ask::Read { at: 0, count: 6 }, Ok(0)),
    (
        Ask::Write {
            at: 1_342_181_374,
            piece: b"wxyz",
        },
        Ok(0),
    ),
    (
        Ask::Write {
            at: 4094,
            piece: b"1234",
        },
        Ok(0),
    ),
    (Ask::Len, Ok(1_342_181_378)),
    (
        Ask::Read {
            at: 1_342_181_378,
            count: 6,
        },
        Ok(0),
    ),
    (
        Ask::Write {
            at: u64::MAX,
            piece: b"a",
        },
        Err(Failed),
    ),
    (Ask::Sync, Ok(0)),
];

/// Whether a disk takes pieces at places far apart, and reads over the end of a page and of the disk.
fn takes_far_apart(disk: &mut MemoryDisk) -> bool {
    let taken = first_other(disk, &FAR_APART);
    let (mut page, mut end) = ([9; 6], [9; 6]);
    let reads = (
        disk.read(4093, &mut page),
        disk.read(1_342_181_373, &mut end),
    );
    let counts = (disk.count(), disk.faults());
    taken.is_none()
        && reads == (Ok(6), Ok(5))
        && page == [0, b'1', b'2', b'3', b'4', 0]
        && end == [0, b'w', b'x', b'y', b'z', 9]
        && counts == (3, 1)
}

// Places past a gigabyte cost a page each; what was never written reads 00; a read goes over the end of a page.
#[test]
fn places_far_apart(rt: HostRuntime) -> Result<(), Fail> {
    let mut disk = MemoryDisk::with_room(rt.alloc(), ROOM, &[])?;
    let taken = takes_far_apart(&mut disk);
    drop(disk);
    assert!(rt; taken);
    Ok(())
}

static SOME_FAIL: [(Ask, Result<u64, Failed>); 5] = [
    (
        Ask::Write {
            at: 1,
            piece: b"XYZ",
        },
        Err(Failed),
    ),
    (
        Ask::Write {
            at: 1,
            piece: b"XYZ",
        },
        Ok(0),
    ),
    (Ask::Sync, Err(Failed)),
    (Ask::Len, Err(Failed)),
    (Ask::Read { at: 0, count: 1 }, Err(Failed)),
];

/// Whether calls fail as they are to, and what was written before a sync that failed is lost in a crash, and kept by the next sync.
fn keeps_what_is_pending(alloc: Global, disk: &mut MemoryDisk) -> bool {
    let old = [Choice::New, Choice::New, Choice::Old];
    let failed = first_other(disk, &SOME_FAIL);
    let counts = (disk.count(), disk.faults());
    let lost = leaves(alloc, disk, 3, &old, b"abcde");
    let synced = disk.sync();
    let kept = leaves(alloc, disk, 4, &old, b"aXYZe");
    failed.is_none() && counts == (3, 4) && lost && synced == Ok(()) && kept
}

// A call that fails changes nothing, and a sync that fails leaves what was pending pending.
#[test]
fn calls_that_fail(rt: HostRuntime) -> Result<(), Fail> {
    let mut disk = five(rt.alloc(), &[3, 5, 6, 7])?;
    let kept = keeps_what_is_pending(rt.alloc(), &mut disk);
    drop(disk);
    assert!(rt; kept);
    Ok(())
}

/// A crash: after how many of the writes and syncs, what each write's range holds, and the bytes that are left.
struct Crash {
    calls: usize,
    choices: &'static [Choice],
    left: &'static [u8],
}

// A write of three bytes over five, one past the end, both with no sync between, and a sync.
static CRASHES: [Crash; 9] = [
    Crash {
        calls: 0,
        choices: &[],
        left: b"",
    },
    Crash {
        calls: 1,
        choices: &[Choice::Old],
        left: b"",
    },
    Crash {
        calls: 2,
        choices: &[Choice::Old],
        left: b"abcde",
    },
    Crash {
        calls: 3,
        choices: &[Choice::New, Choice::New, Choice::Old],
        left: b"abcde",
    },
    Crash {
        calls: 3,
        choices: &[Choice::New, Choice::New, Choice::Filled(b'?')],
        left: b"a???e",
    },
    Crash {
        calls: 4,
        choices: &[Choice::New, Choice::New, Choice::New, Choice::Old],
        left: b"aXYZe",
    },
    Crash {
        calls: 4,
        choices: &[Choice::New, Choice::New, Choice::Old, Choice::Filled(b'?')],
        left: b"abcde\x00\x00??",
    },
    Crash {
        calls: 4,
        choices: &[],
        left: b"aXYZe\x00\x00fg",
    },
    Crash {
        calls: 5,
        choices: &[Choice::Old, Choice::Old, Choice::Old, Choice::Old],
        left: b"aXYZe\x00\x00fg",
    },
];

/// The number of the first crash that leaves other bytes.
fn first_other_crash(alloc: Global, disk: &mut MemoryDisk) -> Option<usize> {
    let calls = (
        disk.write_at(1, b"XYZ"),
        disk.write_at(7, b"fg"),
        disk.sync(),
    );
    let mut other = if calls == (Ok(()), Ok(()), Ok(())) {
        None
    } else {
        Some(0)
    };
    for (number, crash) in CRASHES.iter().enumerate() {
        let same = leaves(alloc, disk, crash.calls, crash.choices, crash.left);
        if other.is_none() && !same {
            other = Some(number);
        }
    }
    other
}

#[test]
fn images_at_each_moment(rt: HostRuntime) -> Result<(), Fail> {
    let mut disk = five(rt.alloc(), &[])?;
    let other = first_other_crash(rt.alloc(), &mut disk);
    drop(disk);
    assert_eq!(rt; other, None);
    Ok(())
}

/// Whether a disk whose third call fails passes three calls on, and then no more.
fn stops_behind_three(alloc: Global, disk: MemoryDisk) -> bool {
    let mut disk = StoppedDisk::new(disk, 3);
    let first = write_synced(&mut disk, 0, b"x").is_ok();
    let second = write_synced(&mut disk, 0, b"y").is_ok();
    let third = write_synced(&mut disk, 0, b"z").is_ok();
    let fails = disk.len().is_err();
    let faults = disk.faults();
    let mut below = disk.into_inner();
    let counts = (faults, below.faults());
    let held = holds(alloc, &mut below, b"ybcde");
    drop(below);
    (first, second, third) == (false, true, false) && fails && counts == (3, 1) && held
}

// The first k calls are passed on, and every later one fails without a call of the disk below.
#[test]
fn a_disk_that_stops(rt: HostRuntime) -> Result<(), Fail> {
    let disk = five(rt.alloc(), &[3])?;
    assert!(rt; stops_behind_three(rt.alloc(), disk));
    Ok(())
}

/// What five bytes read, one by one, also behind three that are written far behind them.
fn synced_bytes(disk: &mut MemoryDisk) -> [Option<Option<u8>>; 4] {
    let last = read_synced_byte(disk, 4).ok();
    let none = read_synced_byte(disk, 5).ok();
    let _ = write_synced(disk, 1023, b"end");
    let between = read_synced_byte(disk, 1022).ok();
    let end = read_synced_byte(disk, 1025).ok();
    [last, none, between, end]
}

/// Whether reading fails on a disk that stops behind three calls.
fn is_not_read(alloc: Global, disk: MemoryDisk) -> bool {
    let mut stopped = StoppedDisk::new(disk, 3);
    let all = read_synced(alloc, &mut stopped).is_err();
    let byte = read_synced_byte(&mut stopped, 0).is_err();
    let faults = stopped.faults();
    drop(stopped);
    all && byte && faults == 2
}

/// Whether that holds of three bytes far behind the first place.
fn far_bytes_are_not_read(alloc: Global) -> bool {
    match MemoryDisk::with_room(alloc, ROOM, &[]) {
        Ok(mut disk) => {
            let _ = write_synced(&mut disk, 1023, b"end");
            is_not_read(alloc, disk)
        }
        Err(_) => false,
    }
}

#[test]
fn what_was_synced_is_read(rt: HostRuntime) -> Result<(), Fail> {
    let mut disk = five(rt.alloc(), &[])?;
    let bytes = synced_bytes(&mut disk);
    drop(disk);
    let wanted = [
        Some(Some(b'e')),
        Some(None),
        Some(Some(0)),
        Some(Some(b'd')),
    ];
    assert_eq!(rt; bytes, wanted);
    assert!(rt; far_bytes_are_not_read(rt.alloc()));
    Ok(())
}

/// Some images that a crash may leave, and some that it may not: of five bytes (also after a write that failed), of
/// three bytes over them (also after a sync that failed), of two past their end, of both, and after a sync.
fn listed_images()
    ensures five { AreImages five of_five }
    ensures not_five { AreNoImages five not_of_five }
    ensures over { AreImages over of_over }
    ensures not_over { AreNoImages over not_of_over }
    ensures past { AreImages past of_past }
    ensures not_past { AreNoImages past not_of_past }
    ensures two { AreImages two of_two }
    ensures not_two { AreNoImages two not_of_two }
    ensures synced { AreImages synced of_synced }
    ensures not_synced { AreNoImages synced not_of_synced }
{}

// What the list says is proved; the call is here so that it is.
#[test]
fn images_that_are_and_that_are_not() {
    listed_images();
}
