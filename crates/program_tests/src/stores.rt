//! Stores that outlive a run.

use crate::script::{
    BEGIN, BEGUN, CONNECT, CONNECTED, DONE, FINISH, FRESH, IMPORT, IMPORTED, MAC, NO_KEY, Outside,
    ROOM, Runs, SECOND_CONNECTED, SYSTEM, check_runs,
};
use disk_model::MemoryDisk;
use keystore_run::Status;
use ks_outside::Disk;
use std::alloc::Global;

/// The place of the selector, and where area A begins.
const SELECTOR: u64 = 268_435_456;

const AREA_A: u64 = 268_439_552;

/// What is read of a store: so many bytes of its front, its selector and area A, with FF where there is none, and how long it is.
#[derive(Clone, Copy, PartialEq)]
struct Seen {
    front: [u8; 13],
    selector: [u8; 1],
    area: [u8; 24],
    len: Option<u64>,
}

/// An empty store: its front with the seal behind it, its selector, and the byte that closes area A.
const EMPTY: Seen = Seen {
    front: *b"KSJRNL02\x4b\xff\xff\xff\xff",
    selector: *b"A",
    area: [
        0, 0xff, 0xff, 0xff, 0xff, 0xff, 0xff, 0xff, 0xff, 0xff, 0xff, 0xff, 0xff, 0xff, 0xff,
        0xff, 0xff, 0xff, 0xff, 0xff, 0xff, 0xff, 0xff, 0xff,
    ],
    len: Some(268_439_553),
};

/// What an opening makes of the journal of an empty store: the same, with the snapshot of the empty lasting part in area A.
const BROUGHT: Seen = Seen {
    area: [
        0x4b, 0, 0, 0, 0x11, 8, 0, 0, 0, 0, 0, 0, 0, 1, 0, 0, 0, 0, 0, 0, 0, 1, 0, 0xff,
    ],
    len: Some(268_439_575),
    ..EMPTY
};

/// Reads a disk so.
fn seen_of(disk: &mut MemoryDisk) -> Seen {
    let mut front = [0xffu8; 13];
    let mut selector = [0xffu8; 1];
    let mut area = [0xffu8; 24];
    let _ = disk.read(0, &mut front);
    let _ = disk.read(SELECTOR, &mut selector);
    let _ = disk.read(AREA_A, &mut area);
    Seen {
        front,
        selector,
        area,
        len: disk.len().ok(),
    }
}

/// Whether a script ends with this status under these words; nothing is written.
fn ends_so<'a>(
    alloc: Global,
    words: &'a str,
    script: &'a str,
    disk: &mut MemoryDisk,
    status: Status,
) -> bool {
    let outside = Outside {
        words,
        script,
        ..FRESH
    };
    outside.ends_so(alloc, disk, status, "")
}

/// Words that make an empty store.
static BEGINNINGS: [&str; 2] = ["init", "run --fresh"];

/// Whether these words make an empty store, and no more.
fn makes_empty(alloc: Global, words: &str) -> bool {
    let Ok(mut disk) = MemoryDisk::with_room(alloc, ROOM, &[]) else {
        return false;
    };
    let ended = ends_so(alloc, words, "", &mut disk, Status::Ok);
    let seen = seen_of(&mut disk);
    drop(disk);
    ended && seen == EMPTY
}

#[test]
fn an_empty_store_has_its_front_its_selector_and_a_shut_gate(rt: HostRuntime) {
    for words in &BEGINNINGS {
        let right = makes_empty(rt.alloc(), words);
        assert!(rt; right, "{words}");
    }
}

/// Stores that are cut, and where that is seen: a journal within the record of its first change, no bytes, a front without a version, a journal
/// behind its header, and areas without a selector.
static CUT: [(&[u8], u64); 5] = [
    (
        &[
            0x4b, 0x53, 0x4a, 0x52, 0x4e, 0x4c, 0x30, 0x31, 0x4b, 0, 0, 0, 9, 3, 0, 0,
        ],
        8,
    ),
    (&[], 0),
    (&[0x4b, 0x53, 0x4a, 0x52, 0x4e, 0x4c, 0x30], 7),
    (&[0x4b, 0x53, 0x4a, 0x52, 0x4e, 0x4c, 0x30, 0x31], 8),
    (&[0x4b, 0x53, 0x4a, 0x52, 0x4e, 0x4c, 0x30, 0x32], SELECTOR),
];

/// Whether a store of these bytes is refused at its place, and stays as it is.
fn is_refused(alloc: Global, bytes: &[u8], offset: u64) -> bool {
    let Ok(mut disk) = MemoryDisk::with_room(alloc, ROOM, &[]) else {
        return false;
    };
    let written = disk.write_at(0, bytes);
    let status = Status::Corrupted { offset };
    let ended = ends_so(alloc, "run", CONNECT, &mut disk, status);
    let told = (written, disk.len());
    drop(disk);
    ended && told == (Ok(()), Ok(bytes.len() as u64))
}

#[test]
fn a_cut_store_is_refused_at_its_place_and_nothing_is_written(rt: HostRuntime) {
    for (row, (bytes, offset)) in CUT.iter().enumerate() {
        let right = is_refused(rt.alloc(), bytes, *offset);
        assert!(rt; right, "in row {row}");
    }
}

/// The first six calls of a device format it, and the seventh opens the store: words in turn, each with the status where this call fails.
static FAULTS: [(u64, &[(&str, Status)]); 5] = [
    (1, &[("init", Status::DiskFault)]),
    (6, &[("init", Status::DiskFault)]),
    (1, &[("run --fresh", Status::DiskFault)]),
    (6, &[("run --fresh", Status::DiskFault)]),
    (7, &[("init", Status::Ok), ("run", Status::DiskFault)]),
];

/// Whether these words end so in turn on a disk whose call with this number fails.
fn end_so(alloc: Global, call: u64, runs: &[(&str, Status)]) -> bool {
    let failing = [call];
    let Ok(mut disk) = MemoryDisk::with_room(alloc, ROOM, &failing) else {
        return false;
    };
    let mut right = true;
    for (words, status) in runs {
        right &= ends_so(alloc, words, CONNECT, &mut disk, *status);
    }
    drop(disk);
    right
}

#[test]
fn a_device_that_fails_before_the_store_is_open_ends_the_run(rt: HostRuntime) {
    for (row, (call, runs)) in FAULTS.iter().enumerate() {
        let right = end_so(rt.alloc(), *call, runs);
        assert!(rt; right, "in row {row}");
    }
}

/// The journal of an empty store, which is the older format.
const OLDER: [u8; 9] = *b"KSJRNL01\0";

/// How many calls of a device the opening of this journal makes, behind the one that writes it; and which of all are the sync of the version
/// and the write of the seal behind it.
const OPENING: u64 = 12;

const VERSION_SYNC: u64 = 11;

const SEAL_WRITE: u64 = 12;

/// A journal that was brought to areas and is not sealed.
const UNSEALED: Seen = Seen {
    front: *b"KSJRNL02\0\0\0\0\0",
    ..BROUGHT
};

/// Whether a run brings it to areas on a disk whose call with this number fails: with status 6 where the opening makes that call, and the run
/// behind it then does; the call behind the opening is the first of that run. Where the version is on the disk no run seals the journal later.
fn is_brought(alloc: Global, call: u64) -> bool {
    let failing = [call];
    let Ok(mut disk) = MemoryDisk::with_room(alloc, ROOM, &failing) else {
        return false;
    };
    let _ = disk.write_at(0, &OLDER);
    let (first, second) = if call <= OPENING.saturating_add(1) {
        (Status::DiskFault, Status::Ok)
    } else {
        (Status::Ok, Status::DiskFault)
    };
    let mut right = ends_so(alloc, "run", "", &mut disk, first);
    right &= ends_so(alloc, "run", "", &mut disk, second);
    let seen = seen_of(&mut disk);
    drop(disk);
    let wanted = if call == VERSION_SYNC || call == SEAL_WRITE {
        UNSEALED
    } else {
        BROUGHT
    };
    right && seen == wanted
}

#[test]
fn an_older_store_is_brought_to_areas_whatever_call_fails(rt: HostRuntime) {
    for call in 2..OPENING.saturating_add(3) {
        let right = is_brought(rt.alloc(), call);
        assert!(rt; right, "where call {call} fails");
    }
}

/// Another app, and what it, the system and the owner do.
const OTHER: &str = r#"{"t":[0,1000],"do":"connect","uid":10002}"#;

const GRANT: &str =
    r#"{"t":[0,1000],"c":1,"do":"grant","key":{"domain":0,"alias":"m"},"uid":10002,"bits":256}"#;

const UNGRANT: &str =
    r#"{"t":[0,1000],"c":1,"do":"ungrant","key":{"domain":0,"alias":"m"},"uid":10002}"#;

const DELETE: &str = r#"{"t":[0,1000],"c":1,"do":"deleteKey","key":{"domain":0,"alias":"m"}}"#;

const CLEAR: &str = r#"{"t":[0,1000],"c":2,"do":"clearNamespace","domain":0,"nspace":10001}"#;

const REMOVE: &str = r#"{"t":[0,1000],"c":2,"do":"userRemoved","user":0}"#;

const BEGIN_GRANTED: &str =
    r#"{"t":[0,1000],"c":1,"do":"createOperation","key":{"domain":1,"nspace":1},"params":[["PURPOSE",2],["MAC_LENGTH",256]]}"#;

const IMPORTED_AGAIN: &str = r#"{"code":0,"key":2}"#;

const GRANTED: &str = r#"{"code":0,"grant":1}"#;

/// Each change of what lasts, made by a run, and seen by the next: a new key, a new one under its name, a key's end, a grant and
/// its end, the end of an owner's keys and of a user's.
static LASTING: [Runs; 7] = [
    &[
        &[(CONNECT, CONNECTED), (IMPORT, IMPORTED)],
        &[(CONNECT, CONNECTED), (BEGIN, BEGUN), (FINISH, MAC)],
    ],
    &[
        &[
            (CONNECT, CONNECTED),
            (IMPORT, IMPORTED),
            (IMPORT, IMPORTED_AGAIN),
        ],
        &[(CONNECT, CONNECTED), (BEGIN, BEGUN), (FINISH, MAC)],
    ],
    &[
        &[(CONNECT, CONNECTED), (IMPORT, IMPORTED), (DELETE, DONE)],
        &[
            (CONNECT, CONNECTED),
            (BEGIN, NO_KEY),
            (IMPORT, IMPORTED_AGAIN),
        ],
    ],
    &[
        &[(CONNECT, CONNECTED), (IMPORT, IMPORTED), (GRANT, GRANTED)],
        &[(OTHER, CONNECTED), (BEGIN_GRANTED, BEGUN), (FINISH, MAC)],
    ],
    &[
        &[
            (CONNECT, CONNECTED),
            (IMPORT, IMPORTED),
            (GRANT, GRANTED),
            (UNGRANT, DONE),
        ],
        &[(OTHER, CONNECTED), (BEGIN_GRANTED, NO_KEY)],
    ],
    &[
        &[
            (CONNECT, CONNECTED),
            (SYSTEM, SECOND_CONNECTED),
            (IMPORT, IMPORTED),
            (CLEAR, DONE),
        ],
        &[(CONNECT, CONNECTED), (BEGIN, NO_KEY)],
    ],
    &[
        &[
            (CONNECT, CONNECTED),
            (SYSTEM, SECOND_CONNECTED),
            (IMPORT, IMPORTED),
            (REMOVE, DONE),
        ],
        &[(CONNECT, CONNECTED), (BEGIN, NO_KEY)],
    ],
];

#[test]
fn what_lasts_is_there_in_the_next_run(rt: HostRuntime) {
    for runs in &LASTING {
        check_runs(&rt, rt.alloc(), &[], runs);
    }
}
