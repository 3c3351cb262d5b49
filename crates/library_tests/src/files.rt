//! What a store in a file answers to the calls of a table, behind syncs that failed, and where its path leads elsewhere.

ghost use Rattle.std.specs.Prelude.{◌≤◌, ℕ, List, Bool, Option, length, is_some, IfSome, ⊤};

use file_disk::{FileDisk, RealFile, Unsynced, open_store};
use ks_outside::{Disk, Failed};
use std::os::unix::fs::PermissionsExt;
use std::test::Fail;
use std::{fs, io};

/// The permissions of a file.
fn mode_of(rt: &HostRuntime, path: &str) -> io::Result<u32> {
    Ok(fs::metadata(rt, path)?.permissions().mode() % 0o1000)
}

/// A call of a disk.
enum Ask {
    /// so many bytes from a place on
    Read { at: u64, count: usize },
    Write { at: u64, piece: &'static [u8] },
    Len,
    Sync,
}

/// What a disk answers: how many bytes were read, or are there, and else 0.
fn answer<D: Disk>(disk: &mut D, ask: &Ask) -> Result<u64, Failed> {
    match ask {
        Ask::Read { at, count } => {
            let mut out = [9; 8];
            let end = (*count).min(out.len());
            let read = disk.read(*at, &mut out[..end])?;
            Ok(read as u64)
        }
        Ask::Write { at, piece } => {
            disk.write_at(*at, piece)?;
            Ok(0)
        }
        Ask::Len => disk.len(),
        Ask::Sync => {
            disk.sync()?;
            Ok(0)
        }
    }
}

static FILE_CALLS: [(Ask, Result<u64, Failed>); 8] = [
    (Ask::Len, Ok(0)),
    (
        Ask::Write {
            at: 2,
            piece: b"abc",
        },
        Ok(0),
    ),
    (Ask::Sync, Ok(0)),
    (Ask::Read { at: 1, count: 4 }, Ok(4)),
    (Ask::Len, Ok(5)),
    (Ask::Read { at: 5, count: 4 }, Ok(0)),
    (
        Ask::Write {
            at: 1 << 63,
            piece: b"a",
        },
        Err(Failed),
    ),
    (
        Ask::Read {
            at: 1 << 63,
            count: 4,
        },
        Ok(0),
    ),
];

/// Whether a disk answers so, and its bytes from 1 on, once it has those of the calls.
fn answers_all<D: Disk>(disk: &mut D) -> (bool, [u8; 4]) {
    let mut right = true;
    for (ask, wanted) in &FILE_CALLS {
        right &= answer(disk, ask) == *wanted;
    }
    let mut out = [9; 4];
    right &= (disk.read(1, &mut out), disk.faults()) == (Ok(4), 1);
    (right, out)
}

/// Whether a disk without a file reads as no bytes, syncs, and fails where it is written to.
fn has_nothing<D: Disk + Drop>(mut missing: D) -> bool {
    let mut right = true;
    for (ask, wanted) in &MISSING_CALLS {
        right &= answer(&mut missing, ask) == *wanted;
    }
    let faults = missing.faults();
    drop(missing);
    right && faults == 1
}

static MISSING_CALLS: [(Ask, Result<u64, Failed>); 4] = [
    (Ask::Len, Ok(0)),
    (Ask::Read { at: 0, count: 4 }, Ok(0)),
    (Ask::Sync, Ok(0)),
    (
        Ask::Write {
            at: 0,
            piece: b"abc",
        },
        Err(Failed),
    ),
];

#[test]
fn a_store_in_a_file(rt: HostRuntime) -> Result<(), Fail> {
    let path = "a_store_in_a_file.ks";
    let mut disk = open_store(&rt, path);
    let asked = disk.len();
    let none = asked == Ok(0) && fs::metadata(&rt, path).is_err();
    let told = answers_all(&mut disk);
    drop(disk);
    let mode = mode_of(&rt, path)?;
    fs::remove_file(&rt, path)?;
    let missing = has_nothing(open_store(&rt, "no_such_folder/store.ks"));
    assert_eq!(rt; (none, mode, missing), (true, 0o600, true));
    assert_eq!(rt; told, (true, [0, b'a', b'b', b'c']));
    Ok(())
}

/// The calls of a second handle while the first has the store.
static SECOND_CALLS: [Ask; 4] = [
    Ask::Write {
        at: 0,
        piece: b"xyz",
    },
    Ask::Len,
    Ask::Sync,
    Ask::Read { at: 0, count: 3 },
];

/// What the first of two handles reads once the second has failed at each of its calls, whether they did, and what the second finds once
/// the first is let go.
fn two_handles<D: Disk + Drop>(
    mut first: D,
    mut second: D,
) -> ([u8; 3], bool, (Result<u64, Failed>, u64)) {
    let mut out = [9; 3];
    let mut failed = first.write_at(0, b"abc") == Ok(());
    for ask in &SECOND_CALLS {
        failed &= answer(&mut second, ask) == Err(Failed);
    }
    failed &= (first.read(0, &mut out), first.faults()) == (Ok(3), 0);
    drop(first);
    let found = (second.len(), second.faults());
    drop(second);
    (out, failed, found)
}

// As long as one handle has the store, each call of another fails, and harms nothing.
#[test]
fn two_handles_of_one_store(rt: HostRuntime) -> Result<(), Fail> {
    let path = "two_handles_of_one_store.ks";
    let told = two_handles(open_store(&rt, path), open_store(&rt, path));
    fs::remove_file(&rt, path)?;
    assert_eq!(rt; told, ([b'a', b'b', b'c'], true, (Ok(3), 4)));
    Ok(())
}

/// A file as Linux keeps one: what readers see, what the disk has, and which bytes are still to be written there. A sync that fails holds
/// these for written.
#[derive(Clone, Copy, Debug, PartialEq, Eq, Drop)]
struct Lossy {
    seen: [u8; 8],
    kept: [u8; 8],
    is_due: [bool; 8],
    syncs: u8,
    /// the number of the sync that fails
    failing: u8,
    /// the number of the write that writes half of its piece and fails
    torn: u8,
    writes: u8,
}

impl Lossy {
    fn put(&mut self, at: u64, piece: &[u8]) {
        for (place, byte) in piece.iter().enumerate() {
            let at = (at as usize).saturating_add(place).min(7);
            self.seen[at] = *byte;
            self.is_due[at] = true;
        }
    }
}

impl RealFile for Lossy {
    ghost did_read = { λ _ _ _ _ _. ⊤ };

    ghost did_write = { λ _ _ _ _ _. ⊤ };

    ghost did_measure = { λ _ _ _. ⊤ };

    ghost did_sync = { λ _ _ _. ⊤ };

    fn read_at(&mut self, at: u64, out: &mut [u8]) -> Option<usize> {
        let at = at.min(8) as usize;
        let count = out.len().min(8 - at);
        out[..count].copy_from_slice(&self.seen[at..at + count]);
        Some(count)
    }

    fn write_all_at(&mut self, at: u64, piece: &[u8]) -> Option<()> {
        self.writes = self.writes.saturating_add(1);
        if self.writes == self.torn {
            self.put(at, &piece[..piece.len() / 2]);
            return None;
        }
        self.put(at, piece);
        Some(())
    }

    fn length(&mut self) -> Option<u64> {
        Some(8)
    }

    fn sync(&mut self) -> Option<()> {
        self.syncs = self.syncs.saturating_add(1);
        let fails = self.syncs == self.failing;
        for place in 0..8usize {
            if self.is_due[place] && !fails {
                self.kept[place] = self.seen[place];
            }
            self.is_due[place] = false;
        }
        if fails { None } else { Some(()) }
    }
}

/// A call, its answer, and what is not synced behind it: the first place, the one behind the last, and whether a sync failed.
type Row = (Ask, Result<u64, Failed>, (u64, u64, bool));

const NOTHING: (u64, u64, bool) = (u64::MAX, 0, false);

/// The first sync fails, and so does the second write, which leaves a half of its piece.
static LOST: [Row; 6] = [
    (
        Ask::Write {
            at: 2,
            piece: b"abc",
        },
        Ok(0),
        (2, 5, false),
    ),
    (Ask::Sync, Err(Failed), (2, 5, true)),
    (
        Ask::Write {
            at: 6,
            piece: b"de",
        },
        Err(Failed),
        (2, 8, true),
    ),
    (Ask::Write { at: 1, piece: b"f" }, Ok(0), (1, 8, true)),
    (Ask::Sync, Ok(0), NOTHING),
    (Ask::Sync, Ok(0), NOTHING),
];

/// Whether a disk answers the calls so.
fn answers_rows(disk: &mut FileDisk<Lossy>) -> bool {
    let mut right = true;
    for (ask, wanted, left) in &LOST {
        right &= answer(disk, ask) == *wanted;
        let Unsynced { from, end, is_lost } = disk.unsynced();
        right &= (from, end, is_lost) == *left;
    }
    right
}

#[test]
fn what_a_failed_sync_lost_is_written_again(rt: HostRuntime) {
    let file = Lossy {
        seen: [0; 8],
        kept: [0; 8],
        is_due: [false; 8],
        syncs: 0,
        failing: 1,
        torn: 2,
        writes: 0,
    };
    let mut disk = FileDisk::new(file);
    let right = answers_rows(&mut disk);
    let kept = disk.file().kept;
    assert_eq!(rt; (right, kept), (true, *b"\0fabc\0d\0"));
}

/// What the calls answer while the path leads to the file, and then, where it leads elsewhere: a sync fails for good, and a read goes on.
fn goes_on<D: Disk>(disk: &mut D) -> bool {
    let wrote = answer(
        disk,
        &Ask::Write {
            at: 0,
            piece: b"xyz",
        },
    ) == Ok(0);
    let failed = answer(disk, &Ask::Sync) == Err(Failed);
    wrote && failed && answer(disk, &Ask::Read { at: 0, count: 3 }) == Ok(3)
}

/// Makes a store and syncs it.
fn makes<D: Disk>(disk: &mut D) -> bool {
    let wrote = answer(
        disk,
        &Ask::Write {
            at: 0,
            piece: b"abc",
        },
    ) == Ok(0);
    wrote && answer(disk, &Ask::Sync) == Ok(0)
}

#[test]
fn a_store_whose_path_leads_elsewhere_is_synced_no_more(rt: HostRuntime) -> Result<(), Fail> {
    let (path, other) = ("a_moved_store.ks", "a_moved_store.old");
    let mut disk = open_store(&rt, path);
    let made = makes(&mut disk);
    let moved = fs::rename(&rt, path, other).is_ok();
    let gone = goes_on(&mut disk);
    let written = fs::write(&rt, path, b"another").is_ok();
    let replaced = goes_on(&mut disk);
    let back = fs::rename(&rt, other, path).is_ok();
    let for_good = goes_on(&mut disk);
    drop(disk);
    let removed = fs::remove_file(&rt, path).is_ok();
    let told = [
        made, moved, gone, written, replaced, back, for_good, removed,
    ];
    assert_eq!(rt; told, [true; 8]);
    Ok(())
}
