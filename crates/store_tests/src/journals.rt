ghost use Rattle.std.specs.Prelude.{None};
ghost use Rattle.ks_outside.specs.Telling.{none_is_some};

use crate::draws::{Draws, digest};
use crate::records::is_read_and_written;
use disk_calls::{read_synced, write_synced};
use disk_model::{Choice, DiskRoom, MemoryDisk};
use journal_records::{AppendFault, StoreFault};
use ks_outside::{Disk, Failed};
use std::alloc::Global;
use tags::Settled;
use use_journal::Journal;

/// The records of a key with two uses, of a grant of it, and of one use, each with a closing byte.
static KEY: &[u8] =
    b"\x4b\x00\x00\x00\x28\x01\x00\x00\x00\x00\x00\x00\x00\x01\x00\x00\x00\x00\x00\x00\x00\x27\x11\
\x00\x00\x00\x01m\x00\x00\x00\x03\xaa\xbb\xcc\x00\x00\x00\x02\x00\x00\x00\x00\x00\x02\x00";

static GRANT: &[u8] =
    b"\x4b\x00\x00\x00\x19\x04\x00\x00\x00\x00\x00\x00\x00\x01\x00\x00\x00\x00\x00\x00\x00\x01\
\x00\x00\x27\x12\x00\x00\x01\x00\x00";

static USE: &[u8] = b"\x4b\x00\x00\x00\x09\x03\x00\x00\x00\x00\x00\x00\x00\x01\x00";

/// Room for the tests.
const ROOM: DiskRoom = DiskRoom {
    calls: 64,
    bytes: 1024,
    pages: 2,
};

/// Adds a record; None where the journal waits, or the record has no bytes.
fn add<D: Disk>(
    journal: &mut Journal,
    disk: &mut D,
    closed: &[u8],
) -> Option<Result<(), AppendFault>> {
    if !journal.is_settled() || closed.len() < 2 {
        return None;
    }
    Some(journal.append(disk, closed))
}

/// Settles; None where the journal does not wait.
fn settle<D: Disk>(journal: &mut Journal, disk: &mut D) -> Option<Result<Settled, Failed>> {
    if journal.is_settled() {
        return None;
    }
    Some(journal.settle(disk))
}

/// A disk.
fn disk_of<'a>(alloc: Global, failing: &'a [u64]) -> Option<MemoryDisk<'a>> {
    MemoryDisk::with_room(alloc, ROOM, failing).ok()
}

/// Makes an empty journal on a disk.
fn fresh(alloc: Global, disk: &mut MemoryDisk) -> Option<Journal> {
    match Journal::format(disk) {
        Ok(()) => opened(alloc, disk),
        Err(_) => None,
    }
}

/// The journal of a disk.
fn opened(alloc: Global, disk: &mut MemoryDisk) -> Option<Journal> {
    match Journal::open(alloc, disk) {
        Ok((journal, _)) => Some(journal),
        Err(_) => None,
    }
}

/// How many changes a disk's journal has, opened anew.
fn count<D: Disk>(alloc: Global, disk: &mut D) -> Result<usize, StoreFault> {
    let (_, records) = Journal::open(alloc, disk)?;
    Ok(records.as_slice().len())
}

/// A use is added to a key with these calls of the disk failing: 1 to 7 format and open it, 8 to 11 add the key, 12
/// to 15 the use, and the later ones settle.
struct Fault {
    failing: &'static [u64],
    /// how many settlings fail before one succeeds
    failed: usize,
    settled: Settled,
}

static FAULTS: [Fault; 8] = [
    Fault {
        failing: &[12],
        failed: 0,
        settled: Settled::Lost,
    },
    Fault {
        failing: &[13],
        failed: 0,
        settled: Settled::Lost,
    },
    Fault {
        failing: &[14],
        failed: 0,
        settled: Settled::Lost,
    },
    Fault {
        failing: &[15],
        failed: 0,
        settled: Settled::Kept,
    },
    Fault {
        failing: &[13, 14],
        failed: 1,
        settled: Settled::Lost,
    },
    Fault {
        failing: &[14, 16],
        failed: 1,
        settled: Settled::Lost,
    },
    Fault {
        failing: &[15, 16],
        failed: 1,
        settled: Settled::Kept,
    },
    Fault {
        failing: &[15, 17, 18],
        failed: 2,
        settled: Settled::Kept,
    },
];

/// Whether so many settlings fail.
fn settlings_fail(journal: &mut Journal, disk: &mut MemoryDisk, count: usize) -> bool {
    let mut failed = true;
    for _ in 0..count {
        failed &= settle(journal, disk) == Some(Err(Failed));
    }
    failed
}

/// Whether the use is refused, settles as the row says, and is in the journal that is opened then exactly where it
/// was kept; and whether the journal goes on.
fn settles_so(alloc: Global, fault: &Fault, journal: &mut Journal, disk: &mut MemoryDisk) -> bool {
    let added = add(journal, disk, KEY);
    let refused = add(journal, disk, USE);
    let failed = settlings_fail(journal, disk, fault.failed);
    let settled = settle(journal, disk);
    let then = count(alloc, disk);
    let more = add(journal, disk, GRANT);
    let last = count(alloc, disk);
    let kept = usize::from(fault.settled == Settled::Kept);
    let ends = (failed, settled, then, last);
    (added, refused, more) == (Some(Ok(())), Some(Err(AppendFault::Device)), Some(Ok(())))
        && ends == (true, Some(Ok(fault.settled)), Ok(1 + kept), Ok(2 + kept))
}

/// The same of a journal on a disk of its own.
fn is_settled_so(alloc: Global, fault: &Fault) -> bool {
    let Some(mut disk) = disk_of(alloc, fault.failing) else {
        return false;
    };
    match fresh(alloc, &mut disk) {
        Some(mut journal) => settles_so(alloc, fault, &mut journal, &mut disk),
        None => false,
    }
}

#[test]
fn each_call_of_an_append_fails(rt: HostRuntime) {
    let mut other = None;
    for (row, fault) in FAULTS.iter().enumerate() {
        if !is_settled_so(rt.alloc(), fault) {
            other = Some(row);
        }
    }
    assert_eq!(rt; other, None);
}

/// A crash: what it leaves of each write that no sync followed, and how many changes there are then, by the writes and
/// syncs since the opening, from none on.
struct Crash {
    choice: Choice,
    changes: &'static [usize],
}

static CRASHES: [Crash; 4] = [
    Crash {
        choice: Choice::New,
        changes: &[0, 0, 0, 1, 1, 1, 1, 2, 2],
    },
    Crash {
        choice: Choice::Old,
        changes: &[0, 0, 0, 0, 1, 1, 1, 1, 2],
    },
    Crash {
        choice: Choice::Filled(0x4b),
        changes: &[0, 0, 0, 1, 1, 1, 1, 2, 2],
    },
    Crash {
        choice: Choice::Filled(0x00),
        changes: &[0, 0, 0, 0, 1, 1, 1, 1, 2],
    },
];

/// How many changes an image has, opened again.
fn changes_left(
    alloc: Global,
    disk: &MemoryDisk,
    calls: usize,
    choices: &[Choice],
) -> Result<usize, StoreFault> {
    let Ok(mut image) = disk.image_after(calls.min(disk.count()), choices) else {
        return Err(StoreFault::Memory);
    };
    count(alloc, &mut image)
}

/// Adds a key and a use of it to an empty journal on a disk.
fn use_once(alloc: Global, disk: &mut MemoryDisk) -> bool {
    match fresh(alloc, disk) {
        Some(mut journal) => {
            let added = add(&mut journal, disk, KEY);
            let used = add(&mut journal, disk, USE);
            (added, used) == (Some(Ok(())), Some(Ok(())))
        }
        None => false,
    }
}

/// Whether a crash at each moment leaves what its row says.
fn leaves_so(alloc: Global, disk: &MemoryDisk, crash: &Crash) -> bool {
    let choices = [crash.choice; 11];
    let mut same = true;
    for (moment, changes) in crash.changes.iter().enumerate() {
        let left = changes_left(alloc, disk, moment.saturating_add(3), &choices);
        same &= left == Ok(*changes);
    }
    same
}

/// Whether each crash leaves what its row says.
fn leave_so(alloc: Global) -> bool {
    let Some(mut disk) = disk_of(alloc, &[]) else {
        return false;
    };
    let mut same = use_once(alloc, &mut disk);
    for crash in &CRASHES {
        same &= leaves_so(alloc, &disk, crash);
    }
    same
}

#[test]
fn an_image_of_each_moment_opens(rt: HostRuntime) {
    assert!(rt; leave_so(rt.alloc()));
}

/// A disk that reads as a journal of one key, with the alias `a`, a list of two bytes 00 and a blob of bytes 00. It
/// tells nothing, keeps no write and counts its calls.
#[derive(Drop)]
struct LargeDisk {
    /// the bytes up to the blob
    head: &'static [u8],
    /// how many bytes the blob has
    blob: u64,
    calls: u64,
}

/// The bytes up to a blob of 268,435,391 bytes, and up to one of a byte more.
static LAST_HEAD: &[u8] = b"KSJRNL01\x4b\x0f\xff\xff\xe4\
\x01\x00\x00\x00\x00\x00\x00\x00\x01\x00\x00\x00\x00\x00\x00\x00\x27\x11\x00\x00\x00\x01a\x0f\xff\xff\xbf";

static PAST_HEAD: &[u8] = b"KSJRNL01\x4b\x0f\xff\xff\xe5\
\x01\x00\x00\x00\x00\x00\x00\x00\x01\x00\x00\x00\x00\x00\x00\x00\x27\x11\x00\x00\x00\x01a\x0f\xff\xff\xc0";

impl LargeDisk {
    fn call(&mut self) {
        self.calls = self.calls.saturating_add(1);
    }

    /// How many bytes it has.
    fn size(&self) -> u64 {
        self.blob.saturating_add(51)
    }
}

impl Disk for LargeDisk {
    ghost content = { λ _. None };

    ghost images = { λ _ _. ⊥ };

    ghost moment = { λ _. 0 };

    ghost images_since = { λ _ _ _. ⊥ };

    ghost fault_count = { λ _. 0 };

    ghost content_is_image = { λ disk c told. none_is_some c told };

    ghost counts_now = { λ disk t c before now. now };

    ghost only_now = { λ disk c was. was };

    fn read(&mut self, at: u64, out: &mut [u8]) -> Result<usize, Failed> {
        self.call();
        let count = self.size().saturating_sub(at).min(out.len() as u64) as usize;
        out.fill(0);
        let front = &self.head[self.head.len().min(at as usize)..];
        for i in 0..front.len().min(count) {
            out[i] = front[i];
        }
        let list = self.blob.saturating_add(43);
        if at <= list && list - at < count as u64 {
            out[(list - at) as usize] = 2;
        }
        Ok(count)
    }

    fn write_at(&mut self, _at: u64, _piece: &[u8]) -> Result<(), Failed> {
        self.call();
        Ok(())
    }

    fn len(&mut self) -> Result<u64, Failed> {
        self.call();
        Ok(self.size())
    }

    fn sync(&mut self) -> Result<(), Failed> {
        self.call();
        Ok(())
    }

    fn faults(&self) -> u64 {
        0
    }
}

/// What adding a use to a large journal answers, and how many calls of the disk it makes.
fn add_at_end(
    alloc: Global,
    head: &'static [u8],
    blob: u64,
) -> Result<(Option<Result<(), AppendFault>>, u64), StoreFault> {
    let mut disk = LargeDisk {
        head,
        blob,
        calls: 0,
    };
    let (mut journal, records) = Journal::open(alloc, &mut disk)?;
    let before = disk.calls;
    drop(records);
    let added = add(&mut journal, &mut disk, USE);
    Ok((added, disk.calls.saturating_sub(before)))
}

#[test]
fn the_last_place_of_a_journal_and_one_byte_more(rt: HostRuntime) {
    assert_eq!(rt;
        add_at_end(rt.alloc(), LAST_HEAD, 268_435_391),
        Ok((Some(Ok(())), 4))
    );
    assert_eq!(rt;
        add_at_end(rt.alloc(), PAST_HEAD, 268_435_392),
        Ok((Some(Err(AppendFault::Full)), 0))
    );
}

/// Adds a drawn record, which is read and written so besides.
fn add_drawn(
    alloc: Global,
    draws: &mut Draws,
    journal: &mut Journal,
    disk: &mut MemoryDisk,
) -> bool {
    let Ok(mut record) = draws.record(alloc) else {
        return false;
    };
    let written = is_read_and_written(alloc, record.as_slice());
    let closed = record.push(0).is_ok();
    written && closed && add(journal, disk, record.as_slice()) == Some(Ok(()))
}

/// What is read of a disk, as two numbers: how many changes and where they end; or 2^64 - 1 and the offset.
fn reading(alloc: Global, disk: &mut MemoryDisk) -> (u64, u64) {
    match Journal::open(alloc, disk) {
        Ok((journal, records)) => (records.as_slice().len() as u64, journal.end()),
        Err(StoreFault::Corrupted { offset }) => (u64::MAX, offset),
        Err(_) => (u64::MAX, u64::MAX),
    }
}

/// Changes one byte of a disk with these bytes, reads it, and goes on with the digest of the bytes and of what was read.
fn digest_of_damage(
    alloc: Global,
    draws: &mut Draws,
    disk: &mut MemoryDisk,
    bytes: &[u8],
    state: u64,
) -> u64 {
    let at = draws.next().checked_rem(bytes.len() as u64).unwrap_or(0);
    let damage = [draws.byte()];
    let _ = write_synced(disk, at, &damage);
    let (first, second) = reading(alloc, disk);
    let state = digest(bytes, state);
    let state = digest(&first.to_be_bytes(), state);
    digest(&second.to_be_bytes(), state)
}

/// Makes a journal of drawn changes on a disk, where all are added.
fn draw_changes(alloc: Global, draws: &mut Draws, disk: &mut MemoryDisk) -> bool {
    match fresh(alloc, disk) {
        Some(mut journal) => {
            let mut added = true;
            for _ in 0..draws.next() % 8 {
                added &= add_drawn(alloc, draws, &mut journal, disk);
            }
            added
        }
        None => false,
    }
}

/// Makes a store of drawn changes, and goes on with the digest of it and of what is read where it is damaged. Where a change was not
/// added the digest begins anew.
fn digest_of_store(alloc: Global, draws: &mut Draws, state: u64) -> u64 {
    let Some(mut disk) = disk_of(alloc, &[]) else {
        return 0;
    };
    let drawn = draw_changes(alloc, draws, &mut disk);
    match read_synced(alloc, &mut disk) {
        Ok(bytes) if drawn => digest_of_damage(alloc, draws, &mut disk, bytes.as_slice(), state),
        _ => 0,
    }
}

// The digest is what `tools/ks make stores --stores` prints, which writes and reads the same stores without this code.
#[test]
fn a_thousand_stores_are_those_of_another_reader(rt: HostRuntime) {
    let mut draws = Draws::of(1);
    let mut state = 0xcbf2_9ce4_8422_2325;
    for _ in 0..1000 {
        state = digest_of_store(rt.alloc(), &mut draws, state);
    }
    assert_eq!(rt; state, 0xa785_1eeb_585e_c4ec);
}
