//! The load of a seed: its lines are served over a store in memory, and the summary of what they were answered is written.

ghost use Rattle.std.specs.Prelude.{◌≡◌, ◌+◌, ◌-◌, ◌*◌, ◌^◌, ◌<◌, ◌≤◌, [], length, IfOk, string_bytes};
ghost use Rattle.ks_outside.specs.Faults.{CountsFaults};
ghost use Rattle.rule_model.specs.Setup.{Setup};
ghost use Rattle.keystore_run.specs.Ends.{is_write_fault};
ghost use Rattle.keystore_run.specs.Loading.{IsEmptyDisk, IsLoadSession, IsLoaded};
ghost use Rattle.keystore_run.specs.Session.{StandsFor, entries_in};
ghost use Rattle.keystore_run.specs.Soak as spec;
ghost use Rattle.keystore_run.specs.Soak.{IsSummaryOf, Soaks};

use crate::answer::Answer;
use crate::session::Session;
use crate::status::Status;
use crate::writer::write_all;
use crate::written::Written;
use disk_model::{DiskRoom, MemoryDisk};
use keystore_core::Engine;
use ks_outside::{Disk, Entropy, SeededEntropy, Sink};
use soak_lines::{SoakScript, Summary, seed_of};
use std::alloc::Global;
use tags::{Code, DeviceSecrets, NoMemory, Policy};

/// The slots of the load's engine.
const SLOTS: usize = 16;

/// Room that the disk of a load takes as it goes.
const NO_ROOM: DiskRoom = DiskRoom {
    calls: 0,
    bytes: 0,
    pages: 0,
};

/// Whether a code tells want of memory, or a call of the disk or the entropy that failed.
fn is_failure(code: Option<Code>) -> bool
    ensures { result ≡ spec.is_failure code }
{
    match code {
        Some(Code::MemoryAllocationFailed) => true,
        Some(Code::SystemError) => true,
        Some(Code::EntropyFault) => true,
        _ => false,
    }
}

/// Whether an answer tells of a failure, now or before: an earlier change is settled only where a call of the disk failed.
fn tells_failure(answer: &Answer) -> bool
    ensures { result ≡ spec.tells_failure answer.now }
{
    answer.settled.is_some() || is_failure(answer.code)
}

/// The number in a reply line.
fn number_of(code: Option<Code>) -> i32
    ensures { result ≡ spec.number_of code }
{
    match code {
        Some(code) => code.number(),
        None => 0,
    }
}

/// Serves the lines of a load one after another, and sums up what they are answered. A load is not gone on with behind an answer
/// that tells of a failure.
fn serve_load<D: Disk, N: Entropy>(
    alloc: Global,
    script: &mut SoakScript,
    session: &mut Session,
    disk: &mut D,
    entropy: &mut N,
) -> Result<Summary, NoMemory>
    requires few { length script.old ≤ 100007 }
    requires fresh { entries_in session.old ≡ 0 }
    ensures loaded { (setup : Setup) → StandsFor D.Disk setup session.old disk.old [] →
        IfOk result (IsLoaded N.Entropy setup script.old entropy.old entropy.new) }
{
    let mut summary = Summary::new(alloc);
    'lines: while let Some(line) = script.next(alloc)? {
        let answer = session.answer(alloc, Written::Replies, disk, entropy, line.as_bytes())?;
        if tells_failure(&answer) {
            return Err(NoMemory);
        }
        summary.add(number_of(answer.code), answer.text.as_slice())?;
    }
    Ok(summary)
}

/// The session of a load, over an empty store that is made on an empty disk.
fn session_over<D: Disk>(alloc: Global, disk: &mut D) -> Result<Session, NoMemory>
    requires empty { IsEmptyDisk D.Disk disk.old }
    ensures session { IfOk result (IsLoadSession D.Disk disk.new) }
    ensures fresh { IfOk result (λ session. entries_in session ≡ 0) }
{
    let device = DeviceSecrets::demo();
    let policy = Policy::demo(alloc)?;
    let Ok(()) = Engine::format(disk) else {
        return Err(NoMemory);
    };
    let Ok(engine) = Engine::open(alloc, &device, &policy, SLOTS, disk) else {
        return Err(NoMemory);
    };
    Ok(Session::new(alloc, engine))
}

/// The summary of a load, which is served over an empty store on an empty disk. It is not made where memory is wanting, which a
/// call of that disk that fails tells too.
fn summary_over<D: Disk>(
    alloc: Global,
    disk: &mut D,
    seed: u64,
    lines: u64,
) -> Result<String, NoMemory>
    requires few { lines ≤ 100000 }
    requires empty { IsEmptyDisk D.Disk disk.old }
    ensures summary { IfOk result (λ text. IsSummaryOf seed lines (string_bytes text)) }
{
    let mut session = session_over(alloc, disk)?;
    let mut entropy = SeededEntropy::new(seed_of(seed, 1));
    let mut script = SoakScript::new(seed, lines);
    let served = serve_load(alloc, &mut script, &mut session, disk, &mut entropy);
    drop(session);
    let summary = served?;
    let text = summary.text(alloc)?;
    Ok(text)
}

/// The same over a disk in memory.
fn summary_of(alloc: Global, seed: u64, lines: u64) -> Result<String, NoMemory>
    requires few { lines ≤ 100000 }
    ensures summary { IfOk result (λ text. IsSummaryOf seed lines (string_bytes text)) }
{
    let mut disk = MemoryDisk::with_room(alloc, NO_ROOM, &[])?;
    let summary = summary_over(alloc, &mut disk, seed, lines);
    drop(disk);
    summary
}

/// Writes the summary of the load of a seed, of so many lines behind its opening.
pub fn soak<K: Sink>(alloc: Global, seed: u64, lines: u64, sink: &mut K) -> Status
    requires few { lines ≤ 100000 }
    ensures soaks { Soaks K.Sink seed lines sink.old sink.new result }
    ensures sink_faults { CountsFaults (K.fault_count sink.old) (K.fault_count sink.new) (is_write_fault result) }
{
    let Ok(summary) = summary_of(alloc, seed, lines) else {
        return Status::Memory;
    };
    match write_all(sink, summary.as_bytes()) {
        Ok(()) => Status::Ok,
        Err(_) => Status::WriteFault,
    }
}
