//! The top call: a store is made, or a script from a source is served over it, line by line into a sink.

ghost use Rattle.std.specs.Prelude.{◌≡◌, ◌↔◌, ℕ, ◌+◌, ◌-◌, ◌^◌, ◌<◌, ◌≤◌, [], List, Bool, Some, None, false};
ghost use Rattle.ks_outside.specs.Faults.{CountsFaults};
ghost use Rattle.journal_records.specs.LastingPart.{Lasting};
ghost use Rattle.rule_model.specs.Setup.{Setup};
ghost use Rattle.keystore_run.specs.Complete.{AreFaultless, Completes, IsReady};
ghost use Rattle.keystore_run.specs.Ends.{Ends, given_back, is_read_fault, is_write_fault, lent, outside};
ghost use Rattle.keystore_core.specs.Opening.{IsOpenedFrom};
ghost use Rattle.keystore_run.specs.Runs.{Does, Formats, IsCause, Runs, RunsFresh, disk_told, formatted_as, given, refusal_of};
ghost use Rattle.keystore_run.specs.Session.{StandsFor, entries_in};
ghost use Rattle.keystore_run.specs.Words.{form_of as form_said};
ghost use Rattle.tags.specs.declared.limits.TheConstants.{MOST_SLOTS};

use crate::handed::Handed;
use crate::reader::{Found, LineReader};
use crate::serve::serve_line;
use crate::session::Session;
use crate::soak::soak;
use crate::status::Status;
use crate::words::{Form, form_of};
use crate::written::Written;
use keystore_core::{Engine, OpenFault};
use ks_outside::{Disk, Entropy, Sink, Source};
use std::alloc::Global;
use tags::{DeviceSecrets, Policy};

/// Serves a script line by line: each line is served and answered before the next one is read.
fn serve_script<S: Source, K: Sink, D: Disk, N: Entropy>(
    alloc: Global,
    written: Written,
    session: &mut Session,
    reader: &mut LineReader,
    handed: Handed<'_, S, K, D, N>,
) -> Status
    requires nothing { reader.old.bytes ≡ [] }
    requires untaken { reader.old.taken ≡ 0 }
    requires fresh { entries_in session.old ≡ 0 }
    ensures ends { (setup : Setup) (begin : D) → StandsFor D.Disk setup session.old handed.entry.disk.now [] → IsOpenedFrom D.Disk begin handed.entry.disk.now →
        Ends S.Source K.Sink D.Disk N.Entropy written setup (outside handed.entry.source.now handed.entry.sink.now begin handed.entry.entropy.now) (given_back handed.exit) result }
    ensures source_faults { CountsFaults (S.fault_count handed.entry.source.now) (S.fault_count handed.exit.0.now) (is_read_fault result) }
    ensures sink_faults { CountsFaults (K.fault_count handed.entry.sink.now) (K.fault_count handed.exit.1.0.now) (is_write_fault result) }
{
    let Handed {
        source,
        sink,
        disk,
        entropy,
    } = handed;
    let mut served = 0u64;
    'lines: loop {
        match reader.fill(source) {
            Found::Line { count } => {
                let line = reader.line(count);
                if let Err(halt) = serve_line(alloc, written, session, sink, disk, entropy, line) {
                    return halt.status();
                }
                reader.pass(count);
                served += 1;
            }
            Found::End => {
                let line = reader.line(reader.held());
                if line.is_empty() {
                    return Status::Ok;
                }
                if let Err(halt) = serve_line(alloc, written, session, sink, disk, entropy, line) {
                    return halt.status();
                }
                return Status::Ok;
            }
            Found::TooLong => return Status::LineTooLong { line: served + 1 },
            Found::ScriptTooLong => return Status::ScriptTooLong,
            Found::Fault => return Status::ReadFault,
        }
    }
}

/// The status of a run whose store was not opened.
fn refusal(fault: OpenFault) -> Status
    ensures { result ≡ refusal_of fault }
{
    match fault {
        OpenFault::Device => Status::DiskFault,
        OpenFault::Corrupted { offset } => Status::Corrupted { offset },
        OpenFault::Memory => Status::Memory,
    }
}

/// Opens the store of the disk and serves a script over it.
fn serve_store<S: Source, K: Sink, D: Disk, N: Entropy>(
    alloc: Global,
    device: &DeviceSecrets,
    policy: &Policy,
    slots: usize,
    written: Written,
    handed: Handed<'_, S, K, D, N>,
) -> Status
    requires some { 0 < slots }
    requires few { slots ≤ MOST_SLOTS }
    ensures since_call { Runs S.Source K.Sink D.Disk N.Entropy (given device.now policy.now slots written) (λ opened. handed.entry.disk.now)
        (lent handed.entry) (given_back handed.exit) result }
    ensures since_opened { Runs S.Source K.Sink D.Disk N.Entropy (given device.now policy.now slots written) (λ opened. opened)
        (lent handed.entry) (given_back handed.exit) result }
    ensures source_faults { CountsFaults (S.fault_count handed.entry.source.now) (S.fault_count handed.exit.0.now) (is_read_fault result) }
    ensures sink_faults { CountsFaults (K.fault_count handed.entry.sink.now) (K.fault_count handed.exit.1.0.now) (is_write_fault result) }
{
    let Ok(mut reader) = LineReader::new(alloc) else {
        return Status::Memory;
    };
    let engine = match Engine::open(alloc, device, policy, slots, handed.disk) {
        Ok(engine) => engine,
        Err(fault) => return refusal(fault),
    };
    let mut session = Session::new(alloc, engine);
    let status = serve_script(alloc, written, &mut session, &mut reader, handed);
    drop(session);
    status
}

/// Writes an empty store.
fn format<D: Disk>(disk: &mut D) -> Status
    ensures { Formats D.Disk disk.old disk.new result }
{
    match Engine::format(disk) {
        Ok(()) => Status::Ok,
        Err(_) => Status::DiskFault,
    }
}

/// Writes an empty store, and serves a script over it.
fn serve_fresh<S: Source, K: Sink, D: Disk, N: Entropy>(
    alloc: Global,
    device: &DeviceSecrets,
    policy: &Policy,
    slots: usize,
    written: Written,
    handed: Handed<'_, S, K, D, N>,
) -> Status
    requires some { 0 < slots }
    requires few { slots ≤ MOST_SLOTS }
    ensures runs { RunsFresh S.Source K.Sink D.Disk N.Entropy (given device.now policy.now slots written)
        (lent handed.entry) (given_back handed.exit) result }
    ensures source_faults { CountsFaults (S.fault_count handed.entry.source.now) (S.fault_count handed.exit.0.now) (is_read_fault result) }
    ensures sink_faults { CountsFaults (K.fault_count handed.entry.sink.now) (K.fault_count handed.exit.1.0.now) (is_write_fault result) }
{
    let Ok(()) = Engine::format(handed.disk) else {
        return Status::DiskFault;
    };
    serve_store(alloc, device, policy, slots, written, handed)
}

/// Serves the words of the command line. `init` writes an empty store to the disk. `run` opens the store of the disk and serves
/// the script of `source` over it, with 16 slots or those of `--slots N`; with `--fresh` it writes an empty store first, which
/// erases the one that was there. Each reply line, or with `--trace` each line of an entry in its place, is written to `sink` before the
/// next line is read, and behind what its line changes of what lasts. What a line draws is taken from `entropy` when the line is served, and nothing else is. Nothing is
/// written to the sink by a run that ends before its store is open. `soak SEED N` serves a load over a store in memory of its own,
/// and writes its summary: the source, the disk and the entropy are not touched.
pub fn run_words<S: Source, K: Sink, D: Disk, N: Entropy>(
    alloc: Global,
    words: &[String],
    device: &DeviceSecrets,
    policy: &Policy,
    source: &mut S,
    sink: &mut K,
    disk: &mut D,
    entropy: &mut N,
) -> Status
    // Status 2 exactly where the words are no form, and then nothing is read, drawn, written or changed.
    ensures usage { (result ≡ Status.Usage) ↔ (form_said words.now ≡ None) }
    ensures untouched { result ≡ Status.Usage → (source.new ≡ source.old) × (sink.new ≡ sink.old) × (disk.new ≡ disk.old) × (entropy.new ≡ entropy.old) }

    // What a form does. Of a run: one legal history over the lasting part of the store follows the lines of the source with a text of
    // replies, draws what the entropy gives and is kept on the disk, as each status says. What is written is that text, or with `--trace`
    // the trace of that history.
    ensures does { (form : Form) → form_said words.now ≡ Some form →
        Does S.Source K.Sink D.Disk N.Entropy device.now policy.now form (outside source.old sink.old disk.old entropy.old) (outside source.new sink.new disk.new entropy.new) result }

    // A script within the limits, over a formatted disk that tells its content, with no failed call: status 0 and all of the text, or all
    // of the trace, in which no line is a settled one or has the code 4, 8 or 1005; or want of memory.
    ensures complete { (fresh : Bool) (slots : ℕ) (written : Written) (start : Lasting) (bytes : List ℕ) → form_said words.now ≡ Some (Form.Run fresh slots written) →
        IsReady S.Source K.Sink D.Disk N.Entropy fresh start bytes (outside source.old sink.old disk.old entropy.old) →
        AreFaultless S.Source K.Sink D.Disk N.Entropy (outside source.old sink.old disk.old entropy.old) (outside source.new sink.new disk.new entropy.new) →
        Completes S.Source K.Sink D.Disk N.Entropy (given device.now policy.now slots written) fresh start bytes
        (outside source.old sink.old disk.old entropy.old) (outside source.new sink.new disk.new entropy.new) result }

    // A read failed exactly where the status says so, and so did a write. With status 6 a call of the disk failed, and with 2 or 7
    // none did.
    ensures source_faults { CountsFaults (S.fault_count source.old) (S.fault_count source.new) (is_read_fault result) }
    ensures sink_faults { CountsFaults (K.fault_count sink.old) (K.fault_count sink.new) (is_write_fault result) }
    ensures disk_faults { IsCause (D.fault_count disk.old) (D.fault_count disk.new) (disk_told result) }
{
    match form_of(words) {
        None => Status::Usage,
        Some(Form::Init) => format(disk),
        Some(
            Form::Run {
                fresh,
                slots,
                written,
            },
        ) => {
            let handed = Handed {
                source,
                sink,
                disk,
                entropy,
            };
            if fresh {
                serve_fresh(alloc, device, policy, slots, written, handed)
            } else {
                serve_store(alloc, device, policy, slots, written, handed)
            }
        }
        Some(Form::Soak { seed, lines }) => soak(alloc, seed, lines, sink),
    }
}
