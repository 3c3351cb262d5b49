//! A line of a script, served and answered.

ghost use Rattle.std.specs.Prelude.{◌≡◌, ◌+◌, ◌-◌, ◌^◌, ◌<◌, ◌≤◌};
ghost use Rattle.ks_outside.specs.Faults.{CountsFaults};
ghost use Rattle.rule_model.specs.Entries.{History};
ghost use Rattle.rule_model.specs.Setup.{Setup};
ghost use Rattle.keystore_run.specs.Halts.{is_write_halt};
ghost use Rattle.keystore_run.specs.Serving.{ServesLine};
ghost use Rattle.keystore_run.specs.Session.{StandsFor, devices, entries_in};

use crate::session::Session;
use crate::status::Status;
use crate::writer::write_all;
use crate::written::Written;
use ks_outside::{Disk, Entropy, Sink};
use std::alloc::Global;

/// Why a run stops at a line.
#[derive(Clone, Copy, Debug, PartialEq, Eq)]
pub enum Halt {
    /// memory was wanting
    Memory,
    /// the sink failed
    Write,
}

impl Halt {
    ghost use Rattle.keystore_run.specs.Halts.{status_of};

    /// The status of a run that stops so.
    pub fn status(self) -> Status
        ensures { result ≡ status_of self }
    {
        match self {
            Halt::Memory => Status::Memory,
            Halt::Write => Status::WriteFault,
        }
    }
}

/// Serves a line and writes what is written of it.
pub fn serve_line<K: Sink, D: Disk, N: Entropy>(
    alloc: Global,
    written: Written,
    session: &mut Session,
    sink: &mut K,
    disk: &mut D,
    entropy: &mut N,
    line: &[u8],
) -> Result<(), Halt>
    requires few { entries_in session.old < 2 ^ 62 - 2 }
    ensures serves { (setup : Setup) (past : History) → StandsFor D.Disk setup session.old disk.old past →
        ServesLine K.Sink D.Disk N.Entropy written setup past session.new line.now sink.old sink.new (devices disk.old entropy.old) (devices disk.new entropy.new) result }
    ensures entries { entries_in session.new ≤ entries_in session.old + 3 }
    ensures sink_faults { CountsFaults (K.fault_count sink.old) (K.fault_count sink.new) (is_write_halt result) }
{
    let Ok(answer) = session.answer(alloc, written, disk, entropy, line) else {
        return Err(Halt::Memory);
    };
    match write_all(sink, answer.text.as_slice()) {
        Ok(()) => Ok(()),
        Err(_) => Err(Halt::Write),
    }
}
