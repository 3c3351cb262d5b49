//! Failures that pass, and how long they are waited for.

ghost use Rattle.std.specs.Prelude.{◌≡◌, ◌<◌, ◌≤◌, ◌+◌, IfSome};
ghost use Rattle.outside_net.specs.declared.passing.TheConstants.{TOGETHER};
ghost use Rattle.outside_net.specs.Passing.{is_passing_code, is_passing_kind, is_passing, pause_behind};

use std::io::{Error, ErrorKind};

/// The first pause, in milliseconds.
const FIRST: u64 = 50;

/// The longest pause, in milliseconds.
const LONGEST: u64 = 1_000;

/// How long all pauses of one call are together, in milliseconds.
const TOGETHER: u64 = 60_000;

/// Linux's numbers for a system and a process that are out of file descriptors, and for a system that is out of buffers; std has no kind of
/// error for them.
const ENFILE: i32 = 23;

const EMFILE: i32 = 24;

const ENOBUFS: i32 = 105;

/// Whether a number of the system is that of a failure that passes.
fn code_passes(code: Option<i32>) -> bool
    ensures { result ≡ is_passing_code code }
{
    match code {
        Some(code) => code == ENFILE || code == EMFILE || code == ENOBUFS,
        None => false,
    }
}

/// Whether a kind of error is that of a failure that passes.
fn kind_passes(kind: ErrorKind) -> bool
    ensures { result ≡ is_passing_kind kind }
{
    match kind {
        ErrorKind::ConnectionAborted | ErrorKind::Interrupted | ErrorKind::OutOfMemory => true,
        _ => false,
    }
}

/// Whether a call that failed so may succeed a moment later: the client took its connection back, a signal came, or the process or the
/// system is out of file descriptors, of buffers or of memory.
pub(crate) fn passes(error: &Error) -> bool
    ensures { result ≡ is_passing error.now }
{
    kind_passes(error.kind()) || code_passes(error.raw_os_error())
}

/// How long is waited before a call is made again, in milliseconds, where this error was its answer, and so much was waited before it:
/// 50, then twice as long each time, up to a second, and a minute together. `None`: it is not made again.
pub(crate) fn pause_after(error: &Error, waited: u64) -> Option<u64>
    ensures pause { result ≡ pause_behind error.now waited }
    ensures together { IfSome result (λ pause. (0 < pause) × (waited + pause ≤ TOGETHER)) }
{
    if waited < TOGETHER && passes(error) {
        let pause = waited.saturating_add(FIRST).min(LONGEST);
        Some(pause.min(TOGETHER - waited))
    } else {
        None
    }
}
