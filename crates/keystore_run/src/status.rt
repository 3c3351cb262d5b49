//! How a run ends.

use std::fmt;

/// How a run ended.
#[derive(Clone, Copy, Debug, PartialEq, Eq)]
pub enum Status {
    /// The input was read to its end.
    Ok,
    /// Memory was wanting.
    Memory,
    /// The words are no form of the command line.
    Usage,
    /// The source failed.
    ReadFault,
    /// The sink failed.
    WriteFault,
    /// A line, counted from 1, passes 262,144 bytes without its LF.
    LineTooLong { line: u64 },
    /// The disk failed while the store was formatted or opened.
    DiskFault,
    /// The bytes of the disk stand for no store; `offset` is where they fail.
    Corrupted { offset: u64 },
    /// 2^30 bytes were taken without an end.
    ScriptTooLong,
    /// The listener failed.
    ListenFault,
}

impl Status {
    ghost use Rattle.std.specs.Prelude.{◌≡◌};
    ghost use Rattle.keystore_run.specs.Status.{number_of};

    /// The exit status of the program.
    pub fn number(self) -> u8
        ensures { result ≡ number_of self }
    {
        match self {
            Status::Ok => 0,
            Status::Memory => 1,
            Status::Usage => 2,
            Status::ReadFault => 3,
            Status::WriteFault => 4,
            Status::LineTooLong { .. } => 5,
            Status::DiskFault => 6,
            Status::Corrupted { .. } => 7,
            Status::ScriptTooLong => 8,
            Status::ListenFault => 9,
        }
    }
}

impl fmt::Display for Status {
    ghost use Rattle.std.specs.Prelude.{Some};
    ghost use Rattle.keystore_run.specs.Status.{text_of};

    ghost output = { λ status. Some (text_of status) };

    fn fmt<W: fmt::Write>(&self, f: &mut fmt::Formatter<W>) -> fmt::Result {
        match self {
            Status::Ok => f.write_str("ok"),
            Status::Memory => f.write_str("want of memory"),
            Status::Usage => f.write_str("usage"),
            Status::ReadFault => f.write_str("read fault"),
            Status::WriteFault => f.write_str("write fault"),
            Status::LineTooLong { line } => write!(f, "line {line} too long"),
            Status::DiskFault => f.write_str("disk fault"),
            Status::Corrupted { offset } => write!(f, "store corrupted at {offset}"),
            Status::ScriptTooLong => f.write_str("script too long"),
            Status::ListenFault => f.write_str("listen fault"),
        }
    }
}
