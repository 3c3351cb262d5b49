//! Why bytes are no record, why a store was not opened, and why a change was not written.

ghost use Rattle.std.specs.Prelude.{◌≡◌};
ghost use Rattle.journal_records.specs.declared.fault.RecordFault.TheVariants as faults;

use byte_strings::Short;
use std::alloc::AllocError;
use std::fmt;
use tags::NoMemory;

/// Why bytes were not read as a record.
#[derive(Clone, Copy, Debug, PartialEq, Eq)]
pub enum RecordFault {
    /// They are not one framed record.
    Bad,
    /// Memory was wanting.
    Memory,
}

impl From<Short> for RecordFault {
    ghost from_gives = { λ _ fault. fault ≡ faults.Bad };

    fn from(_fault: Short) -> RecordFault {
        RecordFault::Bad
    }
}

impl From<AllocError> for RecordFault {
    ghost from_gives = { λ _ fault. fault ≡ faults.Memory };

    fn from(_fault: AllocError) -> RecordFault {
        RecordFault::Memory
    }
}

impl From<NoMemory> for RecordFault {
    ghost from_gives = { λ _ fault. fault ≡ faults.Memory };

    fn from(_fault: NoMemory) -> RecordFault {
        RecordFault::Memory
    }
}

/// Why a store was not opened.
#[derive(Clone, Copy, Debug, PartialEq, Eq)]
pub enum StoreFault {
    /// A call of the disk failed.
    Device,
    /// The bytes stand for no lasting part; the offset is that of the first thing wrong, in bytes.
    Corrupted { offset: u64 },
    /// Memory was wanting.
    Memory,
}

/// Why a change was not written, where its memory was taken before.
#[derive(Clone, Copy, Debug, PartialEq, Eq)]
pub enum AppendFault {
    /// A call of the disk failed.
    Device,
    /// The record and its closing byte would pass the store's end.
    Full,
}

/// Why a change was not written that takes its memory first.
#[derive(Clone, Copy, Debug, PartialEq, Eq)]
pub enum ApplyFault {
    /// A call of the disk failed.
    Device,
    /// Memory was wanting.
    Memory,
}

/// What each of them says of a call of the disk that failed, of a store's end and of want of memory.
const DEVICE: &str = "a call of the disk failed";

const FULL: &str = "the change has no room before the end of the store";

const MEMORY: &str = "memory was wanting";

impl fmt::Display for RecordFault {
    fn fmt<W: fmt::Write>(&self, f: &mut fmt::Formatter<W>) -> fmt::Result {
        match self {
            RecordFault::Bad => f.write_str("the bytes are no record"),
            RecordFault::Memory => f.write_str(MEMORY),
        }
    }
}

impl fmt::Display for StoreFault {
    fn fmt<W: fmt::Write>(&self, f: &mut fmt::Formatter<W>) -> fmt::Result {
        match self {
            StoreFault::Device => f.write_str(DEVICE),
            StoreFault::Corrupted { offset } => write!(
                f,
                "the store is corrupted at byte {offset}"
            ),
            StoreFault::Memory => f.write_str(MEMORY),
        }
    }
}

impl fmt::Display for AppendFault {
    fn fmt<W: fmt::Write>(&self, f: &mut fmt::Formatter<W>) -> fmt::Result {
        match self {
            AppendFault::Device => f.write_str(DEVICE),
            AppendFault::Full => f.write_str(FULL),
        }
    }
}

impl fmt::Display for ApplyFault {
    fn fmt<W: fmt::Write>(&self, f: &mut fmt::Formatter<W>) -> fmt::Result {
        match self {
            ApplyFault::Device => f.write_str(DEVICE),
            ApplyFault::Memory => f.write_str(MEMORY),
        }
    }
}
