//! Why the bytes of a file spell nothing.

ghost use Rattle.std.specs.Prelude.{◌≡◌};
ghost use Rattle.device_files.specs.declared.fault.FileFault.TheVariants.{Memory};

use std::alloc::{AllocError, AllocFailed};
use std::fmt;
use tags::NoMemory;

/// Why the bytes of a file spell nothing.
#[derive(Clone, Copy, Debug, PartialEq, Eq)]
pub enum FileFault {
    /// the bytes do not have the file's form
    Malformed,
    /// want of memory, and nothing else
    Memory,
}

impl From<AllocError> for FileFault {
    ghost from_gives = { λ _ fault. fault ≡ Memory };

    fn from(_fault: AllocError) -> Self {
        FileFault::Memory
    }
}

impl From<NoMemory> for FileFault {
    ghost from_gives = { λ _ fault. fault ≡ Memory };

    fn from(_fault: NoMemory) -> Self {
        FileFault::Memory
    }
}

impl<T: Drop> From<AllocFailed<T>> for FileFault {
    ghost from_gives = { λ _ fault. fault ≡ Memory };

    fn from(_fault: AllocFailed<T>) -> Self {
        FileFault::Memory
    }
}

impl fmt::Display for FileFault {
    fn fmt<W: fmt::Write>(&self, f: &mut fmt::Formatter<W>) -> fmt::Result {
        match self {
            FileFault::Malformed => f.write_str("the file has not the form that is wanted"),
            FileFault::Memory => f.write_str("memory was wanting"),
        }
    }
}
