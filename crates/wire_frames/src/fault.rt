//! Why frames were not read.

ghost use Rattle.std.specs.Prelude.{◌≡◌};
ghost use Rattle.wire_frames.specs.declared.fault.BodyFault.TheVariants as faults;

use byte_strings::Short;
use std::alloc::AllocError;
use std::fmt;
use tags::NoMemory;

/// Why no request was given.
#[derive(Clone, Copy, Debug, PartialEq, Eq)]
pub enum FrameFault {
    /// A frame is bad; the offset is that of its first byte in the stream.
    Bad { offset: u64 },
    /// Memory was wanting.
    Memory,
}

/// Why a body was not read.
#[derive(Clone, Copy, Debug, PartialEq, Eq)]
pub enum BodyFault {
    /// It is not exactly one act.
    Bad,
    /// Memory was wanting.
    Memory,
}

impl From<Short> for BodyFault {
    ghost from_gives = { λ _ fault. fault ≡ faults.Bad };

    fn from(_fault: Short) -> BodyFault {
        BodyFault::Bad
    }
}

impl From<AllocError> for BodyFault {
    ghost from_gives = { λ _ fault. fault ≡ faults.Memory };

    fn from(_fault: AllocError) -> BodyFault {
        BodyFault::Memory
    }
}

impl From<NoMemory> for BodyFault {
    ghost from_gives = { λ _ fault. fault ≡ faults.Memory };

    fn from(_fault: NoMemory) -> BodyFault {
        BodyFault::Memory
    }
}

impl fmt::Display for FrameFault {
    fn fmt<W: fmt::Write>(&self, f: &mut fmt::Formatter<W>) -> fmt::Result {
        match self {
            FrameFault::Bad { offset } => write!(f, "the frame at byte {offset} is bad"),
            FrameFault::Memory => f.write_str("memory was wanting"),
        }
    }
}

impl fmt::Display for BodyFault {
    fn fmt<W: fmt::Write>(&self, f: &mut fmt::Formatter<W>) -> fmt::Result {
        match self {
            BodyFault::Bad => f.write_str("the body is not exactly one act"),
            BodyFault::Memory => f.write_str("memory was wanting"),
        }
    }
}
