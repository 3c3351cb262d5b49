//! Why bytes are no authorization list.

ghost use Rattle.std.specs.Prelude.{◌≡◌};
ghost use Rattle.tag_lists.specs.declared.fault.ListFault.TheVariants.{Memory};

use std::alloc::{AllocError, AllocFailed};
use std::fmt;

/// Why bytes are no authorization list: the fault of least offset. `at` is the offset of the parameter in bytes.
#[derive(Clone, Copy, Debug, PartialEq, Eq)]
pub enum ListFault {
    /// No tag has these 28 low bits.
    UnknownTag { at: u64 },
    /// The 28 low bits are a tag's of another type, or the byte of a flag is not 01.
    WrongKind { at: u64 },
    /// A second parameter of a tag whose type is not a REP type.
    Repeated { at: u64 },
    /// The bytes end within a parameter. A list that is cut within its count is truncated at 0.
    Truncated { at: u64 },
    /// Bytes stand behind the last parameter; `at` is the offset of the first of them.
    Trailing { at: u64 },
    /// Want of memory.
    Memory,
}

impl From<AllocError> for ListFault {
    ghost from_gives = { λ _ e. e ≡ Memory };

    fn from(_fault: AllocError) -> ListFault {
        ListFault::Memory
    }
}

impl<T: Drop> From<AllocFailed<T>> for ListFault {
    ghost from_gives = { λ _ e. e ≡ Memory };

    fn from(_fault: AllocFailed<T>) -> ListFault {
        ListFault::Memory
    }
}

impl fmt::Display for ListFault {
    fn fmt<W: fmt::Write>(&self, f: &mut fmt::Formatter<W>) -> fmt::Result {
        match self {
            ListFault::UnknownTag { at } => write!(f, "no tag is known by the number at byte {at}"),
            ListFault::WrongKind { at } => write!(
                f,
                "the parameter at byte {at} has another type than its tag"
            ),
            ListFault::Repeated { at } => write!(f, "the parameter at byte {at} repeats its tag"),
            ListFault::Truncated { at } => write!(
                f,
                "the list is cut in the parameter at byte {at}"
            ),
            ListFault::Trailing { at } => write!(
                f,
                "the list has more bytes behind its last parameter, from byte {at} on"
            ),
            ListFault::Memory => f.write_str("memory was wanting"),
        }
    }
}
