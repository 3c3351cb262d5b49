//! Where a store of two areas has its marks and its records.

ghost use Rattle.std.specs.Prelude.{◌≡◌};
ghost use Rattle.journal_compact.specs.Stores as spec;

use tags::JOURNAL_BYTES;

/// What a store of areas begins with, before its version.
pub(crate) const MAGIC: [u8; 7] = *b"KSJRNL0";

/// How many bytes that is.
pub(crate) const MAGIC_BYTES: usize = 7;

/// The version of a journal, which no store of areas has.
pub(crate) const JOURNAL: u8 = 0x31;

/// Where the records of a journal begin.
pub(crate) const JOURNAL_RECORDS: u64 = 8;

/// The version that is written. Every one but that of a journal is a store of areas.
pub(crate) const VERSION: u8 = 0x32;

/// The place of the byte that selects an area: where a journal would end.
pub(crate) const SELECTOR: u64 = JOURNAL_BYTES;

/// The byte that selects area A. Every other one selects area B, and this is the one that is written then.
pub(crate) const SELECTS_A: u8 = 0x41;

pub(crate) const SELECTS_B: u8 = 0x42;

/// How many bytes an area has.
pub const AREA_BYTES: u64 = 1_073_741_824;

/// Where area A begins, and where area B does, behind it.
pub(crate) const AREA_A: u64 = 268_439_552;

const AREA_B: u64 = 1_342_181_376;

/// The area that a store's selector selects.
#[derive(Clone, Copy, Debug, PartialEq, Eq)]
pub enum Selected {
    /// The first area, in which a formatted store has its records.
    A,
    /// The second one.
    B,
}

impl Selected {
    /// The area that a byte selects.
    pub(crate) fn by(byte: u8) -> Selected
        ensures { result ≡ spec.selected_by byte }
    {
        if byte == SELECTS_A {
            return Selected::A;
        }
        Selected::B
    }

    /// The area that a selector selects, where it is there or not.
    pub(crate) fn at(byte: Option<u8>) -> Selected
        ensures { result ≡ spec.selected_in byte }
    {
        match byte {
            Some(byte) => Selected::by(byte),
            None => Selected::B,
        }
    }

    /// The byte that is written to select it.
    pub(crate) fn byte(self) -> u8
        ensures { result ≡ spec.byte_of self }
    {
        match self {
            Selected::A => SELECTS_A,
            Selected::B => SELECTS_B,
        }
    }

    /// The other area. It takes no memory.
    pub fn other(self) -> Selected
        ensures { result ≡ spec.other self }
    {
        match self {
            Selected::A => Selected::B,
            Selected::B => Selected::A,
        }
    }

    /// Where the area begins. It takes no memory.
    pub fn start(self) -> u64
        ensures { result ≡ spec.start_of self }
    {
        match self {
            Selected::A => AREA_A,
            Selected::B => AREA_B,
        }
    }

    /// Before which place it ends. It takes no memory.
    pub fn limit(self) -> u64
        ensures { result ≡ spec.limit_of self }
    {
        self.start() + AREA_BYTES
    }
}
