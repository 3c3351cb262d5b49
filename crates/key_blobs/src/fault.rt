//! Why a blob does not open.

ghost use Rattle.std.specs.Prelude.{◌≡◌};
ghost use Rattle.key_blobs.specs.declared.fault.BlobFault.TheVariants.{Format, Memory};

use byte_strings::Short;
use std::alloc::AllocError;
use std::fmt;
use tags::NoMemory;

/// Why a blob does not open: the first of these that there is, in the order `Format` of the bytes, `Tag`, `Format` of the
/// opened text, `Root`, `App`.
#[derive(Clone, Copy, Debug, PartialEq, Eq)]
pub enum BlobFault {
    /// The bytes are no blob, or the tag is right and the opened text is no sealed text.
    Format,
    /// The tag is not that of the nonce and the ciphertext under the device's key.
    Tag,
    /// The root of trust is not the device's.
    Root,
    /// The application id or the application data is not the caller's. An absent one is equal to an absent one alone.
    App,
    /// Want of memory.
    Memory,
}

impl From<Short> for BlobFault {
    ghost from_gives = { λ _ fault. fault ≡ Format };

    fn from(_fault: Short) -> BlobFault {
        BlobFault::Format
    }
}

impl From<AllocError> for BlobFault {
    ghost from_gives = { λ _ fault. fault ≡ Memory };

    fn from(_fault: AllocError) -> BlobFault {
        BlobFault::Memory
    }
}

impl From<NoMemory> for BlobFault {
    ghost from_gives = { λ _ fault. fault ≡ Memory };

    fn from(_fault: NoMemory) -> BlobFault {
        BlobFault::Memory
    }
}

impl fmt::Display for BlobFault {
    fn fmt<W: fmt::Write>(&self, f: &mut fmt::Formatter<W>) -> fmt::Result {
        match self {
            BlobFault::Format => f.write_str("the bytes are no key blob"),
            BlobFault::Tag => f.write_str("the key blob was changed, or another device sealed it"),
            BlobFault::Root => f.write_str("the key blob belongs to another root of trust"),
            BlobFault::App => f.write_str(
                "the application id or the application data is another one",
            ),
            BlobFault::Memory => f.write_str("memory was wanting"),
        }
    }
}
