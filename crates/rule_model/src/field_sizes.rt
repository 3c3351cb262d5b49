//! How long the fields of a reply may be.

ghost use Rattle.std.specs.Prelude.{◌≡◌};
ghost use Rattle.rule_model.specs.ReplyRooms.{no_sizes, sizes_of};

use crate::Act;
use tags::{ALIAS_BYTES, BLOB_BYTES, KEPT_LIST_BYTES, LISTED};

/// The most bytes of each field of a reply, and the most entries of its listing.
#[derive(Clone, Copy, Debug, PartialEq, Eq)]
pub struct FieldSizes {
    pub alias: usize,
    pub nonce: usize,
    pub out: usize,
    pub blob: usize,
    pub list: usize,
    /// how many entries, each with an alias of at most `ALIAS_BYTES` bytes
    pub entries: usize,
}

/// No field of bytes.
pub const NO_SIZES: FieldSizes = FieldSizes {
    alias: 0,
    nonce: 0,
    out: 0,
    blob: 0,
    list: 0,
    entries: 0,
};

impl FieldSizes {
    /// What the reply of such an act may have, with an output of at most `out` bytes. It takes no memory.
    pub fn of(act: &Act, out: u64) -> FieldSizes
        ensures { result ≡ sizes_of act.now out }
    {
        match act {
            Act::GenerateKey { .. } => FieldSizes {
                blob: BLOB_BYTES,
                ..NO_SIZES
            },
            Act::ImportKey { .. } => FieldSizes {
                blob: BLOB_BYTES,
                ..NO_SIZES
            },
            Act::UpgradeKey { .. } => FieldSizes {
                blob: BLOB_BYTES,
                ..NO_SIZES
            },
            Act::ImportWrappedKey { .. } => FieldSizes {
                blob: BLOB_BYTES,
                ..NO_SIZES
            },
            Act::CreateOperation { .. } => FieldSizes {
                nonce: 16,
                ..NO_SIZES
            },
            Act::GetKeyEntry { .. } => FieldSizes {
                alias: ALIAS_BYTES,
                list: KEPT_LIST_BYTES,
                ..NO_SIZES
            },
            Act::ListEntriesBatched { .. } => FieldSizes {
                entries: LISTED,
                ..NO_SIZES
            },
            Act::Leave { .. } => FieldSizes {
                out: out as usize,
                ..NO_SIZES
            },
            _ => NO_SIZES,
        }
    }
}
