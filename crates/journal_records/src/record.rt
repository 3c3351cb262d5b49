//! What a record of a store says: a change, or a row of a snapshot.

use crate::change::Change;
use grants::GrantRow;
use tags::Bytes;

/// The greatest kind of a record that an area may hold.
pub const AREA_KINDS: u8 = 11;

/// A key of the lasting part.
#[derive(Debug, Drop)]
pub struct KeyRecord {
    /// the key's number, from 1 on
    pub id: u64,
    /// the domain of the owner: 0 for an app, 2 for a namespace
    pub domain: u8,
    /// the owner's uid or namespace
    pub nspace: u64,
    /// 1 to 256 bytes of UTF-8
    pub alias: Bytes,
    /// the sealed key
    pub blob: Bytes,
    /// the authorization list, encoded
    pub list: Bytes,
    /// how many uses the key has in its life, or 0 for no limit
    pub limit: u32,
    /// how many of them are left, and 0 for a key without a limit
    pub left: u32,
}

impl KeyRecord {
    ghost use Rattle.std.specs.Prelude.{◌≡◌};
    ghost use Rattle.journal_records.specs.Spelling.{numbers_of};

    /// Its numbers. It takes no memory.
    pub fn numbers(&self) -> HeldNumbers
        ensures { result ≡ numbers_of self.now }
    {
        HeldNumbers {
            id: self.id,
            domain: self.domain,
            nspace: self.nspace,
            limit: self.limit,
            left: self.left,
        }
    }
}

/// The numbers of a key of the lasting part; its alias, blob and list lie elsewhere.
#[derive(Clone, Copy, Debug, PartialEq, Eq)]
pub struct HeldNumbers {
    /// the key's number, from 1 on
    pub id: u64,
    /// the domain of the owner: 0 for an app, 2 for a namespace
    pub domain: u8,
    /// the owner's uid or namespace
    pub nspace: u64,
    /// how many uses the key has in its life, or 0 for no limit
    pub limit: u32,
    /// how many of them are left, and 0 for a key without a limit
    pub left: u32,
}

/// What a record says. A snapshot of a lasting part is the row of its next numbers, one for each key and one for each
/// grant; changes of it follow. `specs/States.antt` says when a record may stand behind others, and what it leaves.
#[derive(Debug, Drop)]
pub enum Record {
    /// A change of the lasting part.
    Change { change: Change },
    /// The numbers that the next key and the next grant take.
    Next { key: u64, grant: u64 },
    /// A live key.
    Held { key: KeyRecord },
    /// A grant that is held.
    HeldGrant { row: GrantRow },
}
