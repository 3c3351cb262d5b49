//! A grant, in numbers.

ghost use Rattle.std.specs.Prelude.{◌≡◌};
ghost use Rattle.held_rows.specs.Rows as spec;

use grants::GrantRow;
use key_domains::Permissions;

/// A grant of a key to a uid, in numbers.
#[derive(Clone, Copy, Debug, PartialEq, Eq)]
pub struct HeldRow {
    /// the grant's number, from 1 on
    pub grant: u64,
    /// the number of the key that is shared
    pub key: u64,
    /// the uid that it is shared with
    pub uid: u32,
    /// what that uid may do with the key, a bit for each permission
    pub bits: u32,
}

impl HeldRow {
    /// The numbers of a grant. It takes no memory.
    pub fn of(row: &GrantRow) -> HeldRow
        ensures { result ≡ spec.held_row row.now }
    {
        HeldRow {
            grant: row.grant,
            key: row.key,
            uid: row.uid,
            bits: row.bits.bits(),
        }
    }

    /// The grant of these numbers. It takes no memory.
    pub fn grant_row(&self) -> GrantRow
        ensures { result ≡ spec.grant_of self.now }
    {
        GrantRow {
            grant: self.grant,
            key: self.key,
            uid: self.uid,
            bits: Permissions::of_bits(self.bits),
        }
    }
}
