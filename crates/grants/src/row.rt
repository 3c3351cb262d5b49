//! A grant.

use key_domains::Permissions;

/// A grant of a key to a uid.
#[derive(Clone, Copy, Debug, PartialEq, Eq)]
pub struct GrantRow {
    /// the grant's number, from 1 on
    pub grant: u64,
    /// the number of the key that is shared
    pub key: u64,
    /// the uid that it is shared with
    pub uid: u32,
    /// what that uid may do with the key
    pub bits: Permissions,
}
