//! What the rules of a begin read.

use key_domains::Permissions;
use tag_lists::AuthList;
use tags::{Code, Descriptor};

/// What the rules of a begin read. A field that only rules after a broken one read may hold any value.
#[derive(Debug, Drop)]
pub struct BeginFacts {
    /// the client is connected
    pub connected: bool,
    pub descriptor: Descriptor,
    /// the bits of the policy's row of the caller's uid and the descriptor's nspace, where there is such a row
    pub row: Option<u32>,
    /// the descriptor finds a key; in BLOB it always does
    pub found: bool,
    /// what the caller may do with that key
    pub bits: Permissions,
    /// the begin prunes another operation where no slot is free
    pub forced: bool,
    /// the operation's list as it was read, or the code for one that does not read or is too long
    pub asked: Result<AuthList, Code>,
    /// the list in the key's blob, and nothing where the blob does not open; where `fits` is false any list
    pub opened: Option<AuthList>,
    /// the blob was sealed for the device's root of trust, and for the application id and data of the operation's list, of
    /// which an absent one is equal to an absent one alone; and its list and material are usable
    pub fits: bool,
    /// the version of the device's operating system
    pub os: u32,
    /// the version of its patches
    pub patch: u32,
    /// the wall reading, in milliseconds since 1970
    pub wall: u64,
    /// the caller's user: its uid divided by 100,000
    pub user: u32,
    /// early boot has ended
    pub early_ended: bool,
    /// the caller's user is unlocked
    pub unlocked: bool,
    /// one of the last tokens fits the key and is no older than its AUTH_TIMEOUT
    pub timely: bool,
    /// how many begins on the key were admitted since the last restart
    pub begins: u64,
    /// a slot is free, or an operation gives way
    pub room: bool,
}
