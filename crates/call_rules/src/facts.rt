//! What the rules of the calls read besides the calls' arguments.

use key_domains::Permissions;
use tags::Code;

/// What the rules of a call on a stored key read. A field that only rules after a broken one read may hold any value.
#[derive(Clone, Copy, Debug, PartialEq, Eq)]
pub struct KeyCallFacts {
    /// the client is connected
    pub connected: bool,
    /// the bits of the policy's row of the caller's uid and the descriptor's nspace, where there is such a row
    pub row: Option<u32>,
    /// the descriptor finds a key
    pub found: bool,
    /// what the caller may do with that key
    pub bits: Permissions,
}

/// What the rules of an upgradeKey read. A field that only rules after a broken one read may hold any value.
#[derive(Clone, Copy, Debug, PartialEq, Eq)]
pub struct UpgradeFacts {
    /// what the rules of every call on a key read; a blob that is handed in is always found, and the bits are then those of the
    /// policy's row
    pub call: KeyCallFacts,
    /// the call's list reads, or the code for one that does not read or is too long
    pub asked: Result<(), Code>,
    /// the key's blob opens
    pub opens: bool,
    /// the blob was sealed for the device's root of trust, and for the application id and data of the call's list, of which an
    /// absent one is equal to an absent one alone
    pub same: bool,
    /// the version of the operating system in the opened list, and 0 where it has none
    pub key_os: u32,
    /// the version of the patches in the opened list, and 0 where it has none
    pub key_patch: u32,
    /// the version of the device's operating system
    pub os: u32,
    /// the version of its patches
    pub patch: u32,
    /// how many bytes the opened list has with both of the device's versions
    pub list: u64,
    /// how many bytes the blob has that is sealed over that list
    pub blob: u64,
}

/// What the rules of a call that the system alone may make read. A field that only rules after a broken one read may hold
/// any value.
#[derive(Clone, Copy, Debug, PartialEq, Eq)]
pub struct SystemCallFacts {
    /// the client is connected
    pub connected: bool,
    /// the client's uid is the system's, 1000
    pub system: bool,
}
