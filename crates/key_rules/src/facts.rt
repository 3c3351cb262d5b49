//! What the rules of a new key read.

use key_domains::Permissions;
use tag_lists::AuthList;
use tags::{Bytes, Code, Descriptor};

/// What is known of an imported key.
#[derive(Clone, Copy, Debug, PartialEq, Eq)]
pub struct ImportFacts {
    /// the format's number; RAW is 3
    pub format: u32,
    /// the length of the material in bytes
    pub length: u64,
}

/// What the rules of a wrapped import read of the key under which it comes, and of the wrapped text. A field that only rules
/// after a broken one read may hold any value.
#[derive(Debug, Drop)]
pub struct WrapFacts {
    /// where the wrapping key stands
    pub descriptor: Descriptor,
    /// the bits of the policy's row of the caller's uid and the descriptor's nspace, where there is such a row
    pub row: Option<u32>,
    /// the descriptor finds a key
    pub found: bool,
    /// what the caller may do with that key
    pub bits: Permissions,
    /// the list with the wrapping key's ids as it was read, or the code for one that does not read or is too long
    pub asked: Result<AuthList, Code>,
    /// the list in the wrapping key's blob, and nothing where the blob does not open; where `fits` is false any list
    pub opened: Option<AuthList>,
    /// the blob was sealed for the device's root of trust, and for the application id and data of the list of ids, of which
    /// an absent one is equal to an absent one alone; and its list and material are usable
    pub fits: bool,
    /// the length of the wrapped text in bytes
    pub length: u64,
    /// the wrapped text opens under the wrapping key (NIST SP 800-38F section 6.2, KW-AD)
    pub opens: bool,
}

/// What the rules of a new key read. A field that only rules after a broken one read may hold any value.
#[derive(Debug, Drop)]
pub struct NewFacts {
    /// the client is connected
    pub connected: bool,
    /// where the key is to stand
    pub descriptor: Descriptor,
    /// the bits of the policy's row of the caller's uid and the descriptor's nspace, where there is such a row
    pub row: Option<u32>,
    /// the encoded authorization list
    pub params: Bytes,
    /// the import, or `None` where the key is generated
    pub import: Option<ImportFacts>,
    /// the key under which the import came wrapped, or `None` where none did
    pub wrapped: Option<WrapFacts>,
    /// early boot has ended
    pub early_ended: bool,
    /// the wall reading, in milliseconds
    pub wall: u64,
    /// the version of the device's operating system
    pub os: u32,
    /// the version of its patches
    pub patch: u32,
}
