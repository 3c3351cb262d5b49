//! What a record says.

use grants::GrantRow;
use tags::Bytes;

/// A change of the lasting part. `specs/Needs.antt` says when it may be made, and `specs/Effects.antt` what it does.
#[derive(Debug, Drop)]
pub enum Change {
    /// A new key, which ends the key under the same owner and alias.
    Create {
        /// the key's number
        id: u64,
        /// 0 for an app's key, 2 for a namespace's
        domain: u8,
        /// the owner's uid or namespace
        nspace: u64,
        /// 1 to 256 bytes of UTF-8
        alias: Bytes,
        /// the sealed key, at most 6,327 bytes
        blob: Bytes,
        /// the authorization list, encoded, at most 4,140 bytes
        list: Bytes,
        /// how many uses the key has in its life, or 0 for no limit
        limit: u32,
    },
    /// The end of a key.
    Delete {
        id: u64,
    },
    /// One use of a key; the last one ends it.
    Use {
        id: u64,
    },
    /// A grant, or other bits for the one that the row's key and uid have.
    Grant {
        row: GrantRow,
    },
    /// The end of a grant.
    Ungrant {
        grant: u64,
    },
    /// The end of all keys of an owner.
    Clear {
        domain: u8,
        nspace: u64,
    },
    /// The end of all app keys of a user.
    Removed {
        user: u32,
    },
    /// Another blob and another list of a key, which stays the same in all else. Its record stands in areas alone.
    Upgrade {
        id: u64,
        /// the sealed key, at most 6,327 bytes
        blob: Bytes,
        /// the authorization list, encoded, at most 4,140 bytes
        list: Bytes,
    },
}
