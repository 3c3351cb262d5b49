//! What a blob holds.

use tag_lists::AuthList;
use tags::{Bytes, Material};

/// What is sealed into a blob.
#[derive(Drop)]
pub struct Sealed {
    /// the root of trust that the device had, 32 bytes
    pub root: [u8; 32],
    /// the application id that a caller must give, at most 65,535 bytes
    pub app_id: Option<Bytes>,
    /// the application data that a caller must give, at most 65,535 bytes
    pub app_bytes: Option<Bytes>,
    /// the key's list, of which the encoding has fewer than 2^32 bytes
    pub list: AuthList,
    /// the key's material, at most 255 bytes
    pub material: Material,
}

/// What a blob gives when it opens for a device and a caller.
#[derive(Debug, Drop)]
pub struct Opened {
    /// the key's list
    pub list: AuthList,
    /// the key's material
    pub material: Material,
}
