//! What is kept with a new key, and drawn for it.

use tag_lists::AuthList;
use tags::Bytes;

/// What is kept with a new key, and how much is drawn for it.
#[derive(Debug, Drop)]
pub struct KeyPlan {
    /// the kept list, which has neither APPLICATION_ID nor APPLICATION_DATA
    pub list: AuthList,
    /// the caller's APPLICATION_ID, at most 1,024 bytes
    pub app_id: Option<Bytes>,
    /// the caller's APPLICATION_DATA, at most 1,024 bytes
    pub app_bytes: Option<Bytes>,
    /// how many uses the key has, or 0 where they are not counted
    pub limit: u32,
    /// how many bytes of material are drawn: all of a generated key's, and none for an import
    pub size: usize,
}
