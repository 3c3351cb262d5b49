//! The operations of a history, and the works that are out.

use cipher_ops::Work;
use tag_lists::AuthList;
use tags::{Bytes, Material, Plan};

/// An operation, as its begin left it.
#[derive(Drop)]
pub struct Operation {
    pub number: u64,
    /// the client that began it
    pub client: u64,
    /// the uid of that client
    pub uid: u32,
    /// the key's number, where the key is stored
    pub key: Option<u64>,
    /// the key's material, as the begin read it
    pub material: Material,
    /// the key's list, as the begin read it
    pub list: AuthList,
    /// whether all output comes at the finish
    pub limited: bool,
    pub plan: Plan,
    /// what its cipher starts from
    pub nonce: Bytes,
    /// what a token for it has to name, where one has to be shown to it
    pub challenge: Option<u64>,
}

/// An open operation.
#[derive(Drop)]
pub struct Open {
    /// what began it
    pub operation: Operation,
    /// the additional data of the works that came back, joined
    pub aad: Bytes,
    /// the text of the works that came back, joined
    pub text: Bytes,
    /// the step that touched it last
    pub touched: u64,
    /// the ticket of the work that is out
    pub ticket: Option<u64>,
    /// whether a token was shown to it
    pub shown: bool,
}

/// A work that is out.
#[derive(Drop)]
pub struct Entered {
    /// the number of the operation that it entered
    pub op: u64,
    pub work: Work,
}
