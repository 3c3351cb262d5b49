//! The rules by which a key is made: table K, tried in its order, and the list that is kept with the key.
//!
//! Its one contract: `check_new` answers the first broken rule of the table in `specs/Table.antt`, with the code of its
//! first part that is broken, and otherwise the plan of `specs/Creation.antt`; each rule stands in `specs/Rules.antt`. The tags and codes are those of Android's
//! AIDL documents `Tag` and `ErrorCode`; the rules follow KeyMint's `IKeyMintDevice`, for AES and HMAC.
#![tactic(auto)]

mod asked;
mod creation;
mod facts;
mod fault;
mod kept;
mod plan;
mod rules;
mod table;
mod values;

pub use asked::read_asked;
pub use creation::{check_new, usable};
pub use facts::{ImportFacts, NewFacts, WrapFacts};
pub use fault::NewFault;
pub use plan::KeyPlan;
