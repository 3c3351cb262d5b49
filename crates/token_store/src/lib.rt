//! The last authentication tokens, and which of them opens a key.
//!
//! Its contract: `TokenStore` is the map of the last token of each triple of user, authenticator and kind
//! (`specs/Table.antt`), with room for 256 triples that is taken once; and what it means that a token fits a key stands
//! once (`specs/Fitting.antt`), for the tokens of the store as for one that is shown to an operation. The rules are those
//! of Android's KeyMint for `USER_SECURE_ID`, `USER_AUTH_TYPE` and `AUTH_TIMEOUT`.
#![tactic(auto)]

mod fitting;
mod store;

pub use fitting::fits;
pub use store::{TokenStore, TokensFull};
