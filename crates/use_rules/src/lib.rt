//! Table B: whether an operation may begin, by the facts that the service gathered, and what its work then is.
//!
//! Its one contract: the answer is the first rule of the table that does not hold, with its code, or else the plan.
//! The table stands in `specs/Table.antt`, each of its rules in `specs/Rules.antt`, and the plan and the nonce in
//! `specs/Plans.antt`. The rules and their order are the service's own; tags and codes have the names of Android's
//! AIDL documents `Tag`, `ErrorCode` and `ResponseCode`.
#![tactic(auto)]

mod facts;
mod plans;
mod rules;
mod table;

pub use facts::BeginFacts;
pub use plans::{challenge_wanted, nonce_given, nonce_wanted};
pub use table::check_begin;
