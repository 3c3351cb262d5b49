//! Table S: whether a step of an operation is let through, by the facts that the service gathered of it.
//!
//! Its one contract: the answer is the first rule of the table that does not hold, with its code. The table and each
//! of its rules stand in `specs/Table.antt` and `specs/Rules.antt`. The rules and their order are the service's own;
//! the names of the codes are those of Android's `ErrorCode` and `ResponseCode`.
#![tactic(auto)]

mod facts;
mod rules;
mod table;

pub use facts::{StepFacts, StepKind};
pub use table::{check_step, ends_operation};
