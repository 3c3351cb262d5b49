//! The open operations in their slots, of which there is a bounded number.
//!
//! Its one contract: `Slots` is a list of operations in the order in which they began, each with its number, owner, client,
//! the stamp of its last begin or return, and its value, which is out while the operation is busy. What the list holds and what
//! each call makes of it stands in `specs/Table.antt`; how the operations are kept is no part of it: each in a place of its
//! own, with an index of numbers and a count for each uid that are searched by halving, and the idle ones in chains. Only
//! `clear` walks over the operations, and only `Slots::with_capacity` takes memory. Slots, stamps and numbers are the
//! service's own, and of no standard.
#![tactic(auto)]

mod board;
mod cells;
mod counts;
mod index;
mod operation;
mod slots;

use operation::SlotOperation;
pub use operation::{OpId, Taken};
pub use slot_chain::Steps;
pub use slots::Slots;
