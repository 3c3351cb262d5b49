//! The keys, grants and next numbers that last, as a table in memory, which stands on no journal.
//!
//! Its contract: `LastingTable` is seen as a lasting part (`lasting_in` of `specs/TableView.antt`) with the room for more
//! keys and grants, each look-up is a search of it (`journal_records/specs/Lookups.antt`), and a change that is made leaves
//! what `after` says of it (`journal_records/specs/Effects.antt`). It is what a store can hold (`storable`), and the length
//! of its snapshot stands ready (`snapshot_length`); it tells its rows in their order (`held_rows::Held`). `TableReplay`
//! takes the records of a store one behind the other, each with its need met, and gives the table that they leave.
//!
//! ```rust
//! use lasting_table::LastingTable;
//!
//! let mut table = LastingTable::empty(alloc);
//! if table.meets(&change) {
//!     table.reserve(&change)?;
//!     table.make(change);
//! }
//! ```
#![tactic(auto)]

mod compared;
mod held;
mod lasting;
mod part;
mod replay;
mod widths;

pub use lasting::LastingTable;
pub use replay::{Stage, TableReplay};
