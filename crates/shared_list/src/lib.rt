//! Threads that append to one plain list, behind the turn lock or, to compare, behind a `Mutex`.
//!
//! Its one contract is that of `appended` (`src/run.rt`): each thread's own entries stand in the list in their order, and
//! nothing else. `is_in_order` looks at what came.
#![tactic(auto)]

mod append;
mod list;
mod order;
mod plain;
mod run;

pub use list::ListEntry;
pub use order::is_in_order;
pub use plain::appended_behind_mutex;
pub use run::appended;
