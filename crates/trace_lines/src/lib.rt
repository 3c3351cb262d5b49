//! Lines of a trace: the entries of a history, each as one line that is read back as it.
//!
//! Its one contract: `entry_line` and `entry_of` are the functions of `specs/`. A line is malformed exactly where it reads as no entry
//! or where that entry's line is another, and the line of each entry is read back as it. `ToldEvent` makes such a line in two parts, for
//! an event that its step takes.
#![tactic(auto)]

mod codes;
mod reply_reads;
mod trace;
mod trace_reads;

pub use trace::{ToldEvent, entry_line};
pub use trace_reads::entry_of;
