//! Threads that call one service at once, over an empty store in memory.
//!
//! A load is a plan of calls, which each thread makes by a pass of its own; a board has the threads' signals and counts what
//! their calls came to. Its contracts: `run` (`src/running.rt`) has the passes end the service together, and its book is one legal
//! history of all their calls; `Load::read` (`src/words.rt`) gives the load that words ask for.
#![tactic(auto)]

mod board;
mod caller;
mod counts;
mod load;
mod plan;
mod requests;
mod running;
mod service;
mod words;

pub use board::Board;
pub use counts::Counts;
pub use load::{Load, LoadKind};
pub use plan::{LoadCall, LoadPlan, MACS, USES};
pub use running::run;
