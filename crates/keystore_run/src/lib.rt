//! A run of the key service: its words, a script from a source served over a store, line by line into a sink.
//!
//! The one contract is that of `run_words`, in the module `run`: a legal history follows the lines of the input, its
//! text is what was written, what was drawn for it is what the entropy gave, and what it changes of what lasts is on the
//! disk. Each status says which lines, bytes and text that is (`specs/Ends.antt`).
#![tactic(auto)]

mod answer;
mod handed;
mod jobs;
mod reader;
mod run;
mod serve;
mod session;
mod soak;
mod status;
mod telling;
mod words;
mod writer;
mod written;

pub use run::run_words;
pub use status::Status;
pub use writer::write_all;
