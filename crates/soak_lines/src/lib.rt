//! A reproducible load: the lines of a script that a seed fixes, and the summary of what they were answered.
//!
//! Its contract: `SoakScript` gives the lines of the definition in `specs/Lines.antt`, one after another, and `Summary` is that of
//! the reply lines that it was given (`specs/Summary.antt`). The load is the service's own; its words are those of
//! `ChaCha20Rng` (RFC 8439, section 2.3).
#![tactic(auto)]

mod call;
mod line;
mod script;
mod summary;

pub use script::{MOST_LINES, SoakScript, seed_of};
pub use summary::Summary;
