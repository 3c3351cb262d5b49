//! A process of the key service: what it has of its system, and what it does of its words.
//!
//! The one contract is that of `process_words`, over any system (`System`): the device and the policy are those of the process's files, and
//! its input, output, store, random device, clock and port are what reaches `run_words` of `keystore_run` and `serve_words` of
//! `keystore_server`; it ends with the number of the status that came of it (`specs/Processes.antt`).
#![tactic(auto)]

mod asked;
mod device;
mod ended;
mod processing;
mod running;
mod serving;
mod system;

pub use asked::{TextAsked, begins_with, text_asked};
pub use device::{DEVICE, Device, POLICY};
pub use ended::{RunEnd, STORE};
pub use processing::process_words;
pub use system::System;
