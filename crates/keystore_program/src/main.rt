//! `keystore2`: the key service of an Android device for symmetric keys, over a script of calls, or over connections.
//!
//! The one contract is that of `process_words`, in `keystore_process`: which of what a process has reaches `run_words` and `serve_words`, and
//! which number it ends with. This file hands it the process (`host.rt`). What is said on standard error begins with the status; causes and
//! notices stand behind it.
#![tactic(auto)]

mod announced;
mod help;
mod host;
mod misuse;
mod notices;
mod streams;
mod tally;

use crate::host::Host;
use crate::streams::hold_streams;
use keystore_process::process_words;
use std::process::ExitCode;

/// The standard streams are made whole before any file is opened.
fn main(rt: HostRuntime) -> ExitCode {
    let streams = hold_streams(&rt);
    let host = Host::new(&rt, &rt);
    let number = process_words(&rt, &host, rt.alloc());
    drop(streams);
    ExitCode::from(number)
}
