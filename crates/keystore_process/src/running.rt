//! A run of a process.

ghost use Rattle.keystore_process.specs.Processes.{IsRun};

use crate::asked::is_alone;
use crate::device::Device;
use crate::ended::{RunEnd, STORE};
use crate::system::System;
use keystore_run::run_words;
use std::alloc::Global;

/// Runs the words over the process's input and output, store and random device.
pub(crate) fn run<P: System>(
    system: &P,
    alloc: Global,
    words: &[String],
    device: &Device,
) -> RunEnd<P::Output, P::Store>
    ensures { IsRun P.System system.now P.Input.Source P.Output.Sink P.Store.Disk P.Random.Entropy words.now device.now result }
{
    let mut source = system.input();
    let mut output = system.output();
    let mut store = system.store(STORE, is_alone(words, "init"));
    let mut random = system.random();
    let status = run_words(
        alloc,
        words,
        &device.secrets,
        &device.policy,
        &mut source,
        &mut output,
        &mut store,
        &mut random,
    );
    RunEnd {
        status,
        output,
        store,
    }
}
