//! A process, from its words to its number.

ghost use Rattle.std.specs.Prelude.{◌≡◌};
ghost use Rattle.keystore_process.specs.Processes.{ByDevice, DoesWords, Ends, refused_as};

use crate::asked::{begins_with, text_asked};
use crate::device::{Device, RefusedFile, device_here};
use crate::running::run;
use crate::serving::serve;
use crate::system::System;
use device_files::FileTrouble;
use keystore_run::Status;
use ks_outside::Listener;
use std::alloc::Global;
use std::sync::Wait;
use std::thread::Threads;

/// The status of a process a file of whose device was not taken.
fn refused<P: System>(system: &P, file: &RefusedFile) -> Status
    ensures { result ≡ refused_as file.now.trouble }
{
    system.tell_file(file.name, &file.trouble);
    match &file.trouble {
        FileTrouble::Memory => Status::Memory,
        _ => Status::Usage,
    }
}

/// What a device does of words.
fn processed<R: Threads + Wait + Sync, P: System>(
    threads: &R,
    system: &P,
    alloc: Global,
    words: &[String],
    device: &Device,
) -> Status
where
    P::Store: Send,
    P::Random: Send,
    P::Port: Send,
    <P::Port as Listener>::L: Send,
    P::Time: Sync,
    ensures { DoesWords P.System system.now P.Output.Sink P.Store.Disk P.Random.Entropy P.Port.Listener P.Port.L.Link P.Time.shows P.Port.leaves P.Input.Source words.now device.now result }
{
    if begins_with(words, "serve") {
        return serve(threads, system, alloc, words, device);
    }
    let end = run(system, alloc, words, device);
    system.tell_run(words, device, &end);
    end.status
}

/// What words that ask for no text come to, by the device of the process's files.
fn by_device<R: Threads + Wait + Sync, P: System>(
    threads: &R,
    system: &P,
    alloc: Global,
    words: &[String],
) -> Status
where
    P::Store: Send,
    P::Random: Send,
    P::Port: Send,
    <P::Port as Listener>::L: Send,
    P::Time: Sync,
    ensures { ByDevice P.System system.now P.Output.Sink P.Store.Disk P.Random.Entropy P.Port.Listener P.Port.L.Link P.Time.shows P.Port.leaves P.Input.Source words.now result }
{
    let device = match device_here(system, alloc) {
        Ok(device) => device,
        Err(file) => return refused(system, &file),
    };
    processed(threads, system, alloc, words, &device)
}

/// Does what the process's words ask for, and gives the number that the process ends with. A text is printed before any file is read; the
/// files of the device are read before the words are looked at.
pub fn process_words<R: Threads + Wait + Sync, P: System>(
    threads: &R,
    system: &P,
    alloc: Global,
) -> u8
where
    P::Store: Send,
    P::Random: Send,
    P::Port: Send,
    <P::Port as Listener>::L: Send,
    P::Time: Sync,
    ensures { Ends P.System system.now P.Output.Sink P.Store.Disk P.Random.Entropy P.Port.Listener P.Port.L.Link P.Time.shows P.Port.leaves P.Input.Source result }
{
    let Ok(words) = system.words() else {
        system.tell(Status::Memory, &[]);
        return Status::Memory.number();
    };
    let words = words.as_slice();
    if let Some(asked) = text_asked(words) {
        return system.print(asked).number();
    }
    by_device(threads, system, alloc, words).number()
}
