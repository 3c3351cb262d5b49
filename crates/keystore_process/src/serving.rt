//! A service of a process.

ghost use Rattle.std.specs.Prelude.{◌≡◌};
ghost use Rattle.keystore_process.specs.Processes as spec;
ghost use Rattle.keystore_process.specs.Processes.{IsTraced, Serving, Tells, served_as, traced_as};

use crate::device::Device;
use crate::ended::STORE;
use crate::system::System;
use book_traces::{BookFault, write_book};
use keystore_run::Status;
use keystore_server::{ServeEnd, ServeStatus, serve_form_of, serve_words};
use ks_outside::{Listener, OpenGate};
use service_book::Book;
use std::alloc::Global;
use std::sync::Wait;
use std::thread::Threads;

/// The status of the program whose service ended so.
fn status_of(status: ServeStatus) -> Status
    ensures { result ≡ served_as status }
{
    match status {
        ServeStatus::Ok => Status::Ok,
        ServeStatus::Memory => Status::Memory,
        ServeStatus::Usage => Status::Usage,
        ServeStatus::DiskFault => Status::DiskFault,
        ServeStatus::Corrupted { offset } => Status::Corrupted { offset },
        ServeStatus::ListenFault => Status::ListenFault,
    }
}

/// The status of a process whose trace came to this.
fn status_of_trace(written: Result<(), BookFault>) -> Status
    ensures { result ≡ traced_as written }
{
    match written {
        Ok(()) => Status::Ok,
        Err(BookFault::Memory) => Status::Memory,
        Err(BookFault::Write) => Status::WriteFault,
    }
}

/// Writes the book of a service as a trace.
fn trace<P: System>(system: &P, alloc: Global, book: &Option<Book>) -> Status
    ensures { IsTraced P.System system.now P.Output.Sink book.now result }
{
    let mut output = system.output();
    match book {
        Some(book) => status_of_trace(write_book(alloc, book, &mut output)),
        None => Status::Ok,
    }
}

/// Whether a service ended well.
fn is_served(status: ServeStatus) -> bool
    ensures { result ≡ spec.is_served status }
{
    status == ServeStatus::Ok
}

/// Says how a service ended, and gives the status of its process: where the trace was asked for and it ended well, the trace of its book is
/// written, and this is what came of that.
fn outcome<P: System>(
    system: &P,
    alloc: Global,
    words: &[String],
    traced: bool,
    end: &ServeEnd<P::Port, P::Store, P::Random>,
) -> Status
    ensures { Tells P.System system.now P.Output.Sink P.Store.Disk P.Random.Entropy P.Port.Listener P.Port.L.Link P.Time.shows P.Port.leaves traced end.now result }
{
    let status = status_of(end.status);
    system.tell_service(words, status, end);
    if !traced {
        return status;
    }
    if !is_served(end.status) {
        return status;
    }
    let status = trace(system, alloc, &end.book);
    system.tell(status, words);
    status
}

/// Serves connections to a port over the process's store, in threads of this handle. It listens before the store is opened. Where its words
/// ask for the trace, and it ended well, that of its book is written.
pub(crate) fn serve<R: Threads + Wait + Sync, P: System>(
    threads: &R,
    system: &P,
    alloc: Global,
    words: &[String],
    device: &Device,
) -> Status
where
    P::Store: Send,
    P::Random: Send,
    P::Port: Send,
    <P::Port as Listener>::L: Send,
    P::Time: Sync,
    ensures { Serving P.System system.now P.Output.Sink P.Store.Disk P.Random.Entropy P.Port.Listener P.Port.L.Link P.Time.shows P.Port.leaves words.now device.now result }
{
    let Some(form) = serve_form_of(words) else {
        system.tell(Status::Usage, words);
        return Status::Usage;
    };
    let port = system.port(form.port, device.is_demo);
    if !P::is_open(&port) {
        system.tell(Status::ListenFault, words);
        system.tell_port(form.port, &port);
        return Status::ListenFault;
    }
    let clock = system.clock();
    let end = serve_words(
        threads,
        alloc,
        words,
        &device.secrets,
        &device.policy,
        port,
        system.store(STORE, false),
        system.random(),
        &clock,
        &OpenGate,
    );
    outcome(system, alloc, words, form.traced, &end)
}
