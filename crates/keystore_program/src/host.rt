//! What this process has of its system: its words, the files of the current folder, its standard streams, the system's random device and
//! clocks, and ports of this machine. No clause is of these, so whatever is made here is of the process.

ghost use Rattle.std.specs.Prelude.{◌≡◌, ⊤, is_some};

use crate::announced::Announced;
use crate::help::{help_text, version_text};
use crate::notices::{
    tell_counts, tell_device, tell_file, tell_full, tell_misuse, tell_port, tell_store,
};
use crate::tally::ReplyTally;
use device_files::{FileTrouble, read_file};
use file_disk::{FileDisk, StoreFile, open_store};
use keystore_process::{DEVICE, Device, RunEnd, System, TextAsked, begins_with};
use keystore_run::Status;
use keystore_server::{ServeEnd, serve_form_of};
use ks_outside::{DeviceEntropy, MachineClock, ReaderSource, WriterSink, open_device};
use outside_net::{Patience, PortListener, listen};
use std::io::{Input as Standard, Printer, StdinLock};
use std::net::TcpListener;
use std::{env, fs, io};
use tags::{Bytes, NoMemory};

/// How long a connection of a service is waited for: five minutes for bytes to come, and half a minute for bytes to be taken.
const PATIENCE: Patience = Patience {
    read: 300_000,
    write: 30_000,
};

/// The system of this process.
#[derive(Drop)]
pub struct Host<'a, W: Print> {
    rt: &'a HostRuntime,
    /// what output is printed to
    printer: &'a W,
}

impl<'a, W: Print> Host<'a, W> {
    pub fn new(rt: &'a HostRuntime, printer: &'a W) -> Host<'a, W> {
        Host { rt, printer }
    }

    /// Prints the help on standard error, where there is memory for it.
    fn print_help(&self) {
        let rt = self.rt;
        if let Ok(text) = help_text(rt.alloc()) {
            let _ = eprint!(rt; "{text}");
        }
    }
}

impl<'a, W: Print> System for Host<'a, W> {
    type Input = ReaderSource<StdinLock<'static>>;

    type Output = ReplyTally<WriterSink<Printer<'a, W>>>;

    type Store = FileDisk<StoreFile<'a, HostRuntime>>;

    type Random = DeviceEntropy<fs::File>;

    type Time = MachineClock<'a, HostRuntime>;

    type Port = Announced<'a, PortListener<'a, TcpListener, HostRuntime>>;

    ghost has_words = { λ _ _. ⊤ };

    ghost has_file = { λ _ _ _. ⊤ };

    ghost has_input = { λ _ _. ⊤ };

    ghost has_output = { λ _ _. ⊤ };

    ghost has_trouble = { λ _ _ _. ⊤ };

    ghost has_store = { λ _ _ _ _. ⊤ };

    ghost has_random = { λ _ _. ⊤ };

    ghost has_clock = { λ _ _. ⊤ };

    ghost has_port = { λ _ _ _. ⊤ };

    ghost is_had = { λ port. is_some port.found };

    ghost has_printed = { λ _ _ _. ⊤ };

    fn words(&self) -> Result<Vec<String>, NoMemory> {
        let mut words = Vec::new(self.rt.alloc());
        let Ok(said) = env::args(self.rt) else {
            return Err(NoMemory);
        };
        for word in said.skip(1) {
            words.push(word)?;
        }
        Ok(words)
    }

    fn file(&self, name: &str, most: u64) -> Result<Option<Bytes>, FileTrouble> {
        match read_file(self.rt, name, most)? {
            Some(bytes) => Ok(Some(Bytes::of(bytes))),
            None => Ok(None),
        }
    }

    fn input(&self) -> ReaderSource<StdinLock<'static>> {
        ReaderSource::new(self.rt.reader())
    }

    fn output(&self) -> ReplyTally<WriterSink<Printer<'a, W>>> {
        ReplyTally::new(WriterSink::new(io::writer(self.printer)))
    }

    fn store(&self, name: &'static str, anew: bool) -> FileDisk<StoreFile<'a, HostRuntime>> {
        let mut store = open_store(self.rt, name);
        if anew {
            store.cut();
        }
        store
    }

    fn random(&self) -> DeviceEntropy<fs::File> {
        open_device(self.rt)
    }

    fn clock(&self) -> MachineClock<'a, HostRuntime> {
        MachineClock::new(self.rt)
    }

    fn port(
        &self,
        number: u16,
        is_demo: bool,
    ) -> Announced<'a, PortListener<'a, TcpListener, HostRuntime>> {
        let listener = listen(self.rt, number, PATIENCE);
        let found = listener.port();
        Announced::new(listener, self.rt, number, found, is_demo)
    }

    fn is_open(port: &Announced<'a, PortListener<'a, TcpListener, HostRuntime>>) -> bool
        ensures { result ≡ is_some port.now.found }
    {
        port.is_open()
    }

    fn print(&self, asked: TextAsked) -> Status {
        let rt = self.rt;
        let text = match asked {
            TextAsked::Help => help_text(rt.alloc()),
            TextAsked::Version => version_text(rt.alloc()),
        };
        let status = match text {
            Ok(text) => match print!(rt; "{text}") {
                Ok(()) => Status::Ok,
                Err(_) => Status::WriteFault,
            },
            Err(_) => Status::Memory,
        };
        self.tell(status, &[]);
        status
    }

    fn tell(&self, status: Status, words: &[String]) {
        let rt = self.rt;
        if status != Status::Ok {
            let _ = eprintln!(rt; "keystore2: {status}");
        }
        if status == Status::Usage {
            tell_misuse(rt, words);
            self.print_help();
        }
    }

    fn tell_file(&self, name: &str, trouble: &FileTrouble) {
        let rt = self.rt;
        if let FileTrouble::Memory = trouble {
            self.tell(Status::Memory, &[]);
            return;
        }
        let kind = if name == DEVICE { "device" } else { "policy" };
        let _ = eprintln!(rt; "keystore2: bad {kind} file");
        tell_file(rt, name, trouble);
    }

    fn tell_run(
        &self,
        words: &[String],
        device: &Device,
        end: &RunEnd<ReplyTally<WriterSink<Printer<'a, W>>>, FileDisk<StoreFile<'a, HostRuntime>>>,
    ) {
        self.tell(end.status, words);
        tell_store(self.rt, end.status, &end.store);
        if begins_with(words, "run") && end.status != Status::Usage {
            tell_counts(self.rt, end.output.counts());
            tell_device(self.rt, device.is_demo);
        }
    }

    fn tell_service(
        &self,
        words: &[String],
        status: Status,
        end: &ServeEnd<
            Announced<'a, PortListener<'a, TcpListener, HostRuntime>>,
            FileDisk<StoreFile<'a, HostRuntime>>,
            DeviceEntropy<fs::File>,
        >,
    ) {
        self.tell(status, words);
        tell_store(self.rt, status, &end.disk);
        if let (Some(form), Some(book)) = (serve_form_of(words), &end.book) {
            tell_full(self.rt, book, form.workers);
        }
        if status == Status::ListenFault {
            self.tell_port(end.listener.asked(), &end.listener);
        }
    }

    fn tell_port(
        &self,
        number: u16,
        port: &Announced<'a, PortListener<'a, TcpListener, HostRuntime>>,
    ) {
        tell_port(self.rt, number, port.listener());
    }
}
