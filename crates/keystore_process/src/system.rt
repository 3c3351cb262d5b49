//! What a process has of its system.

ghost use Rattle.std.specs.Prelude.{◌≡◌, ℕ, Bool, List, Option, IfOk, IfErr};
ghost use Rattle.device_files.specs.declared.files.FileTrouble.{FileTrouble};
ghost use Rattle.keystore_run.specs.declared.status.Status.{Status};
ghost use Rattle.keystore_process.specs.declared.asked.TextAsked.{TextAsked};
ghost use Rattle.std.specs.declared.string.String.{String};
ghost use Rattle.std.specs.declared.alloc.Global.{Global};

use crate::asked::TextAsked;
use crate::device::Device;
use crate::ended::RunEnd;
use device_files::FileTrouble;
use keystore_run::Status;
use keystore_server::ServeEnd;
use ks_outside::{Clock, Disk, Entropy, Sink, Source};
use outside_net::HangsUp;
use tags::{Bytes, NoMemory};

/// What a process has of its system: its words, the files of its folder, its input and output, a store, a random device, a clock and ports.
/// What is made of it is told by relations, so that who is handed it by this trait alone has no other.
pub trait System {
    type Input: Source + Drop;

    type Output: Sink + Drop;

    type Store: Disk + Drop;

    type Random: Entropy + Drop;

    type Time: Clock + Drop;

    type Port: HangsUp + Drop;

    /// Whether these are the words behind the program's name.
    ghost has_words: { Self → List (String Global) → Type 0 };

    /// Whether the file of this name has these bytes, or is not there.
    ghost has_file: { Self → List ℕ → Option (List ℕ) → Type 0 };

    ghost has_input: { Self → Self.Input → Type 0 };

    ghost has_output: { Self → Self.Output → Type 0 };

    /// Whether the file of this name was not read, for this.
    ghost has_trouble: { Self → List ℕ → FileTrouble → Type 0 };

    /// Whether this is the store of this name, and whether it is to be made anew.
    ghost has_store: { Self → List ℕ → Bool → Self.Store → Type 0 };

    ghost has_random: { Self → Self.Random → Type 0 };

    ghost has_clock: { Self → Self.Time → Type 0 };

    /// Whether these are the connections to the port of this number.
    ghost has_port: { Self → ℕ → Self.Port → Type 0 };

    /// Whether the port could be had.
    ghost is_had: { Self.Port → Bool };

    /// Whether this came of printing a text.
    ghost has_printed: { Self → TextAsked → Status → Type 0 };

    /// The words behind the program's name.
    fn words(&self) -> Result<Vec<String>, NoMemory>
        ensures { IfOk result (λ words. has_words self.now words.items) };

    /// The bytes of the file of this name, of which it may have `most`; None where it is not there.
    fn file(&self, name: &str, most: u64) -> Result<Option<Bytes>, FileTrouble>
        ensures found { IfOk result (λ bytes. has_file self.now name.now bytes) }
        ensures trouble { IfErr result (has_trouble self.now name.now) };

    fn input(&self) -> Self::Input
        ensures { has_input self.now result };

    fn output(&self) -> Self::Output
        ensures { has_output self.now result };

    /// The store of this name, of which nothing is kept where it is to be made anew.
    fn store(&self, name: &'static str, anew: bool) -> Self::Store
        ensures { has_store self.now name.now anew result };

    fn random(&self) -> Self::Random
        ensures { has_random self.now result };

    fn clock(&self) -> Self::Time
        ensures { has_clock self.now result };

    /// The port of this number, or one that is free for 0. Whoever is asked for its first connection says where it is.
    fn port(&self, number: u16, is_demo: bool) -> Self::Port
        ensures { has_port self.now number result };

    /// Whether the port could be had.
    fn is_open(port: &Self::Port) -> bool
        ensures { result ≡ is_had port.now };

    /// Prints a text that was asked for.
    fn print(&self, asked: TextAsked) -> Status
        ensures { has_printed self.now asked result };

    /// Says a status, and where the words are no form what is wrong with them.
    fn tell(&self, status: Status, words: &[String]);

    /// Says why a file was not taken.
    fn tell_file(&self, name: &str, trouble: &FileTrouble);

    /// Says how a run ended.
    fn tell_run(&self, words: &[String], device: &Device, end: &RunEnd<Self::Output, Self::Store>);

    /// Says how a service ended, with this status.
    fn tell_service(
        &self,
        words: &[String],
        status: Status,
        end: &ServeEnd<Self::Port, Self::Store, Self::Random>,
    );

    /// Says why a port was not had.
    fn tell_port(&self, number: u16, port: &Self::Port);
}
