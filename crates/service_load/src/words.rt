//! A load, as words ask for it.

ghost use Rattle.std.specs.Prelude.{◌≡◌, IfNone, IfSome};
ghost use Rattle.service_load.specs.Loads.{AsksFor, kind_named};
ghost use Rattle.service_load.specs.declared.load.Load.{Load};

use crate::load::{Load, LoadKind};
use byte_strings::{number_in, threads_in};

impl LoadKind {
    /// The kind of this name.
    fn named(word: &str) -> Option<LoadKind>
        ensures { result ≡ kind_named word.now }
    {
        if word == "macs" {
            Some(LoadKind::Macs)
        } else if word == "updates" {
            Some(LoadKind::Updates)
        } else if word == "book" {
            Some(LoadKind::Book)
        } else {
            None
        }
    }
}

impl Load {
    /// The load of three words: its kind, a number of rounds below 2^32, and 1 to 64 threads. Other words are none.
    pub fn read(kind: &str, rounds: &str, threads: &str) -> Option<Load>
        ensures some { IfSome result (AsksFor kind.now rounds.now threads.now) }
        ensures none { IfNone result ((load : Load) → AsksFor kind.now rounds.now threads.now load → ⊥) }
    {
        let kind = LoadKind::named(kind)?;
        let rounds = number_in(0, u64::from(u32::MAX), rounds.as_bytes())?;
        let threads = threads_in(threads.as_bytes())?;
        Some(Load {
            kind,
            rounds: rounds as u32,
            threads,
        })
    }
}
