//! The words of the command line.

use service_load::Load;
use std::{env, io};

/// `check`, or a load
#[derive(Clone, Copy, Debug)]
pub enum LoadWords {
    Check,
    Load(Load),
}

impl LoadWords {
    /// The words behind the program's name, where they are of this form.
    pub fn read(rt: &HostRuntime) -> io::Result<Option<LoadWords>> {
        let mut args = env::args(rt)?.skip(1);
        let Some(kind) = args.next() else {
            return Ok(None);
        };
        let (rounds, threads, more) = (args.next(), args.next(), args.next());
        match (rounds, threads, more) {
            (None, None, None) if kind.as_str() == "check" => Ok(Some(LoadWords::Check)),
            (Some(rounds), Some(threads), None) => {
                Ok(Load::read(&kind, &rounds, &threads).map(LoadWords::Load))
            }
            _ => Ok(None),
        }
    }
}
