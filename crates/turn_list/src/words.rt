//! The words of the command line.
ghost use Rattle.std.specs.Prelude.{◌≡◌, ◌<◌, ◌≤◌, All, IfOk, IfSome};
ghost use Rattle.byte_strings.specs.Numbers.{IsThreadCount};
ghost use Rattle.turn_list.specs.Words.{kind_named};

use byte_strings::{number_in, threads_in};
use std::{env, io};

/// What the list lies behind.
#[derive(Clone, Copy, Debug, PartialEq, Eq)]
pub enum ListKind {
    Lock,
    Mutex,
}

/// `KIND ITEMS THREADS..`
#[derive(Drop)]
pub struct ListWords {
    pub kind: ListKind,
    pub items: u64,
    pub threads: Vec<u32>,
}

fn kind_of(word: &str) -> Option<ListKind>
    ensures { result ≡ kind_named word.now }
{
    if word == "lock" {
        Some(ListKind::Lock)
    } else if word == "mutex" {
        Some(ListKind::Mutex)
    } else {
        None
    }
}

impl ListWords {
    /// The words behind the program's name, where they are of this form.
    pub fn read(rt: &HostRuntime) -> io::Result<Option<ListWords>>
        ensures counts { IfOk result (λ o. IfSome o (λ words. All IsThreadCount words.threads.items)) }
    {
        let mut args = env::args(rt)?.skip(1);
        let Some(first) = args.next() else {
            return Ok(None);
        };
        let Some(kind) = kind_of(&first) else {
            return Ok(None);
        };
        let Some(second) = args.next() else {
            return Ok(None);
        };
        let Some(items) = number_in(0, u64::MAX, second.as_bytes()) else {
            return Ok(None);
        };
        let mut threads = Vec::new(rt.alloc());
        for word in args {
            let Some(count) = threads_in(word.as_bytes()) else {
                return Ok(None);
            };
            threads.push(count)?;
        }
        Ok(Some(ListWords {
            kind,
            items,
            threads,
        }))
    }
}
