//! `turn_list`: threads that append to one plain list, behind the turn lock or, to compare, behind a `Mutex`.
//!
//! Its one contract is that of `appended`, in `shared_list`: each thread's own entries stand in the list in their order,
//! and nothing else. The program runs it, and looks at what came:
//!
//!     turn_list lock ITEMS THREADS..
//!     turn_list mutex ITEMS THREADS..
//!
//! For each of the numbers THREADS (1 to 64) it starts so many threads, of which each appends ITEMS items, and prints a
//! line.
#![tactic(auto)]

mod words;

ghost use Rattle.std.specs.Prelude.{◌≡◌, IfOk};
ghost use Rattle.shared_list.specs.Lists.{IsInOrder};
ghost use Rattle.turn_list.specs.declared.words.ListKind.TheVariants.{Lock};

use crate::words::{ListKind, ListWords};
use shared_list::{ListEntry, appended, appended_behind_mutex, is_in_order};
use std::alloc::{AllocError, Global};
use std::io;
use std::process::ExitCode;
use std::sync::Wait;
use std::thread::Threads;

/// The entries of one run.
fn listed<R: Threads + Wait + Sync>(
    rt: &R,
    alloc: Global,
    words: &ListWords,
    threads: u32,
) -> Result<Vec<ListEntry>, AllocError>
    ensures lock { words.now.kind ≡ Lock → IfOk result (λ list. IsInOrder threads words.now.items list.items) }
{
    match words.kind {
        ListKind::Lock => appended(rt, alloc, threads, words.items),
        ListKind::Mutex => appended_behind_mutex(rt, alloc, threads, words.items),
    }
}

fn main(rt: HostRuntime) -> io::Result<ExitCode> {
    let Some(words) = ListWords::read(&rt)? else {
        println!(rt; "turn_list: lock or mutex, ITEMS, then numbers of threads from 1 to 64")?;
        return Ok(ExitCode::from(2));
    };
    for threads in words.threads.iter() {
        let entries = listed(&rt, rt.alloc(), &words, *threads)?;
        let found = entries.len();
        if is_in_order(rt.alloc(), entries.as_slice(), *threads, words.items)? {
            println!(rt; "{threads} threads: {found} entries, each thread's own in their order")?;
        } else {
            println!(rt; "{threads} threads: {found} entries, out of order")?;
            return Ok(ExitCode::from(1));
        }
    }
    Ok(ExitCode::SUCCESS)
}
