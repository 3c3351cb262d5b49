//! `keystore_threads`: threads that call one service at once, over an empty store in memory.
//!
//! Its one contract is that of `run`, in `service_load`: each thread's calls are made by a pass of its own, and the passes end
//! the service together. It is the service's benchmark, and writes the book that a model can replay:
//!
//!     keystore_threads check
//!     keystore_threads macs ROUNDS THREADS
//!     keystore_threads updates ROUNDS THREADS
//!     keystore_threads book ROUNDS THREADS
//!
//! In a round a thread begins and ends a mac of eight bytes, or one of 16 texts of 16 KiB, or one with a key of its own and one
//! with a key that all threads use and that five uses end; `book` writes the book as a trace. The last line counts the macs
//! of the known text and the book's entries. `check` makes the calls of the rows of `src/rows.rt` and says what they came to.
#![tactic(auto)]

mod rows;
mod words;

use crate::rows::{full, held, limited, pair, run_row, show};
use crate::words::LoadWords;
use service_book::Book;
use service_load::{Board, Load, LoadKind, run};
use std::alloc::AllocError;
use std::io::{self, Write};
use std::process::ExitCode;
use trace_lines::entry_line;

/// Writes a book as a trace.
fn write_book(rt: &HostRuntime, book: &Book) -> io::Result<()> {
    let mut out = io::writer(rt);
    for row in book.entries() {
        let Ok(line) = entry_line(rt.alloc(), &row.entry) else {
            return Err(AllocError.into());
        };
        out.write_all(line.as_slice())?;
    }
    Ok(())
}

/// Says what the calls of a load came to.
fn show_load(rt: &HostRuntime, load: Load, right: u64, book: Option<Book>) -> io::Result<ExitCode> {
    let Some(book) = book else {
        println!(rt; "keystore_threads: want of memory")?;
        return Ok(ExitCode::from(1));
    };
    if load.kind == LoadKind::Book {
        write_book(rt, &book)?;
    }
    let entries = book.entries().len();
    println!(rt; "{} threads: {right} macs, {entries} entries", load.threads)?;
    Ok(ExitCode::SUCCESS)
}

fn main(rt: HostRuntime) -> io::Result<ExitCode> {
    match LoadWords::read(&rt)? {
        Some(LoadWords::Check) => {
            show(&rt, pair(), run_row(&rt, rt.alloc(), pair(), 2))?;
            show(&rt, held(), run_row(&rt, rt.alloc(), held(), 2))?;
            show(&rt, limited(), run_row(&rt, rt.alloc(), limited(), 8))?;
            show(&rt, full(), run_row(&rt, rt.alloc(), full(), 1))?;
            Ok(ExitCode::SUCCESS)
        }
        Some(LoadWords::Load(load)) => {
            let board = Board::new(load.kind.plan(), load.rounds);
            let book = run(&rt, rt.alloc(), &board, load.threads);
            show_load(&rt, load, board.counts().right, book)
        }
        None => {
            println!(rt;
                "keystore_threads: check; or macs, updates or book, ROUNDS, and THREADS from 1 to 64"
            )?;
            Ok(ExitCode::from(2))
        }
    }
}
