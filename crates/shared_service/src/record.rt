//! The book of a service while it grows, with its tally.

ghost use Rattle.std.specs.Prelude.{◌≡◌, ◌+◌, ◌≤◌, ◌<◌, ◌^◌, ◌++◌, ◌∷◌, [], length, OnOk};
ghost use Rattle.service_book.specs.Book.{log_of};
ghost use Rattle.service_book.specs.Limits.{bytes_of, passes_limit, recorded};
ghost use Rattle.service_book.specs.Tallies.{IsTally};

use service_book::{Book, BookEntry, Tally};
use std::alloc::Global;
use tags::NoMemory;

/// The entries, the oldest first, and what the limits ask of them.
#[derive(Drop)]
pub struct Record {
    book: Vec<BookEntry>,
    tally: Tally,
    ghost counted: { IsTally (log_of book.items) tally },
}

mod growing;
