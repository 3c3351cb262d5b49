//! The entries of a service's history.

ghost use Rattle.std.specs.Prelude.{◌≡◌};
ghost use Rattle.service_book.specs.Book.{log_of};
ghost use Rattle.service_book.specs.Limits.{recorded};

use crate::BookEntry;
use std::marker::Model;

/// The history of a service, the oldest entry first. It is seen as the list of its entries.
#[derive(Debug, Drop)]
pub struct Book {
    entries: Vec<BookEntry>,
    /// how many bytes of requests and replies they record
    bytes: u64,
    ghost counted: { bytes ≡ recorded (log_of entries.items) },
}

impl Model for Book {
    ghost use Rattle.std.specs.Prelude.{List};
    ghost use Rattle.service_book.specs.declared.entry.BookEntry.{BookEntry};

    ghost Value = { List BookEntry };

    ghost view = { λ book. book.entries.items };
}

impl Book {
    /// The book of these entries, which record so many bytes of requests and replies. It takes no memory.
    pub fn of(entries: Vec<BookEntry>, bytes: u64) -> Book
        requires counted { bytes ≡ recorded (log_of entries.items) }
        ensures { result ≡ entries.items }
    {
        Book { entries, bytes }
    }

    /// Its entries, the oldest first.
    pub fn entries(&self) -> &[BookEntry]
        ensures { result.now ≡ self.now }
    {
        self.entries.as_slice()
    }

    /// How many bytes of requests and replies they record.
    pub fn bytes(&self) -> u64
        ensures { result ≡ recorded (log_of self.now) }
    {
        self.bytes
    }
}
