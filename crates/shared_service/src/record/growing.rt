//! How the book grows.

ghost use Rattle.std.specs.Prelude.{◌≡◌, ◌+◌, ◌≤◌, ◌<◌, ◌^◌, ◌++◌, ◌∷◌, [], length, IsSome, OnOk};
ghost use Rattle.service_book.specs.Book.{log_of};
ghost use Rattle.service_book.specs.Limits.{bytes_of, clients_in, passes_limit, recorded, tickets_in};
ghost use Rattle.wire_frames.specs.Sizes as sizes;
ghost use Rattle.shared_service.specs.Calls.{settling_by};
ghost use Rattle.shared_service.specs.Records.{book_in, places_in};
ghost use Rattle.shared_service.specs.Stamps.{stamped_before, stamped_behind};

use super::Record;
use crate::stamp::Stamp;
use rule_model::{Act, Entry};
use service_book::{Book, BookEntry, Tally};
use std::alloc::Global;
use tags::{NoMemory, Settled};

impl Record {
    /// The empty book.
    pub(crate) fn new(alloc: Global) -> Record
        ensures { book_in result ≡ [] }
    {
        Record {
            book: Vec::new(alloc),
            tally: Tally::new(),
        }
    }

    /// How many entries it has.
    pub(crate) fn len(&self) -> u64
        ensures { result ≡ length (book_in self.now) }
    {
        self.book.len() as u64
    }

    /// Whether a call with a frame of this length passes a limit.
    pub(crate) fn is_full(&self, act: &Act, frame: u64) -> bool
        requires frame { frame ≡ sizes.frame_length act.now }
        requires short { frame < 2 ^ 33 }
        requires few { length (book_in self.now) ≤ 2 ^ 32 }
        requires small { recorded (log_of (book_in self.now)) ≤ 2 ^ 62 }
        ensures { result ≡ passes_limit act.now (log_of (book_in self.now)) }
    {
        self.tally.is_full(act, frame)
    }

    /// Takes so many places, beside one for each connected client and one for each ticket that is out.
    pub(crate) fn reserve(&mut self, need: u64) -> Result<(), NoMemory>
        requires few { length (book_in self.old) ≤ 2 ^ 32 }
        requires small { need ≤ 2 ^ 32 }
        ensures same { book_in self.new ≡ book_in self.old }
        ensures places { OnOk result (length (book_in self.old) + clients_in (log_of (book_in self.old)) + tickets_in (log_of (book_in self.old)) + need ≤ places_in self.new) }
        ensures more { places_in self.old ≤ places_in self.new }
    {
        let more = self.tally.clients() + self.tally.tickets() + need;
        self.book.reserve(more as usize)?;
        Ok(())
    }

    /// Adds an entry, which records so many bytes, at a place that was taken.
    pub(crate) fn add(&mut self, entry: BookEntry, bytes: u64)
        requires place { length (book_in self.old) < places_in self.old }
        requires few { length (book_in self.old) ≤ 2 ^ 32 }
        requires bytes { bytes ≡ bytes_of entry.entry }
        requires small { recorded (log_of (book_in self.old)) + bytes < 2 ^ 62 }
        ensures added { book_in self.new ≡ book_in self.old ++ entry ∷ [] }
        ensures places { places_in self.old ≤ places_in self.new }
    {
        self.tally.add(&entry.entry, bytes);
        match self.book.push(entry) {
            Ok(()) => {}
            Err(_) => unreachable!(),
        }
    }

    /// Adds the entry of a settling, where there was one.
    pub(crate) fn settle(&mut self, stamp: Stamp, settled: Option<Settled>)
        requires place { IsSome settled → length (book_in self.old) < places_in self.old }
        requires few { length (book_in self.old) ≤ 2 ^ 32 }
        requires small { recorded (log_of (book_in self.old)) < 2 ^ 62 }
        ensures added { book_in self.new ≡ book_in self.old ++ settling_by stamp.pass (stamped_before stamp) (stamped_behind stamp) settled }
        ensures places { places_in self.old ≤ places_in self.new }
    {
        if let Some(settled) = settled {
            self.add(stamp.entry(Entry::Settling { settled }), 0);
        }
    }

    /// The book.
    pub(crate) fn into_book(self) -> Book
        ensures { result ≡ book_in self }
    {
        let bytes = self.tally.bytes();
        Book::of(self.book, bytes)
    }
}
