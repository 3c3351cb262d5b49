//! What the limits of a run ask of a book, counted entry by entry.

ghost use Rattle.std.specs.Prelude.{◌≡◌, ◌+◌, ◌<◌, ◌≤◌, ◌^◌, [], ◌∷◌, List, length};
ghost use Rattle.wire_frames.specs.Sizes.{frame_length};
ghost use Rattle.service_book.specs.declared.entry.BookEntry.{BookEntry};
ghost use Rattle.service_book.specs.Limits.{bytes_of, clients_in, passes_limit, tickets_in, MOST_ENTRIES, MOST_BYTES, CALL_BYTES};

use rule_model::{Act, Entry};

/// The most entries of a book.
pub const MOST_ENTRIES: u64 = 1_048_576;

/// The most bytes of requests and replies that a book records.
pub const MOST_BYTES: u64 = 536_870_912;

/// The bytes that are set aside for the replies of a call.
pub const CALL_BYTES: u64 = 1_114_112;

/// How many entries a book has and how many bytes it records, and how many of its entries bring a client, end one, give a
/// ticket out and bring one back.
#[derive(Clone, Copy, Debug, PartialEq, Eq)]
pub struct Tally {
    entries: u64,
    bytes: u64,
    connects: u64,
    disconnects: u64,
    enters: u64,
    leaves: u64,
    ghost few_connects: { connects ≤ entries },
    ghost few_disconnects: { disconnects ≤ entries },
    ghost few_enters: { enters ≤ entries },
    ghost few_leaves: { leaves ≤ entries },
}

impl Tally {
    ghost use Rattle.service_book.specs.Tallies.{IsTally, bytes_in, entries_in};

    /// That of the empty book.
    pub fn new() -> Tally
        ensures { IsTally [] result }
    {
        Tally {
            entries: 0,
            bytes: 0,
            connects: 0,
            disconnects: 0,
            enters: 0,
            leaves: 0,
        }
    }

    /// Counts one entry more, which records so many bytes.
    pub fn add(&mut self, entry: &Entry, bytes: u64)
        requires recorded { bytes ≡ bytes_of entry.now }
        requires few { entries_in self.old < 2 ^ 62 }
        requires small { bytes_in self.old + bytes < 2 ^ 62 }
        ensures tally { (log : List BookEntry) (e : BookEntry) → e.entry ≡ entry.now → IsTally log self.old → IsTally (e ∷ log) self.new }
        ensures entries { entries_in self.new ≡ entries_in self.old + 1 }
        ensures bytes { bytes_in self.new ≡ bytes_in self.old + bytes }
    {
        self.entries += 1;
        self.bytes += bytes;
        let Entry::Acted { event, reply, .. } = entry else {
            return;
        };
        let admitted = reply.is_done();
        if admitted && event.act.is_connect() {
            self.connects += 1;
        }
        if admitted && event.act.is_disconnect() {
            self.disconnects += 1;
        }
        if admitted && event.act.is_enter() {
            self.enters += 1;
        }
        if event.act.is_leave() {
            self.leaves += 1;
        }
    }

    /// How many bytes the entries record.
    pub fn bytes(&self) -> u64
        ensures { result ≡ bytes_in self.now }
    {
        self.bytes
    }

    /// How many clients are connected.
    pub fn clients(&self) -> u64
        ensures clients { (log : List BookEntry) → IsTally log self.now → result ≡ clients_in log }
        ensures few { result ≤ entries_in self.now }
    {
        self.connects.saturating_sub(self.disconnects)
    }

    /// How many tickets are out.
    pub fn tickets(&self) -> u64
        ensures tickets { (log : List BookEntry) → IsTally log self.now → result ≡ tickets_in log }
        ensures few { result ≤ entries_in self.now }
    {
        self.enters.saturating_sub(self.leaves)
    }

    /// Whether a call of an act with a frame of this length passes a limit: with it, with the disconnect of each client and with the leave of each ticket that is out,
    /// the book would have more than 1,048,576 entries, or record more than 536,870,912 bytes.
    pub fn is_full(&self, act: &Act, frame: u64) -> bool
        requires frame { frame ≡ frame_length act.now }
        requires short { frame < 2 ^ 33 }
        requires few { entries_in self.now ≤ 2 ^ 32 }
        requires small { bytes_in self.now ≤ 2 ^ 62 }
        ensures { (log : List BookEntry) → IsTally log self.now → result ≡ passes_limit act.now log }
    {
        let tickets = self.tickets();
        let entries = self.entries + self.clients() + tickets + act.need();
        let bytes = self.bytes + frame + CALL_BYTES + CALL_BYTES * tickets;
        MOST_ENTRIES < entries || MOST_BYTES < bytes
    }
}
