//! What the replies of a run tell that its user should know, counted as they go out.

ghost use Rattle.std.specs.Prelude.{◌<◌, ◌≤◌, length, IfOk};
ghost use Rattle.std.specs.Io.KnownBytes.{WriteAppends};
ghost use Rattle.ks_outside.specs.Faults.{HasCause};

use ks_outside::{Failed, Sink};

/// The reply to a malformed line.
const MALFORMED: &[u8] = b"{\"code\":20,\"rule\":\"L1\"}";

/// The reply to a call whose device call failed.
const FAULTED: &[u8] = b"{\"code\":4}";

/// The reply to a call for which memory was wanting.
const WANTING: &[u8] = b"{\"code\":-41}";

/// What a line begins with that tells of a change, and answers no line of the script.
const SETTLED: &[u8] = b"{\"settled\"";

/// How often something was told, and the number of the script's line to which it was first, counted from 1.
#[derive(Clone, Copy, Debug, PartialEq, Eq)]
pub struct Told {
    pub count: u64,
    pub first: u64,
}

impl Told {
    const NEVER: Told = Told { count: 0, first: 0 };

    /// Once more, to this line.
    fn again(&mut self, line: u64) {
        if self.count == 0 {
            self.first = line;
        }
        self.count = self.count.saturating_add(1);
    }
}

/// What the replies told.
#[derive(Clone, Copy, Debug, PartialEq, Eq)]
pub struct ReplyCounts {
    /// lines that were malformed
    pub malformed: Told,
    /// calls of which a device call failed
    pub faulted: Told,
    /// calls for which memory was wanting
    pub wanting: Told,
    /// lines of the script that were answered
    answered: u64,
}

impl ReplyCounts {
    const NONE: ReplyCounts = ReplyCounts {
        malformed: Told::NEVER,
        faulted: Told::NEVER,
        wanting: Told::NEVER,
        answered: 0,
    };
}

/// Whether a line agrees with a text, as far as both go.
#[derive(Clone, Copy, Debug)]
struct Likeness {
    text: &'static [u8],
    agrees: bool,
}

impl Likeness {
    /// A line of which nothing was seen.
    fn of(text: &'static [u8]) -> Likeness {
        Likeness { text, agrees: true }
    }

    /// The line has this byte at the place.
    fn see(&mut self, place: usize, byte: u8) {
        if place < self.text.len() && self.text[place] != byte {
            self.agrees = false;
        }
    }

    /// Whether the line, which has so many bytes, is the text.
    fn is_whole(&self, size: usize) -> bool {
        self.agrees && size == self.text.len()
    }

    /// Whether the line, which has so many bytes, begins with the text.
    fn is_front(&self, size: usize) -> bool {
        self.agrees && size >= self.text.len()
    }
}

/// The line that comes in pieces, and what the lines before it told.
#[derive(Clone, Copy, Debug)]
struct Lines {
    size: usize,
    malformed: Likeness,
    faulted: Likeness,
    wanting: Likeness,
    settled: Likeness,
    counts: ReplyCounts,
}

impl Lines {
    /// A line of which nothing was seen, behind these.
    fn behind(counts: ReplyCounts) -> Lines {
        Lines {
            size: 0,
            malformed: Likeness::of(MALFORMED),
            faulted: Likeness::of(FAULTED),
            wanting: Likeness::of(WANTING),
            settled: Likeness::of(SETTLED),
            counts,
        }
    }

    /// What the lines told, this one among them.
    fn ended(&self) -> ReplyCounts {
        let mut counts = self.counts;
        if self.settled.is_front(self.size) {
            return counts;
        }
        counts.answered = counts.answered.saturating_add(1);
        if self.malformed.is_whole(self.size) {
            counts.malformed.again(counts.answered);
        } else if self.faulted.is_whole(self.size) {
            counts.faulted.again(counts.answered);
        } else if self.wanting.is_whole(self.size) {
            counts.wanting.again(counts.answered);
        }
        counts
    }

    /// The line has this byte next.
    fn see(&mut self, byte: u8) {
        self.malformed.see(self.size, byte);
        self.faulted.see(self.size, byte);
        self.wanting.see(self.size, byte);
        self.settled.see(self.size, byte);
        self.size = self.size.saturating_add(1);
    }

    /// Takes in a piece of the text.
    fn take(&mut self, piece: &[u8]) {
        for byte in piece {
            if *byte == b'\n' {
                *self = Lines::behind(self.ended());
            } else {
                self.see(*byte);
            }
        }
    }
}

/// A sink that hands on what it takes, and counts what the reply lines in it tell.
#[derive(Drop)]
pub struct ReplyTally<K> {
    sink: K,
    lines: Lines,
}

impl<K> ReplyTally<K> {
    /// Takes the sink; nothing was told so far.
    pub fn new(sink: K) -> ReplyTally<K> {
        ReplyTally {
            sink,
            lines: Lines::behind(ReplyCounts::NONE),
        }
    }

    /// What was told so far.
    pub fn counts(&self) -> ReplyCounts {
        self.lines.counts
    }
}

impl<K: Sink> Sink for ReplyTally<K> {
    ghost content = { λ t. K.content t.sink };

    ghost fault_count = { λ t. K.fault_count t.sink };

    fn write(&mut self, piece: &[u8]) -> Result<usize, Failed>
        ensures within { IfOk result (λ n. n ≤ length piece.now) }
        ensures takes { 0 < length piece.now → IfOk result (λ n. 0 < n) }
        ensures bytes { WriteAppends (K.content self.old.sink) (K.content self.new.sink) result piece.now }
        ensures cause { HasCause (K.fault_count self.old.sink) (K.fault_count self.new.sink) result }
    {
        let answer = self.sink.write(piece);
        if let Ok(count) = answer {
            self.lines.take(&piece[..count]);
        }
        answer
    }
}
