//! Lines out of a source, one at a time.

ghost use Rattle.std.specs.Prelude.{◌≡◌, ℕ, ◌+◌, ◌-◌, ◌<◌, ◌≤◌, true, false, List, ◌++◌, [], length, take, drop, IfOk, IfSome, IfNone, OnErr};
ghost use Rattle.std.specs.Io.KnownBytes.{IsAtEnd};
ghost use Rattle.ks_outside.specs.Shown.{Took};
ghost use Rattle.keystore_run.specs.Finds.{Finds, is_fault};
ghost use Rattle.keystore_run.specs.Window.{HasNoFeedBelow, IsFirstFeed};

use ks_outside::{Failed, Source};
use std::alloc::Global;
use std::marker::Model;
use tags::{LINE_BYTES, NoMemory, SCRIPT_BYTES};

const LINE_FEED: u8 = b'\n';

/// What a reader found next in its source.
#[derive(Clone, Copy, Debug, PartialEq, Eq)]
pub enum Found {
    /// a line of so many bytes and its LF, at the front of the held bytes
    Line { count: usize },
    /// the end of the source: what is held, if anything, is the last line
    End,
    /// more bytes than a line may have
    TooLong,
    /// as many bytes as a script may not reach
    ScriptTooLong,
    /// a read failed
    Fault,
}

/// A buffer of one line and one byte more, over a source: it holds the bytes that were taken and not passed on.
#[derive(Drop)]
pub struct LineReader {
    buffer: Vec<u8>,
    start: usize,
    end: usize,
    scanned: usize,
    taken: u64,
}

impl Model for LineReader {
    ghost use Rattle.keystore_run.specs.Window.{ReaderView};

    ghost Value = { ReaderView };

    ghost use Rattle.keystore_run.specs.Readers.{held_of, IsReader};

    ghost view = { held_of };

    ghost invariant = { IsReader };
}

/// Where the first LF stands, looked for from a place on before which there is none.
fn first_feed(bytes: &[u8], from: usize) -> Option<usize>
    requires within { from ≤ length bytes.now }
    requires free { HasNoFeedBelow bytes.now from }
    ensures found { IfSome result (λ n. IsFirstFeed bytes.now n) }
    ensures none { IfNone result (HasNoFeedBelow bytes.now (length bytes.now)) }
{
    for i in from..bytes.len() {
        if bytes[i] == LINE_FEED {
            return Some(i);
        }
    }
    None
}

/// Moves the bytes of a window to the front of the buffer, and answers how many they are.
fn to_front(buffer: &mut [u8], start: usize, end: usize) -> usize
    requires ordered { start ≤ end }
    requires within { end ≤ length buffer.old }
    ensures count { result ≡ end - start }
    ensures front { take result buffer.new ≡ take (end - start) (drop start buffer.old) }
{
    if start > 0 {
        buffer[..end].rotate_left(start);
    }
    end - start
}

/// Reads into a part of the buffer, behind the bytes before it.
fn read_behind<S: Source>(
    source: &mut S,
    buffer: &mut [u8],
    from: usize,
    room: usize,
) -> Result<usize, Failed>
    requires within { from + room ≤ length buffer.old }
    requires some { 0 < room }
    ensures count { IfOk result (λ n. n ≤ room) }
    ensures front { take from buffer.new ≡ take from buffer.old }
    ensures taken { IfOk result (λ n. Took S.Source source.old source.new (take n (drop from buffer.new)) false) }
    ensures end { IfOk result (λ n. n ≡ 0 → IsAtEnd (S.content source.new)) }
    ensures err { OnErr result (Took S.Source source.old source.new [] true) }
{
    source.read(&mut buffer[from..from + room])
}

/// Moves the bytes of a window to the front of the buffer and reads at most `room` bytes behind them.
fn refill<S: Source>(
    source: &mut S,
    buffer: &mut [u8],
    start: usize,
    end: usize,
    room: usize,
) -> Result<usize, Failed>
    requires ordered { start ≤ end }
    requires within { end - start + room ≤ length buffer.old }
    requires some { 0 < room }
    requires inside { end ≤ length buffer.old }
    ensures count { IfOk result (λ n. n ≤ room) }
    ensures ok { IfOk result (λ n. (piece : List ℕ) × (length piece ≡ n) × (take (end - start + n) buffer.new ≡ take (end - start) (drop start buffer.old) ++ piece)
        × Took S.Source source.old source.new piece false) }
    ensures end { IfOk result (λ n. n ≡ 0 → IsAtEnd (S.content source.new)) }
    ensures err { OnErr result ((take (end - start) buffer.new ≡ take (end - start) (drop start buffer.old)) × Took S.Source source.old source.new [] true) }
{
    let held = to_front(buffer, start, end);
    let count = read_behind(source, buffer, held, room)?;
    Ok(count)
}

impl LineReader {
    /// A reader that took nothing yet.
    pub fn new(alloc: Global) -> Result<LineReader, NoMemory>
        ensures { IfOk result (λ reader. (reader.bytes ≡ []) × (reader.taken ≡ 0)) }
    {
        Ok(LineReader {
            buffer: vec![in alloc; 0u8; LINE_BYTES + 1]?,
            start: 0,
            end: 0,
            scanned: 0,
            taken: 0,
        })
    }

    /// Where the first LF of the held bytes stands.
    fn line_end(&mut self) -> Option<usize>
        ensures found { IfSome result (λ n. IsFirstFeed self.new.bytes n) }
        ensures none { IfNone result (HasNoFeedBelow self.new.bytes (length self.new.bytes)) }
        ensures same { self.new ≡ self.old }
        ensures bound { length self.new.bytes ≤ LINE_BYTES + 1 }
        ensures taken { self.new.taken ≤ SCRIPT_BYTES }
    {
        let window = &self.buffer[self.start..self.end];
        let length = window.len();
        let found = first_feed(window, self.scanned);
        self.scanned = found.unwrap_or(length);
        found
    }

    /// How many bytes are held.
    pub fn held(&self) -> usize
        ensures { result ≡ length self.now.bytes }
    {
        self.end - self.start
    }

    /// How many bytes were taken in all.
    fn taken(&self) -> u64
        ensures value { result ≡ self.now.taken }
        ensures bound { result ≤ SCRIPT_BYTES }
    {
        self.taken
    }

    /// Takes more bytes from the source, one at least where there is one.
    fn read<S: Source>(&mut self, source: &mut S) -> Result<usize, Failed>
        requires room { length self.old.bytes ≤ LINE_BYTES }
        requires few { self.old.taken < SCRIPT_BYTES }
        ensures bytes { IfOk result (λ n. (piece : List ℕ) × (length piece ≡ n) × (self.new.bytes ≡ self.old.bytes ++ piece)
            × (self.new.taken ≡ self.old.taken + n) × Took S.Source source.old source.new piece false) }
        ensures taken { self.new.taken ≤ SCRIPT_BYTES }
        ensures end { IfOk result (λ n. n ≡ 0 → IsAtEnd (S.content source.new)) }
        ensures err { OnErr result ((self.new.bytes ≡ self.old.bytes) × (self.new.taken ≡ self.old.taken) × Took S.Source source.old source.new [] true) }
    {
        let held = self.end - self.start;
        let room = (self.buffer.len() - held).min((SCRIPT_BYTES - self.taken) as usize);
        let read = refill(source, &mut self.buffer, self.start, self.end, room);
        self.start = 0;
        self.end = held;
        let count = read?;
        self.end += count;
        self.taken += count as u64;
        Ok(count)
    }

    /// The first `count` held bytes.
    pub fn line(&self, count: usize) -> &[u8]
        requires { count ≤ length self.now.bytes }
        ensures { result.now ≡ take count self.now.bytes }
    {
        &self.buffer[self.start..self.start + count]
    }

    /// Passes on a line of `count` bytes and its LF.
    pub fn pass(&mut self, count: usize)
        requires { count < length self.old.bytes }
        ensures bytes { self.new.bytes ≡ drop (count + 1) self.old.bytes }
        ensures taken { self.new.taken ≡ self.old.taken }
    {
        self.start = self.start + count + 1;
        self.scanned = 0;
    }

    /// Takes bytes from the source until a line, its end or a limit is found; no line is held yet.
    fn seek<S: Source>(&mut self, source: &mut S) -> Found
        requires free { HasNoFeedBelow self.old.bytes (length self.old.bytes) }
        ensures bytes { (piece : List ℕ) × (self.new.bytes ≡ self.old.bytes ++ piece) × (self.new.taken ≡ self.old.taken + length piece)
            × Took S.Source source.old source.new piece (is_fault result) }
        ensures taken { self.new.taken ≤ SCRIPT_BYTES }
        ensures found { Finds (S.content source.new) self.new result }
    {
        'reads: loop {
            let taken = self.taken();
            if self.held() > LINE_BYTES {
                return Found::TooLong;
            }
            if taken == SCRIPT_BYTES {
                return Found::ScriptTooLong;
            }
            match self.read(source) {
                Ok(0) => return Found::End,
                Ok(_) => {}
                Err(Failed) => return Found::Fault,
            }
            if let Some(count) = self.line_end() {
                return Found::Line { count };
            }
        }
    }

    /// Takes bytes from the source until a line, its end or a limit is found. Where a line is held, nothing is taken.
    pub fn fill<S: Source>(&mut self, source: &mut S) -> Found
        ensures bytes { (piece : List ℕ) × (self.new.bytes ≡ self.old.bytes ++ piece) × (self.new.taken ≡ self.old.taken + length piece)
            × Took S.Source source.old source.new piece (is_fault result) }
        ensures taken { self.new.taken ≤ SCRIPT_BYTES }
        ensures found { Finds (S.content source.new) self.new result }
        ensures held { (count : ℕ) → IsFirstFeed self.old.bytes count → source.new ≡ source.old }
    {
        if let Some(held) = self.line_end() {
            return Found::Line { count: held };
        }
        self.seek(source)
    }
}
