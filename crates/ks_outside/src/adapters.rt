//! The edge: bytes from a reader and to a writer of std, as standard input and output. They tell nothing of content.
//! Each call of an adapter is one call of its object, and its count of faults is a function of the answer.

ghost use Rattle.std.specs.Prelude.{◌≡◌, ◌<◌, ◌≤◌, ℕ, Option, None, length, IfOk};
ghost use Rattle.std.specs.Result.{result_ok};
ghost use Rattle.std.specs.Io.KnownBytes.{ReadConsumes, WriteAppends};
ghost use Rattle.ks_outside.specs.Adapters.{taken_of};
ghost use Rattle.ks_outside.specs.Faults.{HasCause, count_after};

use crate::edge::{RealReader, RealWriter};
use crate::faults::{Failed, FaultCount};
use crate::sink::Sink;
use crate::source::Source;

/// A source over a reader, as standard input. Each error of the reader is one fault.
#[derive(Drop)]
pub struct ReaderSource<R> {
    reader: R,
    faults: FaultCount,
}

impl<R> ReaderSource<R> {
    /// Takes the reader; no fault so far.
    pub fn new(reader: R) -> ReaderSource<R>
        ensures reader { result.reader ≡ reader }
        ensures faults { result.faults.count ≡ 0 }
    {
        ReaderSource {
            reader,
            faults: FaultCount::new(),
        }
    }

    /// How many reads failed.
    pub fn faults(&self) -> u64
        ensures { result ≡ self.now.faults.count }
    {
        self.faults.count()
    }
}

impl<R: RealReader> Source for ReaderSource<R> {
    ghost content = { λ _. None };

    ghost fault_count = { λ s. s.faults.count };

    fn read(&mut self, out: &mut [u8]) -> Result<usize, Failed>
        ensures within { IfOk result (λ n. n ≤ length out.new) }
        ensures cause { HasCause self.old.faults.count self.new.faults.count result }
        ensures reader { ReadConsumes (R.left self.old.reader) (R.left self.new.reader) result out.new }
        ensures answer { R.answered self.old.reader self.new.reader out.new (result_ok result) }
        ensures counts { self.new.faults.count ≡ count_after result self.old.faults.count }
    {
        let answer = self.reader.ask(out).ok_or(Failed);
        self.faults = self.faults.after(&answer);
        answer
    }
}

/// A sink over a writer, as standard output. Each error of the writer is one fault, and so is a write that takes
/// nothing of a piece.
#[derive(Drop)]
pub struct WriterSink<W> {
    writer: W,
    faults: FaultCount,
}

impl<W> WriterSink<W> {
    /// Takes the writer; no fault so far.
    pub fn new(writer: W) -> WriterSink<W>
        ensures writer { result.writer ≡ writer }
        ensures faults { result.faults.count ≡ 0 }
    {
        WriterSink {
            writer,
            faults: FaultCount::new(),
        }
    }

    /// How many writes failed.
    pub fn faults(&self) -> u64
        ensures { result ≡ self.now.faults.count }
    {
        self.faults.count()
    }
}

/// What was taken of a piece of `size` bytes.
pub(crate) fn taken(answer: Option<usize>, size: usize) -> Result<usize, Failed>
    ensures { result_ok result ≡ taken_of size answer }
{
    match answer {
        Some(count) if count > 0 || size == 0 => Ok(count),
        _ => Err(Failed),
    }
}

impl<W: RealWriter> Sink for WriterSink<W> {
    ghost content = { λ _. None };

    ghost fault_count = { λ s. s.faults.count };

    fn write(&mut self, piece: &[u8]) -> Result<usize, Failed>
        ensures within { IfOk result (λ n. n ≤ length piece.now) }
        ensures takes { 0 < length piece.now → IfOk result (λ n. 0 < n) }
        ensures cause { HasCause self.old.faults.count self.new.faults.count result }
        ensures writer { WriteAppends (W.held self.old.writer) (W.held self.new.writer) result piece.now }
        ensures answer { (answer : Option ℕ) × W.answered self.old.writer self.new.writer piece.now answer × (result_ok result ≡ taken_of (length piece.now) answer) }
        ensures counts { self.new.faults.count ≡ count_after result self.old.faults.count }
    {
        let answer = taken(self.writer.give(piece), piece.len());
        self.faults = self.faults.after(&answer);
        answer
    }
}
