//! The edge: a connection over a stream of std, as a TCP stream. It tells nothing of content. Each call of it is one call of the stream, and
//! its count of faults is a function of the answer.

ghost use Rattle.std.specs.Prelude.{◌≡◌, ◌<◌, ◌≤◌, ℕ, Option, None, length, IfOk};
ghost use Rattle.std.specs.Result.{result_ok};
ghost use Rattle.std.specs.Io.KnownBytes.{ReadConsumes, WriteAppends};
ghost use Rattle.ks_outside.specs.Adapters.{taken_of};
ghost use Rattle.ks_outside.specs.Faults.{HasCause, count_after};

use crate::adapters::taken;
use crate::edge::{RealReader, RealWriter};
use crate::faults::{Failed, FaultCount};
use crate::link::Link;

/// A connection over a stream that is read and written. Each error of the stream is one fault, and so is a write that takes nothing of a
/// piece.
#[derive(Drop)]
pub struct StreamLink<S> {
    stream: S,
    faults: FaultCount,
}

impl<S> StreamLink<S> {
    /// Takes the stream; no fault so far.
    pub fn new(stream: S) -> StreamLink<S>
        ensures stream { result.stream ≡ stream }
        ensures faults { result.faults.count ≡ 0 }
    {
        StreamLink {
            stream,
            faults: FaultCount::new(),
        }
    }

    /// The stream, given back.
    pub fn into_stream(self) -> S
        ensures { result ≡ self.stream }
    {
        let StreamLink { stream, .. } = self;
        stream
    }

    /// How many calls failed.
    pub fn faults(&self) -> u64
        ensures { result ≡ self.now.faults.count }
    {
        self.faults.count()
    }
}

impl<S: RealReader + RealWriter> Link for StreamLink<S> {
    ghost incoming = { λ _. None };

    ghost outgoing = { λ _. None };

    ghost fault_count = { λ s. s.faults.count };

    fn read(&mut self, out: &mut [u8]) -> Result<usize, Failed>
        ensures within { IfOk result (λ n. n ≤ length out.new) }
        ensures cause { HasCause self.old.faults.count self.new.faults.count result }
        ensures stream { ReadConsumes (S.left self.old.stream) (S.left self.new.stream) result out.new }
        ensures answer { S.RealReader.answered self.old.stream self.new.stream out.new (result_ok result) }
        ensures counts { self.new.faults.count ≡ count_after result self.old.faults.count }
    {
        let answer = self.stream.ask(out).ok_or(Failed);
        self.faults = self.faults.after(&answer);
        answer
    }

    fn write(&mut self, piece: &[u8]) -> Result<usize, Failed>
        ensures within { IfOk result (λ n. n ≤ length piece.now) }
        ensures takes { 0 < length piece.now → IfOk result (λ n. 0 < n) }
        ensures cause { HasCause self.old.faults.count self.new.faults.count result }
        ensures stream { WriteAppends (S.held self.old.stream) (S.held self.new.stream) result piece.now }
        ensures answer { (answer : Option ℕ) × S.RealWriter.answered self.old.stream self.new.stream piece.now answer × (result_ok result ≡ taken_of (length piece.now) answer) }
        ensures counts { self.new.faults.count ≡ count_after result self.old.faults.count }
    {
        let answer = taken(self.stream.give(piece), piece.len());
        self.faults = self.faults.after(&answer);
        answer
    }
}
