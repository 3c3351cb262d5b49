//! Where bytes go.

ghost use Rattle.std.specs.Prelude.{◌≡◌, ◌↔◌, ℕ, ◌+◌, ◌<◌, ◌≤◌, ◌++◌, ◌∷◌, [], List, length, Option, Some, IfOk, IsOk, IsErr, OnOk, OnErr, Contains, vec_capacity};
ghost use Rattle.std.specs.Io.KnownBytes.{WriteAppends};
ghost use Rattle.ks_outside.specs.Faults.{HasCause, one_more};
ghost use Rattle.ks_outside.specs.Plans.{failing_in, asked_in};

use crate::calls::FailingCalls;
use crate::faults::{Failed, FaultCount};
use std::alloc::{AllocError, Global};

/// A sink of bytes. Its content, where it is told, is the bytes written.
pub trait Sink {
    ghost content: { Self → Option (List ℕ) };

    ghost fault_count: { Self → ℕ };

    /// Takes the first n bytes of `piece` and answers n, which is at least 1 where `piece` is not empty.
    fn write(&mut self, piece: &[u8]) -> Result<usize, Failed>
        ensures within { IfOk result (λ n. n ≤ length piece.now) }
        ensures takes { 0 < length piece.now → IfOk result (λ n. 0 < n) }
        ensures bytes { WriteAppends (content self.old) (content self.new) result piece.now }
        ensures cause { HasCause (fault_count self.old) (fault_count self.new) result };
}

/// Bytes in memory, and the numbers of the writes that are to fail. A write takes its whole piece where there is
/// room; where the room is used up and no more memory is found, it fails and takes nothing.
#[derive(Drop)]
pub struct MemorySink<'a> {
    written: Vec<u8>,
    pieces: Vec<usize>,
    plan: FailingCalls<'a>,
    faults: FaultCount,
}

impl<'a> MemorySink<'a> {
    /// Nothing is written yet. There is room for `bytes` bytes in `calls` writes; the writes with the numbers
    /// `failing`, counted from 1, are to fail.
    pub fn with_room(
        alloc: Global,
        bytes: usize,
        calls: usize,
        failing: &'a [u64],
    ) -> Result<MemorySink<'a>, AllocError>
        ensures written { IfOk result (λ s. s.written.items ≡ []) }
        ensures pieces { IfOk result (λ s. s.pieces.items ≡ []) }
        ensures bytes { IfOk result (λ s. bytes ≤ vec_capacity s.written) }
        ensures calls { IfOk result (λ s. calls ≤ vec_capacity s.pieces) }
        ensures failing { IfOk result (λ s. failing_in s.plan ≡ failing.now) }
        ensures none { IfOk result (λ s. asked_in s.plan ≡ 0) }
        ensures faults { IfOk result (λ s. s.faults.count ≡ 0) }
    {
        Ok(MemorySink {
            written: Vec::with_capacity(alloc, bytes)?,
            pieces: Vec::with_capacity(alloc, calls)?,
            plan: FailingCalls::new(failing),
            faults: FaultCount::new(),
        })
    }

    /// The bytes written.
    pub fn written(&self) -> &[u8]
        ensures { result.now ≡ self.now.written.items }
    {
        self.written.as_slice()
    }

    /// The length in bytes of each piece that a write took, in order.
    pub fn pieces(&self) -> &[usize]
        ensures { result.now ≡ self.now.pieces.items }
    {
        self.pieces.as_slice()
    }

    /// How many writes failed.
    pub fn faults(&self) -> u64
        ensures { result ≡ self.now.faults.count }
    {
        self.faults.count()
    }

    fn record(&mut self, piece: &[u8]) -> Result<(), AllocError>
        ensures ok { OnOk result (self.new.written.items ≡ self.old.written.items ++ piece.now) }
        ensures err { OnErr result (self.new.written.items ≡ self.old.written.items) }
        ensures ok_pieces { OnOk result (self.new.pieces.items ≡ self.old.pieces.items ++ length piece.now ∷ []) }
        ensures err_pieces { OnErr result (self.new.pieces.items ≡ self.old.pieces.items) }
        ensures room { length self.old.pieces.items < vec_capacity self.old.pieces → length self.old.written.items + length piece.now ≤ vec_capacity self.old.written → IsOk result }
        ensures bytes { vec_capacity self.old.written ≤ vec_capacity self.new.written }
        ensures calls { vec_capacity self.old.pieces ≤ vec_capacity self.new.pieces }
        ensures plan { self.new.plan ≡ self.old.plan }
        ensures faults { self.new.faults ≡ self.old.faults }
    {
        self.pieces.reserve(1)?;
        self.written.extend_from_slice(piece)?;
        match self.pieces.push(piece.len()) {
            Ok(()) => Ok(()),
            Err(_) => unreachable!(),
        }
    }
}

impl Sink for MemorySink<'_> {
    ghost content = { λ s. Some s.written.items };

    ghost fault_count = { λ s. s.faults.count };

    fn write(&mut self, piece: &[u8]) -> Result<usize, Failed>
        ensures within { IfOk result (λ n. n ≤ length piece.now) }
        ensures takes { 0 < length piece.now → IfOk result (λ n. 0 < n) }
        ensures bytes { WriteAppends (Some self.old.written.items) (Some self.new.written.items) result piece.now }
        ensures cause { HasCause self.old.faults.count self.new.faults.count result }
        ensures whole { IfOk result (λ n. n ≡ length piece.now) }
        ensures pieces { OnOk result (self.new.pieces.items ≡ self.old.pieces.items ++ length piece.now ∷ []) }
        ensures same { OnErr result (self.new.pieces.items ≡ self.old.pieces.items) }
        ensures planned { Contains (failing_in self.old.plan) (asked_in self.new.plan) → IsErr result }
        ensures room { ¬ Contains (failing_in self.old.plan) (asked_in self.new.plan) → length self.old.pieces.items < vec_capacity self.old.pieces → length self.old.written.items + length piece.now ≤ vec_capacity self.old.written → IsOk result }
        ensures failing { failing_in self.new.plan ≡ failing_in self.old.plan }
        ensures asked { asked_in self.new.plan ≡ one_more (asked_in self.old.plan) }
        ensures bytes_room { vec_capacity self.old.written ≤ vec_capacity self.new.written }
        ensures calls_room { vec_capacity self.old.pieces ≤ vec_capacity self.new.pieces }
    {
        if self.plan.next_fails() {
            self.faults.rise();
            return Err(Failed);
        }
        let Ok(()) = self.record(piece) else {
            self.faults.rise();
            return Err(Failed);
        };
        Ok(piece.len())
    }
}
