//! A connection: where requests come from and replies go.

ghost use Rattle.std.specs.Prelude.{◌≡◌, ◌↔◌, ℕ, ◌+◌, ◌<◌, ◌≤◌, ◌++◌, ◌∷◌, [], min, List, length, take, drop, Option, Some, IfOk, IsOk, IsErr, IsSome, OnOk, OnErr, Contains, vec_capacity};
ghost use Rattle.std.specs.Io.KnownBytes.{Keeps, ReadConsumes, WriteAppends};
ghost use Rattle.ks_outside.specs.Faults.{HasCause, one_more};
ghost use Rattle.ks_outside.specs.Plans.{failing_in, asked_in};

use crate::calls::FailingCalls;
use crate::faults::{Failed, FaultCount};
use crate::sink::{MemorySink, Sink};
use crate::source::{Source, SteadySource};
use std::alloc::{AllocError, Global};

/// Both directions of a connection, with one count of faults. Its content, where it is told, is the bytes left to read and the bytes written.
/// A call moves its own direction alone.
pub trait Link {
    /// The bytes left to read.
    ghost incoming: { Self → Option (List ℕ) };

    /// The bytes written.
    ghost outgoing: { Self → Option (List ℕ) };

    ghost fault_count: { Self → ℕ };

    /// Moves the first n bytes left to the front of `out` and answers n. For an `out` with room, 0 is the end of the input.
    fn read(&mut self, out: &mut [u8]) -> Result<usize, Failed>
        ensures within { IfOk result (λ n. n ≤ length out.new) }
        ensures bytes { ReadConsumes (incoming self.old) (incoming self.new) result out.new }
        ensures rest { IsSome (incoming self.old) → IfOk result (λ n. drop n out.new ≡ drop n out.old) }
        ensures other { Keeps (outgoing self.old) (outgoing self.new) }
        ensures cause { HasCause (fault_count self.old) (fault_count self.new) result };

    /// Takes the first n bytes of `piece` and answers n, which is at least 1 where `piece` is not empty.
    fn write(&mut self, piece: &[u8]) -> Result<usize, Failed>
        ensures within { IfOk result (λ n. n ≤ length piece.now) }
        ensures takes { 0 < length piece.now → IfOk result (λ n. 0 < n) }
        ensures bytes { WriteAppends (outgoing self.old) (outgoing self.new) result piece.now }
        ensures other { Keeps (incoming self.old) (incoming self.new) }
        ensures cause { HasCause (fault_count self.old) (fault_count self.new) result };
}

/// The numbers of no call.
static NONE: [u64; 0] = [];

/// A connection in memory, and the numbers of the calls that are to fail; reads and writes are counted together. A write takes its whole
/// piece where there is room; where the room is used up and no more memory is found, it fails and takes nothing.
#[derive(Drop)]
pub struct MemoryLink<'a> {
    source: SteadySource<'a>,
    sink: MemorySink<'a>,
    plan: FailingCalls<'a>,
    faults: FaultCount,
    ghost steady: { failing_in sink.plan ≡ [] },
}

impl<'a> MemoryLink<'a> {
    /// All of `bytes` is left to read, and nothing is written yet. There is room for `room` bytes in `writes` writes; the calls with the
    /// numbers `failing`, counted from 1, are to fail.
    pub fn with_room(
        alloc: Global,
        bytes: &'a [u8],
        room: usize,
        writes: usize,
        failing: &'a [u64],
    ) -> Result<MemoryLink<'a>, AllocError>
        ensures left { IfOk result (λ s. s.source.left.now ≡ bytes.now) }
        ensures written { IfOk result (λ s. s.sink.written.items ≡ []) }
        ensures pieces { IfOk result (λ s. s.sink.pieces.items ≡ []) }
        ensures room { IfOk result (λ s. room ≤ vec_capacity s.sink.written) }
        ensures writes { IfOk result (λ s. writes ≤ vec_capacity s.sink.pieces) }
        ensures failing { IfOk result (λ s. failing_in s.plan ≡ failing.now) }
        ensures none { IfOk result (λ s. asked_in s.plan ≡ 0) }
        ensures faults { IfOk result (λ s. s.faults.count ≡ 0) }
    {
        Ok(MemoryLink {
            source: SteadySource::new(bytes),
            sink: MemorySink::with_room(alloc, room, writes, &NONE)?,
            plan: FailingCalls::new(failing),
            faults: FaultCount::new(),
        })
    }

    /// The bytes that no read gave yet.
    pub fn left(&self) -> &'a [u8]
        ensures { result.now ≡ self.now.source.left.now }
    {
        self.source.left()
    }

    /// The bytes written.
    pub fn written(&self) -> &[u8]
        ensures { result.now ≡ self.now.sink.written.items }
    {
        self.sink.written()
    }

    /// The length in bytes of each piece that a write took, in order.
    pub fn pieces(&self) -> &[usize]
        ensures { result.now ≡ self.now.sink.pieces.items }
    {
        self.sink.pieces()
    }

    /// How many calls failed.
    pub fn faults(&self) -> u64
        ensures { result ≡ self.now.faults.count }
    {
        self.faults.count()
    }
}

impl Link for MemoryLink<'_> {
    ghost incoming = { λ s. Some s.source.left.now };

    ghost outgoing = { λ s. Some s.sink.written.items };

    ghost fault_count = { λ s. s.faults.count };

    fn read(&mut self, out: &mut [u8]) -> Result<usize, Failed>
        ensures within { IfOk result (λ n. n ≤ length out.new) }
        ensures bytes { ReadConsumes (Some self.old.source.left.now) (Some self.new.source.left.now) result out.new }
        ensures rest { IsSome (Some self.old.source.left.now) → IfOk result (λ n. drop n out.new ≡ drop n out.old) }
        ensures other { Keeps (Some self.old.sink.written.items) (Some self.new.sink.written.items) }
        ensures cause { HasCause self.old.faults.count self.new.faults.count result }
        ensures whole { IfOk result (λ n. n ≡ min (length out.old) (length self.old.source.left.now)) }
        ensures same { OnErr result (out.new ≡ out.old) }
        ensures sink { self.new.sink ≡ self.old.sink }
        ensures planned { IsErr result ↔ Contains (failing_in self.old.plan) (asked_in self.new.plan) }
        ensures failing { failing_in self.new.plan ≡ failing_in self.old.plan }
        ensures asked { asked_in self.new.plan ≡ one_more (asked_in self.old.plan) }
    {
        if self.plan.next_fails() {
            self.faults.rise();
            return Err(Failed);
        }
        self.source.read(out)
    }

    fn write(&mut self, piece: &[u8]) -> Result<usize, Failed>
        ensures within { IfOk result (λ n. n ≤ length piece.now) }
        ensures takes { 0 < length piece.now → IfOk result (λ n. 0 < n) }
        ensures bytes { WriteAppends (Some self.old.sink.written.items) (Some self.new.sink.written.items) result piece.now }
        ensures other { Keeps (Some self.old.source.left.now) (Some self.new.source.left.now) }
        ensures cause { HasCause self.old.faults.count self.new.faults.count result }
        ensures whole { IfOk result (λ n. n ≡ length piece.now) }
        ensures pieces { OnOk result (self.new.sink.pieces.items ≡ self.old.sink.pieces.items ++ length piece.now ∷ []) }
        ensures same { OnErr result (self.new.sink.pieces.items ≡ self.old.sink.pieces.items) }
        ensures planned { Contains (failing_in self.old.plan) (asked_in self.new.plan) → IsErr result }
        ensures room { ¬ Contains (failing_in self.old.plan) (asked_in self.new.plan) → length self.old.sink.pieces.items < vec_capacity self.old.sink.pieces → length self.old.sink.written.items + length piece.now ≤ vec_capacity self.old.sink.written → IsOk result }
        ensures failing { failing_in self.new.plan ≡ failing_in self.old.plan }
        ensures asked { asked_in self.new.plan ≡ one_more (asked_in self.old.plan) }
        ensures bytes_room { vec_capacity self.old.sink.written ≤ vec_capacity self.new.sink.written }
        ensures calls_room { vec_capacity self.old.sink.pieces ≤ vec_capacity self.new.sink.pieces }
    {
        if self.plan.next_fails() {
            self.faults.rise();
            return Err(Failed);
        }
        let answer = self.sink.write(piece);
        self.faults = self.faults.after(&answer);
        answer
    }
}
