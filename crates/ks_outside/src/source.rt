//! Where bytes come from.

ghost use Rattle.std.specs.Prelude.{◌≡◌, ◌↔◌, ℕ, ◌≤◌, min, List, length, take, drop, Option, Some, IfOk, IsOk, IsErr, IsSome, OnErr, Contains};
ghost use Rattle.std.specs.Io.KnownBytes.{ReadConsumes};
ghost use Rattle.ks_outside.specs.Faults.{HasCause, one_more};
ghost use Rattle.ks_outside.specs.Plans.{failing_in, asked_in};

use crate::calls::FailingCalls;
use crate::faults::{Failed, FaultCount};

/// A source of bytes. Its content, where it is told, is the bytes left.
pub trait Source {
    ghost content: { Self → Option (List ℕ) };

    ghost fault_count: { Self → ℕ };

    /// Moves the first n bytes left to the front of `out` and answers n. For an `out` with room, 0 is the end of the
    /// input.
    fn read(&mut self, out: &mut [u8]) -> Result<usize, Failed>
        ensures within { IfOk result (λ n. n ≤ length out.new) }
        ensures bytes { ReadConsumes (content self.old) (content self.new) result out.new }
        ensures rest { IsSome (content self.old) → IfOk result (λ n. drop n out.new ≡ drop n out.old) }
        ensures cause { HasCause (fault_count self.old) (fault_count self.new) result };
}

/// Bytes in memory, whose reads never fail.
#[derive(Clone, Copy, Debug)]
pub struct SteadySource<'a> {
    left: &'a [u8],
}

impl<'a> SteadySource<'a> {
    /// All of `bytes` is left.
    pub fn new(bytes: &'a [u8]) -> SteadySource<'a>
        ensures { result.left.now ≡ bytes.now }
    {
        SteadySource { left: bytes }
    }

    /// The bytes that no read gave yet.
    pub fn left(&self) -> &'a [u8]
        ensures { result.now ≡ self.now.left.now }
    {
        self.left
    }

    fn move_front(&mut self, out: &mut [u8]) -> usize
        ensures count { result ≡ min (length out.old) (length self.old.left.now) }
        ensures front { take result out.new ≡ take result self.old.left.now }
        ensures rest { drop result out.new ≡ drop result out.old }
        ensures left { self.new.left.now ≡ drop result self.old.left.now }
    {
        let count = out.len().min(self.left.len());
        out[..count].copy_from_slice(&self.left[..count]);
        self.left = &self.left[count..];
        count
    }
}

impl Source for SteadySource<'_> {
    ghost content = { λ s. Some s.left.now };

    ghost fault_count = { λ _. 0 };

    fn read(&mut self, out: &mut [u8]) -> Result<usize, Failed>
        ensures within { IfOk result (λ n. n ≤ length out.new) }
        ensures bytes { ReadConsumes (Some self.old.left.now) (Some self.new.left.now) result out.new }
        ensures rest { IsSome (Some self.old.left.now) → IfOk result (λ n. drop n out.new ≡ drop n out.old) }
        ensures cause { HasCause 0 0 result }
        ensures whole { result ≡ Ok (min (length out.old) (length self.old.left.now)) }
    {
        Ok(self.move_front(out))
    }
}

/// Bytes in memory, and the numbers of the reads that are to fail.
#[derive(Clone, Copy, Debug)]
pub struct MemorySource<'a> {
    source: SteadySource<'a>,
    plan: FailingCalls<'a>,
    faults: FaultCount,
}

impl<'a> MemorySource<'a> {
    /// All of `bytes` is left; the reads with the numbers `failing`, counted from 1, are to fail.
    pub fn new(bytes: &'a [u8], failing: &'a [u64]) -> MemorySource<'a>
        ensures left { result.source.left.now ≡ bytes.now }
        ensures failing { failing_in result.plan ≡ failing.now }
        ensures asked { asked_in result.plan ≡ 0 }
        ensures faults { result.faults.count ≡ 0 }
    {
        MemorySource {
            source: SteadySource::new(bytes),
            plan: FailingCalls::new(failing),
            faults: FaultCount::new(),
        }
    }

    /// The bytes that no read gave yet.
    pub fn left(&self) -> &'a [u8]
        ensures { result.now ≡ self.now.source.left.now }
    {
        self.source.left()
    }

    /// How many reads failed.
    pub fn faults(&self) -> u64
        ensures { result ≡ self.now.faults.count }
    {
        self.faults.count()
    }
}

impl Source for MemorySource<'_> {
    ghost content = { λ s. Some s.source.left.now };

    ghost fault_count = { λ s. s.faults.count };

    fn read(&mut self, out: &mut [u8]) -> Result<usize, Failed>
        ensures within { IfOk result (λ n. n ≤ length out.new) }
        ensures bytes { ReadConsumes (Some self.old.source.left.now) (Some self.new.source.left.now) result out.new }
        ensures rest { IsSome (Some self.old.source.left.now) → IfOk result (λ n. drop n out.new ≡ drop n out.old) }
        ensures cause { HasCause self.old.faults.count self.new.faults.count result }
        ensures failing { failing_in self.new.plan ≡ failing_in self.old.plan }
        ensures asked { asked_in self.new.plan ≡ one_more (asked_in self.old.plan) }
        ensures planned { IsErr result ↔ Contains (failing_in self.old.plan) (asked_in self.new.plan) }
        ensures whole { IfOk result (λ n. n ≡ min (length out.old) (length self.old.source.left.now)) }
        ensures same { OnErr result (out.new ≡ out.old) }
    {
        if self.plan.next_fails() {
            self.faults.rise();
            return Err(Failed);
        }
        self.source.read(out)
    }
}
