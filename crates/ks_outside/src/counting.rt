//! Entropy in memory that counts: 00, 01 and so on to ff, and then 00 again.

ghost use Rattle.std.specs.Prelude.{◌≡◌, ◌↔◌, Some, IsOk, IsErr, OnErr, Contains, []};
ghost use Rattle.ks_outside.specs.Draws.{DrawGives, counting_from};
ghost use Rattle.ks_outside.specs.Faults.{HasCause, one_more};
ghost use Rattle.ks_outside.specs.Plans.{failing_in, asked_in};

use crate::calls::FailingCalls;
use crate::endless;
use crate::endless::Endless;
use crate::entropy::Entropy;
use crate::faults::{Failed, FaultCount};

/// Bytes that count up, whose draws never fail.
#[derive(Clone, Copy, Debug)]
pub struct SteadyEntropy {
    next: u8,
}

impl SteadyEntropy {
    /// The next byte is 00.
    pub fn counting() -> SteadyEntropy
        ensures { result.next ≡ 0 }
    {
        SteadyEntropy { next: 0 }
    }
}

impl Endless for SteadyEntropy {
    ghost coming = { λ s. counting_from s.next };

    fn next_byte(&mut self) -> u8 {
        let byte = self.next;
        self.next = byte.wrapping_add(1);
        byte
    }
}

impl Entropy for SteadyEntropy {
    ghost content = { λ s. Some (counting_from s.next) };

    ghost fault_count = { λ _. 0 };

    fn draw(&mut self, out: &mut [u8]) -> Result<(), Failed>
        ensures bytes { DrawGives (Some (counting_from self.old.next)) (Some (counting_from self.new.next)) result out.new }
        ensures cause { HasCause 0 0 result }
        ensures ok { IsOk result }
    {
        endless::fill(self, out);
        Ok(())
    }

    fn faults(&self) -> u64 {
        0
    }
}

/// Bytes that count up, and the numbers of the draws that are to fail.
#[derive(Clone, Copy, Debug)]
pub struct MemoryEntropy<'a> {
    bytes: SteadyEntropy,
    plan: FailingCalls<'a>,
    faults: FaultCount,
}

impl<'a> MemoryEntropy<'a> {
    /// The next byte is 00; no draw is to fail.
    pub fn counting() -> MemoryEntropy<'static>
        ensures next { result.bytes.next ≡ 0 }
        ensures failing { failing_in result.plan ≡ [] }
        ensures asked { asked_in result.plan ≡ 0 }
        ensures faults { result.faults.count ≡ 0 }
    {
        MemoryEntropy::failing(&[])
    }

    /// The next byte is 00; the draws with the numbers `failing`, counted from 1, are to fail.
    pub fn failing(failing: &'a [u64]) -> MemoryEntropy<'a>
        ensures next { result.bytes.next ≡ 0 }
        ensures failing { failing_in result.plan ≡ failing.now }
        ensures asked { asked_in result.plan ≡ 0 }
        ensures faults { result.faults.count ≡ 0 }
    {
        MemoryEntropy {
            bytes: SteadyEntropy::counting(),
            plan: FailingCalls::new(failing),
            faults: FaultCount::new(),
        }
    }
}

impl Entropy for MemoryEntropy<'_> {
    ghost content = { λ s. Some (counting_from s.bytes.next) };

    ghost fault_count = { λ s. s.faults.count };

    fn draw(&mut self, out: &mut [u8]) -> Result<(), Failed>
        ensures bytes { DrawGives (Some (counting_from self.old.bytes.next)) (Some (counting_from self.new.bytes.next)) result out.new }
        ensures cause { HasCause self.old.faults.count self.new.faults.count result }
        ensures failing { failing_in self.new.plan ≡ failing_in self.old.plan }
        ensures asked { asked_in self.new.plan ≡ one_more (asked_in self.old.plan) }
        ensures planned { IsErr result ↔ Contains (failing_in self.old.plan) (asked_in self.new.plan) }
        ensures same { OnErr result (out.new ≡ out.old) }
    {
        if self.plan.next_fails() {
            self.faults.rise();
            return Err(Failed);
        }
        self.bytes.draw(out)
    }

    fn faults(&self) -> u64 {
        self.faults.count()
    }
}
