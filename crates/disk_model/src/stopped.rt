//! A disk that stops.

ghost use Rattle.std.specs.Prelude.{◌≡◌, ◌+◌, ◌-◌, ◌^◌, ◌<◌, ◌≤◌, ℕ, List, min, length, IfOk, IsOk, IsErr, OnOk, OnErr, pred};
ghost use Rattle.ks_outside.specs.Faults.{HasCause};
ghost use Rattle.ks_outside.specs.Ranges.{Holds, Torn, Gives, Becomes};
ghost use Rattle.ks_outside.specs.Moments.{Follows, Elapses};

use ks_outside::{Disk, Failed, FaultCount};

/// Passes a number of calls on to a disk, and fails every later one, without a call of that disk.
#[derive(Drop)]
pub struct StoppedDisk<D: Disk> {
    inner: D,
    left: u64,
    refused: FaultCount,
}

impl<D: Disk> StoppedDisk<D> {
    /// The disk, which passes `calls` calls on.
    pub fn new(inner: D, calls: u64) -> StoppedDisk<D>
        ensures inner { result.inner ≡ inner }
        ensures left { result.left ≡ calls }
        ensures refused { result.refused.count ≡ 0 }
    {
        StoppedDisk {
            inner,
            left: calls,
            refused: FaultCount::new(),
        }
    }

    /// The disk that it passes calls on to.
    pub fn into_inner(self) -> D
        ensures { result ≡ self.inner }
    {
        let StoppedDisk {
            inner,
            left: _,
            refused: _,
        } = self;
        inner
    }

    /// Whether one more call is passed on. One that is not is counted as a fault.
    fn passes(&mut self) -> Result<(), Failed>
        ensures stopped { self.old.left ≡ 0 → IsErr result }
        ensures goes_on { 0 < self.old.left → IsOk result }
        ensures left { self.new.left ≡ self.old.left - 1 }
        ensures inner { self.new.inner ≡ self.old.inner }
        ensures cause { HasCause self.old.refused.count self.new.refused.count result }
    {
        if self.left == 0 {
            self.refused.rise();
            return Err(Failed);
        }
        self.left -= 1;
        Ok(())
    }
}

impl<D: Disk> Disk for StoppedDisk<D> {
    ghost content = { λ d. D.Disk.content d.inner };

    ghost images = { λ d. D.Disk.images d.inner };

    ghost moment = { λ d. D.Disk.moment d.inner };

    ghost images_since = { λ d. D.Disk.images_since d.inner };

    ghost fault_count = { λ d. min (D.Disk.fault_count d.inner + d.refused.count) (2 ^ 64 - 1) };

    ghost content_is_image = { λ d. D.Disk.content_is_image d.inner };

    ghost counts_now = { λ d. D.Disk.counts_now d.inner };

    ghost only_now = { λ d. D.Disk.only_now d.inner };

    fn read(&mut self, at: u64, out: &mut [u8]) -> Result<usize, Failed>
        ensures within { IfOk result (λ n. n ≤ length out.new) }
        ensures bytes { IfOk result (λ n. Gives (D.Disk.content self.old.inner) at n (length out.old) out.new) }
        ensures content { (D.Disk.content self.new.inner) ≡ (D.Disk.content self.old.inner) }
        ensures images { (c : List ℕ) → D.Disk.images self.new.inner c → D.Disk.images self.old.inner c }
        ensures time { Elapses (D.Disk.moment self.old.inner) (D.Disk.moment self.new.inner) (D.Disk.images_since self.old.inner) (D.Disk.images_since self.new.inner) (D.Disk.images self.new.inner) }
        ensures cause { HasCause (min (D.Disk.fault_count self.old.inner + self.old.refused.count) (2 ^ 64 - 1)) (min (D.Disk.fault_count self.new.inner + self.new.refused.count) (2 ^ 64 - 1)) result }
        ensures stopped { self.old.left ≡ 0 → IsErr result × (self.new.inner ≡ self.old.inner) }
        ensures passed { 0 < self.old.left → self.new.refused.count ≡ self.old.refused.count }
        ensures left { self.new.left ≡ self.old.left - 1 }
    {
        let Ok(()) = self.passes() else {
            return Err(Failed);
        };
        self.inner.read(at, out)
    }

    fn write_at(&mut self, at: u64, piece: &[u8]) -> Result<(), Failed>
        ensures written { OnOk result (Becomes (Holds at piece.now) (D.Disk.content self.old.inner) (D.Disk.content self.new.inner)) }
        ensures torn { OnErr result (Becomes (Torn at (length piece.now)) (D.Disk.content self.old.inner) (D.Disk.content self.new.inner)) }
        ensures images { Follows (Torn at (length piece.now)) (D.Disk.images self.old.inner) (D.Disk.images self.new.inner) }
        ensures time { Elapses (D.Disk.moment self.old.inner) (D.Disk.moment self.new.inner) (D.Disk.images_since self.old.inner) (D.Disk.images_since self.new.inner) (D.Disk.images self.new.inner) }
        ensures cause { HasCause (min (D.Disk.fault_count self.old.inner + self.old.refused.count) (2 ^ 64 - 1)) (min (D.Disk.fault_count self.new.inner + self.new.refused.count) (2 ^ 64 - 1)) result }
        ensures stopped { self.old.left ≡ 0 → IsErr result × (self.new.inner ≡ self.old.inner) }
        ensures passed { 0 < self.old.left → self.new.refused.count ≡ self.old.refused.count }
        ensures left { self.new.left ≡ self.old.left - 1 }
    {
        let Ok(()) = self.passes() else {
            return Err(Failed);
        };
        self.inner.write_at(at, piece)
    }

    fn len(&mut self) -> Result<u64, Failed>
        ensures bytes { IfOk result (λ n. (c : List ℕ) → (D.Disk.content self.old.inner) ≡ Some c → n ≡ length c) }
        ensures content { (D.Disk.content self.new.inner) ≡ (D.Disk.content self.old.inner) }
        ensures images { (c : List ℕ) → D.Disk.images self.new.inner c → D.Disk.images self.old.inner c }
        ensures time { Elapses (D.Disk.moment self.old.inner) (D.Disk.moment self.new.inner) (D.Disk.images_since self.old.inner) (D.Disk.images_since self.new.inner) (D.Disk.images self.new.inner) }
        ensures cause { HasCause (min (D.Disk.fault_count self.old.inner + self.old.refused.count) (2 ^ 64 - 1)) (min (D.Disk.fault_count self.new.inner + self.new.refused.count) (2 ^ 64 - 1)) result }
        ensures stopped { self.old.left ≡ 0 → IsErr result × (self.new.inner ≡ self.old.inner) }
        ensures passed { 0 < self.old.left → self.new.refused.count ≡ self.old.refused.count }
        ensures left { self.new.left ≡ self.old.left - 1 }
    {
        let Ok(()) = self.passes() else {
            return Err(Failed);
        };
        self.inner.len()
    }

    fn sync(&mut self) -> Result<(), Failed>
        ensures synced { OnOk result ((c : List ℕ) → D.Disk.images self.new.inner c → (D.Disk.content self.new.inner) ≡ Some c) }
        ensures content { (D.Disk.content self.new.inner) ≡ (D.Disk.content self.old.inner) }
        ensures images { (c : List ℕ) → D.Disk.images self.new.inner c → D.Disk.images self.old.inner c }
        ensures time { Elapses (D.Disk.moment self.old.inner) (D.Disk.moment self.new.inner) (D.Disk.images_since self.old.inner) (D.Disk.images_since self.new.inner) (D.Disk.images self.new.inner) }
        ensures cause { HasCause (min (D.Disk.fault_count self.old.inner + self.old.refused.count) (2 ^ 64 - 1)) (min (D.Disk.fault_count self.new.inner + self.new.refused.count) (2 ^ 64 - 1)) result }
        ensures stopped { self.old.left ≡ 0 → IsErr result × (self.new.inner ≡ self.old.inner) }
        ensures passed { 0 < self.old.left → self.new.refused.count ≡ self.old.refused.count }
        ensures left { self.new.left ≡ self.old.left - 1 }
    {
        let Ok(()) = self.passes() else {
            return Err(Failed);
        };
        self.inner.sync()
    }

    fn faults(&self) -> u64 {
        self.inner.faults().saturating_add(self.refused.count())
    }
}
