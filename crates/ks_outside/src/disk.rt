//! The disk that a store lies on, and what a crash may leave of it.

ghost use Rattle.std.specs.Prelude.{◌≡◌, ◌≤◌, ◌<◌, ℕ, List, Option, Some, length, IfOk, OnOk, OnErr, IsOk};
ghost use Rattle.ks_outside.specs.Faults.{HasCause};
ghost use Rattle.ks_outside.specs.Ranges.{Holds, Torn, Becomes, Gives};
ghost use Rattle.ks_outside.specs.Moments.{Follows, Elapses};

use crate::faults::Failed;

/// The disk that the store lies on: bytes at places from 0 on. What it tells of them is optional: a disk that tells nothing has no
/// content and no image, and so whether it tells does not change.
///
/// Between two syncs each written range, and the part past the old end, may hold any bytes after a crash; the bytes outside stay. After
/// a sync that answers Ok a crash leaves what a read gives. A write that fails is at most such a write, and every other call that
/// fails leaves what a read gives and what a crash may leave.
pub trait Disk {
    /// What a read gives, where it is told.
    ghost content: { Self → Option (List ℕ) };

    /// An image: what a crash may leave now.
    ghost images: { Self → List ℕ → Type 0 };

    /// The moment, a number that never falls.
    ghost moment: { Self → ℕ };

    /// What a crash at some moment since an earlier one might have left.
    ghost images_since: { Self → ℕ → List ℕ → Type 0 };

    ghost fault_count: { Self → ℕ };

    /// The disk is sure: a failed write writes nothing, no sync fails, and each call leaves it sure.
    ghost is_sure: { Self → Type 0 } = { λ _. ⊥ };

    /// Puts the bytes from the place on at the front of `out`, and answers how many: at least one where `out` is not empty and a byte
    /// stands at the place, and else 0.
    fn read(&mut self, at: u64, out: &mut [u8]) -> Result<usize, Failed>
        ensures within { IfOk result (λ n. n ≤ length out.new) }
        ensures bytes { IfOk result (λ n. Gives (content self.old) at n (length out.old) out.new) }
        ensures content { content self.new ≡ content self.old }
        ensures images { (c : List ℕ) → images self.new c → images self.old c }
        ensures sure { is_sure self.old → is_sure self.new }
        ensures time { Elapses (moment self.old) (moment self.new) (images_since self.old) (images_since self.new) (images self.new) }
        ensures cause { HasCause (fault_count self.old) (fault_count self.new) result };

    /// Writes the piece at the place, also past the end. Until a sync a crash may leave any bytes in its range and past the old
    /// end. A write that fails may have done as much.
    fn write_at(&mut self, at: u64, piece: &[u8]) -> Result<(), Failed>
        ensures written { OnOk result (Becomes (Holds at piece.now) (content self.old) (content self.new)) }
        ensures torn { OnErr result (Becomes (Torn at (length piece.now)) (content self.old) (content self.new)) }
        ensures images { Follows (Torn at (length piece.now)) (images self.old) (images self.new) }
        ensures nothing { is_sure self.old → OnErr result ((content self.new ≡ content self.old) × ((c : List ℕ) → images self.new c → images self.old c)) }
        ensures sure { is_sure self.old → is_sure self.new }
        ensures time { Elapses (moment self.old) (moment self.new) (images_since self.old) (images_since self.new) (images self.new) }
        ensures cause { HasCause (fault_count self.old) (fault_count self.new) result };

    /// How many bytes there are.
    fn len(&mut self) -> Result<u64, Failed>
        ensures bytes { IfOk result (λ n. (c : List ℕ) → content self.old ≡ Some c → n ≡ length c) }
        ensures content { content self.new ≡ content self.old }
        ensures images { (c : List ℕ) → images self.new c → images self.old c }
        ensures sure { is_sure self.old → is_sure self.new }
        ensures time { Elapses (moment self.old) (moment self.new) (images_since self.old) (images_since self.new) (images self.new) }
        ensures cause { HasCause (fault_count self.old) (fault_count self.new) result };

    /// Makes what was written last. After Ok each image is what a read gives.
    fn sync(&mut self) -> Result<(), Failed>
        ensures synced { OnOk result ((c : List ℕ) → images self.new c → content self.new ≡ Some c) }
        ensures content { content self.new ≡ content self.old }
        ensures images { (c : List ℕ) → images self.new c → images self.old c }
        ensures never { is_sure self.old → IsOk result }
        ensures sure { is_sure self.old → is_sure self.new }
        ensures time { Elapses (moment self.old) (moment self.new) (images_since self.old) (images_since self.new) (images self.new) }
        ensures cause { HasCause (fault_count self.old) (fault_count self.new) result };

    /// How many calls failed so far, up to 2^64 - 1.
    fn faults(&self) -> u64
        ensures { result ≡ fault_count self.now };

    /// A disk as it reads is one of its images.
    ghost content_is_image: { (disk : Self) (c : List ℕ) → content disk ≡ Some c → images disk c };

    /// This moment is one of those since an earlier one.
    ghost counts_now: { (disk : Self) (t : ℕ) (c : List ℕ) → t ≤ moment disk → images disk c → images_since disk t c };

    /// Since this moment there is no other.
    ghost only_now: { (disk : Self) (c : List ℕ) → images_since disk (moment disk) c → images disk c };
}
