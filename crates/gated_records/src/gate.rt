//! The gate protocol.

ghost use Rattle.std.specs.Prelude.{◌≡◌, ◌<◌, ◌≤◌, ◌+◌, ◌-◌, ◌^◌, ◌++◌, ◌∷◌, [], ℕ, List, length, is_err, OnOk, OnErr, IfOk};
ghost use Rattle.ks_outside.specs.Images.{AllImages, Goes, Passes, Reads};
ghost use Rattle.gated_records.specs.Areas.{HoldsAt, IsOutside, IsArea, HasArea, IsWithOrWithout, closed_by, with_more, opened_to};

use disk_calls::{read_synced_byte, write_synced};
use ks_outside::{Disk, Failed};

/// An open gate.
pub const OPEN: u8 = 0x4b;
/// A gate that is shut. Every byte but an open gate is one.
pub const CLOSED: u8 = 0;

/// Publishes what stands behind the gate at `at`: writes it and syncs, opens the gate and syncs, four calls of the disk
/// unless one fails. `closed` is the open gate, what is to count, and a shut gate behind it. It takes no memory.
///
/// At each moment each image has the records that stood before the gate, or those and what is to count; and it has
/// what stood on each image outside the place of `closed`.
pub fn publish<D: Disk>(disk: &mut D, at: u64, closed: &[u8]) -> Result<(), Failed>
    requires some { 2 ≤ length closed.now }
    requires fits { at < 2 ^ 64 - 1 }
    ensures done { (start : ℕ) (records more : List ℕ) → HasArea D.Disk disk.old start records at
        → closed.now ≡ closed_by more
        → OnOk result (AllImages D.Disk disk.new (IsArea start (with_more records more))) }
    ensures torn { (start : ℕ) (records more : List ℕ) → HasArea D.Disk disk.old start records at
        → closed.now ≡ closed_by more
        → OnErr result (AllImages D.Disk disk.new (IsWithOrWithout start records more)) }
    ensures passes { (start : ℕ) (records more : List ℕ) → HasArea D.Disk disk.old start records at
        → closed.now ≡ closed_by more
        → Passes D.Disk disk.old disk.new (IsWithOrWithout start records more) }
    ensures nothing { (start : ℕ) (records more : List ℕ) → HasArea D.Disk disk.old start records at
        → closed.now ≡ closed_by more
        → D.is_sure disk.old → OnErr result (AllImages D.Disk disk.new (IsArea start records)) }
    ensures keeps { (place : ℕ) (bytes : List ℕ) → IsOutside place bytes at (length closed.now)
        → AllImages D.Disk disk.old (HoldsAt place bytes)
        → AllImages D.Disk disk.new (HoldsAt place bytes) }
    ensures keeps_passing { (place : ℕ) (bytes : List ℕ) → IsOutside place bytes at (length closed.now)
        → AllImages D.Disk disk.old (HoldsAt place bytes)
        → Passes D.Disk disk.old disk.new (HoldsAt place bytes) }
    ensures goes { Goes D.Disk disk.old disk.new (is_err result) }
{
    let Ok(()) = write_synced(disk, at + 1, &closed[1..]) else {
        return Err(Failed);
    };
    let Ok(()) = write_synced(disk, at, &[OPEN]) else {
        return Err(Failed);
    };
    Ok(())
}

/// Syncs, and tells whether the gate at `at` is open: whether what a publishing that failed was to add counts, on each
/// image from now on. It takes no memory.
pub fn is_published<D: Disk>(disk: &mut D, at: u64) -> Result<bool, Failed>
    ensures settled { (start : ℕ) (records more : List ℕ) → at ≡ start + length records
        → AllImages D.Disk disk.old (IsWithOrWithout start records more)
        → IfOk result (λ opened. AllImages D.Disk disk.new (IsArea start (opened_to opened records more))) }
    ensures goes { Reads D.Disk disk.old disk.new (is_err result) }
{
    let Ok(byte) = read_synced_byte(disk, at) else {
        return Err(Failed);
    };
    Ok(byte == Some(OPEN))
}
