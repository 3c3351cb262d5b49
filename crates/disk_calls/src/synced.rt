//! Calls that end a change with a sync, and that read what was synced. Their contracts speak of images alone.

ghost use Rattle.std.specs.Prelude.{◌≡◌, ℕ, ◌<◌, List, Option, slice_get, length, is_err, IfOk, OnOk, OnErr};
ghost use Rattle.ks_outside.specs.Ranges.{Holds, Torn};
ghost use Rattle.ks_outside.specs.Moments.{Follows};
ghost use Rattle.ks_outside.specs.Images.{AllImages, Passes, TornFrom, Goes, Reads};

use crate::ahead::{sync_ahead, write_ahead};
use crate::still::{read_still, sync_still};
use ks_outside::{Disk, Failed};

/// Writes a piece, and syncs. After Ok each image is an old one with the piece in its range. Whatever it answers, at each moment each
/// image that came is an old one with at most that range, and the part past the old end, torn.
pub fn write_synced<D: Disk>(disk: &mut D, at: u64, piece: &[u8]) -> Result<(), Failed>
    ensures written { OnOk result (Follows (Holds at piece.now) (D.images disk.old) (D.images disk.new)) }
    ensures torn { AllImages D.Disk disk.new (TornFrom D.Disk disk.old at (length piece.now)) }
    ensures passes { Passes D.Disk disk.old disk.new (TornFrom D.Disk disk.old at (length piece.now)) }
    ensures nothing { D.is_sure disk.old → OnErr result (AllImages D.Disk disk.new (D.images disk.old)) }
    ensures goes { Goes D.Disk disk.old disk.new (is_err result) }
{
    let Ok(()) = write_ahead(disk, at, piece) else {
        return Err(Failed);
    };
    sync_ahead(disk)
}

/// Syncs, and reads the byte at a place; None where no byte stands there. Each image then has that byte there. A disk that fails here, or
/// not, has no image that it did not have.
pub fn read_synced_byte<D: Disk>(disk: &mut D, at: u64) -> Result<Option<u8>, Failed>
    ensures byte { IfOk result (λ byte. AllImages D.Disk disk.new (λ c. slice_get c at ≡ byte)) }
    ensures goes { Reads D.Disk disk.old disk.new (is_err result) }
{
    let Ok(()) = sync_still(disk) else {
        return Err(Failed);
    };
    let mut byte = [0];
    let Ok(count) = read_still(disk, at, &mut byte) else {
        return Err(Failed);
    };
    if count == 0 {
        return Ok(None);
    }
    Ok(Some(byte[0]))
}
