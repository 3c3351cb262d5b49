//! Many writes before one sync. What was written is ahead of the disk: the next sync that answers Ok makes it of each image.

ghost use Rattle.std.specs.Prelude.{◌+◌, ◌≤◌, ◌^◌, length, is_err, IsOk, OnOk, OnErr};
ghost use Rattle.disk_calls.specs.Ahead.{IsAhead};
ghost use Rattle.ks_outside.specs.Ranges.{Holds};
ghost use Rattle.ks_outside.specs.Moments.{Follows};
ghost use Rattle.ks_outside.specs.Images.{AllImages, Passes, TornFrom, Goes, Reads};

use ks_outside::{Disk, Failed};

/// How many bytes one call of the disk is handed at the most, where a text is written in pieces.
pub const PIECE: usize = 65_536;

/// Writes a piece at a place, also past the end; one call of the disk. After Ok what is ahead is what was, with the piece in its range.
/// Whatever it answers, at each moment each image that came is an old one with at most that range, and the part past the old end, torn.
pub fn write_ahead<D: Disk>(disk: &mut D, at: u64, piece: &[u8]) -> Result<(), Failed>
    ensures ahead { OnOk result (Follows (Holds at piece.now) (IsAhead D.Disk disk.old) (IsAhead D.Disk disk.new)) }
    ensures torn { AllImages D.Disk disk.new (TornFrom D.Disk disk.old at (length piece.now)) }
    ensures passes { Passes D.Disk disk.old disk.new (TornFrom D.Disk disk.old at (length piece.now)) }
    ensures nothing { D.is_sure disk.old → OnErr result (AllImages D.Disk disk.new (D.images disk.old)) }
    ensures goes { Goes D.Disk disk.old disk.new (is_err result) }
{
    disk.write_at(at, piece)
}

/// Writes bytes at a place, in order, at most `PIECE` of them in a call of the disk. What is ahead, and the images that came, are those of
/// one write of them all; where it fails, any of the calls did, and those before it were made.
pub fn write_pieces<D: Disk>(disk: &mut D, at: u64, bytes: &[u8]) -> Result<(), Failed>
    requires fits { at + length bytes.now ≤ 2 ^ 64 }
    ensures ahead { OnOk result (Follows (Holds at bytes.now) (IsAhead D.Disk disk.old) (IsAhead D.Disk disk.new)) }
    ensures torn { AllImages D.Disk disk.new (TornFrom D.Disk disk.old at (length bytes.now)) }
    ensures passes { Passes D.Disk disk.old disk.new (TornFrom D.Disk disk.old at (length bytes.now)) }
    ensures goes { Goes D.Disk disk.old disk.new (is_err result) }
{
    let mut place = at;
    let mut rest = bytes;
    'pieces: while rest.len() > PIECE {
        let (piece, behind) = rest.split_at(PIECE);
        let Ok(()) = write_ahead(disk, place, piece) else {
            return Err(Failed);
        };
        place += PIECE as u64;
        rest = behind;
    }
    write_ahead(disk, place, rest)
}

/// Syncs; one call of the disk. After Ok each image is what was ahead. Whatever it answers, no image came.
pub fn sync_ahead<D: Disk>(disk: &mut D) -> Result<(), Failed>
    ensures made { OnOk result (AllImages D.Disk disk.new (IsAhead D.Disk disk.old)) }
    ensures never { D.is_sure disk.old → IsOk result }
    ensures goes { Reads D.Disk disk.old disk.new (is_err result) }
{
    disk.sync()
}
