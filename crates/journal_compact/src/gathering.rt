//! Records that are gathered, so that many go to the disk in one call.

ghost use Rattle.std.specs.Prelude.{◌≡◌, ◌≤◌, ◌<◌, ◌+◌, ◌^◌, ◌∷◌, ℕ, List, length, is_err, IfOk};
ghost use Rattle.ks_outside.specs.Images.{Goes};
ghost use Rattle.journal_records.specs.declared.record.Record.{Record};
ghost use Rattle.journal_records.specs.declared.record.Record.TheVariants as records;
ghost use Rattle.journal_records.specs.Spelling.{key_of};
ghost use Rattle.journal_compact.specs.Gathering.{Gathers, IsGathering, end_of};

use disk_calls::write_ahead;
use grants::GrantRow;
use journal_records::{GRANT_ROW, HeldNumbers, KEY_ROW, frame_grant_into, frame_key_into};
use ks_outside::{Disk, Failed};

/// How many bytes are gathered at the most. The longest record of a snapshot has fewer.
pub(crate) const GATHERED: usize = 16_384;

/// The place where gathered bytes are to be written, and how many there are.
#[derive(Clone, Copy)]
pub(crate) struct Gathered {
    pub(crate) place: u64,
    pub(crate) count: usize,
}

/// Makes room for so many bytes more: writes what was gathered, where they do not fit.
pub(crate) fn make_room<D: Disk>(
    disk: &mut D,
    rows: Gathered,
    bytes: &[u8],
    size: usize,
) -> Result<Gathered, Failed>
    requires size { size ≤ length bytes.now }
    requires count { rows.count ≤ length bytes.now }
    requires end { end_of rows < 2 ^ 64 }
    ensures room { IfOk result (λ more. more.count + size ≤ length bytes.now) }
    ensures end { IfOk result (λ more. end_of more ≡ end_of rows) }
    ensures gathers { (old : D) (at most : ℕ) (told : List Record) → IsGathering D.Disk old disk.old at most rows bytes.now told
        → Gathers D.Disk old disk.new at most bytes.now told result }
    ensures goes { Goes D.Disk disk.old disk.new (is_err result) }
{
    if size <= bytes.len() - rows.count {
        return Ok(rows);
    }
    let Ok(()) = write_ahead(disk, rows.place, &bytes[..rows.count]) else {
        return Err(Failed);
    };
    Ok(Gathered {
        place: rows.place + rows.count as u64,
        count: 0,
    })
}

/// Gathers the row of a key.
pub(crate) fn put_key<D: Disk>(
    disk: &mut D,
    numbers: HeldNumbers,
    alias: &[u8],
    blob: &[u8],
    list: &[u8],
    rows: Gathered,
    bytes: &mut [u8],
) -> Result<Gathered, Failed>
    requires short { KEY_ROW + length alias.now + length blob.now + length list.now < length bytes.old }
    requires size { length bytes.old ≤ GATHERED }
    requires count { rows.count ≤ length bytes.old }
    requires end { end_of rows < 2 ^ 63 }
    ensures size { length bytes.new ≡ length bytes.old }
    ensures count { IfOk result (λ more. more.count < length bytes.new) }
    ensures end { IfOk result (λ more. end_of more ≡ end_of rows + (KEY_ROW + length alias.now + length blob.now + length list.now)) }
    ensures gathers { (old : D) (at most : ℕ) (told : List Record) → IsGathering D.Disk old disk.old at most rows bytes.old told
        → end_of rows + (KEY_ROW + length alias.now + length blob.now + length list.now) < at + most
        → Gathers D.Disk old disk.new at most bytes.new (records.Held (key_of numbers alias.now blob.now list.now) ∷ told) result }
    ensures goes { Goes D.Disk disk.old disk.new (is_err result) }
{
    let size = KEY_ROW + alias.len() + blob.len() + list.len() + 1;
    let Ok(rows) = make_room(disk, rows, bytes, size) else {
        return Err(Failed);
    };
    let count = frame_key_into(numbers, alias, blob, list, &mut bytes[rows.count..]);
    Ok(Gathered {
        place: rows.place,
        count: rows.count + (count - 1),
    })
}

/// Gathers the row of a grant.
pub(crate) fn put_grant<D: Disk>(
    disk: &mut D,
    row: &GrantRow,
    rows: Gathered,
    bytes: &mut [u8],
) -> Result<Gathered, Failed>
    requires short { GRANT_ROW < length bytes.old }
    requires size { length bytes.old ≤ GATHERED }
    requires count { rows.count ≤ length bytes.old }
    requires end { end_of rows < 2 ^ 63 }
    ensures size { length bytes.new ≡ length bytes.old }
    ensures count { IfOk result (λ more. more.count < length bytes.new) }
    ensures end { IfOk result (λ more. end_of more ≡ end_of rows + GRANT_ROW) }
    ensures gathers { (old : D) (at most : ℕ) (told : List Record) → IsGathering D.Disk old disk.old at most rows bytes.old told
        → end_of rows + GRANT_ROW < at + most
        → Gathers D.Disk old disk.new at most bytes.new (records.HeldGrant row.now ∷ told) result }
    ensures goes { Goes D.Disk disk.old disk.new (is_err result) }
{
    let Ok(rows) = make_room(disk, rows, bytes, GRANT_ROW + 1) else {
        return Err(Failed);
    };
    let count = frame_grant_into(row, &mut bytes[rows.count..]);
    Ok(Gathered {
        place: rows.place,
        count: rows.count + (count - 1),
    })
}
