//! Writing the snapshot of a lasting part, from the rows of a table.

ghost use Rattle.std.specs.Prelude.{◌≡◌, ◌≤◌, ◌<◌, ◌+◌, ◌*◌, ◌^◌, ◌∷◌, ◌++◌, [], ℕ, List, length, is_err, map, reverse, IfOk, OnOk};
ghost use Rattle.ks_outside.specs.Images.{AllImages, Goes, Passes, TornFrom};
ghost use Rattle.gated_records.specs.Areas.{HoldsAt};
ghost use Rattle.journal_records.specs.declared.record.Record.{Record};
ghost use Rattle.journal_records.specs.Spelling.{spelled};
ghost use Rattle.journal_records.specs.Storable.{IsStorable, held_grant, held_key, key_rows_length, snapshot, snapshot_length};
ghost use Rattle.journal_records.specs.declared.writing.TheConstants.{GRANT_ROW};
ghost use Rattle.journal_compact.specs.Gathering.{AllAhead, Gathers, IsGathering, end_of};

use crate::gathering::{GATHERED, Gathered, put_grant, put_key};
use disk_calls::write_ahead;
use gated_records::CLOSED;
use held_rows::Held;
use journal_records::{frame_next_into, storable_law};
use ks_outside::{Disk, Failed};

/// Gathers the row of each key, by rising numbers.
fn put_keys<D: Disk, K: Held>(
    disk: &mut D,
    keys: &K,
    rows: Gathered,
    bytes: &mut [u8],
) -> Result<Gathered, Failed>
    requires storable { IsStorable (K.part keys.now) }
    requires size { length bytes.old ≡ GATHERED }
    requires count { rows.count < length bytes.old }
    requires end { end_of rows + key_rows_length (K.part keys.now).keys < 2 ^ 63 }
    ensures size { length bytes.new ≡ length bytes.old }
    ensures count { IfOk result (λ more. more.count < length bytes.new) }
    ensures end { IfOk result (λ more. end_of more ≡ end_of rows + key_rows_length (K.part keys.now).keys) }
    ensures gathers { (old : D) (at most : ℕ) (told : List Record) → IsGathering D.Disk old disk.old at most rows bytes.old told
        → end_of rows + key_rows_length (K.part keys.now).keys < at + most
        → Gathers D.Disk old disk.new at most bytes.new (reverse (map held_key (K.part keys.now).keys) ++ told) result }
    ensures goes { Goes D.Disk disk.old disk.new (is_err result) }
{
    let mut rows = rows;
    let mut past = 0;
    'keys: while let Some(key) = keys.key_after(past) {
        let (alias, blob, list) = (keys.alias(key.id), keys.blob(key.id), keys.list(key.id));
        let Ok(more) = put_key(disk, key, alias, blob, list, rows, bytes) else {
            return Err(Failed);
        };
        rows = more;
        past = key.id;
    }
    Ok(rows)
}

/// Gathers the row of each grant, by rising numbers.
fn put_grants<D: Disk, K: Held>(
    disk: &mut D,
    keys: &K,
    rows: Gathered,
    bytes: &mut [u8],
) -> Result<Gathered, Failed>
    requires storable { IsStorable (K.part keys.now) }
    requires size { length bytes.old ≡ GATHERED }
    requires count { rows.count < length bytes.old }
    requires end { end_of rows + GRANT_ROW * length (K.part keys.now).grants < 2 ^ 63 }
    ensures size { length bytes.new ≡ length bytes.old }
    ensures count { IfOk result (λ more. more.count < length bytes.new) }
    ensures end { IfOk result (λ more. end_of more ≡ end_of rows + GRANT_ROW * length (K.part keys.now).grants) }
    ensures gathers { (old : D) (at most : ℕ) (told : List Record) → IsGathering D.Disk old disk.old at most rows bytes.old told
        → end_of rows + GRANT_ROW * length (K.part keys.now).grants < at + most
        → Gathers D.Disk old disk.new at most bytes.new (reverse (map held_grant (K.part keys.now).grants) ++ told) result }
    ensures goes { Goes D.Disk disk.old disk.new (is_err result) }
{
    let mut rows = rows;
    let mut past = 0;
    'grants: while let Some(row) = keys.grant_after(past) {
        let Ok(more) = put_grant(disk, &row.grant_row(), rows, bytes) else {
            return Err(Failed);
        };
        rows = more;
        past = row.grant;
    }
    Ok(rows)
}

/// Writes the snapshot of what a table holds from a place on, and a byte 00 behind it, many records in a call of the disk; answers the place
/// of that byte. The next sync makes it last. Whatever it answers, at each moment each image that came is an old one with at most the
/// snapshot's range, and the part past the old end, torn. It takes no memory.
pub fn write_snapshot<D: Disk, K: Held>(disk: &mut D, at: u64, keys: &K) -> Result<u64, Failed>
    requires storable { IsStorable (K.part keys.now) }
    requires place { at < 2 ^ 62 }
    ensures end { IfOk result (λ end. end ≡ at + snapshot_length (K.part keys.now)) }
    ensures ahead { OnOk result (AllAhead D.Disk disk.new (HoldsAt at (spelled (reverse (snapshot (K.part keys.now))) ++ 0 ∷ []))) }
    ensures torn { AllImages D.Disk disk.new (TornFrom D.Disk disk.old at (snapshot_length (K.part keys.now) + 1)) }
    ensures passes { Passes D.Disk disk.old disk.new (TornFrom D.Disk disk.old at (snapshot_length (K.part keys.now) + 1)) }
    ensures goes { Goes D.Disk disk.old disk.new (is_err result) }
{
    let mut bytes = [0; GATHERED];
    let (key, grant) = keys.next_numbers();
    let count = frame_next_into(key, grant, &mut bytes) - 1;
    let rows = Gathered { place: at, count };
    let Ok(rows) = put_keys(disk, keys, rows, &mut bytes) else {
        return Err(Failed);
    };
    let Ok(rows) = put_grants(disk, keys, rows, &mut bytes) else {
        return Err(Failed);
    };
    bytes[rows.count] = CLOSED;
    let Ok(()) = write_ahead(disk, rows.place, &bytes[..rows.count + 1]) else {
        return Err(Failed);
    };
    Ok(rows.place + rows.count as u64)
}
