//! Bringing a journal to areas, a sync behind each step.

ghost use Rattle.std.specs.Prelude.{◌≡◌, ◌+◌, List, reverse, is_err, IfOk, OnOk};
ghost use Rattle.ks_outside.specs.Images.{AllImages, Goes, Passes};
ghost use Rattle.gated_records.specs.Areas.{HoldsAt};
ghost use Rattle.journal_records.specs.declared.record.Record.{Record};
ghost use Rattle.journal_records.specs.Storable.{IsStorable, snapshot, snapshot_length};
ghost use Rattle.record_areas.specs.Frames.{IsStore};
ghost use Rattle.use_journal.specs.Journal.{IsJournal};
ghost use Rattle.journal_compact.specs.Adopting.{Comes};
ghost use Rattle.journal_compact.specs.Gathering.{AllAhead};
ghost use Rattle.journal_compact.specs.Older.{IsBeside, IsFirst, IsOlderOrNew, new_frame};
ghost use Rattle.journal_compact.specs.Turning.{seal};

use crate::places::{AREA_A, JOURNAL_RECORDS, MAGIC_BYTES, SELECTOR, SELECTS_A, VERSION};
use crate::snapshot::write_snapshot;
use crate::turning::SEAL;
use disk_calls::{sync_ahead, write_ahead, write_synced};
use held_rows::Held;
use journal_records::storable_law;
use ks_outside::{Disk, Failed};

/// Writes the snapshot of what a table holds into area A, with a closing byte, and selects it; answers the place of that byte. The next sync
/// makes them last. No journal moves.
fn put_first<D: Disk, K: Held>(disk: &mut D, keys: &K) -> Result<u64, Failed>
    requires { IsStorable (K.part keys.now) }
    ensures end { IfOk result (λ end. end ≡ AREA_A + snapshot_length (K.part keys.now)) }
    ensures ahead { OnOk result (AllAhead D.Disk disk.new (IsFirst (reverse (snapshot (K.part keys.now))))) }
    ensures stays { (past : List Record) → AllImages D.Disk disk.old (IsJournal past) → AllImages D.Disk disk.new (IsJournal past) }
    ensures passes { (past : List Record) → AllImages D.Disk disk.old (IsJournal past) → Passes D.Disk disk.old disk.new (IsJournal past) }
    ensures comes { Comes D.Disk disk.old disk.new }
    ensures goes { Goes D.Disk disk.old disk.new (is_err result) }
{
    storable_law();
    let Ok(end) = write_snapshot(disk, AREA_A, keys) else {
        return Err(Failed);
    };
    let Ok(()) = write_ahead(disk, SELECTOR, &[SELECTS_A]) else {
        return Err(Failed);
    };
    Ok(end)
}

/// The same, and syncs.
pub(crate) fn put_beside_journal<D: Disk, K: Held>(disk: &mut D, keys: &K) -> Result<u64, Failed>
    requires { IsStorable (K.part keys.now) }
    ensures end { IfOk result (λ end. end ≡ AREA_A + snapshot_length (K.part keys.now)) }
    ensures beside { (past : List Record) → AllImages D.Disk disk.old (IsJournal past)
        → OnOk result (AllImages D.Disk disk.new (IsBeside past (reverse (snapshot (K.part keys.now))))) }
    ensures stays { (past : List Record) → AllImages D.Disk disk.old (IsJournal past) → AllImages D.Disk disk.new (IsJournal past) }
    ensures passes { (past : List Record) → AllImages D.Disk disk.old (IsJournal past) → Passes D.Disk disk.old disk.new (IsJournal past) }
    ensures comes { Comes D.Disk disk.old disk.new }
    ensures goes { Goes D.Disk disk.old disk.new (is_err result) }
{
    let Ok(end) = put_first(disk, keys) else {
        return Err(Failed);
    };
    let Ok(()) = sync_ahead(disk) else {
        return Err(Failed);
    };
    Ok(end)
}

/// Writes the version of a store of areas over that of the journal, and syncs. It is one byte: whatever it is after a crash, the store is the
/// journal or has the rows that stand beside it.
fn renew_version<D: Disk>(disk: &mut D) -> Result<(), Failed>
    ensures renewed { (past rows : List Record) → AllImages D.Disk disk.old (IsBeside past rows)
        → OnOk result (AllImages D.Disk disk.new (IsStore new_frame rows)) }
    ensures either { (past rows : List Record) → AllImages D.Disk disk.old (IsBeside past rows)
        → AllImages D.Disk disk.new (IsOlderOrNew past rows) }
    ensures passes { (past rows : List Record) → AllImages D.Disk disk.old (IsBeside past rows)
        → Passes D.Disk disk.old disk.new (IsOlderOrNew past rows) }
    ensures comes { Comes D.Disk disk.old disk.new }
    ensures goes { Goes D.Disk disk.old disk.new (is_err result) }
{
    write_synced(disk, MAGIC_BYTES as u64, &[VERSION])
}

/// Seals the journal that is left, and syncs.
fn seal_journal<D: Disk>(disk: &mut D) -> Result<(), Failed>
    ensures sealed { OnOk result (AllImages D.Disk disk.new (HoldsAt JOURNAL_RECORDS seal)) }
    ensures stays { (rows : List Record) → AllImages D.Disk disk.old (IsStore new_frame rows) → AllImages D.Disk disk.new (IsStore new_frame rows) }
    ensures passes { (rows : List Record) → AllImages D.Disk disk.old (IsStore new_frame rows) → Passes D.Disk disk.old disk.new (IsStore new_frame rows) }
    ensures comes { Comes D.Disk disk.old disk.new }
    ensures goes { Goes D.Disk disk.old disk.new (is_err result) }
{
    write_synced(disk, JOURNAL_RECORDS, &SEAL)
}

/// Makes a journal the store of areas whose rows stand beside it, and seals the journal.
pub(crate) fn turn_journal<D: Disk>(disk: &mut D) -> Result<(), Failed>
    ensures renewed { (past rows : List Record) → AllImages D.Disk disk.old (IsBeside past rows)
        → OnOk result (AllImages D.Disk disk.new (IsStore new_frame rows)) }
    ensures either { (past rows : List Record) → AllImages D.Disk disk.old (IsBeside past rows)
        → AllImages D.Disk disk.new (IsOlderOrNew past rows) }
    ensures passes { (past rows : List Record) → AllImages D.Disk disk.old (IsBeside past rows)
        → Passes D.Disk disk.old disk.new (IsOlderOrNew past rows) }
    ensures sealed { OnOk result (AllImages D.Disk disk.new (HoldsAt JOURNAL_RECORDS seal)) }
    ensures comes { Comes D.Disk disk.old disk.new }
    ensures goes { Goes D.Disk disk.old disk.new (is_err result) }
{
    let Ok(()) = renew_version(disk) else {
        return Err(Failed);
    };
    seal_journal(disk)
}
