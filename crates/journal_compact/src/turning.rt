//! Turning a store from one of its areas to the other, a sync behind each step.

ghost use Rattle.std.specs.Prelude.{◌≡◌, ◌+◌, ℕ, List, reverse, is_err, IfOk, OnErr, OnOk};
ghost use Rattle.ks_outside.specs.Images.{AllImages, Goes, Passes};
ghost use Rattle.gated_records.specs.Areas.{HoldsAt};
ghost use Rattle.journal_records.specs.declared.record.Record.{Record};
ghost use Rattle.journal_records.specs.Storable.{IsStorable, snapshot, snapshot_length};
ghost use Rattle.record_areas.specs.Frames.{Frame, HasRecords, IsStore};
ghost use Rattle.journal_compact.specs.Stores.{IsFrameOf, byte_of, frame_of, limit_of, other, start_of};
ghost use Rattle.journal_compact.specs.Turning.{IsBoth, IsEither, seal};

use crate::places::{SELECTOR, Selected};
use crate::snapshot::write_snapshot;
use disk_calls::{sync_ahead, write_synced};
use gated_records::OPEN;
use held_rows::Held;
use journal_records::storable_law;
use ks_outside::{Disk, Failed};

/// What is written over the first bytes of an area that is left: an open gate, and the length of a body that passes the area's end. A
/// selector that is damaged later then selects no older state, but one that is broken off at its first place.
pub(crate) const SEAL: [u8; 5] = [OPEN, 0xff, 0xff, 0xff, 0xff];

/// Writes the snapshot of what a table holds into the area that is not selected, with a closing byte, and syncs; answers the place of that
/// byte. Nothing that is selected moves.
pub(crate) fn put_beside<D: Disk, K: Held>(
    disk: &mut D,
    selected: Selected,
    keys: &K,
) -> Result<u64, Failed>
    requires { IsStorable (K.part keys.now) }
    ensures end { IfOk result (λ end. end ≡ start_of (other selected) + snapshot_length (K.part keys.now)) }
    ensures beside { (frame : Frame) (past : List Record) → IsFrameOf selected frame → AllImages D.Disk disk.old (IsStore frame past)
        → OnOk result (AllImages D.Disk disk.new (IsBoth frame selected past (reverse (snapshot (K.part keys.now))))) }
    ensures stays { (frame : Frame) (past : List Record) → IsFrameOf selected frame → AllImages D.Disk disk.old (IsStore frame past)
        → AllImages D.Disk disk.new (IsStore frame past) }
    ensures passes { (frame : Frame) (past : List Record) → IsFrameOf selected frame → AllImages D.Disk disk.old (IsStore frame past)
        → Passes D.Disk disk.old disk.new (IsStore frame past) }
    ensures goes { Goes D.Disk disk.old disk.new (is_err result) }
{
    storable_law();
    let Ok(end) = write_snapshot(disk, selected.other().start(), keys) else {
        return Err(Failed);
    };
    let Ok(()) = sync_ahead(disk) else {
        return Err(Failed);
    };
    Ok(end)
}

/// Selects the other area, and syncs.
fn select_other<D: Disk>(disk: &mut D, selected: Selected) -> Result<(), Failed>
    ensures turned { (frame : Frame) (past rows : List Record) (is : IsFrameOf selected frame) → AllImages D.Disk disk.old (IsBoth frame selected past rows)
        → OnOk result (AllImages D.Disk disk.new (IsStore (frame_of (other selected) is.version (byte_of (other selected))) rows)) }
    ensures either { (frame : Frame) (past rows : List Record) (is : IsFrameOf selected frame) → AllImages D.Disk disk.old (IsBoth frame selected past rows)
        → AllImages D.Disk disk.new (IsEither is.version selected past rows) }
    ensures passes { (frame : Frame) (past rows : List Record) (is : IsFrameOf selected frame) → AllImages D.Disk disk.old (IsBoth frame selected past rows)
        → Passes D.Disk disk.old disk.new (IsEither is.version selected past rows) }
    ensures beside { (frame : Frame) (past rows : List Record) → IsFrameOf selected frame → AllImages D.Disk disk.old (IsBoth frame selected past rows)
        → AllImages D.Disk disk.new (HasRecords (start_of selected) (limit_of selected) past) }
    ensures goes { Goes D.Disk disk.old disk.new (is_err result) }
{
    write_synced(disk, SELECTOR, &[selected.other().byte()])
}

/// Seals the area that is not selected, and syncs. Nothing that is selected moves.
fn seal_other<D: Disk>(disk: &mut D, selected: Selected) -> Result<(), Failed>
    ensures sealed { OnOk result (AllImages D.Disk disk.new (HoldsAt (start_of (other selected)) seal)) }
    ensures stays { (frame : Frame) (past : List Record) → IsFrameOf selected frame → AllImages D.Disk disk.old (IsStore frame past)
        → AllImages D.Disk disk.new (IsStore frame past) }
    ensures passes { (frame : Frame) (past : List Record) → IsFrameOf selected frame → AllImages D.Disk disk.old (IsStore frame past)
        → Passes D.Disk disk.old disk.new (IsStore frame past) }
    ensures nothing { D.is_sure disk.old → OnErr result (AllImages D.Disk disk.new (D.images disk.old)) }
    ensures goes { Goes D.Disk disk.old disk.new (is_err result) }
{
    write_synced(disk, selected.other().start(), &SEAL)
}

/// Selects the other area, in which records stand too, syncs, seals the one that is left, and syncs. Where a sure disk's call fails, the one
/// that is left still has its records.
pub(crate) fn turn_from<D: Disk>(disk: &mut D, selected: Selected) -> Result<(), Failed>
    ensures turned { (frame : Frame) (past rows : List Record) (is : IsFrameOf selected frame) → AllImages D.Disk disk.old (IsBoth frame selected past rows)
        → OnOk result (AllImages D.Disk disk.new (IsStore (frame_of (other selected) is.version (byte_of (other selected))) rows)) }
    ensures either { (frame : Frame) (past rows : List Record) (is : IsFrameOf selected frame) → AllImages D.Disk disk.old (IsBoth frame selected past rows)
        → AllImages D.Disk disk.new (IsEither is.version selected past rows) }
    ensures passes { (frame : Frame) (past rows : List Record) (is : IsFrameOf selected frame) → AllImages D.Disk disk.old (IsBoth frame selected past rows)
        → Passes D.Disk disk.old disk.new (IsEither is.version selected past rows) }
    ensures sealed { OnOk result (AllImages D.Disk disk.new (HoldsAt (start_of selected) seal)) }
    ensures nothing { (frame : Frame) (past rows : List Record) → IsFrameOf selected frame → AllImages D.Disk disk.old (IsBoth frame selected past rows)
        → D.is_sure disk.old → OnErr result (AllImages D.Disk disk.new (HasRecords (start_of selected) (limit_of selected) past)) }
    ensures goes { Goes D.Disk disk.old disk.new (is_err result) }
{
    let Ok(()) = select_other(disk, selected) else {
        return Err(Failed);
    };
    seal_other(disk, selected.other())
}
