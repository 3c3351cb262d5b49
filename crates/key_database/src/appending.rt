//! A change in the selected area of a store.

ghost use Rattle.std.specs.Prelude.{◌≡◌, ◌≤◌, ◌+◌, ◌-◌, ℕ, List, length, true, false, OnOk, is_err};
ghost use Rattle.ks_outside.specs.Images.{Goes, tells};
ghost use Rattle.journal_records.specs.Needs.{is_met};
ghost use Rattle.journal_records.specs.Spelling.{closed_of, AreFields, IsShort};
ghost use Rattle.journal_records.specs.Storable.{snapshot_length};
ghost use Rattle.journal_records.specs.declared.record.Record.{Record};
ghost use Rattle.journal_records.specs.declared.record.Record.TheVariants as records;
ghost use Rattle.record_areas.specs.Frames.{Frame};
ghost use Rattle.record_areas.specs.Holding.{end_after};
ghost use Rattle.journal_compact.specs.Holding.{Appends, IsSettledOn, SameTurn, compactions_of, end_of, is_waiting, record_bytes, write_state};
ghost use Rattle.journal_compact.specs.declared.places.TheConstants.{AREA_BYTES};
ghost use Rattle.lasting_table.specs.TableView.{lasting_in};
ghost use Rattle.key_database.specs.Adding.{StepsSurely};
ghost use Rattle.key_database.specs.Compacting.{ExtentAfter, extent_of, is_due, most_bytes};
ghost use Rattle.key_database.specs.Stands.{KeepsPart, Writes, change_bytes, part_after};
ghost use Rattle.tags.specs.declared.limits.TheConstants.{RECORD_BYTES};

use crate::compacting::compact_if_due;
use journal_compact::Areas;
use journal_records::{Change, frame_into, framed_length};
use ks_outside::{Disk, Failed};
use lasting_table::LastingTable;
use tags::RECORD_BYTES;

/// Adds a change to the selected area, in which there is room for it. It takes no memory.
fn append_change<D: Disk>(areas: &mut Areas, disk: &mut D, change: &Change) -> Result<(), Failed>
    requires settled { is_waiting areas.old ≡ false }
    requires short { IsShort change.now }
    requires small { length (closed_of change.now) ≤ RECORD_BYTES }
    requires fits { record_bytes areas.old + length (closed_of change.now) ≤ AREA_BYTES }
    ensures appends { (frame : Frame) (past : List Record) → IsSettledOn D.Disk areas.old disk.old frame past
        → Appends D.Disk areas.new disk.old disk.new frame past (records.Change change.now) result }
    ensures fields { AreFields change.now }
    ensures same { SameTurn areas.old areas.new }
    ensures compactions { compactions_of areas.new ≡ compactions_of areas.old }
    ensures waiting { is_waiting areas.new ≡ is_err result }
    ensures end { end_of areas.new ≡ end_after (length (closed_of change.now)) (write_state result) (end_of areas.old) }
    ensures goes { Goes D.Disk disk.old disk.new (is_err result) }
{
    let mut record = [0; RECORD_BYTES];
    let count = frame_into(change, &mut record);
    areas.append(disk, &record[..count])
}

/// Writes the store anew where that is due before a change of the table, and adds the change. At each moment each image stands for the lasting
/// part of the table, or for that with the change. It takes no memory.
pub(crate) fn write_change<D: Disk>(
    areas: &mut Areas,
    disk: &mut D,
    table: &LastingTable,
    change: &Change,
) -> Result<(), Failed>
    requires settled { is_waiting areas.old ≡ false }
    requires short { IsShort change.now }
    requires met { is_met (lasting_in table.now) change.now ≡ true }
    ensures writes { KeepsPart D.Disk areas.old disk.old (lasting_in table.now)
        → Writes D.Disk areas.new disk.old disk.new (lasting_in table.now) change.now result }
    ensures surely { KeepsPart D.Disk areas.old disk.old (lasting_in table.now) → D.is_sure disk.old → tells D.Disk disk.old ≡ true
        → StepsSurely D.Disk areas.old areas.new disk.old disk.new (lasting_in table.now) (part_after change.now (write_state result) (lasting_in table.now)) }
    ensures compacts { ExtentAfter (is_due (record_bytes areas.old) (snapshot_length (lasting_in table.now)) (change_bytes change.now))
        (snapshot_length (lasting_in table.now)) (change_bytes change.now) (extent_of areas.old) (extent_of areas.new) (write_state result) }
    ensures bounded { OnOk result (record_bytes areas.new ≤ most_bytes (snapshot_length (lasting_in table.now)) + (change_bytes change.now - 1)) }
    ensures waiting { is_waiting areas.new ≡ is_err result }
    ensures goes { Goes D.Disk disk.old disk.new (is_err result) }
{
    match compact_if_due(areas, disk, table, framed_length(change) as u64) {
        Ok(()) => append_change(areas, disk, change),
        Err(Failed) => Err(Failed),
    }
}
