//! Writing a store anew where it has grown.

ghost use Rattle.std.specs.Prelude.{◌≡◌, ◌≤◌, ◌+◌, ℕ, List, length, true, false, OnOk, is_err};
ghost use Rattle.ks_outside.specs.Images.{Goes, Passes, tells};
ghost use Rattle.journal_records.specs.Storable.{snapshot_length};
ghost use Rattle.journal_compact.specs.Holding.{is_turning, is_waiting, record_bytes};
ghost use Rattle.journal_compact.specs.declared.places.TheConstants.{AREA_BYTES};
ghost use Rattle.lasting_table.specs.TableView.{lasting_in};
ghost use Rattle.key_database.specs.Adding.{StepsSurely};
ghost use Rattle.key_database.specs.Compacting as spec;
ghost use Rattle.key_database.specs.Compacting.{TurnsIf, extent_of};
ghost use Rattle.key_database.specs.Stands.{KeepsPart, TurnedTo};
ghost use Rattle.key_database.specs.Store.{StandsFor};
ghost use Rattle.tags.specs.declared.limits.TheConstants.{RECORD_BYTES};

use journal_compact::{AREA_BYTES, Areas};
use journal_records::storable_law;
use ks_outside::{Disk, Failed};
use lasting_table::LastingTable;
use tags::RECORD_BYTES;

/// So many bytes, and twice its snapshot, the records of a store may have before it is written anew.
const SLACK_BYTES: u64 = 65_536;

/// Whether a store is written anew before a record that has so many bytes with its closing byte.
fn is_due(areas: &Areas, table: &LastingTable, count: u64) -> bool
    requires { count ≤ RECORD_BYTES }
    ensures { result ≡ spec.is_due (record_bytes areas.now) (snapshot_length (lasting_in table.now)) count }
{
    table.storable();
    let bytes = areas.record_bytes();
    bytes > SLACK_BYTES + 2 * table.snapshot_length() || bytes + count > AREA_BYTES
}

/// Writes the store anew where that is due before a record that has so many bytes with its closing byte. Then the record fits. At each moment
/// each image stands for the lasting part of the table. It takes no memory.
pub(crate) fn compact_if_due<D: Disk>(
    areas: &mut Areas,
    disk: &mut D,
    table: &LastingTable,
    count: u64,
) -> Result<(), Failed>
    requires settled { is_waiting areas.old ≡ false }
    requires small { count ≤ RECORD_BYTES }
    ensures turned { KeepsPart D.Disk areas.old disk.old (lasting_in table.now) → TurnedTo D.Disk areas.new disk.new (lasting_in table.now) result }
    ensures passes { KeepsPart D.Disk areas.old disk.old (lasting_in table.now) → Passes D.Disk disk.old disk.new (StandsFor (lasting_in table.now)) }
    ensures surely { KeepsPart D.Disk areas.old disk.old (lasting_in table.now) → D.is_sure disk.old → tells D.Disk disk.old ≡ true
        → StepsSurely D.Disk areas.old areas.new disk.old disk.new (lasting_in table.now) (lasting_in table.now) }
    ensures compacts { TurnsIf (spec.is_due (record_bytes areas.old) (snapshot_length (lasting_in table.now)) count)
        (snapshot_length (lasting_in table.now)) (extent_of areas.old) (extent_of areas.new) result }
    ensures bounded { OnOk result (record_bytes areas.new ≤ spec.most_bytes (snapshot_length (lasting_in table.now))) }
    ensures fits { OnOk result (record_bytes areas.new + count ≤ AREA_BYTES) }
    ensures waiting { is_waiting areas.new ≡ is_err result }
    ensures goes { Goes D.Disk disk.old disk.new (is_err result) }
{
    storable_law();
    table.storable();
    if !is_due(areas, table, count) {
        return Ok(());
    }
    areas.compact(disk, table)
}
