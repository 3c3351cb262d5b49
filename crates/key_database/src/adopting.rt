//! Bringing a store that was read to areas.

ghost use Rattle.std.specs.Prelude.{◌≡◌, false, IfOk, is_err};
ghost use Rattle.ks_outside.specs.Images.{Goes};
ghost use Rattle.journal_compact.specs.Adopting.{Comes};
ghost use Rattle.journal_compact.specs.Holding.{is_waiting};
ghost use Rattle.lasting_table.specs.TableView.{lasting_in};
ghost use Rattle.key_database.specs.Stands.{AreFound, IsIdle, KeepsFound, KeepsPart, StaysFor};

use crate::opening::Found;
use journal_compact::Areas;
use journal_records::storable_law;
use ks_outside::{Disk, Failed};
use lasting_table::LastingTable;

/// The areas of a store that was found; a journal is brought to areas first. At each moment each image stands for the lasting part of the table.
/// It takes no memory.
pub(crate) fn to_areas<D: Disk>(
    disk: &mut D,
    found: Found,
    table: &LastingTable,
) -> Result<Areas, Failed>
    requires { IsIdle found }
    ensures keeps { KeepsFound D.Disk disk.old (lasting_in table.now) found
        → IfOk result (λ areas. KeepsPart D.Disk areas disk.new (lasting_in table.now)) }
    ensures stays { KeepsFound D.Disk disk.old (lasting_in table.now) found → StaysFor D.Disk disk.old disk.new (lasting_in table.now) }
    ensures idle { IfOk result (λ areas. is_waiting areas ≡ false) }
    ensures comes { Comes D.Disk disk.old disk.new }
    ensures unwritten { AreFound found → (disk.new ≡ disk.old) × (is_err result ≡ false) }
    ensures goes { Goes D.Disk disk.old disk.new (is_err result) }
{
    storable_law();
    table.storable();
    match found {
        Found::Areas(areas) => Ok(areas),
        Found::Journal => Areas::adopt(disk, table),
    }
}
