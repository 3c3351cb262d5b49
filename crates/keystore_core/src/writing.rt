//! A change of what lasts, on the disk and in the tables.

ghost use Rattle.std.specs.Prelude.{◌≡◌, Some, false};
ghost use Rattle.lasting_table.specs.TableView.{CanMake};
ghost use Rattle.key_database.specs.Stands.{is_unsettled, table_of};
ghost use Rattle.keystore_core.specs.Writing.{IsWritten, StoreGoes};

use journal_records::Change;
use key_database::KeyDatabase;
use ks_outside::{Disk, Failed};
use rule_model::{Fields, Reply};
use tags::Code;

/// Makes a change whose need is met and for which there is room, on the disk and then in memory, and answers with these
/// fields; where a device call failed, with that. It takes no memory.
pub fn write_change<D: Disk>(
    keys: &mut KeyDatabase,
    disk: &mut D,
    change: Change,
    fields: Fields,
) -> Reply
    requires settled { is_unsettled keys.old ≡ false }
    requires can { CanMake (table_of keys.old) change }
    ensures written { IsWritten keys.old keys.new change fields result }
    ensures store { StoreGoes D.Disk keys.old keys.new disk.old disk.new false (Some change) result }
{
    match keys.commit(disk, change) {
        Ok(()) => Reply::Done(fields),
        Err(Failed) => {
            drop(fields);
            Reply::Stopped {
                code: Code::SystemError,
            }
        }
    }
}
