//! The grants of a key.

ghost use Rattle.std.specs.Prelude.{◌≡◌, true, false, IfSome, IfNone};
ghost use Rattle.std.specs.Option.{option_copied};
ghost use Rattle.lasting_table.specs.TableView.{lasting_in};
ghost use Rattle.rule_model.specs.Access.{id_of};
ghost use Rattle.rule_model.specs.Changes.{grant_number, grant_of};
ghost use Rattle.rule_model.specs.Places.{has_grant_place};

use journal_records::KeyRecord;
use lasting_table::LastingTable;
use tags::{MOST_GRANTS, NUMBERS_END};

/// The number that a grant of a key to a uid takes, where there is a place for it: that of the one that both have, which
/// takes no place, or the next one.
pub fn grant_place(table: &LastingTable, key: u64, uid: u32) -> Option<u64>
    ensures some { IfSome result (λ number. (has_grant_place (lasting_in table.now) key uid ≡ true) × (number ≡ grant_number (lasting_in table.now) key uid)) }
    ensures none { IfNone result (has_grant_place (lasting_in table.now) key uid ≡ false) }
{
    if let Some(held) = table.grants().of_key(key, uid) {
        return Some(held.grant);
    }
    let next = table.next_numbers().1;
    if next < NUMBERS_END && table.grants().len() < MOST_GRANTS {
        return Some(next);
    }
    None
}

/// The number of the grant of a key, where it is found, to a uid.
pub fn grant_to(table: &LastingTable, key: Option<&KeyRecord>, uid: u32) -> Option<u64>
    ensures { result ≡ grant_of (lasting_in table.now) (id_of (option_copied key.entry)) uid }
{
    match table.grants().of_key(key?.id, uid) {
        Some(row) => Some(row.grant),
        None => None,
    }
}
