//! Whether two parts hold the same.

ghost use Rattle.std.specs.Prelude.{◌≡◌, ℕ, true};
ghost use Rattle.lasting_table.specs.Parts.{part_of};

use crate::part::Part;
use grants::{GrantRow, Grants};
use journal_records::KeyRecord;
use key_maps::Keys;

/// Whether two keys are the same.
fn same_key(key: &KeyRecord, other: &KeyRecord) -> bool
    ensures yes { result ≡ true → key.now ≡ other.now }
    ensures no { key.now ≡ other.now → result ≡ true }
{
    (key.id == other.id && key.domain == other.domain && key.nspace == other.nspace)
        && (key.limit == other.limit && key.left == other.left)
        && (key.alias.as_slice() == other.alias.as_slice()
            && key.blob.as_slice() == other.blob.as_slice()
            && key.list.as_slice() == other.list.as_slice())
}

/// Whether two grants are the same.
fn same_row(row: &GrantRow, other: &GrantRow) -> bool
    ensures yes { result ≡ true → row.now ≡ other.now }
    ensures no { row.now ≡ other.now → result ≡ true }
{
    row.grant == other.grant
        && row.key == other.key
        && row.uid == other.uid
        && row.bits.bits() == other.bits.bits()
}

/// Whether two tables have the same keys.
fn same_keys(keys: &Keys, other: &Keys) -> bool
    ensures yes { result ≡ true → keys.now.rows ≡ other.now.rows }
    ensures no { keys.now.rows ≡ other.now.rows → result ≡ true }
{
    let mut past = None;
    'keys: loop {
        let Some(key) = keys.next_after(past) else {
            return other.next_after(past).is_none();
        };
        let Some(its) = other.next_after(past) else {
            return false;
        };
        if !same_key(key, its) {
            return false;
        }
        past = Some(key.id);
    }
}

/// Whether two tables have the same grants.
fn same_grants(grants: &Grants, other: &Grants) -> bool
    ensures yes { result ≡ true → grants.now.rows ≡ other.now.rows }
    ensures no { grants.now.rows ≡ other.now.rows → result ≡ true }
{
    let mut past = None;
    'rows: loop {
        let Some(row) = grants.next_after(past) else {
            return other.next_after(past).is_none();
        };
        let Some(its) = other.next_after(past) else {
            return false;
        };
        if !same_row(row, its) {
            return false;
        }
        past = Some(row.grant);
    }
}

/// Whether two parts hold the same.
pub(crate) fn same_part(part: &Part, other: &Part) -> bool
    ensures yes { result ≡ true → part_of part.now ≡ part_of other.now }
    ensures no { part_of part.now ≡ part_of other.now → result ≡ true }
{
    part.next_numbers() == other.next_numbers()
        && same_keys(&part.keys, &other.keys)
        && same_grants(&part.grants, &other.grants)
}
