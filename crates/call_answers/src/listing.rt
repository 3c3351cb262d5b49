//! An owner's keys: how many there are, and their listing.

ghost use Rattle.std.specs.Prelude.{◌≡◌, IfOk};
ghost use Rattle.std.specs.Option.{option_copied};
ghost use Rattle.journal_records.specs.Lookups.{key_count};
ghost use Rattle.lasting_table.specs.TableView.{lasting_in};
ghost use Rattle.rule_model.specs.Access.{owner_of};
ghost use Rattle.rule_model.specs.Changes.{owner_for};
ghost use Rattle.rule_model.specs.Listing.{listing};

use crate::callers::owner_of;
use crate::descriptors::owner_for;
use lasting_table::LastingTable;
use rule_model::{Caller, Entries};
use std::alloc::Global;
use tags::{Bytes, LISTED, NoMemory};

/// How many keys a caller has, or a namespace.
pub fn count_entries(table: &LastingTable, caller: Caller, domain: u32, nspace: u64) -> u64
    ensures { result ≡ key_count (lasting_in table.now) (owner_for (owner_of caller) domain nspace).0 (owner_for (owner_of caller) domain nspace).1 }
{
    let (domain, nspace) = owner_for(owner_of(caller), domain, nspace);
    table.count(domain, nspace)
}

/// The alias behind which a listing begins, where there is one.
fn alias_past(past: &Option<Bytes>) -> Option<&[u8]>
    ensures { option_copied result ≡ past.now }
{
    match past {
        Some(alias) => Some(alias.as_slice()),
        None => None,
    }
}

/// Of an owner's keys whose alias is greater than `past`, the first by their aliases, with their numbers.
fn listed(
    alloc: Global,
    table: &LastingTable,
    domain: u8,
    nspace: u64,
    past: &Option<Bytes>,
) -> Result<Entries, NoMemory>
    ensures { IfOk result (λ entries. entries ≡ listing (lasting_in table.now) domain nspace past.now) }
{
    let mut entries = Vec::new(alloc);
    let mut last = alias_past(past);
    'entries: while entries.len() < LISTED {
        let Some(key) = table.next_name(domain, nspace, last) else {
            break;
        };
        let alias = key.alias.as_slice();
        entries.push((Bytes::copy_of(alloc, alias)?, key.id))?;
        last = Some(alias);
    }
    Ok(Entries::of(entries))
}

/// Of a caller's keys, or of a namespace's, whose alias is greater than `past`, the first by their aliases.
pub fn list_entries(
    alloc: Global,
    table: &LastingTable,
    caller: Caller,
    domain: u32,
    nspace: u64,
    past: &Option<Bytes>,
) -> Result<Entries, NoMemory>
    ensures { IfOk result (λ entries. entries ≡ listing (lasting_in table.now) (owner_for (owner_of caller) domain nspace).0 (owner_for (owner_of caller) domain nspace).1 past.now) }
{
    let (domain, nspace) = owner_for(owner_of(caller), domain, nspace);
    listed(alloc, table, domain, nspace, past)
}
