//! Calls on the key that a descriptor finds: what their rules read, and its entry.

ghost use Rattle.std.specs.Prelude.{◌≡◌, IfOk};
ghost use Rattle.std.specs.Option.{option_copied};
ghost use Rattle.lasting_table.specs.TableView.{lasting_in};
ghost use Rattle.rule_model.specs.Access.{access_by, key_in};
ghost use Rattle.rule_model.specs.Calls as model;

use crate::callers::row_for;
use crate::found::{bits_in, find_for};
use call_rules::KeyCallFacts;
use journal_records::KeyRecord;
use key_domains::Access;
use lasting_table::LastingTable;
use rule_model::{Caller, Fields, NO_FIELDS};
use std::alloc::Global;
use tags::{Bytes, Descriptor, NoMemory, Policy};

/// What the rules read of a call on the key that was found.
fn key_call_facts(
    policy: &Policy,
    found: Option<&KeyRecord>,
    access: &Access,
    caller: Caller,
    key: &Descriptor,
) -> KeyCallFacts
    ensures { result ≡ model.key_call_facts policy.now (option_copied found.entry) access.now caller key.now }
{
    KeyCallFacts {
        connected: caller.uid.is_some(),
        row: row_for(policy, caller, key.nspace),
        found: found.is_some(),
        bits: bits_in(access),
    }
}

/// The key that a caller's descriptor finds, and what the rules read of a call on it.
pub fn key_call<'a>(
    policy: &Policy,
    table: &'a LastingTable,
    caller: Caller,
    key: &Descriptor,
) -> (Option<&'a KeyRecord>, KeyCallFacts)
    ensures key { option_copied result.0 ≡ key_in (lasting_in table.now) (access_by policy.now (lasting_in table.now) caller key.now) }
    ensures facts { result.1 ≡ model.key_facts policy.now (lasting_in table.now) caller key.now }
{
    let (access, found) = find_for(policy, table, caller, key);
    let facts = key_call_facts(policy, found, &access, caller, key);
    (found, facts)
}

/// How many uses a key has left, where it has a limit.
fn uses_of(key: &KeyRecord) -> Option<u32>
    ensures { result ≡ model.uses_of key.now }
{
    if key.limit == 0 {
        return None;
    }
    Some(key.left)
}

/// The entry of a key.
pub fn entry_fields(alloc: Global, key: &KeyRecord) -> Result<Fields, NoMemory>
    ensures { IfOk result (λ fields. fields ≡ model.entry_fields key.now) }
{
    let alias = Bytes::copy_of(alloc, key.alias.as_slice())?;
    let list = Bytes::copy_of(alloc, key.list.as_slice())?;
    Ok(Fields {
        key: Some(key.id),
        uses: uses_of(key),
        domain: Some(key.domain as u32),
        nspace: Some(key.nspace),
        alias: Some(alias),
        list: Some(list),
        ..NO_FIELDS
    })
}
