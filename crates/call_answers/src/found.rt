//! What a caller's descriptor finds among the keys and grants, and what the caller may do with it.

ghost use Rattle.std.specs.Prelude.{◌≡◌, ℕ, List, Some, IfSome};
ghost use Rattle.std.specs.Option.{option_and_then, option_copied, option_map};
ghost use Rattle.tags.specs.declared.policy.PolicyRow.{PolicyRow};
ghost use Rattle.key_domains.specs.Access.{access};
ghost use Rattle.journal_records.specs.Lookups.{key_of_id, key_of_name, row_of};
ghost use Rattle.lasting_table.specs.TableView.{lasting_in};
ghost use Rattle.call_answers.specs.Found as spec;
ghost use Rattle.rule_model.specs.Access as model;

use journal_records::KeyRecord;
use key_domains::{Access, GrantedRow, KeyDatabaseView, KeyLookups, KeyRow, Permissions, resolve};
use lasting_table::LastingTable;
use rule_model::Caller;
use tags::{DOMAIN_APP, DOMAIN_GRANT, DOMAIN_KEY_ID, DOMAIN_SELINUX, Descriptor, Policy};

/// Nothing was looked up.
const NO_VIEW: KeyDatabaseView = KeyDatabaseView {
    named: None,
    numbered: None,
    granted: None,
    shared: None,
};

/// A key, as far as access to it goes.
fn row_of(key: &KeyRecord) -> KeyRow
    ensures { result ≡ row_of key.now }
{
    KeyRow {
        id: key.id,
        domain: key.domain as u32,
        nspace: key.nspace,
    }
}

/// The same of a key where there is one.
fn row_in(key: Option<&KeyRecord>) -> Option<KeyRow>
    ensures { result ≡ option_map row_of (option_copied key.entry) }
{
    match key {
        Some(key) => Some(row_of(key)),
        None => None,
    }
}

/// The key of an owner and a descriptor's alias; none where it has no alias.
fn by_alias<'a>(
    table: &'a LastingTable,
    domain: u8,
    nspace: u64,
    key: &Descriptor,
) -> Option<&'a KeyRecord>
    ensures key { option_copied result ≡ spec.key_by_alias (lasting_in table.now) domain nspace key.now.alias }
    ensures again { spec.IsFoundAgain (lasting_in table.now) (option_copied result) }
{
    match &key.alias {
        Some(alias) => table.by_name(domain, nspace, alias.as_slice()),
        None => None,
    }
}

/// What a look-up by an alias finds.
fn named(key: Option<&KeyRecord>) -> KeyDatabaseView
    ensures { result ≡ spec.view_named (option_copied key.entry) }
{
    KeyDatabaseView {
        named: row_in(key),
        ..NO_VIEW
    }
}

/// What a look-up by a key's number finds, with the bits of its grant to a uid.
fn numbered(table: &LastingTable, uid: u32, key: Option<&KeyRecord>) -> KeyDatabaseView
    ensures { result ≡ spec.view_numbered (lasting_in table.now) uid (option_copied key.entry) }
{
    KeyDatabaseView {
        numbered: row_in(key),
        shared: match key {
            Some(key) => table.shared_with(key.id, uid),
            None => None,
        },
        ..NO_VIEW
    }
}

/// What the look-up of a grant finds, and its key.
fn granted(table: &LastingTable, grant: u64) -> (KeyDatabaseView, Option<&KeyRecord>)
    ensures view { result.0 ≡ spec.view_granted (lasting_in table.now) grant }
    ensures key { option_copied result.1 ≡ spec.key_granted (lasting_in table.now) grant }
    ensures again { spec.IsFoundAgain (lasting_in table.now) (option_copied result.1) }
{
    let Some(row) = table.grants().find(grant) else {
        return (NO_VIEW, None);
    };
    let Some(key) = table.by_id(row.key) else {
        return (NO_VIEW, None);
    };
    let granted = GrantedRow {
        key: row_of(key),
        uid: row.uid,
        bits: row.bits,
    };
    let view = KeyDatabaseView {
        granted: Some(granted),
        ..NO_VIEW
    };
    (view, Some(key))
}

/// What the one look-up of a uid's descriptor finds, by its domain, and the key.
fn look_up<'a>(
    table: &'a LastingTable,
    uid: u32,
    key: &Descriptor,
) -> (KeyDatabaseView, Option<&'a KeyRecord>)
    ensures view { result.0 ≡ spec.view_for (lasting_in table.now) uid key.now }
    ensures key { option_copied result.1 ≡ spec.key_for (lasting_in table.now) uid key.now }
    ensures again { spec.IsFoundAgain (lasting_in table.now) (option_copied result.1) }
{
    match key.domain {
        DOMAIN_APP => {
            let found = by_alias(table, 0, u64::from(uid), key);
            (named(found), found)
        }
        DOMAIN_GRANT => granted(table, key.nspace),
        DOMAIN_SELINUX => {
            let found = by_alias(table, 2, key.nspace, key);
            (named(found), found)
        }
        DOMAIN_KEY_ID => {
            let found = table.by_id(key.nspace);
            (numbered(table, uid, found), found)
        }
        _ => (NO_VIEW, None),
    }
}

/// The key that access gives, of the one that was looked up.
fn given<'a>(access: &Access, found: Option<&'a KeyRecord>) -> Option<&'a KeyRecord>
    ensures { option_copied result ≡ spec.given access.now (option_copied found.entry) }
{
    match access {
        Access::Found { key: _, bits: _ } => found,
        Access::Blob { bits: _ } => None,
        Access::Nothing => None,
    }
}

/// What a caller's descriptor finds with the caller's bits, and the stored key where it is one; one that is not connected
/// finds nothing.
pub fn find_for<'a>(
    policy: &Policy,
    table: &'a LastingTable,
    caller: Caller,
    key: &Descriptor,
) -> (Access, Option<&'a KeyRecord>)
    ensures access { result.0 ≡ model.access_by policy.now (lasting_in table.now) caller key.now }
    ensures key { option_copied result.1 ≡ model.key_in (lasting_in table.now) (model.access_by policy.now (lasting_in table.now) caller key.now) }
{
    let Some(uid) = caller.uid else {
        return (Access::Nothing, None);
    };
    let (view, found) = look_up(table, uid, key);
    let access = resolve(key, uid, policy, &view);
    let stored = given(&access, found);
    (access, stored)
}

/// What the caller may do with what was found.
pub(crate) fn bits_in(access: &Access) -> Permissions
    ensures { result ≡ model.bits_in access.now }
{
    match access {
        Access::Found { key: _, bits } => *bits,
        Access::Blob { bits } => *bits,
        Access::Nothing => Permissions::NONE,
    }
}
