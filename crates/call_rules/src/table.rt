//! Table A, walked in its order for each call.

ghost use Rattle.std.specs.Prelude.{◌≡◌, ◌≤◌, ◌++◌, false, true, List, Err, IfErr, OnOk, is_ok};
ghost use Rattle.tags.specs.declared.rule.RuleTable.TheVariants.{A};
ghost use Rattle.tags.specs.Table.{Check, first_broken, rule_of};
ghost use Rattle.call_rules.specs.Rules as rules;
ghost use Rattle.call_rules.specs.Table as spec;
ghost use Rattle.tags.specs.declared.limits.TheConstants.{BLOB_BYTES, KEPT_LIST_BYTES, MOST_USER};

use crate::rules::{
    has_room, is_no_newer, is_owned, is_shared, is_user, may_list, names_owner, upgrade_permission,
};
use crate::{KeyCallFacts, SystemCallFacts, UpgradeFacts};
use key_domains::{Permission, Permissions, is_in_policy, names_any_key, names_key};
use tags::{Code, Descriptor, Rule, RuleTable, Ruling, check};

/// A rule of the table by its number.
fn rule(number: u8) -> Rule
    ensures { result ≡ rule_of A number }
{
    RuleTable::A.rule(number)
}

/// The rules of a disconnect. Where none is broken the client is connected and has no operation with work out.
pub fn check_disconnect(connected: bool, busy: bool) -> Ruling
    ensures first { result ≡ first_broken A (spec.disconnect_rules connected busy) }
    ensures connected { OnOk result (connected ≡ true) }
    ensures idle { OnOk result (busy ≡ false) }
{
    check(rule(1), Code::InvalidArgument, connected)?;
    check(rule(10), Code::OperationBusy, !busy)?;
    Ok(())
}

/// The rules of a call on a key, by whether its descriptor has the call's form and by the permission that the call
/// takes.
fn check_key_call(
    form: bool,
    permission: Permission,
    key: &Descriptor,
    facts: &KeyCallFacts,
) -> Ruling
    ensures first { result ≡ first_broken A (spec.key_call_rules form permission key.now facts.now) }
    ensures stops { IfErr result (λ broken. (later : List Check) → first_broken A (spec.key_call_rules form permission key.now facts.now ++ later) ≡ Err broken) }
    ensures connected { OnOk result (facts.now.connected ≡ true) }
    ensures found { OnOk result (facts.now.found ≡ true) }
{
    check(rule(1), Code::InvalidArgument, facts.connected)?;
    check(rule(2), Code::InvalidArgument, form)?;
    check(
        rule(4),
        Code::PermissionDenied,
        is_in_policy(key.domain, facts.row),
    )?;
    check(rule(5), Code::KeyNotFound, facts.found)?;
    check(rule(6), Code::PermissionDenied, facts.bits.has(permission))?;
    Ok(())
}

/// The rules of getKeyEntry. Where none is broken the key is found.
pub fn check_get_key_entry(key: &Descriptor, facts: &KeyCallFacts) -> Ruling
    ensures first { result ≡ first_broken A (spec.get_key_entry_rules key.now facts.now) }
    ensures connected { OnOk result (facts.now.connected ≡ true) }
    ensures found { OnOk result (facts.now.found ≡ true) }
{
    check_key_call(names_key(key), Permission::GetInfo, key, facts)
}

/// The rules of deleteKey. Where none is broken the key is found.
pub fn check_delete_key(key: &Descriptor, facts: &KeyCallFacts) -> Ruling
    ensures first { result ≡ first_broken A (spec.delete_key_rules key.now facts.now) }
    ensures connected { OnOk result (facts.now.connected ≡ true) }
    ensures found { OnOk result (facts.now.found ≡ true) }
{
    check_key_call(names_key(key), Permission::Delete, key, facts)
}

/// The rules of a grant of the permissions `asked`. Where none is broken the key is found.
pub fn check_grant(key: &Descriptor, asked: Permissions, facts: &KeyCallFacts) -> Ruling
    ensures first { result ≡ first_broken A (spec.grant_rules key.now asked facts.now) }
    ensures connected { OnOk result (facts.now.connected ≡ true) }
    ensures found { OnOk result (facts.now.found ≡ true) }
{
    match check_key_call(is_shared(key.domain), Permission::Grant, key, facts) {
        Ok(()) => check(rule(8), Code::PermissionDenied, facts.bits.can_share(asked)),
        Err(broken) => Err(broken),
    }
}

/// The rules of an ungrant; `shared` says that there is a grant of the key to the uid that the call names. Where none is
/// broken the key is found and there is such a grant.
pub fn check_ungrant(key: &Descriptor, shared: bool, facts: &KeyCallFacts) -> Ruling
    ensures first { result ≡ first_broken A (spec.ungrant_rules key.now shared facts.now) }
    ensures connected { OnOk result (facts.now.connected ≡ true) }
    ensures found { OnOk result (facts.now.found ≡ true) }
    ensures shared { OnOk result (shared ≡ true) }
{
    match check_key_call(is_shared(key.domain), Permission::Grant, key, facts) {
        Ok(()) => check(rule(9), Code::KeyNotFound, shared),
        Err(broken) => Err(broken),
    }
}

/// The rules of an upgrade behind those of the call.
fn check_upgrade(facts: &UpgradeFacts) -> Ruling
    ensures first { result ≡ first_broken A (spec.upgrade_rules facts.now) }
    ensures asked { OnOk result (is_ok facts.now.asked ≡ true) }
    ensures opens { OnOk result (facts.now.opens ≡ true) }
    ensures same { OnOk result (facts.now.same ≡ true) }
    ensures newer { OnOk result (rules.is_no_newer facts.now ≡ true) }
    ensures list { OnOk result (facts.now.list ≤ KEPT_LIST_BYTES) }
    ensures blob { OnOk result (facts.now.blob ≤ BLOB_BYTES) }
{
    if let Err(code) = facts.asked {
        return Err((rule(11), code));
    }
    check(rule(12), Code::InvalidKeyBlob, facts.opens)?;
    check(rule(13), Code::InvalidKeyBlob, facts.same)?;
    check(rule(14), Code::InvalidKeyArgument, is_no_newer(facts))?;
    check(rule(14), Code::InvalidInputLength, has_room(facts))?;
    Ok(())
}

/// The rules of upgradeKey. Where none is broken the key is found, its blob opens for this device and the call's ids, no version
/// goes down, and the new list and blob are no longer than a key's may be.
pub fn check_upgrade_key(key: &Descriptor, facts: &UpgradeFacts) -> Ruling
    ensures first { result ≡ first_broken A (spec.upgrade_key_rules key.now facts.now) }
    ensures connected { OnOk result (facts.now.call.connected ≡ true) }
    ensures found { OnOk result (facts.now.call.found ≡ true) }
    ensures asked { OnOk result (is_ok facts.now.asked ≡ true) }
    ensures opens { OnOk result (facts.now.opens ≡ true) }
    ensures same { OnOk result (facts.now.same ≡ true) }
    ensures newer { OnOk result (rules.is_no_newer facts.now ≡ true) }
    ensures list { OnOk result (facts.now.list ≤ KEPT_LIST_BYTES) }
    ensures blob { OnOk result (facts.now.blob ≤ BLOB_BYTES) }
{
    match check_key_call(
        names_any_key(key),
        upgrade_permission(key.domain),
        key,
        &facts.call,
    ) {
        Ok(()) => check_upgrade(facts),
        Err(broken) => Err(broken),
    }
}

/// The rules of getNumberOfEntries and listEntriesBatched; `row` is the bits of the policy's row of the caller's uid and the
/// call's nspace, where there is such a row. Where none is broken the client is connected and the domain has owners.
pub fn check_listing(connected: bool, domain: u32, row: Option<u32>) -> Ruling
    ensures first { result ≡ first_broken A (spec.listing_rules connected domain row) }
    ensures connected { OnOk result (connected ≡ true) }
    ensures owned { OnOk result (rules.is_owned domain ≡ true) }
{
    check(rule(1), Code::InvalidArgument, connected)?;
    check(rule(2), Code::InvalidArgument, is_owned(domain))?;
    check(rule(4), Code::PermissionDenied, is_in_policy(domain, row))?;
    check(rule(6), Code::PermissionDenied, may_list(domain, row))?;
    Ok(())
}

/// The rules of earlyBootEnded, a call that the system alone may make.
pub fn check_system_call(facts: &SystemCallFacts) -> Ruling
    ensures first { result ≡ first_broken A (spec.system_call_rules facts.now) }
{
    check(rule(1), Code::InvalidArgument, facts.connected)?;
    check(rule(3), Code::PermissionDenied, facts.system)?;
    Ok(())
}

/// The rules of addAuthToken; `is_right` says that the token's mac is right.
pub fn check_token(is_right: bool, facts: &SystemCallFacts) -> Ruling
    ensures first { result ≡ first_broken A (spec.token_rules is_right facts.now) }
    ensures right { OnOk result (is_right ≡ true) }
{
    check_system_call(facts)?;
    check(rule(7), Code::VerificationFailed, is_right)?;
    Ok(())
}

/// The rules of deviceLocked, deviceUnlocked and userRemoved. Where none is broken the user is at most 42,949.
pub fn check_user_call(user: u32, facts: &SystemCallFacts) -> Ruling
    ensures first { result ≡ first_broken A (spec.user_call_rules user facts.now) }
    ensures user { OnOk result (user ≤ MOST_USER) }
{
    check(rule(1), Code::InvalidArgument, facts.connected)?;
    check(rule(2), Code::InvalidArgument, is_user(user))?;
    check(rule(3), Code::PermissionDenied, facts.system)?;
    Ok(())
}

/// The rules of clearNamespace. Where none is broken the domain and the nspace are those of an owner.
pub fn check_clear_namespace(domain: u32, nspace: u64, facts: &SystemCallFacts) -> Ruling
    ensures first { result ≡ first_broken A (spec.clear_namespace_rules domain nspace facts.now) }
    ensures owner { OnOk result (rules.names_owner domain nspace ≡ true) }
{
    check(rule(1), Code::InvalidArgument, facts.connected)?;
    check(rule(2), Code::InvalidArgument, names_owner(domain, nspace))?;
    check(rule(3), Code::PermissionDenied, facts.system)?;
    Ok(())
}
