//! What a descriptor names.

ghost use Rattle.std.specs.Prelude.{◌≡◌, true};
ghost use Rattle.call_rules.specs.Rules.{is_owned};
ghost use Rattle.rule_model.specs.Changes.{alias_of};
ghost use Rattle.rule_model.specs.Changes as model;

use std::alloc::Global;
use tags::{Bytes, DOMAIN_SELINUX, Descriptor};

/// The bytes of a descriptor's alias, and none where it has no alias.
pub(crate) fn alias_bytes(key: &Descriptor) -> &[u8]
    ensures { result.now ≡ alias_of key.now }
{
    match &key.alias {
        Some(alias) => alias.as_slice(),
        None => &[],
    }
}

/// The same of a descriptor that is used up.
pub(crate) fn into_alias(alloc: Global, key: Descriptor) -> Bytes
    ensures { result ≡ alias_of key }
{
    let Descriptor {
        domain: _,
        nspace: _,
        alias,
        blob: _,
    } = key;
    match alias {
        Some(alias) => alias,
        None => Bytes::empty(alloc),
    }
}

/// Whose the keys are that a uid makes and lists, by their domain and uid or namespace: its own in APP, and the namespace's
/// in SELINUX.
pub(crate) fn owner_for(uid: u32, domain: u32, nspace: u64) -> (u8, u64)
    ensures { result ≡ model.owner_for uid domain nspace }
{
    if domain == DOMAIN_SELINUX {
        return (2, nspace);
    }
    (0, u64::from(uid))
}

/// The domain of an owner as a record of it has it.
pub fn owner_domain(domain: u32) -> u8
    requires { is_owned domain ≡ true }
    ensures { result ≡ domain }
{
    if domain == 0 { 0 } else { 2 }
}
