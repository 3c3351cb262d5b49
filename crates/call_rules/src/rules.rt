//! The parts of the rules of the calls.

ghost use Rattle.std.specs.Prelude.{◌≡◌, ◌≤◌, true};
ghost use Rattle.call_rules.specs.Rules as spec;

use crate::UpgradeFacts;
use key_domains::{Permission, Permissions, is_by_alias};
use tags::{
    BLOB_BYTES, DOMAIN_APP, DOMAIN_BLOB, DOMAIN_GRANT, DOMAIN_KEY_ID, DOMAIN_SELINUX, Descriptor,
    KEPT_LIST_BYTES, MOST_USER,
};

/// What an upgrade of a key of the domain takes.
pub fn upgrade_permission(domain: u32) -> Permission
    ensures { result ≡ spec.upgrade_permission domain }
{
    if domain == DOMAIN_BLOB {
        Permission::ManageBlob
    } else {
        Permission::Rebind
    }
}

/// Whether neither version of the opened list is greater than the device's.
pub fn is_no_newer(facts: &UpgradeFacts) -> bool
    ensures { result ≡ spec.is_no_newer facts.now }
{
    facts.key_os <= facts.os && facts.key_patch <= facts.patch
}

/// Whether the new list and the new blob have no more bytes than a key's may have.
pub fn has_room(facts: &UpgradeFacts) -> bool
    ensures { result ≡ spec.has_room facts.now }
{
    facts.list <= KEPT_LIST_BYTES as u64 && facts.blob <= BLOB_BYTES as u64
}

/// Whether the domain is one whose keys are shared; a grant is shared no further.
pub fn is_shared(domain: u32) -> bool
    ensures { result ≡ spec.is_shared domain }
{
    is_by_alias(domain) || domain == DOMAIN_KEY_ID
}

/// Whether the domain is one of owners, whose keys are listed.
pub fn is_owned(domain: u32) -> bool
    ensures { result ≡ spec.is_owned domain }
{
    is_by_alias(domain)
}

/// Whether there can be an owner of this domain and nspace: a uid or a namespace.
pub fn names_owner(domain: u32, nspace: u64) -> bool
    ensures { result ≡ spec.names_owner domain nspace }
{
    domain == DOMAIN_APP && nspace <= u32::MAX as u64 || domain == DOMAIN_SELINUX
}

/// Whether there can be a user of this number.
pub fn is_user(user: u32) -> bool
    ensures user { result ≡ spec.is_user user }
    ensures most { result ≡ true → user ≤ MOST_USER }
{
    user <= MOST_USER
}

fn has_get_info(row: Option<u32>) -> bool
    ensures { result ≡ spec.has_get_info row }
{
    match row {
        Some(bits) => Permissions::of_bits(bits).has(Permission::GetInfo),
        None => false,
    }
}

/// SELINUX: whether the policy lets the caller read what stands in the namespace.
pub fn may_list(domain: u32, row: Option<u32>) -> bool
    ensures { result ≡ spec.may_list domain row }
{
    domain != DOMAIN_SELINUX || has_get_info(row)
}
