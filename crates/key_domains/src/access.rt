//! Which key a descriptor finds.

ghost use Rattle.std.specs.Prelude.{◌≡◌, List};
ghost use Rattle.tags.specs.declared.policy.PolicyRow.{PolicyRow};
ghost use Rattle.key_domains.specs.Access.{access};
ghost use Rattle.key_domains.specs.Access as spec;
ghost use Rattle.key_domains.specs.View.{view_of};

use crate::caller::{app_bits, owned_bits, row_bits};
use crate::{KeyDatabaseView, KeyLookups, KeyRow, Permissions};
use tags::{
    DOMAIN_APP, DOMAIN_BLOB, DOMAIN_GRANT, DOMAIN_KEY_ID, DOMAIN_SELINUX, Descriptor, Policy,
};

/// What a descriptor finds for a caller.
#[derive(Clone, Copy, Debug, PartialEq, Eq)]
pub enum Access {
    /// a live key, and what the caller may do with it
    Found { key: KeyRow, bits: Permissions },
    /// the blob that is handed in, and what the caller may do with it; whether it opens is not looked at
    Blob { bits: Permissions },
    /// no live key, or the grant is another uid's
    Nothing,
}

/// A key that was looked up, with the caller's bits.
fn found(key: Option<KeyRow>, bits: Permissions) -> Access
    ensures { result ≡ spec.found key bits }
{
    match key {
        Some(key) => Access::Found { key, bits },
        None => Access::Nothing,
    }
}

/// The key of the grant, where its grantee is the caller.
fn by_grant(uid: u32, keys: &KeyDatabaseView) -> Access
    ensures { (policy : List PolicyRow) → result ≡ spec.by_grant policy uid keys.now.granted }
{
    match keys.granted {
        Some(grant) if grant.uid == uid => Access::Found {
            key: grant.key,
            bits: grant.bits,
        },
        _ => Access::Nothing,
    }
}

/// The key of the number, with the owner's bits and those of a grant of it to the caller.
fn by_number(uid: u32, policy: &Policy, keys: &KeyDatabaseView) -> Access
    ensures { result ≡ spec.by_number policy.now uid keys.now.numbered keys.now.shared }
{
    let Some(key) = keys.numbered else {
        return Access::Nothing;
    };
    let owned = owned_bits(policy, uid, &key);
    let shared = keys.shared.unwrap_or(Permissions::NONE);
    Access::Found {
        key,
        bits: owned.joined(shared),
    }
}

/// What a descriptor finds for a uid, of what their look-ups found. In BLOB it is always the blob that is handed in, with the
/// bits of the policy's row of the uid and the nspace. In a domain that is none of the five there is nothing to find.
pub fn resolve(descriptor: &Descriptor, uid: u32, policy: &Policy, keys: &KeyDatabaseView) -> Access
    ensures { result ≡ access policy.now uid descriptor.now keys.now }
{
    match descriptor.domain {
        DOMAIN_APP => found(keys.named, app_bits(policy, uid)),
        DOMAIN_GRANT => by_grant(uid, keys),
        DOMAIN_SELINUX => found(keys.named, row_bits(policy, uid, descriptor.nspace)),
        DOMAIN_BLOB => Access::Blob {
            bits: row_bits(policy, uid, descriptor.nspace),
        },
        DOMAIN_KEY_ID => by_number(uid, policy, keys),
        _ => Access::Nothing,
    }
}

/// What a descriptor finds for a uid among the live keys and grants.
pub fn find_key<K: KeyLookups>(
    descriptor: &Descriptor,
    uid: u32,
    policy: &Policy,
    keys: &K,
) -> Access
    ensures { result ≡ access policy.now uid descriptor.now
        (view_of (K.named keys.now) (K.numbered keys.now) (K.granted keys.now) (K.shared keys.now) descriptor.now uid) }
{
    resolve(
        descriptor,
        uid,
        policy,
        &KeyDatabaseView::of(descriptor, uid, keys),
    )
}
