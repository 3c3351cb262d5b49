//! What a caller may do with a key, by the way it comes to it.

ghost use Rattle.std.specs.Prelude.{◌≡◌};
ghost use Rattle.key_domains.specs.CallerBits as spec;

use crate::{KeyRow, Permission, Permissions};
use tags::{DOMAIN_APP, DOMAIN_SELINUX, Policy};

/// The bits of what an owner may do with an app's key: DELETE, GET_INFO, GRANT, REBIND, UPDATE and USE.
const OWNER_BITS: u32 = 429;

/// What the policy lets a uid do in a namespace: the bits of its first row that has both, or none.
pub(crate) fn row_bits(policy: &Policy, uid: u32, nspace: u64) -> Permissions
    ensures { result ≡ spec.row_bits policy.now uid nspace }
{
    Permissions::of_bits(policy.bits(uid, nspace).unwrap_or(0))
}

/// What an app may do with its own keys: all that owners may, and REQ_FORCED_OP where the policy's row of its uid and
/// namespace 0 has it.
pub(crate) fn app_bits(policy: &Policy, uid: u32) -> Permissions
    ensures { result ≡ spec.app_bits policy.now uid }
{
    let owner = Permissions::of_bits(OWNER_BITS);
    if row_bits(policy, uid, 0).has(Permission::ReqForcedOp) {
        owner.joined(Permissions::of_bits(Permission::ReqForcedOp.bit()))
    } else {
        owner
    }
}

/// What a caller may do with a key by owning it: as an app its own keys, as the policy says those of a namespace.
pub(crate) fn owned_bits(policy: &Policy, uid: u32, key: &KeyRow) -> Permissions
    ensures { result ≡ spec.owned_bits policy.now uid key.now }
{
    match key.domain {
        DOMAIN_APP if key.nspace == uid as u64 => app_bits(policy, uid),
        DOMAIN_SELINUX => row_bits(policy, uid, key.nspace),
        _ => Permissions::NONE,
    }
}
