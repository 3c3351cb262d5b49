//! What the rules read of a caller alone.

ghost use Rattle.std.specs.Prelude.{◌≡◌};
ghost use Rattle.rule_model.specs.Access as model;
ghost use Rattle.rule_model.specs.Calls as calls;

use call_rules::SystemCallFacts;
use rule_model::Caller;
use tags::{Policy, USER_UIDS};

/// The uid of the system.
const SYSTEM: u32 = 1000;

/// The uid of a caller; the rules let none through that has none.
pub fn owner_of(caller: Caller) -> u32
    ensures { result ≡ model.owner_of caller }
{
    caller.uid.unwrap_or(0)
}

/// The user of a caller.
pub fn user_of(caller: Caller) -> u32
    ensures { result ≡ model.user_of caller }
{
    owner_of(caller) / USER_UIDS
}

/// The bits of the policy's row of a caller's uid and a namespace.
pub fn row_for(policy: &Policy, caller: Caller, nspace: u64) -> Option<u32>
    ensures { result ≡ model.row_for policy.now caller nspace }
{
    match caller.uid {
        Some(uid) => policy.bits(uid, nspace),
        None => None,
    }
}

/// What the rules read of a call that the system alone may make.
pub fn system_facts(caller: Caller) -> SystemCallFacts
    ensures { result ≡ calls.system_facts caller }
{
    let system = match caller.uid {
        Some(uid) => uid == SYSTEM,
        None => false,
    };
    SystemCallFacts {
        connected: caller.uid.is_some(),
        system,
    }
}
