//! How many keys each owner has.

ghost use Rattle.std.specs.Prelude.{◌≡◌, ◌+◌, ◌-◌, ◌<◌, ◌^◌, ◌==◌, ◌&&◌, ℕ, OnOk, OnErr, if◌then◌else◌};
ghost use Rattle.key_maps.specs.Maps.{counted};

use crate::names::Owner;
use std::collections::BTreeMap;
use tags::NoMemory;

/// How many keys an owner has.
pub(crate) fn count_of(counts: &BTreeMap<Owner, u64>, owner: Owner) -> u64
    ensures { result ≡ counted counts.now owner.0 owner.1 }
{
    match counts.get(&owner) {
        Some(count) => *count,
        None => 0,
    }
}

/// One key more for an owner.
pub(crate) fn raise(counts: &mut BTreeMap<Owner, u64>, owner: Owner) -> Result<(), NoMemory>
    requires { counted counts.old owner.0 owner.1 < 2 ^ 64 - 1 }
    ensures ok { OnOk result ((domain nspace : ℕ) → counted counts.new domain nspace
        ≡ counted counts.old domain nspace + (if (owner.0 == domain) && (owner.1 == nspace) then 1 else 0)) }
    ensures err { OnErr result ((domain nspace : ℕ) → counted counts.new domain nspace ≡ counted counts.old domain nspace) }
{
    let count = count_of(counts, owner);
    counts.insert(owner, count + 1)?;
    Ok(())
}

/// One key less for an owner.
pub(crate) fn lower(counts: &mut BTreeMap<Owner, u64>, owner: Owner)
    ensures { (domain nspace : ℕ) → counted counts.new domain nspace
        ≡ counted counts.old domain nspace - (if (owner.0 == domain) && (owner.1 == nspace) then 1 else 0) }
{
    let count = count_of(counts, owner);
    if count <= 1 {
        counts.remove(&owner);
        return;
    }
    let Ok(_) = counts.insert(owner, count - 1) else {
        unreachable!()
    };
}
