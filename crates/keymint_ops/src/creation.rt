//! The plan of making a key, and its blob.

ghost use Rattle.std.specs.Prelude.{◌≡◌, ◌≤◌, IfOk, Ok, length};
ghost use Rattle.key_rules.specs.Creation.{IsFit, IsSmall};
ghost use Rattle.key_rules.specs.Gives.{Gives};
ghost use Rattle.key_blobs.specs.Blobs.{blob_of, opened};
ghost use Rattle.key_blobs.specs.Text.{IsSealable, text_size};
ghost use Rattle.keymint_ops.specs.Creation as spec;
ghost use Rattle.tags.specs.declared.limits.TheConstants.{BLOB_BYTES, KEPT_LIST_BYTES};

use key_blobs::{Sealed, seal};
use key_rules::{KeyPlan, NewFacts, NewFault, check_new};
use std::alloc::Global;
use tags::{Bytes, DeviceSecrets, Material, NoMemory};

/// What is kept with a new key, and what is drawn for it and sealed.
#[derive(Debug, Drop)]
pub struct NewKey {
    /// the plan, with the kept list and the caller's ids, which are sealed with the material
    pub plan: KeyPlan,
    /// the kept list, encoded, at most 4,140 bytes
    pub list: Bytes,
}

/// A plan with its list spelled out.
fn spelled(alloc: Global, plan: KeyPlan) -> Result<NewKey, NewFault>
    ensures { Gives (λ key. key) result (Ok (spec.spelled plan)) }
{
    let list = plan.list.write(alloc)?;
    Ok(NewKey { plan, list })
}

/// What is kept with a key of these facts and drawn for it, or the first broken rule of table K and its code. `Memory`
/// comes where memory is wanted.
#[tactic(auto, unfolding(crate::specs::Creation::planned))]
pub fn plan_key(alloc: Global, facts: &NewFacts) -> Result<NewKey, NewFault>
    ensures key { Gives (λ key. key) result (spec.planned facts.now) }
    ensures fit { IfOk result (λ key. IsFit facts.now key.plan) }
    ensures listed { IfOk result (λ key. length key.list ≤ KEPT_LIST_BYTES) }
{
    let plan = check_new(alloc, facts)?;
    spelled(alloc, plan)
}

/// What is sealed into a key's blob.
fn sealed_as(root: [u8; 32], plan: KeyPlan, material: Material) -> Sealed
    requires small { IsSmall plan }
    requires short { length material ≤ 64 }
    ensures sealed { result ≡ spec.sealed_as root plan material }
    ensures sealable { IsSealable result }
    ensures few { text_size result ≤ 6295 }
{
    let KeyPlan {
        list,
        app_id,
        app_bytes,
        limit: _,
        size: _,
    } = plan;
    Sealed {
        root,
        app_id,
        app_bytes,
        list,
        material,
    }
}

/// The blob of a planned key with this material, of at most 64 bytes: sealed under the device's key for its root of trust,
/// with these 12 bytes as the nonce, which must be drawn anew for each. The blob has at most 6,327 bytes. The material is given
/// back before the call ends.
pub fn seal_key(
    alloc: Global,
    device: &DeviceSecrets,
    nonce: [u8; 12],
    plan: KeyPlan,
    material: Material,
) -> Result<Bytes, NoMemory>
    requires small { IsSmall plan }
    requires short { length material ≤ 64 }
    ensures blob { IfOk result (λ blob. blob ≡ blob_of device.now.seal nonce (spec.sealed_as device.now.root plan material)) }
    ensures opens { IfOk result (λ blob. opened device.now.seal blob ≡ Ok (spec.sealed_as device.now.root plan material)) }
    ensures few { IfOk result (λ blob. length blob ≤ BLOB_BYTES) }
{
    let sealed = sealed_as(device.root, plan, material);
    seal(alloc, device, nonce, &sealed)
}
