//! Copies of an act and of an event, in new memory.

ghost use Rattle.std.specs.Prelude.{◌≡◌, IfOk};
ghost use Rattle.rule_model.specs.declared.event.Act.TheVariants as act;

use crate::{Act, Event};
use std::alloc::Global;
use tags::{Bytes, Descriptor, Material, NoMemory};

/// The same bytes, where they are given.
fn optional(alloc: Global, bytes: &Option<Bytes>) -> Result<Option<Bytes>, NoMemory>
    ensures { IfOk result (λ copy. copy ≡ bytes.now) }
{
    match bytes {
        None => Ok(None),
        Some(given) => Ok(Some(Bytes::copy_of(alloc, given.as_slice())?)),
    }
}

fn descriptor(alloc: Global, key: &Descriptor) -> Result<Descriptor, NoMemory>
    ensures { IfOk result (λ copy. copy ≡ key.now) }
{
    let alias = optional(alloc, &key.alias)?;
    let blob = optional(alloc, &key.blob)?;
    Ok(Descriptor {
        domain: key.domain,
        nspace: key.nspace,
        alias,
        blob,
    })
}

fn generate_key(alloc: Global, key: &Descriptor, params: &Bytes) -> Result<Act, NoMemory>
    ensures { IfOk result (λ copy. copy ≡ act.GenerateKey key.now params.now) }
{
    let params = Bytes::copy_of(alloc, params.as_slice())?;
    Ok(Act::GenerateKey {
        key: descriptor(alloc, key)?,
        params,
    })
}

fn upgrade_key(alloc: Global, key: &Descriptor, params: &Bytes) -> Result<Act, NoMemory>
    ensures { IfOk result (λ copy. copy ≡ act.UpgradeKey key.now params.now) }
{
    let params = Bytes::copy_of(alloc, params.as_slice())?;
    Ok(Act::UpgradeKey {
        key: descriptor(alloc, key)?,
        params,
    })
}

fn import_key(
    alloc: Global,
    key: &Descriptor,
    params: &Bytes,
    format: u32,
    material: &Material,
) -> Result<Act, NoMemory>
    ensures { IfOk result (λ copy. copy ≡ act.ImportKey key.now params.now format material.now) }
{
    let params = Bytes::copy_of(alloc, params.as_slice())?;
    let material = Material::of(Bytes::copy_of(alloc, material.as_slice())?);
    Ok(Act::ImportKey {
        key: descriptor(alloc, key)?,
        params,
        format,
        material,
    })
}

fn import_wrapped_key(
    alloc: Global,
    key: &Descriptor,
    params: &Bytes,
    wrapping: &Descriptor,
    wrapped: &Bytes,
    unwrapping: &Bytes,
) -> Result<Act, NoMemory>
    ensures { IfOk result (λ copy. copy ≡ act.ImportWrappedKey key.now params.now wrapping.now wrapped.now unwrapping.now) }
{
    let params = Bytes::copy_of(alloc, params.as_slice())?;
    let wrapped = Bytes::copy_of(alloc, wrapped.as_slice())?;
    let unwrapping = Bytes::copy_of(alloc, unwrapping.as_slice())?;
    let key = descriptor(alloc, key)?;
    Ok(Act::ImportWrappedKey {
        key,
        params,
        wrapping: descriptor(alloc, wrapping)?,
        wrapped,
        unwrapping,
    })
}

fn create_operation(
    alloc: Global,
    key: &Descriptor,
    params: &Bytes,
    forced: bool,
) -> Result<Act, NoMemory>
    ensures { IfOk result (λ copy. copy ≡ act.CreateOperation key.now params.now forced) }
{
    let params = Bytes::copy_of(alloc, params.as_slice())?;
    Ok(Act::CreateOperation {
        key: descriptor(alloc, key)?,
        params,
        forced,
    })
}

fn enter_finish(
    alloc: Global,
    op: u64,
    input: &Bytes,
    signature: &Option<Bytes>,
) -> Result<Act, NoMemory>
    ensures { IfOk result (λ copy. copy ≡ act.EnterFinish op input.now signature.now) }
{
    let input = Bytes::copy_of(alloc, input.as_slice())?;
    Ok(Act::EnterFinish {
        op,
        input,
        signature: optional(alloc, signature)?,
    })
}

/// A copy of an act. One that has numbers alone takes no memory.
fn act_of(alloc: Global, source: &Act) -> Result<Act, NoMemory>
    ensures { IfOk result (λ copy. copy ≡ source.now) }
{
    match source {
        Act::GenerateKey { key, params } => generate_key(alloc, key, params),
        Act::ImportKey {
            key,
            params,
            format,
            material,
        } => import_key(alloc, key, params, *format, material),
        Act::CreateOperation {
            key,
            params,
            forced,
        } => create_operation(alloc, key, params, *forced),
        Act::EnterAad { op, input } => Ok(Act::EnterAad {
            op: *op,
            input: Bytes::copy_of(alloc, input.as_slice())?,
        }),
        Act::EnterUpdate { op, input } => Ok(Act::EnterUpdate {
            op: *op,
            input: Bytes::copy_of(alloc, input.as_slice())?,
        }),
        Act::EnterFinish {
            op,
            input,
            signature,
        } => enter_finish(alloc, *op, input, signature),
        Act::GetKeyEntry { key } => Ok(Act::GetKeyEntry {
            key: descriptor(alloc, key)?,
        }),
        Act::DeleteKey { key } => Ok(Act::DeleteKey {
            key: descriptor(alloc, key)?,
        }),
        Act::Grant { key, uid, bits } => Ok(Act::Grant {
            key: descriptor(alloc, key)?,
            uid: *uid,
            bits: *bits,
        }),
        Act::Ungrant { key, uid } => Ok(Act::Ungrant {
            key: descriptor(alloc, key)?,
            uid: *uid,
        }),
        Act::ListEntriesBatched {
            domain,
            nspace,
            past,
        } => Ok(Act::ListEntriesBatched {
            domain: *domain,
            nspace: *nspace,
            past: optional(alloc, past)?,
        }),
        Act::Connect { uid } => Ok(Act::Connect { uid: *uid }),
        Act::Disconnect => Ok(Act::Disconnect),
        Act::Abort { op } => Ok(Act::Abort { op: *op }),
        Act::GetNumberOfEntries { domain, nspace } => Ok(Act::GetNumberOfEntries {
            domain: *domain,
            nspace: *nspace,
        }),
        Act::AddAuthToken {
            challenge,
            user,
            authenticator,
            kind,
            time,
            mac,
        } => Ok(Act::AddAuthToken {
            challenge: *challenge,
            user: *user,
            authenticator: *authenticator,
            kind: *kind,
            time: *time,
            mac: *mac,
        }),
        Act::DeviceLocked { user } => Ok(Act::DeviceLocked { user: *user }),
        Act::DeviceUnlocked { user } => Ok(Act::DeviceUnlocked { user: *user }),
        Act::EarlyBootEnded => Ok(Act::EarlyBootEnded),
        Act::ClearNamespace { domain, nspace } => Ok(Act::ClearNamespace {
            domain: *domain,
            nspace: *nspace,
        }),
        Act::UserRemoved { user } => Ok(Act::UserRemoved { user: *user }),
        Act::Leave { ticket } => Ok(Act::Leave { ticket: *ticket }),
        Act::Restart { root } => Ok(Act::Restart { root: *root }),
        Act::UpgradeKey { key, params } => upgrade_key(alloc, key, params),
        Act::ImportWrappedKey {
            key,
            params,
            wrapping,
            wrapped,
            unwrapping,
        } => import_wrapped_key(alloc, key, params, wrapping, wrapped, unwrapping),
    }
}

impl Act {
    /// An equal act, in new memory.
    pub fn copy(&self, alloc: Global) -> Result<Act, NoMemory>
        ensures { IfOk result (λ copy. copy ≡ self.now) }
    {
        act_of(alloc, self)
    }
}

impl Event {
    /// An equal event, in new memory.
    pub fn copy(&self, alloc: Global) -> Result<Event, NoMemory>
        ensures { IfOk result (λ copy. copy ≡ self.now) }
    {
        Ok(Event {
            reading: self.reading,
            client: self.client,
            act: self.act.copy(alloc)?,
        })
    }
}
