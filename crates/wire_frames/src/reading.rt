//! Reading the body of a frame.

ghost use Rattle.std.specs.Prelude.{◌≡◌, Some};
ghost use Rattle.byte_strings.specs.Readers as readers;
ghost use Rattle.wire_frames.specs.Reading as spec;
ghost use Rattle.wire_frames.specs.Reading.{Says};

use crate::fault::BodyFault;
use byte_strings::{bytes_at, counted_u32_at, flag_at, optional_u32_at, u8_at, u32_at, u64_at};
use rule_model::{Act, ActKind};
use std::alloc::Global;
use tags::{Bytes, Descriptor, Material};

/// The 32 bytes of a mac, and what stands behind them.
fn mac_at(bytes: &[u8]) -> Result<([u8; 32], &[u8]), BodyFault>
    ensures { Says (λ x. (x.0, x.1.now)) result (readers.bytes_at 32 bytes.now) }
{
    let (front, rest) = bytes_at(32, bytes)?;
    let mut mac = [0; 32];
    mac.copy_from_slice(front);
    Ok((mac, rest))
}

/// Counted bytes in new memory, and what stands behind them.
fn copied_at(alloc: Global, bytes: &[u8]) -> Result<(Bytes, &[u8]), BodyFault>
    ensures { Says (λ x. (x.0, x.1.now)) result (readers.counted_at 4 bytes.now) }
{
    let (front, rest) = counted_u32_at(bytes)?;
    Ok((Bytes::copy_of(alloc, front)?, rest))
}

/// Counted bytes in new memory where a byte says so, and what stands behind them.
pub(crate) fn optional_at(alloc: Global, bytes: &[u8]) -> Result<(Option<Bytes>, &[u8]), BodyFault>
    ensures { Says (λ x. (x.0, x.1.now)) result (readers.optional_at 4 bytes.now) }
{
    let (given, rest) = optional_u32_at(bytes)?;
    match given {
        None => Ok((None, rest)),
        Some(front) => Ok((Some(Bytes::copy_of(alloc, front)?), rest)),
    }
}

/// A descriptor, and what stands behind it.
#[tactic(auto, unfolding(crate::specs::Reading::key_at))]
fn key_at(alloc: Global, bytes: &[u8]) -> Result<(Descriptor, &[u8]), BodyFault>
    ensures { Says (λ x. (x.0, x.1.now)) result (spec.key_at bytes.now) }
{
    let (domain, rest) = u32_at(bytes)?;
    let (nspace, rest) = u64_at(rest)?;
    let (alias, rest) = optional_at(alloc, rest)?;
    let (blob, rest) = optional_at(alloc, rest)?;
    let key = Descriptor {
        domain,
        nspace,
        alias,
        blob,
    };
    Ok((key, rest))
}

/// What was read, where nothing stands behind it.
pub(crate) fn ended(act: Act, rest: &[u8]) -> Result<Act, BodyFault>
    ensures { Says (λ x. x) result (readers.ended (Some (act, rest.now))) }
{
    if !rest.is_empty() {
        return Err(BodyFault::Bad);
    }
    Ok(act)
}

fn generated_at(alloc: Global, bytes: &[u8]) -> Result<(Act, &[u8]), BodyFault>
    ensures { Says (λ x. (x.0, x.1.now)) result (spec.generated_at bytes.now) }
{
    let (key, rest) = key_at(alloc, bytes)?;
    let (params, rest) = copied_at(alloc, rest)?;
    Ok((Act::GenerateKey { key, params }, rest))
}

#[tactic(auto, unfolding(crate::specs::Reading::imported_at))]
fn imported_at(alloc: Global, bytes: &[u8]) -> Result<(Act, &[u8]), BodyFault>
    ensures { Says (λ x. (x.0, x.1.now)) result (spec.imported_at bytes.now) }
{
    let (key, rest) = key_at(alloc, bytes)?;
    let (params, rest) = copied_at(alloc, rest)?;
    let (format, rest) = u32_at(rest)?;
    let (material, rest) = copied_at(alloc, rest)?;
    let act = Act::ImportKey {
        key,
        params,
        format,
        material: Material::of(material),
    };
    Ok((act, rest))
}

#[tactic(auto, unfolding(crate::specs::Reading::created_at))]
fn created_at(alloc: Global, bytes: &[u8]) -> Result<(Act, &[u8]), BodyFault>
    ensures { Says (λ x. (x.0, x.1.now)) result (spec.created_at bytes.now) }
{
    let (key, rest) = key_at(alloc, bytes)?;
    let (params, rest) = copied_at(alloc, rest)?;
    let (forced, rest) = flag_at(rest)?;
    let act = Act::CreateOperation {
        key,
        params,
        forced,
    };
    Ok((act, rest))
}

fn upgraded_at(alloc: Global, bytes: &[u8]) -> Result<(Act, &[u8]), BodyFault>
    ensures { Says (λ x. (x.0, x.1.now)) result (spec.upgraded_at bytes.now) }
{
    let (key, rest) = key_at(alloc, bytes)?;
    let (params, rest) = copied_at(alloc, rest)?;
    Ok((Act::UpgradeKey { key, params }, rest))
}

#[tactic(auto, unfolding(crate::specs::Reading::wrapped_at))]
fn wrapped_at(alloc: Global, bytes: &[u8]) -> Result<(Act, &[u8]), BodyFault>
    ensures { Says (λ x. (x.0, x.1.now)) result (spec.wrapped_at bytes.now) }
{
    let (key, rest) = key_at(alloc, bytes)?;
    let (params, rest) = copied_at(alloc, rest)?;
    let (wrapping, rest) = key_at(alloc, rest)?;
    let (wrapped, rest) = copied_at(alloc, rest)?;
    let (unwrapping, rest) = copied_at(alloc, rest)?;
    let act = Act::ImportWrappedKey {
        key,
        params,
        wrapping,
        wrapped,
        unwrapping,
    };
    Ok((act, rest))
}

fn granted_at(alloc: Global, bytes: &[u8]) -> Result<(Act, &[u8]), BodyFault>
    ensures { Says (λ x. (x.0, x.1.now)) result (spec.granted_at bytes.now) }
{
    let (key, rest) = key_at(alloc, bytes)?;
    let (uid, rest) = u32_at(rest)?;
    let (bits, rest) = u32_at(rest)?;
    Ok((Act::Grant { key, uid, bits }, rest))
}

fn ungranted_at(alloc: Global, bytes: &[u8]) -> Result<(Act, &[u8]), BodyFault>
    ensures { Says (λ x. (x.0, x.1.now)) result (spec.ungranted_at bytes.now) }
{
    let (key, rest) = key_at(alloc, bytes)?;
    let (uid, rest) = u32_at(rest)?;
    Ok((Act::Ungrant { key, uid }, rest))
}

fn found_at(alloc: Global, bytes: &[u8]) -> Result<(Act, &[u8]), BodyFault>
    ensures { Says (λ x. (x.0, x.1.now)) result (spec.found_at bytes.now) }
{
    let (key, rest) = key_at(alloc, bytes)?;
    Ok((Act::GetKeyEntry { key }, rest))
}

fn deleted_at(alloc: Global, bytes: &[u8]) -> Result<(Act, &[u8]), BodyFault>
    ensures { Says (λ x. (x.0, x.1.now)) result (spec.deleted_at bytes.now) }
{
    let (key, rest) = key_at(alloc, bytes)?;
    Ok((Act::DeleteKey { key }, rest))
}

fn aad_at(alloc: Global, bytes: &[u8]) -> Result<(Act, &[u8]), BodyFault>
    ensures { Says (λ x. (x.0, x.1.now)) result (spec.aad_at bytes.now) }
{
    let (op, rest) = u64_at(bytes)?;
    let (input, rest) = copied_at(alloc, rest)?;
    Ok((Act::EnterAad { op, input }, rest))
}

fn update_at(alloc: Global, bytes: &[u8]) -> Result<(Act, &[u8]), BodyFault>
    ensures { Says (λ x. (x.0, x.1.now)) result (spec.update_at bytes.now) }
{
    let (op, rest) = u64_at(bytes)?;
    let (input, rest) = copied_at(alloc, rest)?;
    Ok((Act::EnterUpdate { op, input }, rest))
}

fn finished_at(alloc: Global, bytes: &[u8]) -> Result<(Act, &[u8]), BodyFault>
    ensures { Says (λ x. (x.0, x.1.now)) result (spec.finish_at bytes.now) }
{
    let (op, rest) = u64_at(bytes)?;
    let (input, rest) = copied_at(alloc, rest)?;
    let (signature, rest) = optional_at(alloc, rest)?;
    let act = Act::EnterFinish {
        op,
        input,
        signature,
    };
    Ok((act, rest))
}

/// An owner: its domain, and its uid or namespace.
fn owner_at(bytes: &[u8]) -> Result<((u32, u64), &[u8]), BodyFault>
    ensures { Says (λ x. (x.0, x.1.now)) result (spec.owner_at bytes.now) }
{
    let (domain, rest) = u32_at(bytes)?;
    let (nspace, rest) = u64_at(rest)?;
    Ok(((domain, nspace), rest))
}

fn listed_at(alloc: Global, bytes: &[u8]) -> Result<(Act, &[u8]), BodyFault>
    ensures { Says (λ x. (x.0, x.1.now)) result (spec.listed_at bytes.now) }
{
    let ((domain, nspace), rest) = owner_at(bytes)?;
    let (past, rest) = optional_at(alloc, rest)?;
    let act = Act::ListEntriesBatched {
        domain,
        nspace,
        past,
    };
    Ok((act, rest))
}

#[tactic(auto, unfolding(crate::specs::Reading::token_at))]
fn token_at(bytes: &[u8]) -> Result<(Act, &[u8]), BodyFault>
    ensures { Says (λ x. (x.0, x.1.now)) result (spec.token_at bytes.now) }
{
    let (challenge, rest) = u64_at(bytes)?;
    let (user, rest) = u64_at(rest)?;
    let (authenticator, rest) = u64_at(rest)?;
    let (kind, rest) = u32_at(rest)?;
    let (time, rest) = u64_at(rest)?;
    let (mac, rest) = mac_at(rest)?;
    let act = Act::AddAuthToken {
        challenge,
        user,
        authenticator,
        kind,
        time,
        mac,
    };
    Ok((act, rest))
}

/// The fields of an act of a kind; three kinds have no frame.
fn fields_at(alloc: Global, kind: ActKind, bytes: &[u8]) -> Result<(Act, &[u8]), BodyFault>
    ensures { Says (λ x. (x.0, x.1.now)) result (spec.fields_of kind bytes.now) }
{
    match kind {
        ActKind::Connect => {
            let (uid, rest) = u32_at(bytes)?;
            Ok((Act::Connect { uid }, rest))
        }
        ActKind::GenerateKey => generated_at(alloc, bytes),
        ActKind::ImportKey => imported_at(alloc, bytes),
        ActKind::CreateOperation => created_at(alloc, bytes),
        ActKind::UpdateAad => aad_at(alloc, bytes),
        ActKind::Update => update_at(alloc, bytes),
        ActKind::Finish => finished_at(alloc, bytes),
        ActKind::Abort => {
            let (op, rest) = u64_at(bytes)?;
            Ok((Act::Abort { op }, rest))
        }
        ActKind::GetKeyEntry => found_at(alloc, bytes),
        ActKind::DeleteKey => deleted_at(alloc, bytes),
        ActKind::Grant => granted_at(alloc, bytes),
        ActKind::Ungrant => ungranted_at(alloc, bytes),
        ActKind::GetNumberOfEntries => {
            let ((domain, nspace), rest) = owner_at(bytes)?;
            Ok((Act::GetNumberOfEntries { domain, nspace }, rest))
        }
        ActKind::ListEntriesBatched => listed_at(alloc, bytes),
        ActKind::AddAuthToken => token_at(bytes),
        ActKind::DeviceLocked => {
            let (user, rest) = u32_at(bytes)?;
            Ok((Act::DeviceLocked { user }, rest))
        }
        ActKind::DeviceUnlocked => {
            let (user, rest) = u32_at(bytes)?;
            Ok((Act::DeviceUnlocked { user }, rest))
        }
        ActKind::EarlyBootEnded => Ok((Act::EarlyBootEnded, bytes)),
        ActKind::ClearNamespace => {
            let ((domain, nspace), rest) = owner_at(bytes)?;
            Ok((Act::ClearNamespace { domain, nspace }, rest))
        }
        ActKind::UserRemoved => {
            let (user, rest) = u32_at(bytes)?;
            Ok((Act::UserRemoved { user }, rest))
        }
        ActKind::UpgradeKey => upgraded_at(alloc, bytes),
        ActKind::ImportWrappedKey => wrapped_at(alloc, bytes),
        ActKind::Disconnect => Err(BodyFault::Bad),
        ActKind::Leave => Err(BodyFault::Bad),
        ActKind::Restart => Err(BodyFault::Bad),
    }
}

/// The act that a body spells.
#[tactic(auto, unfolding(crate::specs::Reading::act_in))]
pub(crate) fn act_in(alloc: Global, body: &[u8]) -> Result<Act, BodyFault>
    ensures { Says (λ x. x) result (spec.act_in body.now) }
{
    let (number, fields) = u8_at(body)?;
    let Some(kind) = ActKind::of_number(number) else {
        return Err(BodyFault::Bad);
    };
    let (act, rest) = fields_at(alloc, kind, fields)?;
    ended(act, rest)
}
