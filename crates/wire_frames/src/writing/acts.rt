//! Writing the body of a request.

ghost use Rattle.std.specs.Prelude.{◌≡◌, ◌++◌, ◌∷◌, true, ℕ, ◌≤◌, ◌<◌, ◌^◌, length, OnOk};
ghost use Rattle.byteorder.specs.Endian.{big_bytes};
ghost use Rattle.wire_frames.specs.Spelling as spec;
ghost use Rattle.tags.specs.declared.limits.TheConstants.{FRAME_BYTES};
ghost use Rattle.rule_model.specs.Acts.{is_framed};
ghost use Rattle.rule_model.specs.declared.event.Act.TheVariants as acts;
ghost use Rattle.wire_frames.specs.Spelling.{body_of, fields_of, is_on_key, is_token};

use super::fields::{put_key, put_optional};
use byte_strings::{put_bytes, put_counted_u32, put_flag, put_u8, put_u32, put_u64};
use rule_model::Act;
use std::alloc::AllocError;
use tags::{Bytes, Descriptor};

/// An owner.
fn put_owner(out: &mut Vec<u8>, domain: u32, nspace: u64) -> Result<(), AllocError>
    ensures { OnOk result (out.new.items ≡ out.old.items ++ (big_bytes 4 domain ++ big_bytes 8 nspace)) }
{
    put_u32(out, domain)?;
    put_u64(out, nspace)
}

/// An operation and its input.
fn put_input(out: &mut Vec<u8>, op: u64, input: &Bytes) -> Result<(), AllocError>
    requires { length (spec.counted input.now) < 2 ^ 32 }
    ensures { OnOk result (out.new.items ≡ out.old.items ++ (big_bytes 8 op ++ spec.counted input.now)) }
{
    put_u64(out, op)?;
    put_counted_u32(out, input.as_slice())
}

/// The numbers of a token, and its mac.
fn put_token(out: &mut Vec<u8>, act: &Act) -> Result<(), AllocError>
    requires token { is_token act.now ≡ true }
    ensures { OnOk result (out.new.items ≡ out.old.items ++ fields_of act.now) }
{
    let Act::AddAuthToken {
        challenge,
        user,
        authenticator,
        kind,
        time,
        mac,
    } = act
    else {
        unreachable!()
    };
    put_u64(out, *challenge)?;
    put_u64(out, *user)?;
    put_u64(out, *authenticator)?;
    put_u32(out, *kind)?;
    put_u64(out, *time)?;
    put_bytes(out, mac)
}

/// A key and its list.
fn put_key_and_params(out: &mut Vec<u8>, key: &Descriptor, params: &Bytes) -> Result<(), AllocError>
    requires { length (spec.key_of key.now ++ spec.counted params.now) < FRAME_BYTES }
    ensures { OnOk result (out.new.items ≡ out.old.items ++ (spec.key_of key.now ++ spec.counted params.now)) }
{
    put_key(out, key)?;
    put_counted_u32(out, params.as_slice())
}

/// A key and its list, and what it comes wrapped under: another key, the wrapped text and the list with that key's ids.
fn put_wrapped(
    out: &mut Vec<u8>,
    key: &Descriptor,
    params: &Bytes,
    wrapping: &Descriptor,
    wrapped: &Bytes,
    unwrapping: &Bytes,
) -> Result<(), AllocError>
    requires { length (fields_of (acts.ImportWrappedKey key.now params.now wrapping.now wrapped.now unwrapping.now)) < FRAME_BYTES }
    ensures { OnOk result (out.new.items ≡ out.old.items ++ fields_of (acts.ImportWrappedKey key.now params.now wrapping.now wrapped.now unwrapping.now)) }
{
    put_key(out, key)?;
    put_counted_u32(out, params.as_slice())?;
    put_key(out, wrapping)?;
    put_counted_u32(out, wrapped.as_slice())?;
    put_counted_u32(out, unwrapping.as_slice())
}

/// The fields of an act on a key that a descriptor names.
fn put_key_fields(out: &mut Vec<u8>, act: &Act) -> Result<(), AllocError>
    requires named { is_on_key act.now ≡ true }
    requires short { length (fields_of act.now) < FRAME_BYTES }
    ensures written { OnOk result (out.new.items ≡ out.old.items ++ fields_of act.now) }
{
    match act {
        Act::GenerateKey { key, params } => put_key_and_params(out, key, params),
        Act::ImportKey {
            key,
            params,
            format,
            material,
        } => {
            put_key(out, key)?;
            put_counted_u32(out, params.as_slice())?;
            put_u32(out, *format)?;
            put_counted_u32(out, material.as_slice())
        }
        Act::CreateOperation {
            key,
            params,
            forced,
        } => {
            put_key(out, key)?;
            put_counted_u32(out, params.as_slice())?;
            put_flag(out, *forced)
        }
        Act::UpgradeKey { key, params } => put_key_and_params(out, key, params),
        Act::ImportWrappedKey {
            key,
            params,
            wrapping,
            wrapped,
            unwrapping,
        } => put_wrapped(out, key, params, wrapping, wrapped, unwrapping),
        Act::GetKeyEntry { key } => put_key(out, key),
        Act::DeleteKey { key } => put_key(out, key),
        Act::Grant { key, uid, bits } => {
            put_key(out, key)?;
            put_u32(out, *uid)?;
            put_u32(out, *bits)
        }
        Act::Ungrant { key, uid } => {
            put_key(out, key)?;
            put_u32(out, *uid)
        }
        _ => unreachable!(),
    }
}

/// The fields of an act that has a frame.
fn put_fields(out: &mut Vec<u8>, act: &Act) -> Result<(), AllocError>
    requires framed { is_framed act.now ≡ true }
    requires short { length (fields_of act.now) < FRAME_BYTES }
    ensures written { OnOk result (out.new.items ≡ out.old.items ++ fields_of act.now) }
{
    match act {
        Act::Connect { uid } => put_u32(out, *uid),
        Act::EnterAad { op, input } => put_input(out, *op, input),
        Act::EnterUpdate { op, input } => put_input(out, *op, input),
        Act::EnterFinish {
            op,
            input,
            signature,
        } => {
            put_input(out, *op, input)?;
            put_optional(out, signature)
        }
        Act::Abort { op } => put_u64(out, *op),
        Act::GetNumberOfEntries { domain, nspace } => put_owner(out, *domain, *nspace),
        Act::ListEntriesBatched {
            domain,
            nspace,
            past,
        } => {
            put_owner(out, *domain, *nspace)?;
            put_optional(out, past)
        }
        Act::AddAuthToken { .. } => put_token(out, act),
        Act::DeviceLocked { user } => put_u32(out, *user),
        Act::DeviceUnlocked { user } => put_u32(out, *user),
        Act::EarlyBootEnded => Ok(()),
        Act::ClearNamespace { domain, nspace } => put_owner(out, *domain, *nspace),
        Act::UserRemoved { user } => put_u32(out, *user),
        _ => put_key_fields(out, act),
    }
}

/// The number of an act, and its fields.
pub(super) fn put_body(out: &mut Vec<u8>, act: &Act) -> Result<(), AllocError>
    requires framed { is_framed act.now ≡ true }
    requires short { length (body_of act.now) ≤ FRAME_BYTES }
    ensures written { OnOk result (out.new.items ≡ out.old.items ++ body_of act.now) }
{
    put_u8(out, act.row().number)?;
    put_fields(out, act)
}
