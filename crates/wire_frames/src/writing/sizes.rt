//! How long bodies are, as far as the four bytes of a length can name it.

ghost use Rattle.std.specs.Prelude.{◌≡◌, ℕ, ◌≤◌, ◌<◌, length};
ghost use Rattle.wire_frames.specs.Spelling as spec;
ghost use Rattle.wire_frames.specs.Spelling.{body_of, fields_of};
ghost use Rattle.rule_model.specs.declared.event.Act.TheVariants as acts;
ghost use Rattle.wire_frames.specs.Sizes.{IsSize};

use rule_model::Act;
use tags::{Bytes, Descriptor, Material};

/// The least size that four bytes cannot name.
pub(super) const TOO_LONG: usize = 1 << 32;

/// The size of counted bytes.
pub(super) fn counted_size(bytes: &Bytes) -> usize
    ensures size { IsSize result (length (spec.counted bytes.now)) }
    ensures small { result ≤ 4294967300 }
{
    if bytes.len() >= TOO_LONG {
        TOO_LONG
    } else {
        4 + bytes.len()
    }
}

/// The size of a counted material.
fn material_size(material: &Material) -> usize
    ensures size { IsSize result (length (spec.counted material.now)) }
    ensures small { result ≤ 4294967300 }
{
    counted_size(material.as_bytes())
}

/// The size of bytes that may be given.
fn optional_size(bytes: &Option<Bytes>) -> usize
    ensures size { IsSize result (length (spec.optional bytes.now)) }
    ensures small { result ≤ 4294967301 }
{
    match bytes {
        None => 1,
        Some(given) => 1 + counted_size(given),
    }
}

/// The size of a descriptor.
fn key_size(key: &Descriptor) -> usize
    ensures size { IsSize result (length (spec.key_of key.now)) }
    ensures small { result ≤ 8589934614 }
{
    12 + optional_size(&key.alias) + optional_size(&key.blob)
}

/// The size of the fields of an act that brings a wrapped key.
fn wrapped_size(
    key: &Descriptor,
    params: &Bytes,
    wrapping: &Descriptor,
    wrapped: &Bytes,
    unwrapping: &Bytes,
) -> usize
    ensures size { IsSize result (length (fields_of (acts.ImportWrappedKey key.now params.now wrapping.now wrapped.now unwrapping.now))) }
    ensures small { result ≤ 30064771128 }
{
    key_size(key)
        + counted_size(params)
        + key_size(wrapping)
        + counted_size(wrapped)
        + counted_size(unwrapping)
}

/// The size of a body, which is none where the act has no frame.
pub(crate) fn body_size(act: &Act) -> usize
    ensures { IsSize result (length (body_of act.now)) }
{
    match act {
        Act::Connect { .. } => 5,
        Act::GenerateKey { key, params } => 1 + key_size(key) + counted_size(params),
        Act::ImportKey {
            key,
            params,
            material,
            ..
        } => 5 + key_size(key) + counted_size(params) + material_size(material),
        Act::CreateOperation { key, params, .. } => 2 + key_size(key) + counted_size(params),
        Act::EnterAad { input, .. } => 9 + counted_size(input),
        Act::EnterUpdate { input, .. } => 9 + counted_size(input),
        Act::EnterFinish {
            input,
            signature,
            ..
        } => 9 + counted_size(input) + optional_size(signature),
        Act::Abort { .. } => 9,
        Act::GetKeyEntry { key } => 1 + key_size(key),
        Act::DeleteKey { key } => 1 + key_size(key),
        Act::Grant { key, .. } => 9 + key_size(key),
        Act::Ungrant { key, .. } => 5 + key_size(key),
        Act::GetNumberOfEntries { .. } => 13,
        Act::ListEntriesBatched { past, .. } => 13 + optional_size(past),
        Act::AddAuthToken { mac, .. } => 37 + mac.as_slice().len(),
        Act::DeviceLocked { .. } => 5,
        Act::DeviceUnlocked { .. } => 5,
        Act::EarlyBootEnded => 1,
        Act::ClearNamespace { .. } => 13,
        Act::UserRemoved { .. } => 5,
        Act::UpgradeKey { key, params } => 1 + key_size(key) + counted_size(params),
        Act::ImportWrappedKey {
            key,
            params,
            wrapping,
            wrapped,
            unwrapping,
        } => 1 + wrapped_size(key, params, wrapping, wrapped, unwrapping),
        Act::Disconnect => 0,
        Act::Leave { .. } => 0,
        Act::Restart { .. } => 0,
    }
}
