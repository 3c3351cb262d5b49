//! Opening a blob.

ghost use Rattle.std.specs.Prelude.{◌≡◌, ◌≤◌, ◌+◌, length, take, IfOk, MatchResult, Some, None};
ghost use Rattle.std.specs.Option.{option_copied};
ghost use Rattle.key_blobs.specs.Text.{lent, with_list};
ghost use Rattle.key_blobs.specs.Blobs as spec;
ghost use Rattle.key_blobs.specs.Blobs.{Says};

use crate::fault::BlobFault;
use crate::reading::{TextParts, sealed_in};
use crate::sealed::Opened;
use crate::sealing::{START, aes_of};
use byte_strings::same_bytes;
use gcm_mode::{GcmOpen, TagWrong};
use std::alloc::Global;
use tag_lists::AuthList;
use tags::{Bytes, DeviceSecrets, Material};

/// Whether the bytes have the form of a blob.
fn is_blob(blob: &[u8]) -> bool
    ensures { result ≡ spec.is_blob blob.now }
{
    blob.len() >= 32 && same_bytes(&blob[..4], &START)
}

/// Opens a blob's text into `out`, and says how long it is.
fn open_text(key: &[u8; 32], blob: &[u8], out: &mut [u8]) -> Result<usize, TagWrong>
    requires blob { 32 ≤ length blob.now }
    requires room { length blob.now ≤ length out.old + 16 }
    ensures { MatchResult result (λ n. spec.text_in key.now blob.now ≡ Some (take n out.new)) (λ _. spec.text_in key.now blob.now ≡ None) }
{
    let mut nonce = [0; 12];
    nonce.copy_from_slice(&blob[4..16]);
    let (_, sealed) = blob.split_at(16);
    let mut open = GcmOpen::new(aes_of(key), nonce, 16);
    open.aad(&START);
    let size = open.update(sealed, out);
    match open.finish(&mut []) {
        Ok(_) => Ok(size),
        Err(TagWrong) => Err(TagWrong),
    }
}

/// The text of a blob, opened with the key.
fn text_of_blob(alloc: Global, key: &[u8; 32], blob: &[u8]) -> Result<Vec<u8>, BlobFault>
    ensures { Says (λ text. text.items) result (spec.text_of_blob key.now blob.now) }
{
    if !is_blob(blob) {
        return Err(BlobFault::Format);
    }
    let mut text = vec![in alloc; 0; blob.len() - 16]?;
    match open_text(key, blob, &mut text) {
        Ok(size) => {
            text.truncate(size);
            Ok(text)
        }
        Err(TagWrong) => Err(BlobFault::Tag),
    }
}

/// Whether both are absent, or both are there and equal.
fn same_id(a: Option<&[u8]>, b: Option<&[u8]>) -> bool
    ensures { result ≡ spec.same_id (option_copied a.entry) (option_copied b.entry) }
{
    match (a, b) {
        (None, None) => true,
        (Some(a), Some(b)) => same_bytes(a, b),
        _ => false,
    }
}

/// What a device with this root of trust answers a caller with these ids, from a text that was read.
fn compared(
    alloc: Global,
    root: &[u8; 32],
    app_id: Option<&[u8]>,
    app_bytes: Option<&[u8]>,
    parts: TextParts,
    list: AuthList,
) -> Result<Opened, BlobFault>
    requires { length (lent parts).material ≤ 255 }
    ensures says { Says (λ opened. opened) result (spec.compared root.now (option_copied app_id.entry) (option_copied app_bytes.entry) (with_list (lent parts.entry) list)) }
    ensures short { IfOk result (λ opened. length opened.material ≤ 255) }
{
    if !same_bytes(parts.root, root) {
        return Err(BlobFault::Root);
    }
    if !same_id(parts.app_id, app_id) {
        return Err(BlobFault::App);
    }
    if !same_id(parts.app_bytes, app_bytes) {
        return Err(BlobFault::App);
    }
    let material = Material::of(Bytes::copy_of(alloc, parts.material)?);
    Ok(Opened { list, material })
}

/// The same, from an opened text.
fn read(
    alloc: Global,
    root: &[u8; 32],
    app_id: Option<&[u8]>,
    app_bytes: Option<&[u8]>,
    text: &[u8],
) -> Result<Opened, BlobFault>
    ensures says { Says (λ opened. opened) result (spec.answered root.now (option_copied app_id.entry) (option_copied app_bytes.entry) text.now) }
    ensures short { IfOk result (λ opened. length opened.material ≤ 255) }
{
    let (parts, list) = sealed_in(alloc, text)?;
    compared(alloc, root, app_id, app_bytes, parts, list)
}

/// The list and the material of a blob, for a device and a caller who gives these ids. An absent id is equal to an absent
/// one alone.
///
/// Of several faults the first is given: the bytes are no blob (`Format`); the tag is wrong (`Tag`); the opened text is no
/// sealed text (`Format`); another root of trust (`Root`); another application id or other application data (`App`).
/// `Memory` comes where memory is wanting, and then nothing is said. The opened text is given back before the call ends, and
/// the material, of at most 255 bytes, is copied once, into the answer.
pub fn unseal(
    alloc: Global,
    device: &DeviceSecrets,
    blob: &[u8],
    app_id: Option<&[u8]>,
    app_bytes: Option<&[u8]>,
) -> Result<Opened, BlobFault>
    ensures says { Says (λ opened. opened) result (spec.unsealed device.now.seal device.now.root (option_copied app_id.entry) (option_copied app_bytes.entry) blob.now) }
    ensures short { IfOk result (λ opened. length opened.material ≤ 255) }
{
    let text = text_of_blob(alloc, &device.seal, blob)?;
    read(alloc, &device.root, app_id, app_bytes, &text)
}
