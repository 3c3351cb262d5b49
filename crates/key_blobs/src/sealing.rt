//! Sealing a blob.

ghost use Rattle.std.specs.Prelude.{◌≡◌, ◌+◌, ◌<◌, ◌≤◌, ◌^◌, ◌++◌, length, drop, IfOk, OnOk, Ok, Some};
ghost use Rattle.tag_lists.specs.Spelling.{spelling};
ghost use Rattle.aes_core.specs.Cipher.{cipher};
ghost use Rattle.aes_wide.specs.WideKey.{wide_key_of};
ghost use Rattle.gcm_mode.specs.Gcm.{gcm_seal, gcm_open};
ghost use Rattle.key_blobs.specs.declared.sealed.Sealed.{Sealed};
ghost use Rattle.byte_strings.specs.Fields.{optional};
ghost use Rattle.key_blobs.specs.Text.{blob_size, text_of, sealed_in, text_size, IsShort, IsSealable};
ghost use Rattle.key_blobs.specs.Blobs.{START, blob_of, opened};

use crate::sealed::Sealed;
use aes_wide::WideAes;
use byte_strings::{put_bytes, put_counted_u8, put_counted_u32, put_optional_u16};
use gcm_mode::GcmSeal;
use std::alloc::{AllocError, Global};
use tags::{Bytes, DeviceSecrets, NoMemory};

/// The start of a blob, "KSB1", which is the additional data under its tag too.
pub(crate) const START: [u8; 4] = [0x4b, 0x53, 0x42, 0x31];

/// The cipher of a key.
pub(crate) fn aes_of(key: &[u8; 32]) -> WideAes
    ensures { wide_key_of result ≡ key.now }
{
    match WideAes::new(key) {
        Some(aes) => aes,
        None => unreachable!(),
    }
}

/// Adds bytes that may be absent.
fn put_id(out: &mut Vec<u8>, id: &Option<Bytes>) -> Result<(), AllocError>
    requires { IsShort id.now }
    ensures { OnOk result (out.new.items ≡ out.old.items ++ optional 2 id.now) }
{
    match id {
        None => put_optional_u16(out, None),
        Some(bytes) => put_optional_u16(out, Some(bytes.as_slice())),
    }
}

/// The text that is sealed, with these bytes for the list.
#[tactic(auto, unfolding(crate::specs::Text::text_of))]
fn joined(alloc: Global, sealed: &Sealed, list: &[u8]) -> Result<Vec<u8>, NoMemory>
    requires sealable { IsSealable sealed.now }
    requires list { list.now ≡ spelling sealed.now.list }
    ensures { IfOk result (λ text. text.items ≡ text_of sealed.now) }
{
    let mut text = Vec::new(alloc);
    put_bytes(&mut text, &sealed.root)?;
    put_id(&mut text, &sealed.app_id)?;
    put_id(&mut text, &sealed.app_bytes)?;
    put_counted_u32(&mut text, list)?;
    put_counted_u8(&mut text, sealed.material.as_slice())?;
    Ok(text)
}

/// The text that is sealed.
fn text_of(alloc: Global, sealed: &Sealed) -> Result<Vec<u8>, NoMemory>
    requires { IsSealable sealed.now }
    ensures text { IfOk result (λ text. text.items ≡ text_of sealed.now) }
    ensures again { IfOk result (λ text. sealed_in text.items ≡ Some sealed.now) }
    ensures len { IfOk result (λ text. length text.items ≡ text_size sealed.now) }
{
    let list = sealed.list.write(alloc)?;
    let text = joined(alloc, sealed, list.as_slice())?;
    Ok(text)
}

/// Puts what stands before the sealed text.
fn put_head(out: &mut [u8], nonce: [u8; 12])
    requires { 16 ≤ length out.old }
    ensures { out.new ≡ START ++ (nonce ++ drop 16 out.old) }
{
    out[..4].copy_from_slice(&START);
    out[4..16].copy_from_slice(&nonce);
}

/// Seals a text into `out`, with its tag of 16 bytes behind it.
fn seal_text(key: &[u8; 32], nonce: [u8; 12], text: &[u8], out: &mut [u8])
    requires { length out.old ≡ length text.now + 16 }
    ensures sealed { out.new ≡ gcm_seal (cipher key.now) nonce 16 START text.now }
    ensures opens { gcm_open (cipher key.now) nonce 16 START out.new ≡ Some text.now }
{
    let mut seal = GcmSeal::new(aes_of(key), nonce, 16);
    seal.aad(&START);
    let (front, back) = out.split_at_mut(text.len());
    seal.update(text, front);
    seal.finish(back);
}

/// Fills a blob: its head, and the sealed text.
fn fill(key: &[u8; 32], nonce: [u8; 12], text: &[u8], out: &mut [u8])
    requires { length out.old ≡ length text.now + 32 }
    ensures blob { out.new ≡ START ++ (nonce ++ gcm_seal (cipher key.now) nonce 16 START text.now) }
    ensures opens { (x : Sealed) → sealed_in text.now ≡ Some x → opened key.now out.new ≡ Ok x }
    ensures len { length out.new ≡ length out.old }
{
    let (head, sealed) = out.split_at_mut(16);
    put_head(head, nonce);
    seal_text(key, nonce, text, sealed);
}

/// The blob of a key that is kept, sealed under the device's key with a nonce of 12 bytes, which must be drawn anew for each.
/// The text is given back before the call ends.
#[tactic(auto, unfolding(crate::specs::Blobs::blob_of))]
pub fn seal(
    alloc: Global,
    device: &DeviceSecrets,
    nonce: [u8; 12],
    sealed: &Sealed,
) -> Result<Bytes, NoMemory>
    requires { IsSealable sealed.now }
    ensures blob { IfOk result (λ blob. blob ≡ blob_of device.now.seal nonce sealed.now) }
    ensures opens { IfOk result (λ blob. opened device.now.seal blob ≡ Ok sealed.now) }
    ensures len { IfOk result (λ blob. length blob ≡ blob_size sealed.now) }
{
    let text = text_of(alloc, sealed)?;
    let mut blob = vec![in alloc; 0; text.len() + 32]?;
    fill(&device.seal, nonce, &text, &mut blob);
    Ok(Bytes::of(blob))
}
