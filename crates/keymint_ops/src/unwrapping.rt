//! The text of a key that comes wrapped under another one.

ghost use Rattle.std.specs.Prelude.{◌≡◌, [], IfOk, length, option_map, true, unwrap_or};
ghost use Rattle.aes_core.specs.Cipher.{inverse_cipher, is_key_size};
ghost use Rattle.aes_wide.specs.WideKey.{wide_key_of};
ghost use Rattle.key_wrap.specs.Lengths.{IsWrapped};
ghost use Rattle.key_wrap.specs.Wrapping.{kw_open};
ghost use Rattle.tag_lists.specs.Lookups.{IsKey};
ghost use Rattle.keymint_ops.specs.Wrapped as spec;

use crate::opening::OpenedKey;
use aes_wide::WideAes;
use key_wrap::{is_wrapped_length, unwrap};
use std::alloc::Global;
use tags::{Bytes, Material, NoMemory};

/// Whether the opened key is one of AES that fits, and the bytes are as many as a wrapped text has.
fn may_unwrap(own: &OpenedKey, size: usize) -> bool
    ensures { result ≡ spec.may_unwrap own.now size }
{
    match &own.list {
        Some(list) => own.fits && list.is_aes() && is_wrapped_length(size),
        None => false,
    }
}

/// The cipher of a wrapping key.
fn aes_of(material: &[u8]) -> WideAes
    requires { is_key_size (length material.now) ≡ true }
    ensures { wide_key_of result ≡ material.now }
{
    match WideAes::new(material) {
        Some(aes) => aes,
        None => unreachable!(),
    }
}

/// The text that these bytes are wrapped of under the material.
fn text_under(alloc: Global, material: &[u8], wrapped: &[u8]) -> Result<Option<Material>, NoMemory>
    requires key { is_key_size (length material.now) ≡ true }
    requires wrapped { IsWrapped wrapped.now }
    ensures { IfOk result (λ text. text ≡ kw_open (inverse_cipher material.now) wrapped.now) }
{
    let aes = aes_of(material);
    let mut text = vec![in alloc; 0; wrapped.len() - 8]?;
    match unwrap(&aes, wrapped, &mut text) {
        Some(_) => Ok(Some(Material::of(Bytes::of(text)))),
        None => Ok(None),
    }
}

/// The text of a key that comes wrapped under an opened one (KW-AD of SP 800-38F section 6.2). Nothing comes exactly where the
/// opened key does not fit or is no key of AES, where the bytes are not 24 to 72 and whole parts of eight, and where no text is
/// wrapped so under its material. `NoMemory` comes where memory is wanted.
pub fn open_wrapped(
    alloc: Global,
    own: &OpenedKey,
    wrapped: &[u8],
) -> Result<Option<Material>, NoMemory>
    requires key { own.now.fits ≡ true → IsKey (unwrap_or own.now.list []) (length own.now.material) }
    ensures text { IfOk result (λ text. text ≡ spec.text_wrapped own.now wrapped.now) }
{
    if may_unwrap(own, wrapped.len()) {
        text_under(alloc, own.material.as_slice(), wrapped)
    } else {
        Ok(None)
    }
}
