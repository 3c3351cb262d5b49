//! KW-AE and KW-AD of SP 800-38F section 6.2.

ghost use Rattle.std.specs.Prelude.{◌≡◌, ◌+◌, ◌≤◌, List, ℕ, length, take, drop, replicate, None, Some, IfSome, option_map};
ghost use Rattle.aes_core.specs.Block.{IsBytes};
ghost use Rattle.key_wrap.specs.Lengths.{IsText, IsWrapped};
ghost use Rattle.key_wrap.specs.Wrapping.{kw_open, kw_wrap};

use crate::steps::{unwrapping, wrapping};
use aes_core::BlockCipher;
use byte_strings::same_bytes;

/// ICV1, the initial value.
const INITIAL: [u8; 8] = [0xa6; 8];

/// Wraps a text of 16 to 64 bytes, a multiple of 8 (`is_text_length`), under the key of a cipher (SP 800-38F section 6.2, algorithm
/// 3), and puts it at the front of `out`, which has room for eight bytes more than the text has.
#[tactic(auto, unfolding(crate::specs::Wrapping::kw_wrap))]
pub fn wrap<C: BlockCipher>(cipher: &C, text: &[u8], out: &mut [u8])
    requires text { IsText text.now }
    requires room { length text.now + 8 ≤ length out.old }
    ensures wrapped { take (length text.now + 8) out.new ≡ kw_wrap (C.cipher cipher.now) text.now }
    ensures opens { kw_open (C.inverse cipher.now) (kw_wrap (C.cipher cipher.now) text.now) ≡ Some text.now }
    ensures rest { drop (length text.now + 8) out.new ≡ drop (length text.now + 8) out.old }
{
    let (front, back) = out.split_at_mut(8);
    let parts = &mut back[..text.len()];
    parts.copy_from_slice(text);
    let value = wrapping(cipher, INITIAL, parts);
    front.copy_from_slice(&value);
}

/// The value of a wrapped text: its first eight bytes.
fn value_in(wrapped: &[u8]) -> [u8; 8]
    requires { 8 ≤ length wrapped.now }
    ensures { result ≡ take 8 wrapped.now }
{
    let mut value = [0; 8];
    value.copy_from_slice(&wrapped[..8]);
    value
}

/// Unwraps 24 to 72 bytes, a multiple of 8 (`is_wrapped_length`), under the key of a cipher (SP 800-38F section 6.2, algorithm 4):
/// puts the text at the front of `out`, which has room for eight bytes fewer, and answers how many bytes it has. `None` comes exactly
/// where no text is wrapped so under this key; then `out` is all 00.
#[tactic(auto, unfolding(crate::specs::Wrapping::kw_open))]
pub fn unwrap<C: BlockCipher>(cipher: &C, wrapped: &[u8], out: &mut [u8]) -> Option<usize>
    requires wrapped { IsWrapped wrapped.now }
    requires room { length wrapped.now ≤ length out.old + 8 }
    ensures text { option_map (λ size. take size out.new) result ≡ kw_open (C.inverse cipher.now) wrapped.now }
    ensures wraps { IfSome result (λ size. kw_wrap (C.cipher cipher.now) (take size out.new) ≡ wrapped.now) }
    ensures none { result ≡ None → (text : List ℕ) → IsText text → IsBytes text → kw_wrap (C.cipher cipher.now) text ≡ wrapped.now → ⊥ }
    ensures size { IfSome result (λ size. size + 8 ≡ length wrapped.now) }
    ensures rest { IfSome result (λ size. drop size out.new ≡ drop size out.old) }
    ensures cleared { result ≡ None → out.new ≡ replicate (length out.old) 0 }
{
    let size = wrapped.len() - 8;
    let parts = &mut out[..size];
    parts.copy_from_slice(&wrapped[8..]);
    let value = unwrapping(cipher, value_in(wrapped), parts);
    if same_bytes(&value, &INITIAL) {
        return Some(size);
    }
    out.fill(0);
    None
}
