//! The end of a mac: its leftmost bytes, or its comparison with a signature.

ghost use Rattle.std.specs.Prelude.{◌≡◌, ℕ, ◌≤◌, nat_le, ◌&&◌, List, [], ◌++◌, length, take, MatchResult, Ok, Err, Option};
ghost use Rattle.std.specs.Str.{bytes_eq};
ghost use Rattle.hmac_core.specs.Hmac as spec;
ghost use Rattle.hmac_core.specs.State.{Holds};
ghost use Rattle.cipher_ops.specs.Output.{verified};

use byte_strings::same_bytes;
use hmac_core::Hmac;
use tags::{Bytes, Code};

/// Puts the leftmost `size` bytes of the mac at the front of `out`.
pub(crate) fn put_mac(mac: Hmac, size: usize, out: &mut [u8]) -> usize
    requires within { size ≤ 64 }
    requires room { size ≤ length out.old }
    ensures size { result ≡ size }
    ensures mac { (digest : ℕ) (key text : List ℕ) → size ≤ spec.digest_size digest → Holds mac digest key text →
        take result out.new ≡ take size (spec.hmac digest key text) }
    ensures len { length out.new ≡ length out.old }
{
    let mut bytes = [0; 64];
    mac.finish(&mut bytes);
    out[..size].copy_from_slice(&bytes[..size]);
    size
}

/// The signature has from `least` to `most` bytes, and they are the leftmost of the mac. Where the length is right, every
/// byte is looked at.
fn is_leftmost(signature: &[u8], mac: &[u8; 64], least: usize, most: usize) -> bool
    requires { most ≤ 64 }
    ensures { result ≡ (nat_le least (length signature.now) && nat_le (length signature.now) most && bytes_eq signature.now (take (length signature.now) mac.now)) }
{
    let size = signature.len();
    if size < least || most < size {
        return false;
    }
    same_bytes(signature, &mac[..size])
}

/// Compares a signature with the leftmost bytes of the mac.
///
/// `VerificationFailed` comes exactly where there is no signature, where it has fewer than `least` bytes or more than
/// the digest, or where one of its bytes differs.
pub(crate) fn verify(mac: Hmac, least: usize, signature: Option<Bytes>) -> Result<(), Code>
    ensures { (digest : ℕ) (key text : List ℕ) → Holds mac digest key text →
        MatchResult result (λ _. verified digest least (spec.hmac digest key text) signature ≡ Ok [])
        (λ code. verified digest least (spec.hmac digest key text) signature ≡ Err code) }
{
    let mut bytes = [0; 64];
    let most = mac.finish(&mut bytes);
    let Some(given) = signature else {
        return Err(Code::VerificationFailed);
    };
    if is_leftmost(given.as_slice(), &bytes, least, most) {
        Ok(())
    } else {
        Err(Code::VerificationFailed)
    }
}
