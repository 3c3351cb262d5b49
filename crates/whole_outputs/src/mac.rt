//! The end of a mac: its leftmost bytes, or its comparison with a signature.

ghost use Rattle.std.specs.Prelude.{◌≡◌, ℕ, ◌≤◌, List, take, IfOk};
ghost use Rattle.hmac_core.specs.Hmac as spec;
ghost use Rattle.hmac_core.specs.State.{Holds};
ghost use Rattle.cipher_ops.specs.Output.{verified};

use byte_strings::same_bytes;
use hmac_core::Hmac;
use std::alloc::Global;
use tags::{Bytes, Code, NoMemory};

/// The leftmost `size` bytes of a mac.
pub(crate) fn signed(alloc: Global, mac: Hmac, size: usize) -> Result<Bytes, NoMemory>
    ensures { (digest : ℕ) (key text : List ℕ) → Holds mac digest key text → IfOk result (λ out. out ≡ take size (spec.hmac digest key text)) }
{
    let mut bytes = [0; 64];
    let most = mac.finish(&mut bytes);
    Bytes::copy_of(alloc, &bytes[..size.min(most)])
}

/// No bytes where a signature has at least `least` bytes and they are the leftmost of the mac, else `VerificationFailed`, as
/// without a signature.
pub(crate) fn verified(
    alloc: Global,
    mac: Hmac,
    least: usize,
    signature: &Option<Bytes>,
) -> Result<Bytes, Code>
    ensures { (digest : ℕ) (key text : List ℕ) → Holds mac digest key text → result ≡ verified digest least (spec.hmac digest key text) signature.now }
{
    let mut bytes = [0; 64];
    let most = mac.finish(&mut bytes);
    let Some(given) = signature else {
        return Err(Code::VerificationFailed);
    };
    let given = given.as_slice();
    if given.len() < least || most < given.len() {
        return Err(Code::VerificationFailed);
    }
    if same_bytes(given, &bytes[..given.len()]) {
        Ok(Bytes::empty(alloc))
    } else {
        Err(Code::VerificationFailed)
    }
}
