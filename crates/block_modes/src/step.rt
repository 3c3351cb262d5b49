//! A mode of operation as a step of one block.

ghost use Rattle.std.specs.Prelude.{◌≡◌};
ghost use Rattle.block_modes.specs.Texts.{xor_bytes};
ghost use Rattle.block_modes.specs.Modes.{next_counter};
ghost use Rattle.block_modes.specs.Steps.{step_out, step_chain};

use aes_core::BlockCipher;
use std::simd::prelude::*;
use tags::Plan;

/// Byte by byte.
pub(crate) fn xor(a: [u8; 16], b: [u8; 16]) -> [u8; 16]
    ensures { result ≡ xor_bytes a b }
{
    (u8x16::from_array(a) ^ u8x16::from_array(b)).to_array()
}

/// The next counter block (SP 800-38A appendix B.1, of all 128 bits).
fn next_counter(counter: [u8; 16]) -> [u8; 16]
    ensures { result ≡ next_counter counter }
{
    u128::from_be_bytes(counter).wrapping_add(1).to_be_bytes()
}

/// What the mode makes of a block that is chained to `chain`, and what the next block is chained to.
pub(crate) fn step<C: BlockCipher>(
    cipher: &C,
    plan: Plan,
    chain: [u8; 16],
    block: [u8; 16],
) -> ([u8; 16], [u8; 16])
    ensures out { result.0 ≡ step_out (C.cipher cipher.now) (C.inverse cipher.now) plan chain block }
    ensures chain { result.1 ≡ step_chain (C.cipher cipher.now) (C.inverse cipher.now) plan chain block }
{
    match plan {
        Plan::Ecb { seal: true, .. } => (cipher.encrypt(block), chain),
        Plan::Ecb { seal: false, .. } => (cipher.decrypt(block), chain),
        Plan::Cbc { seal: true, .. } => {
            let out = cipher.encrypt(xor(block, chain));
            (out, out)
        }
        Plan::Cbc { seal: false, .. } => (xor(cipher.decrypt(block), chain), block),
        _ => (xor(block, cipher.encrypt(chain)), next_counter(chain)),
    }
}
