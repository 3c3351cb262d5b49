//! Blocks that are added byte by byte.

ghost use Rattle.std.specs.Prelude.{◌≡◌};
ghost use Rattle.block_modes.specs.Texts.{xor_bytes};

use std::simd::prelude::*;

/// The sum of two blocks, byte by byte.
pub(crate) fn sum(a: [u8; 16], b: [u8; 16]) -> [u8; 16]
    ensures { result ≡ xor_bytes a b }
{
    (u8x16::from_array(a) ^ u8x16::from_array(b)).to_array()
}
