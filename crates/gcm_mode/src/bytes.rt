//! Work on plain bytes: adding blocks, and writing two strings one behind the other.

ghost use Rattle.std.specs.Prelude.{◌≡◌, ◌+◌, ◌*◌, ◌≤◌, ◌++◌, drop, length};
ghost use Rattle.gcm_mode.specs.Bytewise.{xor_by, stream_byte};
ghost use Rattle.gcm_mode.specs.Counter.{xor_bytes};

use std::simd::prelude::*;

/// A block and another, added bit by bit.
pub(crate) fn xor_blocks(block: [u8; 16], key: &[u8; 16]) -> [u8; 16]
    ensures { result ≡ xor_bytes block key.now }
{
    (u8x16::from_array(block) ^ u8x16::from_array(*key)).to_array()
}

/// Adds a key stream of whole blocks to as many bytes, in place.
pub(crate) fn add_blocks(bytes: &mut [u8], keys: &[[u8; 16]])
    requires { length bytes.old ≡ 16 * length keys.now }
    ensures { bytes.new ≡ xor_by (stream_byte keys.now) 0 bytes.old }
{
    'each: for i in 0..keys.len() {
        let mut block = [0; 16];
        block.copy_from_slice(&bytes[16 * i..16 * i + 16]);
        let sum = xor_blocks(block, &keys[i]);
        bytes[16 * i..16 * i + 16].copy_from_slice(&sum);
    }
}

/// Writes `first` and behind it `second` to the front of `out`.
pub(crate) fn put_joined(out: &mut [u8], first: &[u8], second: &[u8])
    requires { length first.now + length second.now ≤ length out.old }
    ensures { out.new ≡ (first.now ++ second.now) ++ drop (length first.now + length second.now) out.old }
{
    out[..first.len()].copy_from_slice(first);
    out[first.len()..first.len() + second.len()].copy_from_slice(second);
}
