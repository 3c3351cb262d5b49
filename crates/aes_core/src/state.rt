//! What a round does to the state: 16 bytes, of which byte i stands in row i % 4 and column i / 4.

ghost use Rattle.std.specs.Prelude.{◌≡◌, [], ◌∷◌, length};
ghost use Rattle.aes_core.specs.Field.{x_times};
ghost use Rattle.aes_core.specs.State.{sub_bytes, shift_rows, mixed, mix_columns, add_round_key, inv_sub_bytes, inv_shift_rows, unmixed, inv_mix_columns};

use crate::boxes::{inv_sub_byte, sub_byte};

/// The product with x in the field.
fn x_times(byte: u8) -> u8
    ensures { result ≡ x_times byte }
{
    (byte << 1) ^ (0x1b * (byte >> 7))
}

/// SubBytes (FIPS 197 section 5.1.1).
#[tactic(auto, unfolding(crate::specs::State::sub_bytes, crate::specs::State::state_of))]
pub(crate) fn sub_bytes(state: [u8; 16]) -> [u8; 16]
    ensures { result ≡ sub_bytes state }
{
    [
        sub_byte(state[0]),
        sub_byte(state[1]),
        sub_byte(state[2]),
        sub_byte(state[3]),
        sub_byte(state[4]),
        sub_byte(state[5]),
        sub_byte(state[6]),
        sub_byte(state[7]),
        sub_byte(state[8]),
        sub_byte(state[9]),
        sub_byte(state[10]),
        sub_byte(state[11]),
        sub_byte(state[12]),
        sub_byte(state[13]),
        sub_byte(state[14]),
        sub_byte(state[15]),
    ]
}

/// ShiftRows (FIPS 197 section 5.1.2).
#[tactic(auto, unfolding(crate::specs::State::shift_rows, crate::specs::State::state_of))]
pub(crate) fn shift_rows(state: [u8; 16]) -> [u8; 16]
    ensures { result ≡ shift_rows state }
{
    [
        state[0], state[5], state[10], state[15], state[4], state[9], state[14], state[3],
        state[8], state[13], state[2], state[7], state[12], state[1], state[6], state[11],
    ]
}

/// A column's product with the matrix of MixColumns (FIPS 197 section 5.1.3).
///
/// `2a + 3b + c + d` is `2(a + b)` and all four without `a`.
fn mix_column(a: u8, b: u8, c: u8, d: u8) -> [u8; 4]
    ensures { result ≡ mixed a b c d ∷ mixed b c d a ∷ mixed c d a b ∷ mixed d a b c ∷ [] }
{
    let all = a ^ b ^ c ^ d;
    [
        a ^ all ^ x_times(a ^ b),
        b ^ all ^ x_times(b ^ c),
        c ^ all ^ x_times(c ^ d),
        d ^ all ^ x_times(d ^ a),
    ]
}

/// MixColumns (FIPS 197 section 5.1.3).
#[tactic(auto, unfolding(crate::specs::State::mix_columns, crate::specs::State::state_of))]
pub(crate) fn mix_columns(state: [u8; 16]) -> [u8; 16]
    ensures { result ≡ mix_columns state }
{
    let [a0, b0, c0, d0] = mix_column(state[0], state[1], state[2], state[3]);
    let [a1, b1, c1, d1] = mix_column(state[4], state[5], state[6], state[7]);
    let [a2, b2, c2, d2] = mix_column(state[8], state[9], state[10], state[11]);
    let [a3, b3, c3, d3] = mix_column(state[12], state[13], state[14], state[15]);
    [
        a0, b0, c0, d0, a1, b1, c1, d1, a2, b2, c2, d2, a3, b3, c3, d3,
    ]
}

/// AddRoundKey (FIPS 197 section 5.1.4).
#[tactic(auto, unfolding(crate::specs::State::add_round_key, crate::specs::State::state_of))]
pub(crate) fn add_round_key(state: [u8; 16], key: &[u8]) -> [u8; 16]
    requires { length key.now ≡ 16 }
    ensures { result ≡ add_round_key state key.now }
{
    [
        state[0] ^ key[0],
        state[1] ^ key[1],
        state[2] ^ key[2],
        state[3] ^ key[3],
        state[4] ^ key[4],
        state[5] ^ key[5],
        state[6] ^ key[6],
        state[7] ^ key[7],
        state[8] ^ key[8],
        state[9] ^ key[9],
        state[10] ^ key[10],
        state[11] ^ key[11],
        state[12] ^ key[12],
        state[13] ^ key[13],
        state[14] ^ key[14],
        state[15] ^ key[15],
    ]
}

/// InvShiftRows (FIPS 197 section 5.3.1).
#[tactic(auto, unfolding(crate::specs::State::inv_shift_rows, crate::specs::State::state_of))]
pub(crate) fn inv_shift_rows(state: [u8; 16]) -> [u8; 16]
    ensures { result ≡ inv_shift_rows state }
{
    [
        state[0], state[13], state[10], state[7], state[4], state[1], state[14], state[11],
        state[8], state[5], state[2], state[15], state[12], state[9], state[6], state[3],
    ]
}

/// InvSubBytes (FIPS 197 section 5.3.2).
#[tactic(auto, unfolding(crate::specs::State::inv_sub_bytes, crate::specs::State::state_of))]
pub(crate) fn inv_sub_bytes(state: [u8; 16]) -> [u8; 16]
    ensures { result ≡ inv_sub_bytes state }
{
    [
        inv_sub_byte(state[0]),
        inv_sub_byte(state[1]),
        inv_sub_byte(state[2]),
        inv_sub_byte(state[3]),
        inv_sub_byte(state[4]),
        inv_sub_byte(state[5]),
        inv_sub_byte(state[6]),
        inv_sub_byte(state[7]),
        inv_sub_byte(state[8]),
        inv_sub_byte(state[9]),
        inv_sub_byte(state[10]),
        inv_sub_byte(state[11]),
        inv_sub_byte(state[12]),
        inv_sub_byte(state[13]),
        inv_sub_byte(state[14]),
        inv_sub_byte(state[15]),
    ]
}

/// A column's product with the matrix of InvMixColumns (FIPS 197 section 5.3.3).
///
/// It is that of MixColumns, after `4(a + c)` is added to a and c, and `4(b + d)` to b and d.
fn unmix_column(a: u8, b: u8, c: u8, d: u8) -> [u8; 4]
    ensures { result ≡ unmixed a b c d ∷ unmixed b c d a ∷ unmixed c d a b ∷ unmixed d a b c ∷ [] }
{
    let even = x_times(x_times(a ^ c));
    let odd = x_times(x_times(b ^ d));
    mix_column(a ^ even, b ^ odd, c ^ even, d ^ odd)
}

/// InvMixColumns (FIPS 197 section 5.3.3).
#[tactic(auto, unfolding(crate::specs::State::inv_mix_columns, crate::specs::State::state_of))]
pub(crate) fn inv_mix_columns(state: [u8; 16]) -> [u8; 16]
    ensures { result ≡ inv_mix_columns state }
{
    let [a0, b0, c0, d0] = unmix_column(state[0], state[1], state[2], state[3]);
    let [a1, b1, c1, d1] = unmix_column(state[4], state[5], state[6], state[7]);
    let [a2, b2, c2, d2] = unmix_column(state[8], state[9], state[10], state[11]);
    let [a3, b3, c3, d3] = unmix_column(state[12], state[13], state[14], state[15]);
    [
        a0, b0, c0, d0, a1, b1, c1, d1, a2, b2, c2, d2, a3, b3, c3, d3,
    ]
}
