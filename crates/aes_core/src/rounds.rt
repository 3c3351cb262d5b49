//! The rounds of the cipher and of the inverse cipher over a key schedule (FIPS 197 sections 5.1 and 5.3).

ghost use Rattle.std.specs.Prelude.{◌≡◌, ℕ, ◌+◌, ◌*◌, ◌≤◌, length};
ghost use Rattle.aes_core.specs.Cipher.{cipher_by, inverse_by};

use crate::schedule::Schedule;
use crate::state::{
    add_round_key, inv_mix_columns, inv_shift_rows, inv_sub_bytes, mix_columns, shift_rows,
    sub_bytes,
};

/// The cipher of a block under a schedule for `nr` rounds.
pub(crate) fn cipher_by(schedule: &Schedule, nr: usize, block: [u8; 16]) -> [u8; 16]
    requires some { 1 ≤ nr }
    requires long { 16 * nr + 16 ≤ length schedule.now }
    ensures { result ≡ cipher_by schedule.now nr block }
{
    let mut state = add_round_key(block, schedule.round_key(0));
    'rounds: for done in 0..nr - 1 {
        let mixed = mix_columns(shift_rows(sub_bytes(state)));
        state = add_round_key(mixed, schedule.round_key(done + 1));
    }
    add_round_key(shift_rows(sub_bytes(state)), schedule.round_key(nr))
}

/// The inverse cipher of a block under a schedule for `nr` rounds.
pub(crate) fn inverse_by(schedule: &Schedule, nr: usize, block: [u8; 16]) -> [u8; 16]
    requires some { 1 ≤ nr }
    requires long { 16 * nr + 16 ≤ length schedule.now }
    ensures { result ≡ inverse_by schedule.now nr block }
{
    let mut state = add_round_key(block, schedule.round_key(nr));
    'rounds: for done in 0..nr - 1 {
        let restored = inv_sub_bytes(inv_shift_rows(state));
        let added = add_round_key(restored, schedule.round_key(nr - 1 - done));
        state = inv_mix_columns(added);
    }
    add_round_key(inv_sub_bytes(inv_shift_rows(state)), schedule.round_key(0))
}
