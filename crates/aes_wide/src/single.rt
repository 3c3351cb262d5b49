//! One block at a time in a vector, for CBC sealing, where each block waits for the one before it.
//!
//! Between the rounds the bytes stay in the tower of `aes_core`. The constant of the S-box is added with the round keys.

ghost use Rattle.std.specs.Prelude.{◌≡◌, ℕ, ◌≤◌, List};
ghost use Rattle.aes_core.specs.Block.{IsBytes};
ghost use Rattle.aes_core.specs.Expansion.{rounds_of};
ghost use Rattle.aes_core.specs.KeyOf.{key_of};
ghost use Rattle.aes_core.specs.State.{sub_bytes, shift_rows, mix_columns, add_round_key};
ghost use Rattle.aes_wide.specs.Steps.{turned, constant};
ghost use Rattle.aes_wide.specs.Single.{towered, added_key, HasRows};

use aes_core::{AesKey, sub_in_tower, sub_out_of_tower, to_tower};
use std::simd::prelude::*;

/// A round key as it is added to one block.
#[derive(Clone, Copy)]
pub(crate) struct RoundKey {
    pub(crate) bytes: u8x16,
}

/// ShiftRows.
#[inline(always)]
fn rows_shifted(x: u8x16) -> u8x16
    ensures { result ≡ shift_rows x }
{
    x.swizzle([0, 5, 10, 15, 4, 9, 14, 3, 8, 13, 2, 7, 12, 1, 6, 11])
}

/// Each column turned up by a row.
#[inline(always)]
fn turned_once(x: u8x16) -> u8x16
    ensures { result ≡ turned 1 x }
{
    x.swizzle([1, 2, 3, 0, 5, 6, 7, 4, 9, 10, 11, 8, 13, 14, 15, 12])
}

/// ShiftRows, and each column turned up by a row.
#[inline(always)]
fn shifted_and_turned_once(x: u8x16) -> u8x16
    ensures { result ≡ turned 1 (shift_rows x) }
{
    x.swizzle([5, 10, 15, 0, 9, 14, 3, 4, 13, 2, 7, 8, 1, 6, 11, 12])
}

/// ShiftRows, and each column turned up by three rows.
#[inline(always)]
fn shifted_and_turned_thrice(x: u8x16) -> u8x16
    ensures { result ≡ turned 3 (shift_rows x) }
{
    x.swizzle([15, 0, 5, 10, 3, 4, 9, 14, 7, 8, 13, 2, 11, 12, 1, 6])
}

/// The sums of the bytes.
#[inline(always)]
pub(crate) fn sum(a: u8x16, b: u8x16) -> u8x16
    ensures { result ≡ add_round_key a b }
{
    a ^ b
}

/// A round on a block in the tower.
#[inline(always)]
pub(crate) fn tower_round(y: u8x16, key: u8x16) -> u8x16
    ensures { (s k : List ℕ) → IsBytes s → IsBytes k → y ≡ towered s → key ≡ towered (add_round_key k constant) →
        result ≡ towered (add_round_key (mix_columns (shift_rows (sub_bytes s))) k) }
{
    let (once, twice) = sub_in_tower(y);
    let half = sum(rows_shifted(twice), shifted_and_turned_once(once));
    let rest = sum(shifted_and_turned_thrice(once), key);
    sum(sum(half, rest), turned_once(half))
}

/// The last round, out of the tower.
#[inline(always)]
pub(crate) fn last_tower_round(y: u8x16, key: u8x16) -> u8x16
    ensures { (s k : List ℕ) → IsBytes s → y ≡ towered s → key ≡ add_round_key k constant →
        result ≡ add_round_key (shift_rows (sub_bytes s)) k }
{
    sum(sub_out_of_tower(rows_shifted(y)), key)
}

/// The round key of a round as it is added: in the tower but for the last, and with the constant but for the first.
fn row_of(plain: &AesKey, round: usize) -> RoundKey
    requires { round ≤ rounds_of (key_of plain.now) }
    ensures { result.bytes ≡ added_key (key_of plain.now) round }
{
    let key = u8x16::from_array(plain.round_key(round));
    if round == 0 {
        let bytes = to_tower(key);
        return RoundKey { bytes };
    }
    let moved = sum(key, u8x16::splat(0x63));
    if round < plain.rounds() {
        let bytes = to_tower(moved);
        RoundKey { bytes }
    } else {
        RoundKey { bytes: moved }
    }
}

/// The round keys of a key.
pub(crate) fn key_rows(plain: &AesKey) -> [RoundKey; 15]
    ensures { HasRows result (key_of plain.now) }
{
    let none = RoundKey {
        bytes: u8x16::splat(0),
    };
    let mut rows = [none; 15];
    let count = plain.rounds() + 1;
    'each: for r in 0..count {
        let row = row_of(plain, r);
        rows[r] = row;
    }
    rows
}
