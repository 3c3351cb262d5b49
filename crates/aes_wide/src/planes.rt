//! The steps of a round on planes. The states stand in them row by row: lane 4 r + c has the byte of row r and column c.

ghost use Rattle.std.specs.Prelude.{◌≡◌, ℕ, List, [], ◌∷◌};
ghost use Rattle.aes_core.specs.State.{sub_bytes, shift_rows, mix_columns, add_round_key, inv_sub_bytes, inv_shift_rows, inv_mix_columns};
ghost use Rattle.aes_wide.specs.Planes.{IsWhole, standing, made};
ghost use Rattle.aes_wide.specs.Steps.{turned, doubled, constant, double_gates, double_outs};

use crate::circuit::{boxed, unboxed};
use std::simd::prelude::*;

/// The sums of the bytes of two groups of blocks.
#[inline(always)]
pub(crate) fn added(x: [u8x16; 8], y: [u8x16; 8]) -> [u8x16; 8]
    requires x { IsWhole 8 x }
    requires y { IsWhole 8 y }
    ensures whole { IsWhole 8 result }
    ensures blocks { (b : ℕ) → standing result b ≡ add_round_key (standing x b) (standing y b) }
{
    [
        x[0] ^ y[0],
        x[1] ^ y[1],
        x[2] ^ y[2],
        x[3] ^ y[3],
        x[4] ^ y[4],
        x[5] ^ y[5],
        x[6] ^ y[6],
        x[7] ^ y[7],
    ]
}

/// ShiftRows.
#[inline(always)]
fn rows_shifted(x: [u8x16; 8]) -> [u8x16; 8]
    requires { IsWhole 8 x }
    ensures whole { IsWhole 8 result }
    ensures blocks { (b : ℕ) → standing result b ≡ shift_rows (standing x b) }
{
    [
        x[0].swizzle([0, 1, 2, 3, 5, 6, 7, 4, 10, 11, 8, 9, 15, 12, 13, 14]),
        x[1].swizzle([0, 1, 2, 3, 5, 6, 7, 4, 10, 11, 8, 9, 15, 12, 13, 14]),
        x[2].swizzle([0, 1, 2, 3, 5, 6, 7, 4, 10, 11, 8, 9, 15, 12, 13, 14]),
        x[3].swizzle([0, 1, 2, 3, 5, 6, 7, 4, 10, 11, 8, 9, 15, 12, 13, 14]),
        x[4].swizzle([0, 1, 2, 3, 5, 6, 7, 4, 10, 11, 8, 9, 15, 12, 13, 14]),
        x[5].swizzle([0, 1, 2, 3, 5, 6, 7, 4, 10, 11, 8, 9, 15, 12, 13, 14]),
        x[6].swizzle([0, 1, 2, 3, 5, 6, 7, 4, 10, 11, 8, 9, 15, 12, 13, 14]),
        x[7].swizzle([0, 1, 2, 3, 5, 6, 7, 4, 10, 11, 8, 9, 15, 12, 13, 14]),
    ]
}

/// Each column turned up by a row.
#[inline(always)]
fn turned_once(x: [u8x16; 8]) -> [u8x16; 8]
    requires { IsWhole 8 x }
    ensures whole { IsWhole 8 result }
    ensures blocks { (b : ℕ) → standing result b ≡ turned 1 (standing x b) }
{
    [
        x[0].swizzle([4, 5, 6, 7, 8, 9, 10, 11, 12, 13, 14, 15, 0, 1, 2, 3]),
        x[1].swizzle([4, 5, 6, 7, 8, 9, 10, 11, 12, 13, 14, 15, 0, 1, 2, 3]),
        x[2].swizzle([4, 5, 6, 7, 8, 9, 10, 11, 12, 13, 14, 15, 0, 1, 2, 3]),
        x[3].swizzle([4, 5, 6, 7, 8, 9, 10, 11, 12, 13, 14, 15, 0, 1, 2, 3]),
        x[4].swizzle([4, 5, 6, 7, 8, 9, 10, 11, 12, 13, 14, 15, 0, 1, 2, 3]),
        x[5].swizzle([4, 5, 6, 7, 8, 9, 10, 11, 12, 13, 14, 15, 0, 1, 2, 3]),
        x[6].swizzle([4, 5, 6, 7, 8, 9, 10, 11, 12, 13, 14, 15, 0, 1, 2, 3]),
        x[7].swizzle([4, 5, 6, 7, 8, 9, 10, 11, 12, 13, 14, 15, 0, 1, 2, 3]),
    ]
}

/// Each column turned up by two rows.
#[inline(always)]
fn turned_twice(x: [u8x16; 8]) -> [u8x16; 8]
    requires { IsWhole 8 x }
    ensures whole { IsWhole 8 result }
    ensures blocks { (b : ℕ) → standing result b ≡ turned 2 (standing x b) }
{
    [
        x[0].swizzle([8, 9, 10, 11, 12, 13, 14, 15, 0, 1, 2, 3, 4, 5, 6, 7]),
        x[1].swizzle([8, 9, 10, 11, 12, 13, 14, 15, 0, 1, 2, 3, 4, 5, 6, 7]),
        x[2].swizzle([8, 9, 10, 11, 12, 13, 14, 15, 0, 1, 2, 3, 4, 5, 6, 7]),
        x[3].swizzle([8, 9, 10, 11, 12, 13, 14, 15, 0, 1, 2, 3, 4, 5, 6, 7]),
        x[4].swizzle([8, 9, 10, 11, 12, 13, 14, 15, 0, 1, 2, 3, 4, 5, 6, 7]),
        x[5].swizzle([8, 9, 10, 11, 12, 13, 14, 15, 0, 1, 2, 3, 4, 5, 6, 7]),
        x[6].swizzle([8, 9, 10, 11, 12, 13, 14, 15, 0, 1, 2, 3, 4, 5, 6, 7]),
        x[7].swizzle([8, 9, 10, 11, 12, 13, 14, 15, 0, 1, 2, 3, 4, 5, 6, 7]),
    ]
}

/// Each byte's product with x, plane by plane.
#[inline(always)]
fn doubled_planes(x: [u8x16; 8]) -> [u8x16; 8]
    requires { IsWhole 8 x }
    ensures { result ≡ made double_gates double_outs x }
{
    [
        x[7],
        x[0] ^ x[7],
        x[1],
        x[2] ^ x[7],
        x[3] ^ x[7],
        x[4],
        x[5],
        x[6],
    ]
}

/// Each byte's product with x.
#[inline(always)]
fn doubled(x: [u8x16; 8]) -> [u8x16; 8]
    requires { IsWhole 8 x }
    ensures whole { IsWhole 8 result }
    ensures blocks { (b : ℕ) → standing result b ≡ doubled (standing x b) }
{
    doubled_planes(x)
}

/// MixColumns.
#[inline(always)]
fn mixed(x: [u8x16; 8]) -> [u8x16; 8]
    requires { IsWhole 8 x }
    ensures whole { IsWhole 8 result }
    ensures blocks { (b : ℕ) → standing result b ≡ mix_columns (standing x b) }
{
    let next = turned_once(x);
    let pair = added(x, next);
    let far = turned_twice(pair);
    let rest = added(next, far);
    let double = doubled(pair);
    added(double, rest)
}

/// A round up to its round key, which is held with the constant of the S-box. ShiftRows goes before SubBytes, with which it
/// changes places, so that no shuffle needs a copy.
#[inline(always)]
pub(crate) fn round(x: [u8x16; 8]) -> [u8x16; 8]
    requires { IsWhole 8 x }
    ensures whole { IsWhole 8 result }
    ensures blocks { (b : ℕ) (k : List ℕ) → add_round_key (standing result b) (add_round_key k constant)
        ≡ add_round_key (mix_columns (shift_rows (sub_bytes (standing x b)))) k }
{
    mixed(boxed(rows_shifted(x)))
}

/// The last round, without MixColumns, up to its round key.
#[inline(always)]
pub(crate) fn last_round(x: [u8x16; 8]) -> [u8x16; 8]
    requires { IsWhole 8 x }
    ensures whole { IsWhole 8 result }
    ensures blocks { (b : ℕ) (k : List ℕ) → add_round_key (standing result b) (add_round_key k constant)
        ≡ add_round_key (shift_rows (sub_bytes (standing x b))) k }
{
    let shifted = rows_shifted(x);
    boxed(shifted)
}

/// InvShiftRows.
#[inline(always)]
fn rows_unshifted(x: [u8x16; 8]) -> [u8x16; 8]
    requires { IsWhole 8 x }
    ensures whole { IsWhole 8 result }
    ensures blocks { (b : ℕ) → standing result b ≡ inv_shift_rows (standing x b) }
{
    [
        x[0].swizzle([0, 1, 2, 3, 7, 4, 5, 6, 10, 11, 8, 9, 13, 14, 15, 12]),
        x[1].swizzle([0, 1, 2, 3, 7, 4, 5, 6, 10, 11, 8, 9, 13, 14, 15, 12]),
        x[2].swizzle([0, 1, 2, 3, 7, 4, 5, 6, 10, 11, 8, 9, 13, 14, 15, 12]),
        x[3].swizzle([0, 1, 2, 3, 7, 4, 5, 6, 10, 11, 8, 9, 13, 14, 15, 12]),
        x[4].swizzle([0, 1, 2, 3, 7, 4, 5, 6, 10, 11, 8, 9, 13, 14, 15, 12]),
        x[5].swizzle([0, 1, 2, 3, 7, 4, 5, 6, 10, 11, 8, 9, 13, 14, 15, 12]),
        x[6].swizzle([0, 1, 2, 3, 7, 4, 5, 6, 10, 11, 8, 9, 13, 14, 15, 12]),
        x[7].swizzle([0, 1, 2, 3, 7, 4, 5, 6, 10, 11, 8, 9, 13, 14, 15, 12]),
    ]
}

/// InvMixColumns: MixColumns after four times the sum of each byte and the one two rows on is added.
#[inline(always)]
pub(crate) fn unmixed(x: [u8x16; 8]) -> [u8x16; 8]
    requires { IsWhole 8 x }
    ensures whole { IsWhole 8 result }
    ensures blocks { (b : ℕ) → standing result b ≡ inv_mix_columns (standing x b) }
{
    let far = turned_twice(x);
    let pair = added(x, far);
    let twice = doubled(pair);
    let four = doubled(twice);
    let eased = added(x, four);
    mixed(eased)
}

/// A round of the inverse cipher up to its round key, of states with the constant of the S-box in each byte.
#[inline(always)]
pub(crate) fn unsubbed(x: [u8x16; 8]) -> [u8x16; 8]
    requires { IsWhole 8 x }
    ensures whole { IsWhole 8 result }
    ensures blocks { (b : ℕ) → standing result b ≡ inv_sub_bytes (inv_shift_rows (add_round_key (standing x b) constant)) }
{
    unboxed(rows_unshifted(x))
}
