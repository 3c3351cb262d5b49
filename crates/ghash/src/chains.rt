//! GHASH of many blocks in sixteen chains. Each takes every sixteenth block, and its products are with the subkey to
//! the power 16.

ghost use Rattle.std.specs.Prelude.{◌≡◌, ℕ, ◌+◌, ◌*◌, ◌%◌, ◌^◌, ◌<◌, ◌≤◌, List, [], length, slice_index_or};
ghost use Rattle.std.specs.Int.RustNames.{bit_xor};
ghost use Rattle.ghash.specs.Chains.{folded_from, repeated};
ghost use Rattle.ghash.specs.Field.{element, product};
ghost use Rattle.ghash.specs.Hash.{hash_after};
ghost use Rattle.ghash.specs.Lanes.{byte_in, gathered, lane_of, IsRow, IsGrid, IsTable};
ghost use Rattle.ghash.specs.Tables.{IsProducts};

use crate::field::{block_of, element};
use crate::table::{product_by, products_with, times_x4};
use crate::wide::{loaded, products, row_of, sums, turned};
use std::simd::prelude::*;

fn row_of_value(v: u128) -> u8x16
    ensures row { IsRow result }
    ensures value { gathered (λ p. slice_index_or result p 0) 16 ≡ v }
{
    row_of(block_of(v))
}

fn value_of_row(row: u8x16) -> u128
    requires { IsRow row }
    ensures { result ≡ gathered (λ p. slice_index_or row p 0) 16 }
{
    element(row.to_array())
}

/// Value l in lane l.
fn grid_of(values: &[u128; 16]) -> [u8x16; 16]
    ensures grid { IsGrid result }
    ensures lanes { (l : ℕ) → l < 16 → lane_of result l ≡ slice_index_or values.now l 0 }
{
    let mut rows = [u8x16::splat(0); 16];
    'values: for l in 0..16usize {
        rows[l] = row_of_value(values[l]);
    }
    turned(rows)
}

/// Block at + l in lane l.
fn lanes_of(blocks: &[[u8; 16]], at: usize) -> [u8x16; 16]
    requires { at + 16 ≤ length blocks.now }
    ensures grid { IsGrid result }
    ensures lanes { (l : ℕ) → l < 16 → lane_of result l ≡ element (slice_index_or blocks.now (at + l) []) }
{
    turned(loaded(blocks, at))
}

fn added(a: &[u8x16; 16], b: &[u8x16; 16]) -> [u8x16; 16]
    requires a { IsGrid a.now }
    requires b { IsGrid b.now }
    ensures grid { IsGrid result }
    ensures lanes { (l : ℕ) → l < 16 → lane_of result l ≡ bit_xor (lane_of a.now l) (lane_of b.now l) }
{
    let mut out = [u8x16::splat(0); 16];
    'rows: for p in 0..16usize {
        out[p] = sums(a[p], b[p]);
    }
    out
}

/// The subkey to the power 16.
pub(crate) fn power_16(table: &[u128; 16], subkey: u128) -> u128
    requires { IsProducts table.now subkey }
    ensures { result ≡ repeated subkey 15 subkey }
{
    let mut power = subkey;
    'powers: for _i in 0..15u32 {
        power = product_by(table, power);
    }
    power
}

/// The products with the four bits behind those of the table.
fn lower(table: &[u128; 16]) -> [u128; 16]
    ensures { (y : ℕ) → IsProducts table.now y → (n : ℕ) → n < 16 → slice_index_or result n 0 ≡ product (n * 2 ^ 120) y }
{
    let mut out = [0; 16];
    'entries: for n in 0..16usize {
        out[n] = times_x4(table[n]);
    }
    out
}

/// The hash of the sixteen elements, one after the other.
fn end_of(table: &[u128; 16], subkey: u128, last: &[u8x16; 16]) -> u128
    requires table { IsProducts table.now subkey }
    requires grid { IsGrid last.now }
    ensures { result ≡ folded_from subkey 0 (lane_of last.now) 16 }
{
    let rows = turned(*last);
    let mut total = 0;
    'lanes: for l in 0..16usize {
        total = product_by(table, total ^ value_of_row(rows[l]));
    }
    total
}

/// The hash of whole groups of sixteen blocks, from `sum` on, with the subkey to the power 16.
pub(crate) fn hash_of_groups(
    table: &[u128; 16],
    subkey: u128,
    power: u128,
    sum: u128,
    blocks: &[[u8; 16]],
) -> u128
    requires table { IsProducts table.now subkey }
    requires power { power ≡ repeated subkey 15 subkey }
    requires some { 16 ≤ length blocks.now }
    requires whole { length blocks.now % 16 ≡ 0 }
    ensures { result ≡ hash_after subkey sum blocks.now }
{
    let entries = products_with(power);
    let high = grid_of(&entries);
    let lower_entries = lower(&entries);
    let low = grid_of(&lower_entries);
    let mut lanes = grid_of(&[sum, 0, 0, 0, 0, 0, 0, 0, 0, 0, 0, 0, 0, 0, 0, 0]);
    let mut at = 0;
    'groups: while blocks.len() - at > 16 {
        let group = lanes_of(blocks, at);
        let joined = added(&lanes, &group);
        let next = products(&high, &low, &joined);
        lanes = next;
        at += 16;
    }
    let group = lanes_of(blocks, at);
    let last = added(&lanes, &group);
    end_of(table, subkey, &last)
}
