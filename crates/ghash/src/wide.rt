//! Products of sixteen elements at a time with one key, by shuffles of bytes. Which table entry is read depends on no
//! secret: each shuffle reads a whole row.

ghost use Rattle.std.specs.Prelude.{◌≡◌, ℕ, ◌+◌, ◌*◌, ◌/◌, ◌%◌, ◌^◌, ◌<◌, ◌≤◌, List, [], length, slice_index_or};
ghost use Rattle.std.specs.Int.RustNames.{bit_xor};
ghost use Rattle.ghash.specs.Field.{element, product, shifted};
ghost use Rattle.ghash.specs.Lanes.{byte_in, lane_of, IsRow, IsGrid, IsTable, here, next, moved};

use std::simd::prelude::*;

#[inline(always)]
fn look_up(row: u8x16, places: u8x16) -> u8x16
    requires row { IsRow row }
    requires places { IsRow places }
    ensures row { IsRow result }
    ensures lanes { (l : ℕ) → l < 16 → slice_index_or result l 0 ≡ slice_index_or row (slice_index_or places l 0 % 16) 0 }
{
    row.swizzle_dyn(places & u8x16::splat(15))
}

#[inline(always)]
pub(crate) fn sums(a: u8x16, b: u8x16) -> u8x16
    requires a { IsRow a }
    requires b { IsRow b }
    ensures row { IsRow result }
    ensures lanes { (l : ℕ) → l < 16 → slice_index_or result l 0 ≡ bit_xor (slice_index_or a l 0) (slice_index_or b l 0) }
{
    a ^ b
}

#[inline(always)]
fn right(v: u8x16, by: u8) -> u8x16
    requires row { IsRow v }
    requires within { by < 8 }
    ensures row { IsRow result }
    ensures lanes { (l : ℕ) → l < 16 → slice_index_or result l 0 ≡ slice_index_or v l 0 / 2 ^ by }
{
    v >> u8x16::splat(by)
}

#[inline(always)]
fn left(v: u8x16, by: u8) -> u8x16
    requires row { IsRow v }
    requires within { by < 8 }
    ensures row { IsRow result }
    ensures lanes { (l : ℕ) → l < 16 → slice_index_or result l 0 ≡ slice_index_or v l 0 * 2 ^ by % 2 ^ 8 }
{
    v << u8x16::splat(by)
}

#[inline(always)]
fn here(v: u8x16) -> u8x16
    requires { IsRow v }
    ensures row { IsRow result }
    ensures lanes { (l : ℕ) → l < 16 → slice_index_or result l 0 ≡ here (slice_index_or v l 0) }
{
    sums(sums(sums(v, right(v, 1)), right(v, 2)), right(v, 7))
}

#[inline(always)]
fn next(v: u8x16) -> u8x16
    requires { IsRow v }
    ensures row { IsRow result }
    ensures lanes { (l : ℕ) → l < 16 → slice_index_or result l 0 ≡ next (slice_index_or v l 0) }
{
    sums(sums(left(v, 7), left(v, 6)), left(v, 1))
}

/// Row p of x^8 times each element.
#[inline(always)]
fn moved(rows: &[u8x16; 16], p: usize) -> u8x16
    requires grid { IsGrid rows.now }
    requires within { p < 16 }
    ensures row { IsRow result }
    ensures lanes { (l : ℕ) → l < 16 → slice_index_or result l 0 ≡ moved (λ k. byte_in rows.now k l) p }
{
    if p == 0 {
        here(rows[15])
    } else if p == 1 {
        sums(rows[0], next(rows[15]))
    } else {
        rows[p - 1]
    }
}

/// x^8 times each element of acc, and one more byte of each times the key.
#[inline(always)]
fn one_more(high: &[u8x16; 16], low: &[u8x16; 16], acc: &[u8x16; 16], bytes: u8x16) -> [u8x16; 16]
    requires high { IsGrid high.now }
    requires low { IsGrid low.now }
    requires acc { IsGrid acc.now }
    requires bytes { IsRow bytes }
    ensures grid { IsGrid result }
    ensures lanes { (y l : ℕ) → IsTable high.now 124 y → IsTable low.now 120 y → l < 16 → lane_of result l ≡ bit_xor (shifted (lane_of acc.now l) 8) (product (slice_index_or bytes l 0 * 2 ^ 120) y) }
{
    let halves = right(bytes, 4);
    let mut out = [u8x16::splat(0); 16];
    'rows: for p in 0..16usize {
        out[p] = sums(
            sums(moved(acc, p), look_up(high[p], halves)),
            look_up(low[p], bytes),
        );
    }
    out
}

/// Each of sixteen elements times the key of the tables.
pub(crate) fn products(high: &[u8x16; 16], low: &[u8x16; 16], x: &[u8x16; 16]) -> [u8x16; 16]
    requires high { IsGrid high.now }
    requires low { IsGrid low.now }
    requires x { IsGrid x.now }
    ensures grid { IsGrid result }
    ensures lanes { (y l : ℕ) → y < 2 ^ 128 → IsTable high.now 124 y → IsTable low.now 120 y → l < 16 → lane_of result l ≡ product (lane_of x.now l) y }
{
    let mut acc = [u8x16::splat(0); 16];
    'bytes: for p in 0..16usize {
        let more = one_more(high, low, &acc, x[15 - p]);
        acc = more;
    }
    acc
}

/// The flat list of 256 bytes with its even places in front.
#[inline(always)]
fn woven(x: [u8x16; 16]) -> [u8x16; 16]
    requires { IsGrid x }
    ensures grid { IsGrid result }
    ensures places { (p l : ℕ) → p < 16 → l < 16 → byte_in result p l ≡ byte_in x ((l % 2) * 8 + p / 2) ((p % 2) * 8 + l / 2) }
{
    let mut y = [u8x16::splat(0); 16];
    'pairs: for i in 0..8usize {
        let (a, b) = x[i].interleave(x[i + 8]);
        y[2 * i] = a;
        y[2 * i + 1] = b;
    }
    y
}

/// Row p has byte p of each.
pub(crate) fn turned(x: [u8x16; 16]) -> [u8x16; 16]
    requires { IsGrid x }
    ensures grid { IsGrid result }
    ensures places { (p l : ℕ) → p < 16 → l < 16 → byte_in result p l ≡ byte_in x l p }
{
    let once = woven(x);
    let twice = woven(once);
    let thrice = woven(twice);
    woven(thrice)
}

#[inline(always)]
pub(crate) fn row_of(block: [u8; 16]) -> u8x16
    ensures row { IsRow result }
    ensures same { result ≡ block }
{
    u8x16::from_array(block)
}

/// Sixteen blocks as they stand, a row each.
pub(crate) fn loaded(blocks: &[[u8; 16]], at: usize) -> [u8x16; 16]
    requires { at + 16 ≤ length blocks.now }
    ensures grid { IsGrid result }
    ensures places { (p l : ℕ) → p < 16 → l < 16 → byte_in result p l ≡ byte_in blocks.now (at + p) l }
{
    let mut x = [u8x16::splat(0); 16];
    'blocks: for i in 0..16usize {
        x[i] = row_of(blocks[at + i]);
    }
    x
}
