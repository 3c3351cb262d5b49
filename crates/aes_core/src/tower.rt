//! The S-box of sixteen bytes at once (FIPS 197 section 5.1.1) by shuffles of vectors: no address depends on a byte.
//!
//! A byte is taken to a field of pairs of half bytes, a tower, by a linear map. There the inverse takes five look-ups in tables
//! of sixteen, and two more give the affine map and the way back, or the way to the next round. The tables are those of
//! M. Hamburg, "Accelerating AES with Vector Permute Instructions" (CHES 2009).

ghost use Rattle.std.specs.Prelude.{◌≡◌, map, true, bit_xor};
ghost use Rattle.std.specs.Simd.Lanes.{zip2};
ghost use Rattle.aes_core.specs.Field.{sub_byte};
ghost use Rattle.aes_core.specs.Tower.{are_places, look, low, high, to_tower, first, second, once, twice, out};

use std::simd::prelude::*;

/// Taking the low half of a byte to the tower.
const TO_LOW: [u8; 16] = [
    0x00, 0x70, 0x2a, 0x5a, 0x98, 0xe8, 0xb2, 0xc2, 0x08, 0x78, 0x22, 0x52, 0x90, 0xe0, 0xba, 0xca,
];

/// Taking its high half there.
const TO_HIGH: [u8; 16] = [
    0x00, 0x4d, 0x7c, 0x31, 0x7d, 0x30, 0x01, 0x4c, 0x81, 0xcc, 0xfd, 0xb0, 0xfc, 0xb1, 0x80, 0xcd,
];

/// The inverses of half bytes; that of 0 is 128, which stands for none.
const INVERSES: [u8; 16] = [
    0x80, 0x01, 0x08, 0x0d, 0x0f, 0x06, 0x05, 0x0e, 0x02, 0x0c, 0x0b, 0x0a, 0x09, 0x03, 0x07, 0x04,
];

/// The ratios of a constant to half bytes.
const RATIOS: [u8; 16] = [
    0x80, 0x07, 0x0b, 0x0f, 0x06, 0x0a, 0x04, 0x01, 0x09, 0x08, 0x05, 0x02, 0x0c, 0x0e, 0x0d, 0x03,
];

/// The S-box within the tower, without its constant, from the first place.
const ONCE_FIRST: [u8; 16] = [
    0x00, 0x3e, 0x50, 0xcb, 0x8f, 0xe1, 0x9b, 0xb1, 0x44, 0xf5, 0x2a, 0x14, 0x6e, 0x7a, 0xdf, 0xa5,
];

/// The same from the second place.
const ONCE_SECOND: [u8; 16] = [
    0x00, 0x23, 0xe2, 0xfa, 0x15, 0xd4, 0x18, 0x36, 0xef, 0xd9, 0x2e, 0x0d, 0xc1, 0xcc, 0xf7, 0x3b,
];

/// The product of x with the S-box, from the first place.
const TWICE_FIRST: [u8; 16] = [
    0x00, 0x24, 0x71, 0x0b, 0xc6, 0x93, 0x7a, 0xe2, 0xcd, 0x2f, 0x98, 0xbc, 0x55, 0xe9, 0xb7, 0x5e,
];

/// The same from the second place.
const TWICE_SECOND: [u8; 16] = [
    0x00, 0x29, 0xe1, 0x0a, 0x40, 0x88, 0xeb, 0x69, 0x4a, 0x23, 0x82, 0xab, 0xc8, 0x63, 0xa1, 0xc2,
];

/// The S-box out of the tower, without its constant, from the first place.
const OUT_FIRST: [u8; 16] = [
    0x00, 0xc7, 0xbd, 0x6f, 0x17, 0x6d, 0xd2, 0xd0, 0x78, 0xa8, 0x02, 0xc5, 0x7a, 0xbf, 0xaa, 0x15,
];

/// The same from the second place.
const OUT_SECOND: [u8; 16] = [
    0x00, 0x6a, 0xbb, 0x5f, 0xa5, 0x74, 0xe4, 0xcf, 0xfa, 0x35, 0x2b, 0x41, 0xd1, 0x90, 0x1e, 0x8e,
];

/// The entry at each place, and 0 for a place of 128 or more.
#[inline(always)]
fn look(table: u8x16, places: u8x16) -> u8x16
    requires { are_places places ≡ true }
    ensures { result ≡ map (look table) places }
{
    table.swizzle_dyn(places)
}

#[inline(always)]
fn low(x: u8x16) -> u8x16
    ensures { result ≡ map low x }
{
    x & u8x16::splat(15)
}

#[inline(always)]
fn high(x: u8x16) -> u8x16
    ensures { result ≡ map high x }
{
    x >> 4
}

#[inline(always)]
fn sum(a: u8x16, b: u8x16) -> u8x16
    ensures { result ≡ zip2 bit_xor a b }
{
    a ^ b
}

/// Each byte in the tower.
#[inline(always)]
pub fn to_tower(x: u8x16) -> u8x16
    ensures { result ≡ map to_tower x }
{
    let front = look(u8x16::from_array(TO_LOW), low(x));
    let back = look(u8x16::from_array(TO_HIGH), high(x));
    sum(front, back)
}

/// The two places that the inverse of each byte of the tower is read from.
#[inline(always)]
fn places(y: u8x16) -> (u8x16, u8x16)
    ensures first { result.0 ≡ map first y }
    ensures second { result.1 ≡ map second y }
{
    let inverses = u8x16::from_array(INVERSES);
    let k = low(y);
    let i = high(y);
    let j = sum(i, k);
    let ratio = look(u8x16::from_array(RATIOS), k);
    let over_i = sum(look(inverses, i), ratio);
    let over_j = sum(look(inverses, j), ratio);
    (
        sum(look(inverses, over_i), j),
        sum(look(inverses, over_j), i),
    )
}

/// The S-box of each byte of the tower without its constant, and the product of that with x, both in the tower.
#[inline(always)]
pub fn sub_in_tower(y: u8x16) -> (u8x16, u8x16)
    ensures once { result.0 ≡ map once y }
    ensures twice { result.1 ≡ map twice y }
{
    let (a, b) = places(y);
    let once = sum(
        look(u8x16::from_array(ONCE_FIRST), a),
        look(u8x16::from_array(ONCE_SECOND), b),
    );
    let twice = sum(
        look(u8x16::from_array(TWICE_FIRST), a),
        look(u8x16::from_array(TWICE_SECOND), b),
    );
    (once, twice)
}

/// The S-box of each byte of the tower without its constant, as bytes.
#[inline(always)]
pub fn sub_out_of_tower(y: u8x16) -> u8x16
    ensures { result ≡ map out y }
{
    let (a, b) = places(y);
    sum(
        look(u8x16::from_array(OUT_FIRST), a),
        look(u8x16::from_array(OUT_SECOND), b),
    )
}

/// The S-box of each byte.
#[inline(always)]
pub fn sub_bytes(x: u8x16) -> u8x16
    ensures { result ≡ map sub_byte x }
{
    sum(sub_out_of_tower(to_tower(x)), u8x16::splat(0x63))
}
