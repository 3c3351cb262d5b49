//! Eight blocks to planes, and back: in each lane, eight rows of eight bits turned about.

ghost use Rattle.std.specs.Prelude.{◌≡◌, ℕ, map, slice_index};
ghost use Rattle.std.specs.List.{range_with_len};
ghost use Rattle.aes_wide.specs.Planes.{IsWhole, lanes, block, by_rows};
ghost use Rattle.aes_wide.specs.Swaps.{low_1, high_1, low_2, high_2, low_4, high_4};

use std::simd::prelude::*;

/// Swaps the high single bits of the first with the low of the second.
#[inline(always)]
fn swapped_1(a: u8x16, b: u8x16) -> (u8x16, u8x16)
    ensures low { result.0 ≡ lanes (λ j. low_1 (slice_index a j) (slice_index b j)) }
    ensures high { result.1 ≡ lanes (λ j. high_1 (slice_index a j) (slice_index b j)) }
{
    let t = ((a >> 1) ^ b) & u8x16::splat(0x55);
    (a ^ (t << 1), b ^ t)
}

/// Swaps the high pairs of bits of the first with the low of the second.
#[inline(always)]
fn swapped_2(a: u8x16, b: u8x16) -> (u8x16, u8x16)
    ensures low { result.0 ≡ lanes (λ j. low_2 (slice_index a j) (slice_index b j)) }
    ensures high { result.1 ≡ lanes (λ j. high_2 (slice_index a j) (slice_index b j)) }
{
    let t = ((a >> 2) ^ b) & u8x16::splat(0x33);
    (a ^ (t << 2), b ^ t)
}

/// Swaps the high halves of bytes of the first with the low of the second.
#[inline(always)]
fn swapped_4(a: u8x16, b: u8x16) -> (u8x16, u8x16)
    ensures low { result.0 ≡ lanes (λ j. low_4 (slice_index a j) (slice_index b j)) }
    ensures high { result.1 ≡ lanes (λ j. high_4 (slice_index a j) (slice_index b j)) }
{
    let t = ((a >> 4) ^ b) & u8x16::splat(0xf);
    (a ^ (t << 4), b ^ t)
}

/// Blocks to planes, and planes to blocks.
#[inline(always)]
pub(crate) fn transposed(x: [u8x16; 8]) -> [u8x16; 8]
    requires { IsWhole 8 x }
    ensures { result ≡ map (block x) (range_with_len 0 8) }
{
    let [x0, x1, x2, x3, x4, x5, x6, x7] = x;
    let (y0, y1) = swapped_1(x0, x1);
    let (y2, y3) = swapped_1(x2, x3);
    let (y4, y5) = swapped_1(x4, x5);
    let (y6, y7) = swapped_1(x6, x7);
    let (z0, z2) = swapped_2(y0, y2);
    let (z1, z3) = swapped_2(y1, y3);
    let (z4, z6) = swapped_2(y4, y6);
    let (z5, z7) = swapped_2(y5, y7);
    let (w0, w4) = swapped_4(z0, z4);
    let (w1, w5) = swapped_4(z1, z5);
    let (w2, w6) = swapped_4(z2, z6);
    let (w3, w7) = swapped_4(z3, z7);
    [w0, w1, w2, w3, w4, w5, w6, w7]
}

/// Eight blocks with their states turned about, so that they stand row by row, or as blocks again.
#[inline(always)]
pub(crate) fn rows_of(x: [u8x16; 8]) -> [u8x16; 8]
    requires { IsWhole 8 x }
    ensures { result ≡ map by_rows x }
{
    [
        x[0].swizzle([0, 4, 8, 12, 1, 5, 9, 13, 2, 6, 10, 14, 3, 7, 11, 15]),
        x[1].swizzle([0, 4, 8, 12, 1, 5, 9, 13, 2, 6, 10, 14, 3, 7, 11, 15]),
        x[2].swizzle([0, 4, 8, 12, 1, 5, 9, 13, 2, 6, 10, 14, 3, 7, 11, 15]),
        x[3].swizzle([0, 4, 8, 12, 1, 5, 9, 13, 2, 6, 10, 14, 3, 7, 11, 15]),
        x[4].swizzle([0, 4, 8, 12, 1, 5, 9, 13, 2, 6, 10, 14, 3, 7, 11, 15]),
        x[5].swizzle([0, 4, 8, 12, 1, 5, 9, 13, 2, 6, 10, 14, 3, 7, 11, 15]),
        x[6].swizzle([0, 4, 8, 12, 1, 5, 9, 13, 2, 6, 10, 14, 3, 7, 11, 15]),
        x[7].swizzle([0, 4, 8, 12, 1, 5, 9, 13, 2, 6, 10, 14, 3, 7, 11, 15]),
    ]
}
