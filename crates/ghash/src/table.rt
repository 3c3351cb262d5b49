//! The product with a fixed element by a table of sixteen products, four bits at a time.

ghost use Rattle.std.specs.Prelude.{◌≡◌, ℕ, ◌*◌, ◌%◌, ◌^◌, ◌<◌, slice_index_or};
ghost use Rattle.ghash.specs.Field.{product, shifted};
ghost use Rattle.ghash.specs.Tables.{IsProducts};

use crate::field::times_x;

/// The first 16 bits of x^4 times each element of four bits at the end: the others are zeros.
static REMAINDERS: [u16; 16] = [
    0x0000, 0x1C20, 0x3840, 0x2460, 0x7080, 0x6CA0, 0x48C0, 0x54E0, 0xE100, 0xFD20, 0xD940, 0xC560,
    0x9180, 0x8DA0, 0xA9C0, 0xB5E0,
];

/// The products of y with the sixteen elements of four bits in front.
pub(crate) fn products_with(y: u128) -> [u128; 16]
    ensures { IsProducts result y }
{
    let a = y;
    let b = times_x(a);
    let c = times_x(b);
    let d = times_x(c);
    [
        0,
        d,
        c,
        c ^ d,
        b,
        b ^ d,
        b ^ c,
        b ^ c ^ d,
        a,
        a ^ d,
        a ^ c,
        a ^ c ^ d,
        a ^ b,
        a ^ b ^ d,
        a ^ b ^ c,
        a ^ b ^ c ^ d,
    ]
}

#[inline(always)]
pub(crate) fn times_x4(v: u128) -> u128
    ensures { result ≡ shifted v 4 }
{
    (v / 16) ^ ((REMAINDERS[(v % 16) as usize] as u128) << 112)
}

/// The product of x and the element of the table.
pub(crate) fn product_by(table: &[u128; 16], x: u128) -> u128
    ensures { (y : ℕ) → IsProducts table.now y → result ≡ product x y }
{
    let mut sum = 0;
    let mut rest = x;
    'halves: for _i in 0..32u32 {
        sum = times_x4(sum) ^ table[(rest % 16) as usize];
        rest /= 16;
    }
    sum
}
