//! The field of 2^128 elements (SP 800-38D section 6.3), bit by bit over a u128.

ghost use Rattle.std.specs.Prelude.{◌≡◌};
ghost use Rattle.ghash.specs.Field.{block_of, element, product, times_x};

/// The bits 11100001 and then 120 zeros, for x^128 + x^7 + x^2 + x + 1.
const REDUCTION: u128 = 0xE100_0000_0000_0000_0000_0000_0000_0000;

/// The element of a block (SP 800-38D section 6.3): its first bit is the coefficient of x^0, and the highest of the number.
#[tactic(auto, unfolding(crate::specs::Field::element))]
pub fn element(block: [u8; 16]) -> u128
    ensures { result ≡ element block }
{
    u128::from_be_bytes(block)
}

#[tactic(auto, unfolding(crate::specs::Field::block_of))]
pub(crate) fn block_of(x: u128) -> [u8; 16]
    ensures { result ≡ block_of x }
{
    x.to_be_bytes()
}

#[tactic(auto, unfolding(crate::specs::Field::times_x))]
pub(crate) fn times_x(v: u128) -> u128
    ensures { result ≡ times_x v }
{
    if v % 2 == 0 {
        v / 2
    } else {
        (v / 2) ^ REDUCTION
    }
}

/// The product of two elements, bit by bit (SP 800-38D section 6.3, algorithm 1): the plain program beside which the faster
/// ones are tested. Its time depends on the first.
#[tactic(auto, using(crate::proofs::Steps::sum_none, crate::proofs::Steps::shifted_none, crate::proofs::Steps::sum_more, crate::proofs::Steps::shifted_more))]
pub fn product(x: u128, y: u128) -> u128
    ensures { result ≡ product x y }
{
    let mut sum = 0;
    let mut shifted = y;
    'bits: for i in 0..128u32 {
        if (x >> (127 - i)) % 2 == 1 {
            sum ^= shifted;
        }
        shifted = times_x(shifted);
    }
    sum
}
