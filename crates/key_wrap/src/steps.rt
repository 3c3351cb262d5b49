//! The wrapping function W of SP 800-38F section 6.1 and its inverse, in place: a value of eight bytes, and the parts of eight
//! bytes each, joined.

ghost use Rattle.std.specs.Prelude.{◌≡◌, ◌<◌, ◌≤◌, ◌%◌, ◌++◌, length};
ghost use Rattle.key_wrap.specs.Wrapping as spec;
ghost use Rattle.key_wrap.specs.Wrapping.{first_half, numbered, parts_in, second_half, state_of};

use aes_core::BlockCipher;

/// How many rounds there are, each of one step for every part (RFC 3394 section 2.2.1).
const ROUNDS: usize = 6;

/// A value xored with the number of a step, the high byte first.
#[tactic(auto, unfolding(crate::specs::Wrapping::numbered))]
fn with_number(number: u64, value: [u8; 8]) -> [u8; 8]
    ensures { result ≡ numbered number value }
{
    (u64::from_be_bytes(value) ^ number).to_be_bytes()
}

/// The block of a value and a part.
fn block_of(value: [u8; 8], part: &[u8]) -> [u8; 16]
    requires { length part.now ≡ 8 }
    ensures { result ≡ value ++ part.now }
{
    let mut block = [0; 16];
    block[..8].copy_from_slice(&value);
    block[8..].copy_from_slice(part);
    block
}

/// The value of a block: its first half.
fn value_of(block: [u8; 16]) -> [u8; 8]
    ensures { result ≡ first_half block }
{
    let mut value = [0; 8];
    value.copy_from_slice(&block[..8]);
    value
}

/// The step of this number, from 1, on one part: the part becomes the second half of what the cipher makes of value and part.
/// Answers the next value, which is the first half with the number in it.
fn step<C: BlockCipher>(cipher: &C, number: u64, value: [u8; 8], part: &mut [u8]) -> [u8; 8]
    requires part { length part.old ≡ 8 }
    ensures value { result ≡ numbered number (first_half (C.cipher cipher.now (value ++ part.old))) }
    ensures part { part.new ≡ second_half (C.cipher cipher.now (value ++ part.old)) }
{
    let block = cipher.encrypt(block_of(value, part));
    part.copy_from_slice(&block[8..]);
    with_number(number, value_of(block))
}

/// The step of this number undone: the part becomes the second half of what the inverse cipher makes of the value without the
/// number and the part. Answers the value before, which is the first half.
fn unstep<C: BlockCipher>(cipher: &C, number: u64, value: [u8; 8], part: &mut [u8]) -> [u8; 8]
    requires part { length part.old ≡ 8 }
    ensures value { result ≡ first_half (C.inverse cipher.now (numbered number value ++ part.old)) }
    ensures part { part.new ≡ second_half (C.inverse cipher.now (numbered number value ++ part.old)) }
{
    let block = cipher.decrypt(block_of(with_number(number, value), part));
    part.copy_from_slice(&block[8..]);
    value_of(block)
}

/// The number of a step: of the round, from 0, on the part at this index, of so many.
fn number_of(count: usize, round: usize, part: usize) -> u64
    requires count { count ≤ 8 }
    requires round { round < 6 }
    requires part { part < count }
    ensures { result ≡ spec.number_of count round part }
{
    (count * round + part + 1) as u64
}

/// One round, from 0: a step on each part, the first part first. Answers the value.
fn round<C: BlockCipher>(cipher: &C, round: usize, value: [u8; 8], parts: &mut [u8]) -> [u8; 8]
    requires whole { length parts.old % 8 ≡ 0 }
    requires few { length parts.old ≤ 64 }
    requires round { round < 6 }
    ensures state { state_of result parts.new ≡ spec.round (C.cipher cipher.now) (parts_in parts.old) round (parts_in parts.old) (state_of value parts.old) }
{
    let count = parts.len() / 8;
    let mut value = value;
    'parts: for part in 0..count {
        let number = number_of(count, round, part);
        let next = step(cipher, number, value, &mut parts[8 * part..8 * part + 8]);
        value = next;
    }
    value
}

/// One round undone, from 0: the last part first. Answers the value.
fn unround<C: BlockCipher>(cipher: &C, round: usize, value: [u8; 8], parts: &mut [u8]) -> [u8; 8]
    requires whole { length parts.old % 8 ≡ 0 }
    requires few { length parts.old ≤ 64 }
    requires round { round < 6 }
    ensures state { state_of result parts.new ≡ spec.unround (C.inverse cipher.now) (parts_in parts.old) round (parts_in parts.old) (state_of value parts.old) }
{
    let count = parts.len() / 8;
    let mut value = value;
    'parts: for part in (0..count).rev() {
        let number = number_of(count, round, part);
        let next = unstep(cipher, number, value, &mut parts[8 * part..8 * part + 8]);
        value = next;
    }
    value
}

/// W: all rounds on a value and its parts, in place; answers the value.
#[tactic(auto, unfolding(crate::specs::Wrapping::wrapping))]
pub(crate) fn wrapping<C: BlockCipher>(cipher: &C, value: [u8; 8], parts: &mut [u8]) -> [u8; 8]
    requires whole { length parts.old % 8 ≡ 0 }
    requires few { length parts.old ≤ 64 }
    ensures state { state_of result parts.new ≡ spec.wrapping (C.cipher cipher.now) (state_of value parts.old) }
{
    let mut value = value;
    'rounds: for number in 0..ROUNDS {
        let next = round(cipher, number, value, parts);
        value = next;
    }
    value
}

/// The inverse of W: all rounds undone, the last one first, in place; answers the value.
#[tactic(auto, unfolding(crate::specs::Wrapping::unwrapping))]
pub(crate) fn unwrapping<C: BlockCipher>(cipher: &C, value: [u8; 8], parts: &mut [u8]) -> [u8; 8]
    requires whole { length parts.old % 8 ≡ 0 }
    requires few { length parts.old ≤ 64 }
    ensures state { state_of result parts.new ≡ spec.unwrapping (C.inverse cipher.now) (state_of value parts.old) }
{
    let mut value = value;
    'rounds: for number in (0..ROUNDS).rev() {
        let next = unround(cipher, number, value, parts);
        value = next;
    }
    value
}
