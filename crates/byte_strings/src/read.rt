//! Reading fields from the front of bytes, each with what stands behind it. Numbers are big-endian. No reader takes memory.

ghost use Rattle.std.specs.Prelude.{◌≤◌, length, IfOk};
ghost use Rattle.std.specs.Option.{option_copied};
ghost use Rattle.byte_strings.specs.Readers as spec;
ghost use Rattle.byte_strings.specs.Readers.{Says};

use byteorder::{BigEndian, ByteOrder};

/// No such field stands at the front: the bytes end within it, or the byte that tells whether it is there, or which truth
/// value it is, is neither 00 nor 01.
#[derive(Clone, Copy, Debug, PartialEq, Eq)]
pub struct Short;

/// A byte.
#[inline]
pub fn u8_at(bytes: &[u8]) -> Result<(u8, &[u8]), Short>
    ensures exact { Says (λ x. (x.0, x.1.now)) result (spec.byte_at bytes.now) }
    ensures shorter { IfOk result (λ x. length x.1.now ≤ length bytes.now) }
{
    match bytes {
        [] => Err(Short),
        [byte, rest @ ..] => Ok((*byte, rest)),
    }
}

/// A number of two bytes.
#[inline]
pub fn u16_at(bytes: &[u8]) -> Result<(u16, &[u8]), Short>
    ensures exact { Says (λ x. (x.0, x.1.now)) result (spec.number_at 2 bytes.now) }
    ensures shorter { IfOk result (λ x. length x.1.now ≤ length bytes.now) }
{
    if bytes.len() < 2 {
        return Err(Short);
    }
    Ok((BigEndian::read_u16(bytes), &bytes[2..]))
}

/// A number of four bytes.
#[inline]
pub fn u32_at(bytes: &[u8]) -> Result<(u32, &[u8]), Short>
    ensures exact { Says (λ x. (x.0, x.1.now)) result (spec.number_at 4 bytes.now) }
    ensures shorter { IfOk result (λ x. length x.1.now ≤ length bytes.now) }
{
    if bytes.len() < 4 {
        return Err(Short);
    }
    Ok((BigEndian::read_u32(bytes), &bytes[4..]))
}

/// A number of eight bytes.
#[inline]
pub fn u64_at(bytes: &[u8]) -> Result<(u64, &[u8]), Short>
    ensures exact { Says (λ x. (x.0, x.1.now)) result (spec.number_at 8 bytes.now) }
    ensures shorter { IfOk result (λ x. length x.1.now ≤ length bytes.now) }
{
    if bytes.len() < 8 {
        return Err(Short);
    }
    Ok((BigEndian::read_u64(bytes), &bytes[8..]))
}

/// So many bytes.
#[inline]
pub fn bytes_at(size: usize, bytes: &[u8]) -> Result<(&[u8], &[u8]), Short>
    ensures exact { Says (λ x. (x.0.now, x.1.now)) result (spec.bytes_at size bytes.now) }
    ensures shorter { IfOk result (λ x. length x.1.now ≤ length bytes.now) }
{
    if bytes.len() < size {
        return Err(Short);
    }
    let (front, rest) = bytes.split_at(size);
    Ok((front, rest))
}

/// Bytes behind their length of one byte.
#[inline]
#[tactic(auto, unfolding(crate::specs::Readers::counted_at))]
pub fn counted_u8_at(bytes: &[u8]) -> Result<(&[u8], &[u8]), Short>
    ensures exact { Says (λ x. (x.0.now, x.1.now)) result (spec.counted_at 1 bytes.now) }
    ensures shorter { IfOk result (λ x. length x.1.now ≤ length bytes.now) }
{
    if bytes.len() < 1 {
        return Err(Short);
    }
    bytes_at(bytes[0] as usize, &bytes[1..])
}

/// Bytes behind their length of two bytes.
#[inline]
#[tactic(auto, unfolding(crate::specs::Readers::counted_at))]
pub fn counted_u16_at(bytes: &[u8]) -> Result<(&[u8], &[u8]), Short>
    ensures exact { Says (λ x. (x.0.now, x.1.now)) result (spec.counted_at 2 bytes.now) }
    ensures shorter { IfOk result (λ x. length x.1.now ≤ length bytes.now) }
{
    let (size, rest) = u16_at(bytes)?;
    bytes_at(size as usize, rest)
}

/// Bytes behind their length of four bytes.
#[inline]
#[tactic(auto, unfolding(crate::specs::Readers::counted_at))]
pub fn counted_u32_at(bytes: &[u8]) -> Result<(&[u8], &[u8]), Short>
    ensures exact { Says (λ x. (x.0.now, x.1.now)) result (spec.counted_at 4 bytes.now) }
    ensures shorter { IfOk result (λ x. length x.1.now ≤ length bytes.now) }
{
    let (size, rest) = u32_at(bytes)?;
    bytes_at(size as usize, rest)
}

/// Bytes that may be absent: a byte 00, or a byte 01 and the bytes behind their length of two bytes.
#[inline]
#[tactic(auto, unfolding(crate::specs::Readers::optional_at))]
pub fn optional_u16_at(bytes: &[u8]) -> Result<(Option<&[u8]>, &[u8]), Short>
    ensures exact { Says (λ x. (option_copied x.0, x.1.now)) result (spec.optional_at 2 bytes.now) }
    ensures shorter { IfOk result (λ x. length x.1.now ≤ length bytes.now) }
{
    let (choice, rest) = u8_at(bytes)?;
    match choice {
        0 => Ok((None, rest)),
        1 => {
            let (given, rest) = counted_u16_at(rest)?;
            Ok((Some(given), rest))
        }
        _ => Err(Short),
    }
}

/// Bytes that may be absent: a byte 00, or a byte 01 and the bytes behind their length of four bytes.
#[inline]
#[tactic(auto, unfolding(crate::specs::Readers::optional_at))]
pub fn optional_u32_at(bytes: &[u8]) -> Result<(Option<&[u8]>, &[u8]), Short>
    ensures exact { Says (λ x. (option_copied x.0, x.1.now)) result (spec.optional_at 4 bytes.now) }
    ensures shorter { IfOk result (λ x. length x.1.now ≤ length bytes.now) }
{
    let (choice, rest) = u8_at(bytes)?;
    match choice {
        0 => Ok((None, rest)),
        1 => {
            let (given, rest) = counted_u32_at(rest)?;
            Ok((Some(given), rest))
        }
        _ => Err(Short),
    }
}

/// A truth value: a byte 00 or 01.
#[inline]
#[tactic(auto, unfolding(crate::specs::Readers::flag_at))]
pub fn flag_at(bytes: &[u8]) -> Result<(bool, &[u8]), Short>
    ensures exact { Says (λ x. (x.0, x.1.now)) result (spec.flag_at bytes.now) }
    ensures shorter { IfOk result (λ x. length x.1.now ≤ length bytes.now) }
{
    let (flag, rest) = u8_at(bytes)?;
    match flag {
        0 => Ok((false, rest)),
        1 => Ok((true, rest)),
        _ => Err(Short),
    }
}
