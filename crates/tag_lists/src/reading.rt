//! Reading a list from its bytes, in any order of its parameters.

ghost use Rattle.std.specs.Prelude.{◌≡◌, ℕ, ◌%◌, ◌^◌, ◌≤◌, List, [], is_some, length, IfOk};
ghost use Rattle.std.specs.BTreeMap.{values};
ghost use Rattle.tags.specs.Tag.{tag_with_low};
ghost use Rattle.tag_lists.specs.Reading as spec;
ghost use Rattle.tag_lists.specs.Reading.{Gives};

use crate::fault::ListFault;
use crate::shape::{Shape, is_tag, rank, shape_of};
use byte_strings::{counted_u16_at, u8_at, u16_at, u32_at, u64_at};
use std::alloc::Global;
use std::collections::BTreeMap;
use tags::{Bytes, Param, ParamValue, Tag};

/// Whether a tag of any type has the number's 28 low bits.
fn is_low_known(number: u32) -> bool
    ensures { result ≡ is_some (tag_with_low (number % 2 ^ 28)) }
{
    Tag::of_low(number % (1 << 28)).is_some()
}

/// Whether a parameter of the tag was read.
fn was_read(tag: Tag, before: &BTreeMap<u128, Param>) -> bool
    ensures { result ≡ spec.was_read tag (values before.now) }
{
    before.values().any(|param| is_tag(param.tag, tag))
}

/// Whether a flag is not the byte 01.
fn is_wrong_flag(shape: Shape, bytes: &[u8]) -> bool
    ensures { result ≡ spec.is_wrong_flag shape bytes.now }
{
    match (shape, bytes) {
        (Shape::Truth, [byte, ..]) => *byte != 1,
        _ => false,
    }
}

/// A value, and what stands behind it.
fn value_at(
    alloc: Global,
    at: u64,
    shape: Shape,
    bytes: &[u8],
) -> Result<(ParamValue, &[u8]), ListFault>
    ensures gives { Gives (λ x. (x.0, x.1.now)) result (spec.value_at at shape bytes.now) }
    ensures shorter { IfOk result (λ x. length x.1.now ≤ length bytes.now) }
{
    match shape {
        Shape::Short => {
            let Ok((number, rest)) = u32_at(bytes) else {
                return Err(ListFault::Truncated { at });
            };
            Ok((ParamValue::Number(number as u64), rest))
        }
        Shape::Long => {
            let Ok((number, rest)) = u64_at(bytes) else {
                return Err(ListFault::Truncated { at });
            };
            Ok((ParamValue::Number(number), rest))
        }
        Shape::Truth => {
            let Ok((_, rest)) = u8_at(bytes) else {
                return Err(ListFault::Truncated { at });
            };
            Ok((ParamValue::Flag, rest))
        }
        Shape::Sized => {
            let Ok((front, rest)) = counted_u16_at(bytes) else {
                return Err(ListFault::Truncated { at });
            };
            let raw = Vec::from_slice(alloc, front)?;
            Ok((ParamValue::Raw(Bytes::of(raw)), rest))
        }
    }
}

/// The parameter of a known tag, behind others.
#[tactic(auto, unfolding(crate::specs::Reading::known_at))]
fn known_at<'a>(
    alloc: Global,
    at: u64,
    before: &BTreeMap<u128, Param>,
    tag: Tag,
    bytes: &'a [u8],
) -> Result<(Param, &'a [u8]), ListFault>
    ensures gives { Gives (λ x. (x.0, x.1.now)) result (spec.known_at at (values before.now) tag bytes.now) }
    ensures shorter { IfOk result (λ x. length x.1.now ≤ length bytes.now) }
{
    let shape = shape_of(tag.kind());
    if is_wrong_flag(shape, bytes) {
        return Err(ListFault::WrongKind { at });
    }
    if !tag.kind().is_repeatable() && was_read(tag, before) {
        return Err(ListFault::Repeated { at });
    }
    let (value, rest) = value_at(alloc, at, shape, bytes)?;
    Ok((Param { tag, value }, rest))
}

/// The parameter at an offset, behind others, and what stands behind it.
#[tactic(auto, unfolding(crate::specs::Reading::param_at))]
fn param_at<'a>(
    alloc: Global,
    at: u64,
    before: &BTreeMap<u128, Param>,
    bytes: &'a [u8],
) -> Result<(Param, &'a [u8]), ListFault>
    ensures gives { Gives (λ x. (x.0, x.1.now)) result (spec.param_at at (values before.now) bytes.now) }
    ensures shorter { IfOk result (λ x. length x.1.now ≤ length bytes.now) }
{
    let Ok((number, rest)) = u32_at(bytes) else {
        return Err(ListFault::Truncated { at });
    };
    match Tag::of_number(number) {
        Some(tag) => known_at(alloc, at, before, tag, rest),
        None => {
            if is_low_known(number) {
                Err(ListFault::WrongKind { at })
            } else {
                Err(ListFault::UnknownTag { at })
            }
        }
    }
}

/// So many parameters, in canonical order, and what stands behind them; `total` is the length of all bytes.
fn params_at(
    alloc: Global,
    count: u16,
    total: usize,
    bytes: &[u8],
) -> Result<(BTreeMap<u128, Param>, &[u8]), ListFault>
    requires { length bytes.now ≤ total }
    ensures gives { Gives (λ x. (values x.0, x.1.now)) result (spec.params_at count total [] bytes.now) }
    ensures shorter { IfOk result (λ x. length x.1.now ≤ total) }
{
    let mut params = BTreeMap::new(alloc);
    let mut rest = bytes;
    'params: for _ in 0..count {
        let (param, after) = param_at(alloc, (total - rest.len()) as u64, &params, rest)?;
        params.insert(rank(&param), param)?;
        rest = after;
    }
    Ok((params, rest))
}

/// The values of a map, in the order of its keys.
fn values_of(alloc: Global, params: BTreeMap<u128, Param>) -> Result<Vec<Param>, ListFault>
    ensures { Gives (λ x. x.items) result (Ok (values params)) }
{
    Ok(params.into_values().collect(alloc)?)
}

/// The parameters that the bytes spell, in canonical order.
#[tactic(auto, unfolding(crate::specs::Reading::listed))]
pub(crate) fn listed(alloc: Global, bytes: &[u8]) -> Result<Vec<Param>, ListFault>
    ensures { Gives (λ x. x.items) result (spec.listed bytes.now) }
{
    let Ok((count, rest)) = u16_at(bytes) else {
        return Err(ListFault::Truncated { at: 0 });
    };
    let (params, rest) = params_at(alloc, count, bytes.len(), rest)?;
    if !rest.is_empty() {
        return Err(ListFault::Trailing {
            at: (bytes.len() - rest.len()) as u64,
        });
    }
    values_of(alloc, params)
}
