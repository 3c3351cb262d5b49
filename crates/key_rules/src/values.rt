//! What a list says of every parameter of a tag.

ghost use Rattle.std.specs.Prelude.{◌≡◌};
ghost use Rattle.std.specs.List.{list_all};
ghost use Rattle.tags.specs.Param.{as_number};
ghost use Rattle.tags.specs.Values.{is_whole_bytes as whole_bytes, passes};
ghost use Rattle.tag_lists.specs.Lookups.{each};
ghost use Rattle.key_rules.specs.Rules.{is_short as short, each_short as all_short};

use tag_lists::AuthList;
use tags::values::is_whole_bytes;
use tags::{Param, ParamValue, Tag};

/// Whether there is a number, and it is so many bits in whole bytes.
fn has_whole_bytes(least: u64, most: u64, number: Option<u64>) -> bool
    ensures { result ≡ passes (whole_bytes least most) number }
{
    match number {
        Some(bits) => is_whole_bytes(least, most, bits),
        None => false,
    }
}

/// Whether each parameter is so many bits in whole bytes.
fn all_whole_bytes(params: &[Param], least: u64, most: u64) -> bool
    ensures { result ≡ list_all (λ p. passes (whole_bytes least most) (as_number p.value)) params.now }
{
    params.iter().all(|param| has_whole_bytes(least, most, param.value.as_number()))
}

/// Whether each parameter of the tag is so many bits in whole bytes, from the least to the most bits.
pub(crate) fn each_whole_bytes(list: &AuthList, tag: Tag, least: u64, most: u64) -> bool
    ensures { result ≡ each tag (whole_bytes least most) list.now }
{
    all_whole_bytes(list.all(tag), least, most)
}

/// Whether a value has at most 1,024 bytes.
fn is_short(value: &ParamValue) -> bool
    ensures { result ≡ short value.now }
{
    match value {
        ParamValue::Number(_) => false,
        ParamValue::Flag => false,
        ParamValue::Raw(bytes) => bytes.len() <= 1024,
    }
}

/// Whether each parameter has at most 1,024 bytes.
fn are_short(params: &[Param]) -> bool
    ensures { result ≡ list_all (λ p. short p.value) params.now }
{
    params.iter().all(|param| is_short(&param.value))
}

/// Whether each parameter of the tag has at most 1,024 bytes.
pub(crate) fn each_short(list: &AuthList, tag: Tag) -> bool
    ensures { result ≡ all_short tag list.now }
{
    are_short(list.all(tag))
}
