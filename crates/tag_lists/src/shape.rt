//! How the value of each type is spelled, and where a parameter stands.

ghost use Rattle.std.specs.Prelude.{◌≡◌, ◌==◌};
ghost use Rattle.tags.specs.Tag.{low_of};
ghost use Rattle.tag_lists.specs.Order as spec;

use tags::{Param, ParamValue, Tag, TagType};

/// How a value is spelled: four bytes, eight bytes, the byte 01, or a length of two bytes and the bytes.
#[derive(Clone, Copy, Debug, PartialEq, Eq)]
pub enum Shape {
    Short,
    Long,
    Truth,
    Sized,
}

/// How a value of the type is spelled.
pub(crate) fn shape_of(kind: TagType) -> Shape
    ensures { result ≡ spec.shape_of kind }
{
    match kind {
        TagType::Enum | TagType::EnumRep | TagType::Uint | TagType::UintRep => Shape::Short,
        TagType::Ulong | TagType::UlongRep | TagType::Date => Shape::Long,
        TagType::Bool => Shape::Truth,
        TagType::Bignum | TagType::Bytes => Shape::Sized,
    }
}

/// The place of a parameter in a list: by the tag's 28 low bits, then by value.
pub(crate) fn rank(param: &Param) -> u128
    ensures { result ≡ spec.rank param.now }
{
    let number = match &param.value {
        ParamValue::Number(number) => *number,
        ParamValue::Flag => 0,
        ParamValue::Raw(_) => 0,
    };
    param.tag.low() as u128 * (1 << 64) + number as u128
}

/// Whether both are one tag.
pub(crate) fn is_tag(tag: Tag, other: Tag) -> bool
    ensures { result ≡ (low_of tag == low_of other) }
{
    tag.low() == other.low()
}
