//! A member that is a list: pairs by the tags' names, or hex text of an encoded authorization list.

ghost use Rattle.std.specs.Prelude.{◌≡◌, IfOk};
ghost use Rattle.std.specs.List.{AllByRecursion};
ghost use Rattle.serde_json.specs.View.{view, items_view};
ghost use Rattle.tag_lists.specs.declared.shape.Shape.TheVariants as shapes;
ghost use Rattle.tag_lists.specs.Order.{Fits, FitsShape, shape_of};
ghost use Rattle.line_members.specs.Reads.{Gives, GivesView};
ghost use Rattle.script_lines.specs.Params as spec;

use line_members::{LineFault, bytes_of_hex, hex_of, two_of, u32_of, u64_of};
use serde_json::Value;
use std::alloc::Global;
use tag_lists::spelled;
use tags::{Bytes, Param, ParamValue, Tag, TagType};

/// The encoded list of the member `params`; the empty list where it is absent.
pub fn params_of(alloc: Global, object: &Value) -> Result<Bytes, LineFault>
    ensures { Gives result (spec.params_of (view object.now)) }
{
    list_at(alloc, object, "params")
}

/// The encoded list of a member; the empty list where it is absent.
pub fn list_at(alloc: Global, object: &Value, name: &str) -> Result<Bytes, LineFault>
    ensures { Gives result (spec.list_at name.now (view object.now)) }
{
    let Some(value) = object.get(name) else {
        return Ok(spelled(alloc, &[])?);
    };
    if let Some(text) = value.as_str() {
        return bytes_of_hex(alloc, text);
    }
    let Some(pairs) = value.as_array() else {
        return Err(LineFault::Malformed);
    };
    let params = params_in(alloc, pairs.as_slice())?;
    list_of_params(alloc, params.as_slice())
}

/// The list that the parameters spell, in the order given.
fn list_of_params(alloc: Global, params: &[Param]) -> Result<Bytes, LineFault>
    requires { AllByRecursion Fits params.now }
    ensures { Gives result (spec.list_of_params params.now) }
{
    if params.len() < 65_536 {
        Ok(spelled(alloc, params)?)
    } else {
        Err(LineFault::Malformed)
    }
}

/// The parameters of the pairs, in the order given.
fn params_in(alloc: Global, pairs: &[Value]) -> Result<Vec<Param>, LineFault>
    ensures params { GivesView (λ params. params.items) result (spec.params_in (items_view pairs.now)) }
    ensures fit { IfOk result (λ params. AllByRecursion Fits params.items) }
{
    let mut out = Vec::new(alloc);
    'pairs: for pair in pairs {
        let param = param_of(alloc, pair)?;
        out.push(param)?;
    }
    Ok(out)
}

/// The parameter of a pair of a tag's name and a value.
fn param_of(alloc: Global, pair: &Value) -> Result<Param, LineFault>
    ensures param { Gives result (spec.param_of (view pair.now)) }
    ensures fits { IfOk result (λ param. Fits param) }
{
    let Some((name, value)) = two_of(pair) else {
        return Err(LineFault::Malformed);
    };
    let Some(name) = name.as_str() else {
        return Err(LineFault::Malformed);
    };
    let Some(tag) = Tag::of_name(name) else {
        return Err(LineFault::Malformed);
    };
    let value = value_of(alloc, tag.kind(), value)?;
    Ok(Param { tag, value })
}

/// The value of a tag of this type.
fn value_of(alloc: Global, kind: TagType, value: &Value) -> Result<ParamValue, LineFault>
    ensures value { Gives result (spec.value_of kind (view value.now)) }
    ensures fits { IfOk result (λ value. FitsShape (shape_of kind) value) }
{
    match kind {
        TagType::Enum | TagType::EnumRep | TagType::Uint | TagType::UintRep => {
            let number = u32_of(value)?;
            Ok(ParamValue::Number(number as u64))
        }
        TagType::Ulong | TagType::UlongRep | TagType::Date => {
            let number = u64_of(value)?;
            Ok(ParamValue::Number(number))
        }
        TagType::Bool => match value.as_bool() {
            Some(true) => Ok(ParamValue::Flag),
            _ => Err(LineFault::Malformed),
        },
        TagType::Bytes => {
            let bytes = hex_of(alloc, value)?;
            short_bytes(bytes)
        }
        TagType::Bignum => Err(LineFault::Malformed),
    }
}

/// At most 65,535 bytes.
fn short_bytes(bytes: Bytes) -> Result<ParamValue, LineFault>
    ensures value { Gives result (spec.short_bytes bytes) }
    ensures fits { IfOk result (λ value. FitsShape shapes.Sized value) }
{
    if bytes.len() < 65_536 {
        Ok(ParamValue::Raw(bytes))
    } else {
        Err(LineFault::Malformed)
    }
}
