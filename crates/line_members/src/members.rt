//! The members of a line, each of its kind.

ghost use Rattle.std.specs.Prelude.{◌≡◌, [], false, option_map};
ghost use Rattle.serde_json.specs.Find.{get, as_bool};
ghost use Rattle.serde_json.specs.View.{view};
ghost use Rattle.line_members.specs.Reads.{Gives};
ghost use Rattle.line_members.specs.Members.{u64_of as spec_u64_of, u32_of as spec_u32_of, bytes_of_hex as spec_bytes_of_hex, hex_of as spec_hex_of, hex_32_of as spec_hex_32_of, two_of as spec_two_of, alias_of as spec_alias_of, needed, defaulted, optional};

use crate::LineFault;
use crate::alias_form::AliasForm;
use hex::FromHexError;
use serde_json::Value;
use std::alloc::Global;
use tags::Bytes;

/// A whole number of at most 64 bits.
pub fn u64_of(value: &Value) -> Result<u64, LineFault>
    ensures { Gives result (spec_u64_of (view value.now)) }
{
    value.as_u64().ok_or(LineFault::Malformed)
}

/// A whole number of at most 32 bits.
pub fn u32_of(value: &Value) -> Result<u32, LineFault>
    ensures { Gives result (spec_u32_of (view value.now)) }
{
    let number = u64_of(value)?;
    u32::try_from(number).map_err(|_| LineFault::Malformed)
}

/// The bytes that a hex text spells.
pub fn bytes_of_hex(alloc: Global, text: &str) -> Result<Bytes, LineFault>
    ensures { Gives result (spec_bytes_of_hex text.now) }
{
    match hex::decode(alloc, text.as_bytes()) {
        Ok(bytes) => Ok(Bytes::of(bytes)),
        Err(FromHexError::OutOfMemory) => Err(LineFault::Memory),
        Err(_) => Err(LineFault::Malformed),
    }
}

/// A text of hex.
pub fn hex_of(alloc: Global, value: &Value) -> Result<Bytes, LineFault>
    ensures { Gives result (spec_hex_of (view value.now)) }
{
    let Some(text) = value.as_str() else {
        return Err(LineFault::Malformed);
    };
    bytes_of_hex(alloc, text)
}

/// A text of hex of 32 bytes.
pub fn hex_32_of(alloc: Global, value: &Value) -> Result<[u8; 32], LineFault>
    ensures { Gives result (spec_hex_32_of (view value.now)) }
{
    let bytes = hex_of(alloc, value)?;
    if bytes.len() != 32 {
        return Err(LineFault::Malformed);
    }
    let mut array = [0; 32];
    array.copy_from_slice(bytes.as_slice());
    Ok(array)
}

/// An alias in a form that the line may have.
pub fn alias_of(alloc: Global, form: AliasForm, value: &Value) -> Result<Bytes, LineFault>
    ensures { Gives result (spec_alias_of form (view value.now)) }
{
    if let Some(text) = value.as_str() {
        return Ok(Bytes::copy_of(alloc, text.as_bytes())?);
    }
    match form {
        AliasForm::Text => Err(LineFault::Malformed),
        AliasForm::TextOrHex => needed_hex(alloc, value, "hex"),
    }
}

/// The two items of an array of exactly two.
pub fn two_of(value: &Value) -> Option<(&Value, &Value)>
    ensures { option_map (λ both. (view both.0.now, view both.1.now)) result ≡ spec_two_of (view value.now) }
{
    if value.get(2usize).is_some() {
        return None;
    }
    let first = value.get(0usize)?;
    let second = value.get(1usize)?;
    Some((first, second))
}

/// A member that has to be there, a number of 64 bits.
pub fn needed_u64(object: &Value, name: &str) -> Result<u64, LineFault>
    ensures { Gives result (needed spec_u64_of name.now (view object.now)) }
{
    let Some(value) = object.get(name) else {
        return Err(LineFault::Malformed);
    };
    u64_of(value)
}

/// A member that has to be there, a number of 32 bits.
pub fn needed_u32(object: &Value, name: &str) -> Result<u32, LineFault>
    ensures { Gives result (needed spec_u32_of name.now (view object.now)) }
{
    let Some(value) = object.get(name) else {
        return Err(LineFault::Malformed);
    };
    u32_of(value)
}

/// A member that has to be there, a text of hex.
pub fn needed_hex(alloc: Global, object: &Value, name: &str) -> Result<Bytes, LineFault>
    ensures { Gives result (needed spec_hex_of name.now (view object.now)) }
{
    let Some(value) = object.get(name) else {
        return Err(LineFault::Malformed);
    };
    hex_of(alloc, value)
}

/// A member that has to be there, a text of hex of 32 bytes.
pub fn needed_hex_32(alloc: Global, object: &Value, name: &str) -> Result<[u8; 32], LineFault>
    ensures { Gives result (needed spec_hex_32_of name.now (view object.now)) }
{
    let Some(value) = object.get(name) else {
        return Err(LineFault::Malformed);
    };
    hex_32_of(alloc, value)
}

/// A number of 64 bits, 0 where the member is absent.
pub fn u64_or_zero(object: &Value, name: &str) -> Result<u64, LineFault>
    ensures { Gives result (defaulted 0 spec_u64_of name.now (view object.now)) }
{
    match object.get(name) {
        None => Ok(0),
        Some(value) => u64_of(value),
    }
}

/// A truth value, false where the member is absent.
pub fn flag_or_false(object: &Value, name: &str) -> Result<bool, LineFault>
    ensures { Gives result (defaulted false as_bool name.now (view object.now)) }
{
    match object.get(name) {
        None => Ok(false),
        Some(value) => value.as_bool().ok_or(LineFault::Malformed),
    }
}

/// A text of hex, no bytes where the member is absent.
pub fn hex_or_empty(alloc: Global, object: &Value, name: &str) -> Result<Bytes, LineFault>
    ensures { Gives result (defaulted [] spec_hex_of name.now (view object.now)) }
{
    match object.get(name) {
        None => Ok(Bytes::empty(alloc)),
        Some(value) => hex_of(alloc, value),
    }
}

/// A text of hex, where the member is there.
pub fn optional_hex(alloc: Global, object: &Value, name: &str) -> Result<Option<Bytes>, LineFault>
    ensures { Gives result (optional spec_hex_of name.now (view object.now)) }
{
    let Some(value) = object.get(name) else {
        return Ok(None);
    };
    Ok(Some(hex_of(alloc, value)?))
}

/// A text of hex of 32 bytes, where the member is there.
pub fn optional_hex_32(
    alloc: Global,
    object: &Value,
    name: &str,
) -> Result<Option<[u8; 32]>, LineFault>
    ensures { Gives result (optional spec_hex_32_of name.now (view object.now)) }
{
    let Some(value) = object.get(name) else {
        return Ok(None);
    };
    Ok(Some(hex_32_of(alloc, value)?))
}

/// An alias, where the member is there.
pub fn optional_alias(
    alloc: Global,
    form: AliasForm,
    object: &Value,
    name: &str,
) -> Result<Option<Bytes>, LineFault>
    ensures { Gives result (optional (spec_alias_of form) name.now (view object.now)) }
{
    let Some(value) = object.get(name) else {
        return Ok(None);
    };
    Ok(Some(alias_of(alloc, form, value)?))
}

/// A number of 64 bits, where the member is there.
pub fn optional_u64(object: &Value, name: &str) -> Result<Option<u64>, LineFault>
    ensures { Gives result (optional spec_u64_of name.now (view object.now)) }
{
    let Some(value) = object.get(name) else {
        return Ok(None);
    };
    Ok(Some(u64_of(value)?))
}

/// A number of 32 bits, where the member is there.
pub fn optional_u32(object: &Value, name: &str) -> Result<Option<u32>, LineFault>
    ensures { Gives result (optional spec_u32_of name.now (view object.now)) }
{
    let Some(value) = object.get(name) else {
        return Ok(None);
    };
    Ok(Some(u32_of(value)?))
}
