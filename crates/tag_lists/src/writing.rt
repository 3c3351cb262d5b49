//! Writing parameters as bytes.

ghost use Rattle.std.specs.Prelude.{◌≡◌, ◌≤◌, ◌++◌, length, IfOk, OnOk};
ghost use Rattle.std.specs.List.{AllByRecursion};
ghost use Rattle.tag_lists.specs.Order.{Fits, FitsShape};
ghost use Rattle.tag_lists.specs.Spelling as spec;

use crate::shape::{Shape, shape_of};
use byte_strings::{put_counted_u16, put_u8, put_u16, put_u32, put_u64};
use std::alloc::{AllocError, Global};
use tags::{Bytes, NoMemory, Param, ParamValue};

/// Adds a value.
fn put_value(out: &mut Vec<u8>, shape: Shape, value: &ParamValue) -> Result<(), AllocError>
    requires { FitsShape shape value.now }
    ensures { OnOk result (out.new.items ≡ out.old.items ++ spec.spelled_value shape value.now) }
{
    match (shape, value) {
        (Shape::Short, ParamValue::Number(number)) => put_u32(out, *number as u32),
        (Shape::Long, ParamValue::Number(number)) => put_u64(out, *number),
        (Shape::Truth, ParamValue::Flag) => put_u8(out, 1),
        (Shape::Sized, ParamValue::Raw(bytes)) => put_counted_u16(out, bytes.as_slice()),
        _ => Ok(()),
    }
}

/// Adds a parameter.
fn put_param(out: &mut Vec<u8>, param: &Param) -> Result<(), AllocError>
    requires { Fits param.now }
    ensures { OnOk result (out.new.items ≡ out.old.items ++ spec.spelled param.now) }
{
    put_u32(out, param.tag.number())?;
    put_value(out, shape_of(param.tag.kind()), &param.value)
}

/// How many bytes a value takes.
fn value_size(shape: Shape, value: &ParamValue) -> u64
    requires { FitsShape shape value.now }
    ensures size { result ≡ length (spec.spelled_value shape value.now) }
    ensures few { result ≤ 65537 }
{
    match (shape, value) {
        (Shape::Short, ParamValue::Number(_)) => 4,
        (Shape::Long, ParamValue::Number(_)) => 8,
        (Shape::Truth, ParamValue::Flag) => 1,
        (Shape::Sized, ParamValue::Raw(bytes)) => 2 + bytes.len() as u64,
        _ => 0,
    }
}

/// How many bytes a parameter takes.
pub(crate) fn param_size(param: &Param) -> u64
    requires { Fits param.now }
    ensures size { result ≡ length (spec.spelled param.now) }
    ensures few { result ≤ 65541 }
{
    4 + value_size(shape_of(param.tag.kind()), &param.value)
}

/// The spelling of a list.
pub(crate) fn spelling(alloc: Global, params: &[Param]) -> Result<Vec<u8>, AllocError>
    requires few { length params.now ≤ 65535 }
    requires fit { AllByRecursion Fits params.now }
    ensures { IfOk result (λ bytes. bytes.items ≡ spec.spelling params.now) }
{
    let mut out = Vec::new(alloc);
    put_u16(&mut out, params.len() as u16)?;
    'params: for param in params {
        put_param(&mut out, param)?;
    }
    Ok(out)
}

/// The bytes that spell these parameters in the order in which they are given, which need not be canonical: two bytes of
/// count, and each as `AuthList::read` has it.
pub fn spelled(alloc: Global, params: &[Param]) -> Result<Bytes, NoMemory>
    requires few { length params.now ≤ 65535 }
    requires fit { AllByRecursion Fits params.now }
    ensures { IfOk result (λ bytes. bytes ≡ spec.spelling params.now) }
{
    Ok(Bytes::of(spelling(alloc, params)?))
}
