//! The parameters of an authorization list.

ghost use Rattle.std.specs.Prelude.{◌≡◌};
ghost use Rattle.std.specs.Option.{option_copied};
ghost use Rattle.tags.specs.Param as spec;

use crate::{Bytes, Tag};

/// The value beside a tag.
#[derive(Debug, Drop)]
pub enum ParamValue {
    /// of ENUM, UINT and their REP types a u32, of ULONG, ULONG_REP and DATE a u64
    Number(u64),
    /// of BOOL, which is only ever true
    Flag,
    /// of BYTES
    Raw(Bytes),
}

/// One parameter of an authorization list.
#[derive(Debug, Drop)]
pub struct Param {
    pub tag: Tag,
    pub value: ParamValue,
}

impl ParamValue {
    /// The number, where the value is one. It takes no memory.
    pub fn as_number(&self) -> Option<u64>
        ensures { result ≡ spec.as_number self.now }
    {
        match self {
            ParamValue::Number(number) => Some(*number),
            ParamValue::Flag => None,
            ParamValue::Raw(_) => None,
        }
    }

    /// The bytes, where the value is bytes. It takes no memory.
    pub fn as_bytes(&self) -> Option<&[u8]>
        ensures { option_copied result ≡ spec.as_bytes self.now }
    {
        match self {
            ParamValue::Number(_) => None,
            ParamValue::Flag => None,
            ParamValue::Raw(bytes) => Some(bytes.as_slice()),
        }
    }
}
