//! Writing fields, each behind what was written.

ghost use Rattle.std.specs.Prelude.{◌≡◌, ◌++◌, ◌<◌, ◌^◌, length, OnOk};
ghost use Rattle.wire_frames.specs.Spelling as spec;

use byte_strings::{put_optional_u32, put_u32, put_u64};
use std::alloc::AllocError;
use tags::{Bytes, Descriptor};

/// Counted bytes, where they are given.
pub(super) fn put_optional(out: &mut Vec<u8>, bytes: &Option<Bytes>) -> Result<(), AllocError>
    requires { length (spec.optional bytes.now) < 2 ^ 32 }
    ensures { OnOk result (out.new.items ≡ out.old.items ++ spec.optional bytes.now) }
{
    match bytes {
        None => put_optional_u32(out, None),
        Some(given) => put_optional_u32(out, Some(given.as_slice())),
    }
}

/// A descriptor.
pub(super) fn put_key(out: &mut Vec<u8>, key: &Descriptor) -> Result<(), AllocError>
    requires { length (spec.key_of key.now) < 2 ^ 32 }
    ensures { OnOk result (out.new.items ≡ out.old.items ++ spec.key_of key.now) }
{
    put_u32(out, key.domain)?;
    put_u64(out, key.nspace)?;
    put_optional(out, &key.alias)?;
    put_optional(out, &key.blob)
}
