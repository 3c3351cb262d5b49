//! Bytes behind bytes.

ghost use Rattle.std.specs.Prelude.{◌≡◌, ◌++◌, IfOk};

use std::alloc::Global;
use tags::NoMemory;

/// The bytes of one piece and then those of another.
pub(crate) fn joined(alloc: Global, first: &[u8], second: &[u8]) -> Result<Vec<u8>, NoMemory>
    ensures { IfOk result (λ both. both.items ≡ first.now ++ second.now) }
{
    let mut both = Vec::with_capacity(alloc, first.len() + second.len())?;
    both.extend_from_slice(first)?;
    both.extend_from_slice(second)?;
    Ok(both)
}
