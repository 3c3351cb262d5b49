//! Whether a list has each thread's entries in their order, and nothing else.
ghost use Rattle.std.specs.Prelude.{◌≡◌, false, true, IfOk};
ghost use Rattle.shared_list.specs.Lists.{IsInOrder};

use crate::list::ListEntry;
use std::alloc::{AllocError, Global};

/// Walks the list with the next item of each thread.
pub fn is_in_order(
    alloc: Global,
    entries: &[ListEntry],
    threads: u32,
    items: u64,
) -> Result<bool, AllocError>
    ensures yes { IfOk result (λ b. b ≡ true → IsInOrder threads items entries.now) }
    ensures no { IfOk result (λ b. b ≡ false → IsInOrder threads items entries.now → ⊥) }
{
    let mut next = vec![in alloc; 0u64; threads as usize]?;
    for entry in entries {
        let by = entry.by as usize;
        if by >= next.len() {
            return Ok(false);
        }
        if next[by] != entry.item {
            return Ok(false);
        }
        next[by] += 1;
    }
    for count in next.as_slice() {
        if *count != items {
            return Ok(false);
        }
    }
    Ok(true)
}
