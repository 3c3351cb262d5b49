//! The operation that gives way.

ghost use Rattle.std.specs.Prelude.{◌≡◌, IfSome, IsSome, ◌+◌, ◌≤◌, length};
ghost use Rattle.operation_slots.specs.Table.{IsLater, held, idle_value, owners_of};
ghost use Rattle.pruning.specs.Victim as spec;
ghost use Rattle.pruning.specs.Facts.{open_facts};

use crate::choice::first_to_go;
use operation_slots::{OpId, Slots, Steps};
use std::sync::ledger::Ledger;

/// The operation that is pruned for a caller of this uid, where all slots are taken: the idle operation of greatest malus,
/// of several the one with the least stamp. None exactly where no operation is idle, or where the malus is not greater than
/// the open operations of the uid plus 1 and the caller does not force. `now` is the number of this step, which needs to be
/// greater than every stamp held. It looks at the oldest idle operation of each owner, takes at most one step for each owner,
/// and no memory.
pub fn victim<T, L: Ledger>(
    slots: &Slots<T>,
    uid: u32,
    forced: bool,
    now: u64,
    steps: &mut Steps<L>,
) -> Option<OpId>
    requires { IsLater slots.now now }
    ensures victim { result ≡ spec.victim (open_facts slots.now) now uid forced }
    ensures idle { IfSome result (λ op. IsSome (idle_value (held slots.now op))) }
    ensures later { steps.old ≤ steps.new }
    ensures steps { steps.new ≤ steps.old + length (owners_of slots.now) }
{
    let first = first_to_go(slots, now, steps)?;
    if forced || slots.open_of(uid) + 1 < first.malus {
        Some(first.number)
    } else {
        None
    }
}
