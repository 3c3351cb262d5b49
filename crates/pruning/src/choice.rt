//! The first idle operation to go: the oldest ones of the owners are compared, since each goes before the other idle
//! operations of its owner.
ghost use Rattle.std.specs.Prelude.{◌≡◌, IfSome, IsSome, ◌+◌, ◌<◌, ◌≤◌, length};
ghost use Rattle.operation_slots.specs.Table.{IsLater, held, idle_value, IsSound, owners_of};
ghost use Rattle.pruning.specs.Victim as spec;
ghost use Rattle.pruning.specs.Choice.{IsFirst, IsOldestOfOwner, earlier as earlier_of};

use crate::digits::count_digits;
use operation_slots::{OpId, Slots, Steps};
use std::sync::ledger::Ledger;

/// An idle operation, with what it is compared by.
#[derive(Clone, Copy, Debug)]
pub struct Candidate {
    pub number: OpId,
    /// the open operations of its uid and the binary digits of its age
    pub malus: usize,
    /// the step that last touched it
    pub touched: u64,
}

/// The first of all idle operations to go; None exactly where none is idle.
pub fn first_to_go<T, L: Ledger>(
    slots: &Slots<T>,
    now: u64,
    steps: &mut Steps<L>,
) -> Option<Candidate>
    requires { IsLater slots.now now }
    ensures first { IsFirst slots.now now result }
    ensures idle { IfSome result (λ c. IsSome (idle_value (held slots.now c.number))) }
    ensures sound { IsSound slots.now }
    ensures later { steps.old ≤ steps.new }
    ensures steps { steps.new ≤ steps.old + length (owners_of slots.now) }
{
    let mut first: Option<Candidate> = None;
    for place in 0..slots.idle_owners() {
        first = Some(earlier(first, oldest_of(slots, place, now, steps)));
    }
    first
}

/// The oldest idle operation of the owner at this place. It takes one step.
fn oldest_of<T, L: Ledger>(
    slots: &Slots<T>,
    place: usize,
    now: u64,
    steps: &mut Steps<L>,
) -> Candidate
    requires later { IsLater slots.now now }
    requires sound { IsSound slots.now }
    requires place { place < length (owners_of slots.now) }
    ensures oldest { IsOldestOfOwner slots.now now place result }
    ensures steps { steps.new ≡ steps.old + 1 }
{
    let Some(uid) = slots.idle_owner(place) else {
        unreachable!()
    };
    let Some((number, touched)) = slots.oldest_idle(uid, steps) else {
        unreachable!()
    };
    Candidate {
        number,
        malus: slots.open_of(uid) + count_digits(now - touched),
        touched,
    }
}

/// Of the first to go so far and another one, that which goes first.
fn earlier(first: Option<Candidate>, other: Candidate) -> Candidate
    ensures { result ≡ earlier_of first other }
{
    match first {
        Some(first) if goes_before(first, other) => first,
        _ => other,
    }
}

/// Whether one gives way no later than another: its malus is greater, or the same and it was touched no later.
fn goes_before(one: Candidate, other: Candidate) -> bool
    ensures { result ≡ spec.goes_before one other }
{
    other.malus < one.malus || one.malus == other.malus && one.touched <= other.touched
}
