//! The slot of a new operation: a free one, or that of an operation which gives way.

ghost use Rattle.std.specs.Prelude.{◌≡◌, ◌<◌, ◌||◌, None, IfSome, IsSome, if◌then◌else◌, is_some};
ghost use Rattle.operation_slots.specs.Table.{IsLater, has_room as is_free, held, idle_value};
ghost use Rattle.pruning.specs.Facts.{open_facts};
ghost use Rattle.pruning.specs.Victim.{victim as victim_of};

use cipher_ops::CipherState;
use operation_slots::{OpId, Slots, Steps};
use pruning::victim;
use std::marker::Brand;
use std::sync::ledger::{Blank, Ledger};

/// The operation that gives way at this step, by a count of the steps that the search takes.
fn counted<L: Ledger>(
    slots: &Slots<CipherState>,
    uid: u32,
    forced: bool,
    step: u64,
    blank: Blank,
) -> Option<OpId>
    requires later { IsLater slots.now step }
    requires name { blank.name ≡ L.name }
    requires parts { blank.parts ≡ L.parts }
    requires some { 0 < L.parts }
    ensures victim { result ≡ victim_of (open_facts slots.now) step uid forced }
    ensures idle { IfSome result (λ op. IsSome (idle_value (held slots.now op))) }
{
    let mut steps = Steps::<L>::new(blank);
    victim(slots, uid, forced, step, &mut steps)
}

/// The operation that gives way at this step to a begin of a uid, where no slot is free.
pub fn pruned_for(slots: &Slots<CipherState>, uid: u32, forced: bool, step: u64) -> Option<OpId>
    requires { IsLater slots.now step }
    ensures pruned { result ≡ (if is_free slots.now then None else victim_of (open_facts slots.now) step uid forced) }
    ensures idle { IfSome result (λ op. IsSome (idle_value (held slots.now op))) }
{
    if slots.has_room() {
        return None;
    }
    counted::<Brand>(slots, uid, forced, step, Blank::new(1))
}

/// Whether a slot is free, or an operation gives way.
pub fn has_slot(slots: &Slots<CipherState>, pruned: Option<OpId>) -> bool
    ensures { result ≡ (is_free slots.now || is_some pruned) }
{
    slots.has_room() || pruned.is_some()
}
