//! What one thread does: it appends items under one pass, a turn for each.
ghost use Rattle.std.specs.Prelude.{◌≡◌, ◌++◌, ◌∷◌, [], IfOk, IfErr};
ghost use Rattle.turn_lock.specs.Rule.{own};
ghost use Rattle.turn_lock.specs.Passes.{front, number_of, IsPassOf};
ghost use Rattle.turn_lock.specs.Fronts.{Extends};
ghost use Rattle.shared_list.specs.Lists.{by, entry, counted};

use crate::list::{ListEntry, ListLock, ListPass};
use std::alloc::AllocError;
use std::sync::Wait;

/// One turn, in which the pass appends an item. Where memory is wanting the pass comes back as it was.
pub fn append<R: Wait>(
    rt: &R,
    lock: &ListLock,
    pass: ListPass,
    item: u64,
) -> Result<ListPass, ListPass>
    requires { IsPassOf lock.now pass }
    ensures ours { IfOk result (λ p. IsPassOf lock.now p × (number_of p ≡ number_of pass)) }
    ensures added { IfOk result (λ p.
        Extends by (number_of pass) (front pass) (front p) (entry (number_of pass) item ∷ [])) }
    ensures back { IfErr result (λ p. IsPassOf lock.now p × (number_of p ≡ number_of pass) × (front p ≡ front pass)) }
{
    let number = pass.number();
    let (turn, mut list) = lock.enter(rt, pass);
    match list.push(ListEntry { by: number, item }) {
        Ok(()) => Ok(lock.leave(turn, list, 1, 0)),
        Err(_) => Err(lock.leave(turn, list, 0, 0)),
    }
}

/// Appends the items from 0 on, in a turn each. The pass is a new one.
pub fn append_all<R: Wait>(
    rt: &R,
    lock: &ListLock,
    pass: ListPass,
    items: u64,
) -> Result<ListPass, AllocError>
    requires ours { IsPassOf lock.now pass }
    requires new { front pass ≡ [] }
    ensures ours { IfOk result (λ p. IsPassOf lock.now p × (number_of p ≡ number_of pass)) }
    ensures all { IfOk result (λ p. own by (number_of pass) (front p) ≡ counted (number_of pass) items) }
{
    let mut pass = pass;
    for item in 0..items {
        let Ok(next) = append(rt, lock, pass, item) else {
            return Err(AllocError);
        };
        pass = next;
    }
    Ok(pass)
}
