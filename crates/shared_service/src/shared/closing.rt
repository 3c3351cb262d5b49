//! The end of a service.

ghost use Rattle.std.specs.Prelude.{◌≡◌, ◌≤◌, ◌<◌, ◌==◌, ℕ, [], All, List, length};
ghost use Rattle.std.specs.List.{position};
ghost use mathlib.Core.List.{IsPrefix};
ghost use Rattle.rule_model.specs.Legal.{Legal};
ghost use Rattle.rule_model.specs.Setup.{Setup};
ghost use Rattle.turn_lock.specs.Passes.{IsClosingOf, lock_id, made_before, name_of};
ghost use Rattle.turn_lock.specs.Rule.{own};
ghost use Rattle.keystore_core.specs.Engine.{Stands, StoreStands};
ghost use Rattle.service_book.specs.declared.entry.BookEntry.{BookEntry};
ghost use Rattle.service_book.specs.Book.{AreLater, IsCaused, counts_after, history_of, log_of};
ghost use Rattle.shared_service.specs.declared.pass.Pass.{Pass};
ghost use Rattle.shared_service.specs.Closings.{TookFront};
ghost use Rattle.shared_service.specs.Desks.{counts_of};
ghost use Rattle.shared_service.specs.Drawn.{DrewAll};
ghost use Rattle.shared_service.specs.Owning.{by};
ghost use Rattle.shared_service.specs.Passes.{HasAll, IsOurs, IsSetupOf, RestsAt, entropy_of, front_of, number_of, passes_of, start_of};

use super::Shared;
use crate::desk::Desk;
use crate::name::ServiceId;
use crate::pass::Pass;
use keystore_core::Engine;
use ks_outside::{Disk, Entropy};
use service_book::{Book, BookEntry};
use std::sync::Wait;
use turn_lock::{Closing, TurnLock};

/// The place of the pass with this number.
fn place_of<N: Entropy>(passes: &[Pass<N>], number: u64) -> Option<usize>
    ensures { result ≡ position (λ (p : Pass N N.Entropy). number_of p == number) passes.now }
{
    passes.iter().position(|pass| pass.number() == number)
}

/// Takes passes in.
fn take_in<D: Disk, N: Entropy>(
    lock: &TurnLock<Desk<D, N>, BookEntry, ServiceId<N>>,
    closing: Closing<Desk<D, N>, BookEntry, ServiceId<N>>,
    passes: Vec<Pass<N>>,
) -> Closing<Desk<D, N>, BookEntry, ServiceId<N>>
    requires closing { IsClosingOf lock.now closing }
    requires ours { All (RestsAt (lock_id lock.now) (name_of lock.now)) passes.items }
    ensures closing { IsClosingOf lock.now result }
    ensures made { made_before result ≡ made_before closing }
    ensures kept { (number : ℕ) (front : List BookEntry) → TookFront closing number front → TookFront result number front }
    ensures taken { All (λ p. TookFront result (number_of p) (front_of p)) passes.items }
{
    let mut closing = closing;
    let mut passes = passes;
    while let Some(next) = passes.pop() {
        let Pass { seat, .. } = next;
        lock.absorb(&mut closing, lock.wake(seat));
    }
    closing
}

impl<D: Disk, N: Entropy> Shared<D, N> {
    /// Ends the service, with all the passes that it was made with, each once. It gives the engine, the devices and the book,
    /// and takes no memory.
    pub fn close<R: Wait>(self, rt: &R, passes: Vec<Pass<N>>) -> (Engine, D, N, Book)
        requires some { 0 < passes_of self }
        requires ours { All (IsOurs self) passes.items }
        requires all { HasAll (passes_of self) passes.items }
        requires once { length passes.items ≡ passes_of self }
        ensures legal { (setup : Setup) → IsSetupOf self setup → ∥ Legal setup (history_of (log_of result.3)) ∥₁ }
        ensures caused { ∥ IsCaused (start_of self) result.3 ∥₁ }
        ensures fronts { All (λ p. IsPrefix (front_of p) result.3) passes.items }
        ensures own { All (λ p. own by (number_of p) result.3 ≡ own by (number_of p) (front_of p)) passes.items }
        ensures none { (number : ℕ) → passes_of self ≤ number → own by number result.3 ≡ [] }
        ensures counts { AreLater (counts_after (start_of self) (log_of result.3)) (counts_of D.Disk N.Entropy result.1 result.2) }
        ensures drew { ∥ DrewAll N.Entropy (entropy_of self) result.2 result.3 ∥₁ }
        ensures stands { (setup : Setup) → IsSetupOf self setup → ∥ Stands setup result.0 (history_of (log_of result.3)) ∥₁ }
        ensures store { (setup : Setup) → IsSetupOf self setup → ∥ StoreStands D.Disk setup result.0 result.1 (history_of (log_of result.3)) ∥₁ }
    {
        let Shared {
            lock,
            passes: count,
            ..
        } = self;
        let mut passes = passes;
        let Some(place) = place_of(&passes, u64::from(count - 1)) else {
            unreachable!()
        };
        let Pass { seat, kept } = passes.swap_remove(place);
        let Some(maker) = kept.maker else {
            unreachable!()
        };
        let last = lock.last_turn(rt, lock.wake(seat), lock.wake_maker(maker));
        let closing = take_in(&lock, last, passes);
        let (slot, _made) = lock.end(closing);
        let Some(desk) = slot else { unreachable!() };
        desk.into_parts()
    }
}
