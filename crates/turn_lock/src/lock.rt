//! The lock, its passes and its turns.
ghost use Rattle.std.specs.Prelude.{◌≡◌, [], ◌∷◌, None, length};
ghost use Rattle.turn_lock.specs.Views.{view, number_to, unnumbered, blank, turn_in, log_in, posed, badged, hands_of};
ghost use Rattle.turn_lock.specs.declared.view.Stage.TheVariants.{Idle, Makes, Serves};

use crate::rule::{Place, Turns};
use crate::view::View;
use atomic_table::{Badge, Seat, Table, TableRule};
use std::alloc::Global;
use std::sync::atomic::AtomicU64;

mod ending;
mod making;
mod notes;
mod resting;
mod turns;

/// A lock over a value of type `T`, whose history has entries `E` and whose name is a `K`.
pub type TurnLock<T, E, K> = Locked<Option<T>, View<E, K>, K, Turns>;

/// A table with the name that it was made with. Its type names the slots, the views and the rule and not the value, so
/// that a generic type can hold a lock.
#[derive(Drop)]
pub struct Locked<S, V, K, P: TableRule<S, V, K>> {
    table: Table<S, V, K, P, Global>,
    name: K,
    /// The mark of those that sleep until a turn is passed, on which they sleep: 1 where whoever passes one has to wake one of
    /// them.
    asleep: AtomicU64,
    ghost sized: { (table.shared.table_id.words ≡ 5) × (table.shared.table_id.slots ≡ 1) },
    ghost named: { table.shared.key ≡ name },
}

/// The right to take turns, one after another, under a number. It has seen a front of the history.
#[derive(Drop)]
pub struct LockPass<T, E, K> {
    seat: Place<T, E, K>,
    number: u64,
    ghost rests: { seat ≡ posed seat (view Idle (number_to number seat.me.0.hands)) [] },
    ghost single: { length seat.me.0.hands ≡ 1 },
}

/// The right to make passes.
#[derive(Drop)]
pub struct Maker<T, E, K> {
    seat: Place<T, E, K>,
    made: u64,
    ghost makes: { seat ≡ posed seat (view (Makes made) (blank seat.me.0.hands)) [] },
    ghost single: { length seat.me.0.hands ≡ 1 },
}

/// A pass between its turns. Its type names the entries, and not the value behind the lock.
#[derive(Drop)]
pub struct RestingPass<E, K> {
    badge: Badge<View<E, K>>,
    number: u64,
    ghost rests: { badge ≡ badged badge (view Idle (number_to number (hands_of badge.views))) },
    ghost single: { length (hands_of badge.views) ≡ 1 },
}

/// A maker that waits for the end. Its type names the entries, and not the value behind the lock.
#[derive(Drop)]
pub struct RestingMaker<E, K> {
    badge: Badge<View<E, K>>,
    made: u64,
    ghost makes: { badge ≡ badged badge (view (Makes made) (blank (hands_of badge.views))) },
    ghost single: { length (hands_of badge.views) ≡ 1 },
}

/// A note between its making and its meeting. Its type names the entries, and not the value behind the lock.
#[derive(Drop)]
pub struct RestingNote<E, K> {
    badge: Badge<View<E, K>>,
    ghost rests: { badge ≡ badged badge (view Idle (unnumbered (hands_of badge.views))) },
    ghost single: { length (hands_of badge.views) ≡ 1 },
}

/// A copy of what a pass has seen, for another pass. It takes no turn.
#[derive(Drop)]
pub struct Note<T, E, K> {
    seat: Place<T, E, K>,
    ghost rests: { seat ≡ posed seat (view Idle (unnumbered seat.me.0.hands)) [] },
    ghost single: { length seat.me.0.hands ≡ 1 },
}

/// A pass whose turn is served while the value is out. It is not `Drop`: the value has to be given back.
pub struct Turn<T, E, K> {
    seat: Place<T, E, K>,
    number: u64,
    ghost serves: { seat ≡ posed seat (view (Serves (turn_in seat.me.0.stage) (log_in seat.me.0.stage)) (number_to number seat.me.0.hands)) ((0, None) ∷ []) },
    ghost single: { length seat.me.0.hands ≡ 1 },
}

/// The last turn of a lock, which is not passed on. It takes in the passes.
pub type Closing<T, E, K> = LastTurn<Option<T>, View<E, K>>;

/// A seat that may end its table.
#[derive(Drop)]
pub struct LastTurn<S, V> {
    seat: Seat<S, V>,
}
