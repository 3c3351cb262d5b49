//! The table under the lock: five words and a slot.

ghost use Rattle.std.specs.Prelude.{◌≡◌, ℕ, List};
ghost use mathlib.Core.Option.{some};
ghost use lib.ListN.{get_elem?};
ghost use Rattle.atomic_table.specs.Table.{Final, Seen};

use crate::history::History;
use crate::view::View;
use atomic_table::{Seat, TableRule};

/// What the end of a table tells, whose last state has the view of the seat that ends it.
pub trait EndRule<S, V, K>: TableRule<S, V, K> {
    /// A seat with this view may end the table.
    ghost may_end: { V → Type 0 };

    /// What is known, of the name, the view, word 0 and slot 0.
    ghost ended: { K → V → ℕ → S → Type 0 };

    ghost ends: { (name : K) (seat word : ℕ) (v : V) (ws : List ℕ) (xs : List S) (slot : S)
        → may_end v → Final (Seen (Self.holds name) seat v) ws xs
        → get_elem? ws 0 ≡ some word → get_elem? xs 0 ≡ some slot → ended name v word slot };
}

/// The rule of the table (`specs/Rule.antt`).
pub struct Turns;

impl<T: History<E, K>, E, K> TableRule<Option<T>, View<E, K>, K> for Turns {
    ghost use Rattle.turn_lock.specs.Views.{first_view};
    ghost use Rattle.turn_lock.specs.Rule.{IsSound};

    ghost holds = { λ name. IsSound T.entries T.maker T.fits T.level name };

    ghost first = { first_view };
}

impl<T: History<E, K>, E, K> EndRule<Option<T>, View<E, K>, K> for Turns {
    ghost use Rattle.turn_lock.specs.Rule.{IsClosing};
    ghost use Rattle.turn_lock.specs.Endings.{Ended, end_known};

    ghost may_end = { λ v. IsClosing v };

    ghost ended = { Ended T.entries T.maker T.fits };

    ghost ends = { end_known T.entries T.maker T.fits T.level };
}

/// A seat at the table.
pub type Place<T, E, K> = Seat<Option<T>, View<E, K>>;
