//! What each step on the table tells the seat that makes it.
ghost use Rattle.turn_lock.specs.Steps.{numbered, drew_if, looked, counted, left, left_seeing, closed, caught_up, told, kept_part, heir_part, note_part, gathered, completed, compared, nobody};

use crate::history::History;
use crate::view::View;
use atomic_table::{Join, Play, Split};

/// Draws a pass's number.
pub(crate) struct DrawNumber;

impl<T, E, K> Play<Option<T>, View<E, K>> for DrawNumber {
    ghost then = { numbered };
}

/// Draws a turn where none is out.
pub(crate) struct DrawFree;

impl<T, E, K> Play<Option<T>, View<E, K>> for DrawFree {
    ghost then = { drew_if };
}

/// Looks which turn is served.
pub(crate) struct Look;

impl<T: History<E, K>, E, K> Play<Option<T>, View<E, K>> for Look {
    ghost then = { looked T.entries T.maker T.fits };
}

/// Counts an entry.
pub(crate) struct Count;

impl<T: History<E, K>, E, K> Play<Option<T>, View<E, K>> for Count {
    ghost then = { counted T.entries };
}

/// Passes the turn.
pub(crate) struct Leave;

impl<T, E, K> Play<Option<T>, View<E, K>> for Leave {
    ghost then = { left };
}

/// Passes the turn, with the whole history as the front.
pub(crate) struct LeaveSeeing;

impl<T, E, K> Play<Option<T>, View<E, K>> for LeaveSeeing {
    ghost then = { left_seeing };
}

/// Keeps the turn for good, with the value in the slot.
pub(crate) struct Close;

impl<T, E, K> Play<Option<T>, View<E, K>> for Close {
    ghost then = { closed };
}

/// Of two hands, the first takes the longer front.
pub(crate) struct Compare;

impl<T: History<E, K>, E, K> Play<Option<T>, View<E, K>> for Compare {
    ghost then = { compared T.maker };
}

/// Tells a level.
pub(crate) struct Tell;

impl<T, E, K> Play<Option<T>, View<E, K>> for Tell {
    ghost then = { told };
}

/// The front becomes the whole history.
pub(crate) struct CatchUp;

impl<T: History<E, K>, E, K> Play<Option<T>, View<E, K>> for CatchUp {
    ghost then = { caught_up T.maker T.level };
}

/// The right to draw numbers goes to the new seat.
pub(crate) struct Heir;

impl<E, K> Split<View<E, K>> for Heir {
    ghost left = { kept_part };

    ghost right = { heir_part };
}

/// The new seat has a copy of what was seen.
pub(crate) struct CopySeen;

impl<E, K> Split<View<E, K>> for CopySeen {
    ghost left = { λ v. v };

    ghost right = { note_part };
}

/// One seat takes the hands of both.
pub(crate) struct Gather;

impl<E, K> Join<View<E, K>> for Gather {
    ghost both = { gathered };

    ghost spent = { nobody };
}

/// The last turn takes in the right to draw numbers.
pub(crate) struct TakeMaker;

impl<E, K> Join<View<E, K>> for TakeMaker {
    ghost both = { completed };

    ghost spent = { nobody };
}
