//! Taking the value out of the lock for good.
ghost use Rattle.std.specs.Prelude.{◌≡◌};
ghost use Rattle.turn_lock.specs.Passes.{lock_id, name_of, view_of, closing_lock, made_of, made_before, IsPassOf, IsMakerOf, IsClosingOf, Took};

use super::{Closing, LastTurn, LockPass, Locked, Maker, TurnLock};
use crate::history::History;
use crate::plays::{Close, Gather, TakeMaker};
use crate::rule::EndRule;
use std::sync::Wait;

impl<T: History<E, K>, E, K> TurnLock<T, E, K> {
    /// Waits for a turn, which is not passed on, and takes its own pass in. No pass is made any more.
    pub fn last_turn<R: Wait>(
        &self,
        rt: &R,
        pass: LockPass<T, E, K>,
        maker: Maker<T, E, K>,
    ) -> Closing<T, E, K>
        requires ours { IsPassOf self.now pass }
        requires maker { IsMakerOf self.now maker }
        ensures closing { IsClosingOf self.now result }
        ensures taken { Took result pass }
        ensures made { made_before result ≡ made_of maker }
    {
        let (turn, value) = self.enter(rt, pass);
        let mut seat = self.put_back(turn, value);
        let shared = &self.table.shared;
        shared.load::<Close>(&mut seat, 0);
        let Maker {
            seat: drawer,
            made: _,
        } = maker;
        shared.join_seat::<TakeMaker>(&mut seat, drawer);
        LastTurn { seat }
    }

    /// Takes a pass in, which ends.
    pub fn absorb(&self, closing: &mut Closing<T, E, K>, pass: LockPass<T, E, K>)
        requires closing { IsClosingOf self.now closing.old }
        requires ours { IsPassOf self.now pass }
        ensures closing { IsClosingOf self.now closing.new }
        ensures made { made_before closing.new ≡ made_before closing.old }
        ensures taken { Took closing.new pass }
        ensures kept { (other : LockPass T E K) → Took closing.old other → Took closing.new other }
    {
        let LockPass { seat, number: _ } = pass;
        self.table
            .shared
            .join_seat::<Gather>(&mut closing.seat, seat);
    }
}

impl<S, V, K: Drop, P: EndRule<S, V, K>> Locked<S, V, K, P> {
    /// The lock ends. It gives its slot, which has the value with its whole history, and how many passes were made, so
    /// that no entry has that number or a greater one (`Ended` in `specs/Endings.antt`). The value need not be `Drop`.
    pub fn end(self, closing: LastTurn<S, V>) -> (S, u64)
        requires ours { closing_lock closing ≡ lock_id self }
        requires last { P.may_end (view_of closing) }
        ensures { P.ended (name_of self) (view_of closing) result.1 result.0 }
    {
        let Locked {
            table,
            name: _,
            asleep: _,
        } = self;
        let LastTurn { seat } = closing;
        let mut closed = table.close_with(seat);
        let made = closed.word(0);
        let slot = closed.take(0);
        closed.free();
        (slot, made)
    }
}
