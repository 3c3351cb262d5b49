//! Taking a turn and passing it on.
ghost use Rattle.std.specs.Prelude.{◌≡◌, ℕ, ◌%◌, ◌^◌, ◌<◌, ◌≤◌, ◌++◌, List, [], ◌∷◌, length, Some, IfOk, IfErr, OnErr};
ghost use Rattle.turn_lock.specs.declared.view.Stage.TheVariants.{Idle, Waits};
ghost use Rattle.turn_lock.specs.Views.{view, hand, front_in, numbers_in};
ghost use Rattle.turn_lock.specs.Passes.{front, front_before, seen, number_of, turn_number, lock_id, name_of, IsPassOf, IsTurnOf, HasPutBack};
ghost use Rattle.turn_lock.specs.Fronts.{IsFrontOf, Extends, Appends};

use super::{LockPass, Turn, TurnLock};
use crate::history::History;
use crate::plays::{Count, DrawFree, Leave, LeaveSeeing, Look, Tell};
use crate::rule::Place;
use std::sync::Wait;
use std::sync::atomic::Ordering::SeqCst;
use std::thread;

/// The word of the next turn.
const NEXT: usize = 1;

/// The word of the turn that is served.
const SERVED: usize = 2;

/// The word that counts the entries.
const ENTRIES: usize = 3;

/// The word of the level that was told.
pub(super) const LEVEL: usize = 4;

/// How often a thread that waits looks, and lets others run, before it sleeps: about as long as it takes to be woken, while
/// processors are idle. On busy ones a thread that lets others run waits for their time to pass, so they are few.
const LOOKS: u32 = 32;

impl<T: History<E, K>, E, K> TurnLock<T, E, K> {
    /// Sleeps while this turn is served. The mark is set before the look, so whoever passes that turn behind the look
    /// finds it; and where the mark is taken away before the sleep, the sleep ends at once.
    fn sleep<R: Wait>(&self, rt: &R, served: u64) {
        self.asleep.store(1, SeqCst);
        if self.table.shared.peek(SERVED) == served {
            self.asleep.park(rt, 1);
        }
    }

    /// Wakes one thread that sleeps, where the mark is set. The woken one sets it again, for the others that sleep: by
    /// `sleep`, or where it takes a turn.
    fn wake_another(&self) {
        if self.asleep.load(SeqCst) != 0 {
            self.asleep.store(0, SeqCst);
            self.asleep.wake_one();
        }
    }

    /// Draws a turn where none is out, and else tells the one that is.
    fn draw_free(&self, seat: &mut Place<T, E, K>) -> Result<u64, u64>
        requires here { seat.old.table_id ≡ lock_id self.now }
        requires idle { seat.old.me.0.stage ≡ Idle }
        requires number { 0 < numbers_in seat.old.me.0.hands }
        ensures here { seat.new.table_id ≡ seat.old.table_id }
        ensures same { seat.new.id ≡ seat.old.id }
        ensures drawn { IfOk result (λ mine. (t : ℕ) × (mine ≡ t % 2 ^ 64) × (seat.new.me ≡ (view (Waits t) seat.old.me.0.hands, seat.old.me.1))) }
        ensures out { OnErr result (seat.new.me ≡ seat.old.me) }
    {
        let shared = &self.table.shared;
        let served = shared.peek(SERVED);
        if shared.peek(NEXT) != served {
            return Err(served);
        }
        let next = served.wrapping_add(1);
        let found = shared.compare_exchange::<DrawFree>(seat, NEXT, served, next);
        if found == served {
            Ok(served)
        } else {
            Err(served)
        }
    }

    /// Draws a turn once none is out. Whoever looks first has it.
    fn draw<R: Wait>(&self, rt: &R, seat: &mut Place<T, E, K>) -> u64
        requires here { seat.old.table_id ≡ lock_id self.now }
        requires idle { seat.old.me.0.stage ≡ Idle }
        requires number { 0 < numbers_in seat.old.me.0.hands }
        ensures here { seat.new.table_id ≡ seat.old.table_id }
        ensures same { seat.new.id ≡ seat.old.id }
        ensures drawn { (t : ℕ) × (result ≡ t % 2 ^ 64) × (seat.new.me ≡ (view (Waits t) seat.old.me.0.hands, seat.old.me.1)) }
    {
        let mut looks = 0u32;
        let mut slept = false;
        for _ in rt.forever() {
            let out = match self.draw_free(seat) {
                Ok(mine) => {
                    if slept {
                        self.asleep.store(1, SeqCst);
                    }
                    return mine;
                }
                Err(out) => out,
            };
            if looks < LOOKS {
                looks += 1;
                thread::yield_now();
            } else {
                slept = true;
                self.sleep(rt, out);
            }
        }
        unreachable!()
    }

    /// Sleeps while a turn is out, where one is, and at once, without looks. Whoever waits for something else than a turn
    /// looks for it behind this. Who is woken here wakes another, which may wait for the turn.
    pub fn sleep_while_out<R: Wait>(&self, rt: &R) {
        let shared = &self.table.shared;
        let served = shared.peek(SERVED);
        if shared.peek(NEXT) != served {
            self.sleep(rt, served);
            self.asleep.store(1, SeqCst);
            if shared.peek(SERVED) != served {
                self.wake_another();
            }
        }
    }

    /// Wakes all who sleep, in place of one after another.
    pub fn wake_sleepers(&self) {
        self.asleep.store(0, SeqCst);
        self.asleep.wake_all();
    }

    /// Takes the value with a turn that was drawn.
    fn take_value<R: Wait>(
        &self,
        rt: &R,
        seat: Place<T, E, K>,
        number: u64,
        mine: u64,
    ) -> (Turn<T, E, K>, T)
        requires here { seat.table_id ≡ lock_id self.now }
        requires drawn { (t : ℕ) × (mine ≡ t % 2 ^ 64) × (seat.me ≡ (view (Waits t) (hand (name_of self.now) (Some number) (front_in seat.me.0.hands) ∷ []), [])) }
        ensures turn { IsTurnOf T.maker self.now result.0 }
        ensures number { turn_number result.0 ≡ number }
        ensures front { front_before result.0 ≡ front_in seat.me.0.hands }
        ensures value { seen result.0 ≡ T.entries result.1 }
        ensures later { IsFrontOf T.maker number (front_in seat.me.0.hands) (T.entries result.1) }
        ensures fits { T.fits (name_of self.now) result.1 }
    {
        let mut seat = seat;
        let shared = &self.table.shared;
        // the first look is the last: no other turn was out when this one was drawn
        for _ in rt.forever() {
            let served = shared.load::<Look>(&mut seat, SERVED);
            if served == mine {
                let value = shared.exchange(&mut seat, 0, None).unwrap();
                return (Turn { seat, number }, value);
            }
        }
        unreachable!()
    }

    /// Waits for a turn, and takes the value. Its history begins with the pass's front, and has no more of the pass's
    /// own.
    pub fn enter<R: Wait>(&self, rt: &R, pass: LockPass<T, E, K>) -> (Turn<T, E, K>, T)
        requires ours { IsPassOf self.now pass }
        ensures turn { IsTurnOf T.maker self.now result.0 }
        ensures number { turn_number result.0 ≡ number_of pass }
        ensures front { front_before result.0 ≡ front pass }
        ensures value { seen result.0 ≡ T.entries result.1 }
        ensures later { IsFrontOf T.maker (number_of pass) (front pass) (T.entries result.1) }
        ensures fits { T.fits (name_of self.now) result.1 }
    {
        let LockPass { mut seat, number } = pass;
        let mine = self.draw(rt, &mut seat);
        self.take_value(rt, seat, number, mine)
    }

    /// Takes a turn where none is out, and the value with it, as `enter`; else the pass comes back as it was.
    pub fn enter_if_free<R: Wait>(
        &self,
        rt: &R,
        pass: LockPass<T, E, K>,
    ) -> Result<(Turn<T, E, K>, T), LockPass<T, E, K>>
        requires ours { IsPassOf self.now pass }
        ensures turn { IfOk result (λ r. IsTurnOf T.maker self.now r.0) }
        ensures number { IfOk result (λ r. turn_number r.0 ≡ number_of pass) }
        ensures front { IfOk result (λ r. front_before r.0 ≡ front pass) }
        ensures value { IfOk result (λ r. seen r.0 ≡ T.entries r.1) }
        ensures later { IfOk result (λ r. IsFrontOf T.maker (number_of pass) (front pass) (T.entries r.1)) }
        ensures fits { IfOk result (λ r. T.fits (name_of self.now) r.1) }
        ensures back { IfErr result (λ back. IsPassOf self.now back × (number_of back ≡ number_of pass) × (front back ≡ front pass)) }
    {
        let LockPass { mut seat, number } = pass;
        match self.draw_free(&mut seat) {
            Ok(mine) => Ok(self.take_value(rt, seat, number, mine)),
            Err(_) => Err(LockPass { seat, number }),
        }
    }

    /// Puts the value back into the slot, while the turn is still served.
    pub(super) fn put_back(&self, turn: Turn<T, E, K>, value: T) -> Place<T, E, K>
        requires ours { IsTurnOf T.maker self.now turn }
        ensures here { result.table_id ≡ lock_id self.now }
        ensures full { HasPutBack (name_of self.now) turn value result }
    {
        let Turn {
            mut seat,
            number: _,
        } = turn;
        let before = self.table.shared.exchange(&mut seat, 0, Some(value));
        let None = before else { unreachable!() };
        seat
    }

    /// Gives the value back with so many entries more, each made by the pass, tells a level that the history then has, and
    /// passes the turn. Where there are entries, the pass has then seen the whole history.
    pub fn leave(&self, turn: Turn<T, E, K>, value: T, added: u64, level: u64) -> LockPass<T, E, K>
        requires ours { IsTurnOf T.maker self.now turn }
        requires level { level ≤ T.level (T.entries value) }
        requires room { length (T.entries value) < 2 ^ 64 }
        requires grown { Appends T.maker (turn_number turn) added (seen turn) (T.entries value) }
        requires fits { T.fits (name_of self.now) value }
        ensures pass { IsPassOf self.now result }
        ensures number { number_of result ≡ turn_number turn }
        ensures front { 0 < added → front result ≡ T.entries value }
        ensures same { added ≡ 0 → front result ≡ front_before turn }
        ensures own { (more : List E) → T.entries value ≡ seen turn ++ more
            → Extends T.maker (turn_number turn) (front_before turn) (front result) more }
    {
        let number = turn.number;
        let mut seat = self.put_back(turn, value);
        let shared = &self.table.shared;
        for _counted in 0..added {
            shared.fetch_add::<Count>(&mut seat, ENTRIES, 1);
        }
        shared.fetch_max::<Tell>(&mut seat, LEVEL, level);
        shared.fetch_add::<Leave>(&mut seat, SERVED, 1);
        self.wake_another();
        LockPass { seat, number }
    }

    /// Gives the value back with no entry more, and passes the turn. The pass has then seen the whole history.
    pub fn leave_seeing(&self, turn: Turn<T, E, K>, value: T) -> LockPass<T, E, K>
        requires ours { IsTurnOf T.maker self.now turn }
        requires same { T.entries value ≡ seen turn }
        requires fits { T.fits (name_of self.now) value }
        ensures pass { IsPassOf self.now result }
        ensures number { number_of result ≡ turn_number turn }
        ensures front { front result ≡ seen turn }
        ensures own { IsFrontOf T.maker (turn_number turn) (front_before turn) (front result) }
    {
        let number = turn.number;
        let mut seat = self.put_back(turn, value);
        let shared = &self.table.shared;
        shared.fetch_add::<LeaveSeeing>(&mut seat, SERVED, 1);
        self.wake_another();
        LockPass { seat, number }
    }
}

impl<T, E, K> LockPass<T, E, K> {
    /// Its number: no other pass of its lock has the same.
    pub fn number(&self) -> u64
        ensures { result ≡ number_of self.now }
    {
        self.number
    }
}

impl<T, E, K> Turn<T, E, K> {
    /// The number of its pass, which the entries of this turn have.
    pub fn number(&self) -> u64
        ensures { result ≡ turn_number self.now }
    {
        self.number
    }
}
