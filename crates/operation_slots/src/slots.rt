//! The operations in their slots, and each call on them.

ghost use Rattle.std.specs.Prelude.{◌≡◌, ℕ, ◌+◌, ◌<◌, ◌≤◌, true, false, length, slice_get, Some, None, IfSome, IfNone, OnSome, IfOk};
ghost use Rattle.operation_slots.specs.Table.{IsSound, IsEmpty, IsLater, Same, Begins, Takes, Gives, TakesOut, idle_operation, held, open_count as held_count, open_of as held_of, has_room as room_in, has_idle, owners_of, capacity_of, taken, idle_value, is_busy, is_taken, MatchTaken, FindsNew, FindsChanged, FindsWithout, KeepsLater, KeepsLaterThan, made_busy, given_back, IsOldestIdle};

use crate::board::SlotBoard;
use crate::{OpId, SlotOperation, Steps, Taken};
use std::alloc::Global;
use std::marker::Model;
use std::sync::ledger::Ledger;
use tags::{MOST_SLOTS, NoMemory};

/// Operations in a bounded number of slots, seen as the list of those that are held, in the order in which they began.
///
/// An operation is idle, with its value, or busy, and its value is with the caller. Stamps are the caller's count of
/// what happened: `begin` and `give` are called with one that is greater than every stamp held, so no two are the same.
#[derive(Drop)]
pub struct Slots<T> {
    board: SlotBoard<T>,
}

impl<T> Model for Slots<T> {
    ghost use Rattle.operation_slots.specs.Table.{SlotTable};

    ghost Value = { SlotTable T };

    ghost use Rattle.operation_slots.specs.Boards.{seen, IsKept};

    ghost view = { λ s. seen s.board };

    ghost invariant = { λ s. IsKept s.board };
}

impl<T> Slots<T> {
    /// So many slots, all free. It needs 1 to `MOST_SLOTS`, and is the one call that takes memory.
    pub fn with_capacity(alloc: Global, count: usize) -> Result<Slots<T>, NoMemory>
        requires some { 0 < count }
        requires few { count ≤ MOST_SLOTS }
        ensures empty { IfOk result (λ slots. IsEmpty slots count) }
        ensures later { IfOk result (λ slots. (next : ℕ) → IsLater slots next) }
    {
        Ok(Slots {
            board: SlotBoard::with_capacity(alloc, count)?,
        })
    }

    /// Takes out all operations, idle and busy.
    pub fn clear(&mut self)
    where
        T: Drop,
        ensures empty { IsEmpty self.new (capacity_of self.old) }
        ensures later { (next : ℕ) → IsLater self.new next }
    {
        self.board.clear();
    }

    /// Whether a slot is free.
    pub fn has_room(&self) -> bool
        ensures { result ≡ room_in self.now }
    {
        self.board.index.len() < self.board.capacity
    }

    /// How many operations are held, idle and busy.
    pub fn open_count(&self) -> usize
        ensures count { result ≡ held_count self.now }
        ensures sound { IsSound self.now }
    {
        self.board.index.len()
    }

    /// How many operations of a uid are held, idle and busy.
    pub fn open_of(&self, uid: u32) -> usize
        ensures count { result ≡ held_of self.now uid }
        ensures within { result ≤ held_count self.now }
    {
        self.board.counts.of(uid)
    }

    /// How many uids have an idle operation.
    pub fn idle_owners(&self) -> usize
        ensures count { result ≡ length (owners_of self.now) }
        ensures sound { IsSound self.now }
    {
        self.board.idle.owner_count()
    }

    /// The uid at this place among those that have an idle operation, each of which stands at one place; None exactly
    /// from their count on.
    pub fn idle_owner(&self, place: usize) -> Option<u32>
        ensures { result ≡ slice_get (owners_of self.now) place }
    {
        self.board.idle.owner(place)
    }

    /// The number and the stamp of the idle operation of a uid with the least stamp; None exactly where none is idle.
    /// It takes exactly one step.
    pub fn oldest_idle<L: Ledger>(&self, uid: u32, steps: &mut Steps<L>) -> Option<(OpId, u64)>
        ensures some { IfSome result (λ found. IsOldestIdle self.now uid found.0 found.1) }
        ensures none { IfNone result (has_idle self.now uid ≡ false) }
        ensures steps { steps.new ≡ steps.old + 1 }
    {
        self.board.oldest_idle(uid, steps)
    }

    /// Begins an idle operation, which comes behind the others. It needs a free slot, a number that is not held, and a
    /// stamp that is greater than every stamp held.
    pub fn begin(&mut self, op: OpId, uid: u32, client: u64, stamp: u64, value: T)
        requires room { room_in self.old ≡ true }
        requires fresh { held self.old op ≡ None }
        requires later { IsLater self.old stamp }
        ensures begins { Begins self.old self.new (idle_operation op uid client stamp value) }
        ensures found { FindsNew self.old self.new (idle_operation op uid client stamp value) }
        ensures later { KeepsLaterThan self.old self.new stamp }
    {
        self.board.begin(SlotOperation {
            number: op,
            uid,
            client,
            stamp,
            value: Some(value),
        });
    }

    /// Takes the value of an idle operation out, which is busy from then on and keeps its place and its stamp. Busy and
    /// Absent come exactly where it is busy or not held, and change nothing.
    pub fn take(&mut self, op: OpId) -> Taken<T>
        ensures answer { result ≡ taken (held self.old op) }
        ensures cases { MatchTaken result
            (λ value. (idle_value (held self.old op) ≡ Some value) × (is_busy (held self.new op) ≡ true))
            (is_busy (held self.old op) ≡ true)
            (held self.old op ≡ None) }
        ensures takes { Takes self.old self.new op }
        ensures same { is_taken result ≡ false → Same self.old self.new }
        ensures found { FindsChanged self.old self.new op made_busy }
        ensures later { KeepsLater self.old self.new }
    {
        self.board.take(op)
    }

    /// Gives a busy operation its value back, with a new stamp, which needs to be greater than every stamp held. It is idle
    /// from then on and keeps its place.
    pub fn give(&mut self, op: OpId, stamp: u64, value: T)
        requires busy { is_busy (held self.old op) ≡ true }
        requires later { IsLater self.old stamp }
        ensures sound { IsSound self.old }
        ensures gives { Gives self.old self.new op stamp value }
        ensures found { FindsChanged self.old self.new op (given_back stamp value) }
        ensures later { KeepsLaterThan self.old self.new stamp }
    {
        self.board.give(op, stamp, value)
    }

    /// Takes an idle operation out, with its value, which leaves a slot free; None exactly where it is busy or not held, and
    /// then nothing changes.
    pub fn close(&mut self, op: OpId) -> Option<T>
        ensures sound { IsSound self.old }
        ensures value { result ≡ idle_value (held self.old op) }
        ensures room { OnSome result (room_in self.new ≡ true) }
        ensures some { OnSome result (TakesOut self.old self.new op) }
        ensures none { IfNone result (Same self.old self.new) }
        ensures found { OnSome result (FindsWithout self.old self.new op) }
        ensures later { KeepsLater self.old self.new }
    {
        self.board.close(op)
    }

    /// Takes an operation out, idle or busy, where it is held.
    pub fn take_out(&mut self, op: OpId)
    where
        T: Drop,
        ensures takes_out { TakesOut self.old self.new op }
        ensures found { FindsWithout self.old self.new op }
        ensures later { KeepsLater self.old self.new }
    {
        self.board.take_out(op);
    }

    /// Takes a busy operation out.
    pub fn end(&mut self, op: OpId)
        requires { is_busy (held self.old op) ≡ true }
        ensures takes_out { TakesOut self.old self.new op }
        ensures found { FindsWithout self.old self.new op }
        ensures later { KeepsLater self.old self.new }
    {
        self.board.end(op)
    }
}
