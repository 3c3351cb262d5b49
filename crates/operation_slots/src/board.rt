//! The operations in their places, with all by which they are found, and each call on them.

ghost use Rattle.std.specs.Prelude.{◌≡◌, ◌<◌, ◌≤◌, ◌+◌, ◌++◌, ℕ, [], ◌∷◌, false, true, find, length, slice_get, Some, None, IfOk, IfSome, IfNone, OnSome, IsSome, IsNone, All};
ghost use Rattle.std.specs.List.{list_any, remove};
ghost use Rattle.operation_slots.specs.Table.{IsOldestAmong, given_back, has_number, idle_value, is_busy, is_idle_of, is_of, is_taken, made_busy, taken, with_change, without};
ghost use Rattle.operation_slots.specs.Boards.{IsKept, entries_of, operations_on};

use crate::cells::{Cell, give_value, lay, set_free, take_value};
use crate::counts::UidCounts;
use crate::index::{Numbered, number_at, put_number};
use crate::{OpId, SlotOperation, Steps, Taken};
use slot_chain::Chains;
use std::alloc::Global;
use std::sync::ledger::Ledger;
use tags::NoMemory;

/// Operations in places, of which there are as many as slots. An operation keeps its place from its begin to its end.
#[derive(Drop)]
pub struct SlotBoard<T> {
    /// by place; past the last one no place was taken yet
    pub cells: Vec<Cell<T>>,
    /// in the order of the numbers
    pub index: Vec<Numbered>,
    /// the places of the cells that have no operation
    pub free: Vec<u32>,
    /// of idle and busy operations
    pub counts: UidCounts,
    /// the places of each uid's idle operations
    pub idle: Chains,
    /// how many slots there are
    pub capacity: usize,
}

impl<T> SlotBoard<T> {
    /// No operation, in so many slots.
    pub fn with_capacity(alloc: Global, capacity: usize) -> Result<SlotBoard<T>, NoMemory>
        requires some { 0 < capacity }
        requires few { capacity < 4294967295 }
        ensures kept { IfOk result IsKept }
        ensures operations { IfOk result (λ board. operations_on board ≡ []) }
        ensures capacity { IfOk result (λ board. board.capacity ≡ capacity) }
    {
        let index = Vec::with_capacity(alloc, capacity)?;
        let free = Vec::with_capacity(alloc, capacity)?;
        let counts = UidCounts::with_room(alloc, capacity)?;
        let idle = Chains::with_places(alloc, capacity)?;
        let cells = Vec::with_capacity(alloc, capacity)?;
        Ok(SlotBoard {
            cells,
            index,
            free,
            counts,
            idle,
            capacity,
        })
    }

    /// Takes out all operations.
    pub fn clear(&mut self)
    where
        T: Drop,
        requires { IsKept self.old }
        ensures kept { IsKept self.new }
        ensures operations { operations_on self.new ≡ [] }
        ensures capacity { self.new.capacity ≡ self.old.capacity }
    {
        self.cells.clear();
        self.index.clear();
        self.free.clear();
        self.counts.clear();
        self.idle.clear();
    }

    /// Begins an idle operation in a free place.
    pub fn begin(&mut self, operation: SlotOperation<T>)
        requires kept { IsKept self.old }
        requires room { length (operations_on self.old) < self.old.capacity }
        requires fresh { find (has_number operation.number) (operations_on self.old) ≡ None }
        requires later { All (λ o. o.stamp < operation.stamp) (operations_on self.old) }
        requires idle { IsSome operation.value }
        ensures kept { IsKept self.new }
        ensures operations { operations_on self.new ≡ operations_on self.old ++ operation ∷ [] }
        ensures capacity { self.new.capacity ≡ self.old.capacity }
    {
        let (number, uid, begun) = (operation.number, operation.uid, operation.stamp);
        let place = lay(&mut self.cells, &mut self.free, Cell { operation, begun });
        let at = match number_at(&self.index, number) {
            Ok(_at) => unreachable!(),
            Err(at) => at,
        };
        put_number(&mut self.index, at, Numbered { number, place });
        self.counts.raise(uid);
        self.idle.push_newest(uid, place);
    }

    /// Takes the value of an idle operation out.
    pub fn take(&mut self, op: OpId) -> Taken<T>
        requires { IsKept self.old }
        ensures kept { IsKept self.new }
        ensures answer { result ≡ taken (find (has_number op) (operations_on self.old)) }
        ensures operations { operations_on self.new ≡ with_change op made_busy (operations_on self.old) }
        ensures same { is_taken result ≡ false → operations_on self.new ≡ operations_on self.old }
        ensures capacity { self.new.capacity ≡ self.old.capacity }
    {
        let at = match number_at(&self.index, op) {
            Ok(at) => at,
            Err(_at) => return Taken::Absent,
        };
        let place = self.index[at].place;
        match take_value(&mut self.cells, place) {
            Some(value) => {
                self.idle.unlink(place);
                Taken::Found(value)
            }
            None => Taken::Busy,
        }
    }

    /// Gives a busy operation its value back.
    pub fn give(&mut self, op: OpId, stamp: u64, value: T)
        requires kept { IsKept self.old }
        requires busy { is_busy (find (has_number op) (operations_on self.old)) ≡ true }
        requires later { All (λ o. o.stamp < stamp) (operations_on self.old) }
        ensures kept { IsKept self.new }
        ensures operations { operations_on self.new ≡ with_change op (given_back stamp value) (operations_on self.old) }
        ensures capacity { self.new.capacity ≡ self.old.capacity }
    {
        let at = match number_at(&self.index, op) {
            Ok(at) => at,
            Err(_at) => unreachable!(),
        };
        let place = self.index[at].place;
        let uid = self.cells[place as usize].operation.uid;
        give_value(&mut self.cells, place, stamp, value);
        self.idle.push_newest(uid, place);
    }

    /// Takes out the operation at a place of the index, with its value, where it is idle.
    fn take_out_at(&mut self, at: usize) -> Option<T>
        requires kept { IsKept self.old }
        requires at { at < length (entries_of self.old) }
        ensures kept { IsKept self.new }
        ensures value { (e : _) → slice_get (entries_of self.old) at ≡ Some e → result ≡ e.cell.operation.value }
        ensures entries { entries_of self.new ≡ remove (entries_of self.old) at }
        ensures capacity { self.new.capacity ≡ self.old.capacity }
    {
        let place = self.index.remove(at).place;
        set_free(&mut self.free, place);
        self.counts.lower(self.cells[place as usize].operation.uid);
        match take_value(&mut self.cells, place) {
            Some(value) => {
                self.idle.unlink(place);
                Some(value)
            }
            None => None,
        }
    }

    /// Takes an idle operation out.
    pub fn close(&mut self, op: OpId) -> Option<T>
        requires { IsKept self.old }
        ensures kept { IsKept self.new }
        ensures value { result ≡ idle_value (find (has_number op) (operations_on self.old)) }
        ensures some { OnSome result (operations_on self.new ≡ without op (operations_on self.old)) }
        ensures none { IfNone result (operations_on self.new ≡ operations_on self.old) }
        ensures capacity { self.new.capacity ≡ self.old.capacity }
    {
        let at = match number_at(&self.index, op) {
            Ok(at) => at,
            Err(_at) => return None,
        };
        let place = self.index[at].place;
        if !self.cells[place as usize].operation.is_idle() {
            return None;
        }
        self.take_out_at(at)
    }

    /// Takes a busy operation out.
    pub fn end(&mut self, op: OpId)
        requires kept { IsKept self.old }
        requires busy { is_busy (find (has_number op) (operations_on self.old)) ≡ true }
        ensures kept { IsKept self.new }
        ensures operations { operations_on self.new ≡ without op (operations_on self.old) }
        ensures capacity { self.new.capacity ≡ self.old.capacity }
    {
        let at = match number_at(&self.index, op) {
            Ok(at) => at,
            Err(_at) => unreachable!(),
        };
        match self.take_out_at(at) {
            None => (),
            Some(_value) => unreachable!(),
        }
    }

    /// Takes an operation out, idle or busy, where it is held.
    pub fn take_out(&mut self, op: OpId)
    where
        T: Drop,
        requires { IsKept self.old }
        ensures kept { IsKept self.new }
        ensures operations { operations_on self.new ≡ without op (operations_on self.old) }
        ensures capacity { self.new.capacity ≡ self.old.capacity }
    {
        let at = match number_at(&self.index, op) {
            Ok(at) => at,
            Err(_at) => return,
        };
        drop(self.take_out_at(at));
    }

    /// The number and the stamp of the oldest idle operation of a uid. It takes one step.
    pub fn oldest_idle<L: Ledger>(&self, uid: u32, steps: &mut Steps<L>) -> Option<(OpId, u64)>
        requires { IsKept self.now }
        ensures some { IfSome result (λ found. IsOldestAmong (operations_on self.now) uid found.0 found.1) }
        ensures none { IfNone result (list_any (is_idle_of uid) (operations_on self.now) ≡ false) }
        ensures steps { steps.new ≡ steps.old + 1 }
    {
        let place = self.idle.oldest(uid, steps)?;
        let operation = &self.cells[place as usize].operation;
        Some((operation.number, operation.stamp))
    }
}
