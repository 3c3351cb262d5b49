//! The operations in their places.

ghost use Rattle.std.specs.Prelude.{◌≡◌, ◌<◌, ◌≤◌, ◌++◌, ◌+◌, ◌^◌, ◌-◌, ℕ, [], ◌∷◌, length, None, vec_capacity};
ghost use Rattle.operation_slots.specs.Boards.{Lays, PutsCell, cell_at, given_cell, once_in, taken_cell, times};

use crate::SlotOperation;
use std::mem;

/// A place with its operation, or with what is left of the last one that it had.
#[derive(Drop)]
pub struct Cell<T> {
    pub operation: SlotOperation<T>,
    /// the stamp with which it began
    pub begun: u64,
}

/// Puts a cell into a free place, and tells which.
pub(crate) fn lay<T>(cells: &mut Vec<Cell<T>>, free: &mut Vec<u32>, cell: Cell<T>) -> u32
    requires places { (n : ℕ) → times n free.old.items ≤ once_in n (length cells.old.items) }
    requires spare { (n : ℕ) → 0 < times n free.old.items → (cell_at cells.old.items n).operation.value ≡ None }
    requires room { length free.old.items ≡ 0 → length cells.old.items < vec_capacity cells.old }
    requires few { length cells.old.items < 2 ^ 32 - 1 }
    ensures lays { Lays cells.old.items free.old.items cells.new.items free.new.items result cell }
    ensures cells_capacity { vec_capacity cells.old ≤ vec_capacity cells.new }
    ensures free_capacity { vec_capacity free.new ≡ vec_capacity free.old }
{
    if let Some(place) = free.pop() {
        let left = mem::replace(&mut cells[place as usize], cell);
        match left.operation.into_value() {
            None => return place,
            Some(_value) => unreachable!(),
        }
    }
    let place = cells.len() as u32;
    match cells.push(cell) {
        Ok(()) => place,
        Err(_) => unreachable!(),
    }
}

/// Puts a place with the free ones.
pub(crate) fn set_free(free: &mut Vec<u32>, place: u32)
    requires { length free.old.items < vec_capacity free.old }
    ensures items { free.new.items ≡ free.old.items ++ place ∷ [] }
    ensures capacity { vec_capacity free.old ≤ vec_capacity free.new }
{
    match free.push(place) {
        Ok(()) => (),
        Err(_) => unreachable!(),
    }
}

/// Takes the value in a place out, where it is there.
pub(crate) fn take_value<T>(cells: &mut Vec<Cell<T>>, place: u32) -> Option<T>
    requires { place < length cells.old.items }
    ensures value { result ≡ (cell_at cells.old.items place).operation.value }
    ensures size { length cells.new.items ≡ length cells.old.items }
    ensures puts { PutsCell cells.old.items cells.new.items place (taken_cell (cell_at cells.old.items place)) }
    ensures capacity { vec_capacity cells.new ≡ vec_capacity cells.old }
{
    cells[place as usize].operation.value.take()
}

/// Puts a value into a place that has none, with a new stamp.
pub(crate) fn give_value<T>(cells: &mut Vec<Cell<T>>, place: u32, stamp: u64, value: T)
    requires place { place < length cells.old.items }
    requires busy { (cell_at cells.old.items place).operation.value ≡ None }
    ensures size { length cells.new.items ≡ length cells.old.items }
    ensures puts { PutsCell cells.old.items cells.new.items place (given_cell stamp value (cell_at cells.old.items place)) }
    ensures capacity { vec_capacity cells.new ≡ vec_capacity cells.old }
{
    let operation = &mut cells[place as usize].operation;
    operation.stamp = stamp;
    match operation.value.replace(value) {
        None => (),
        Some(_) => unreachable!(),
    }
}
