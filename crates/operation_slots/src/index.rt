//! The numbers of the operations, each with the place of its operation.

ghost use Rattle.std.specs.Prelude.{◌≡◌, ◌<◌, ◌≤◌, length, IfOk, IfErr, vec_capacity};
ghost use Rattle.std.specs.List.{insert};
ghost use Rattle.slot_chain.specs.Ordered.{IsOrdered, IsAt, IsGap};
ghost use Rattle.operation_slots.specs.Boards.{index_number};

use crate::OpId;

/// In which place the operation of a number is.
#[derive(Clone, Copy, Debug)]
pub struct Numbered {
    pub number: OpId,
    pub place: u32,
}

/// Where a number stands in the index, or where it would go. It is found by halving.
pub(crate) fn number_at(index: &[Numbered], number: OpId) -> Result<usize, usize>
    requires { IsOrdered index_number index.now }
    ensures found { IfOk result (IsAt index_number index.now number) }
    ensures absent { IfErr result (IsGap index_number index.now number) }
{
    index.binary_search_by_key(&number, |row| row.number)
}

/// Puts a number where it goes.
pub(crate) fn put_number(index: &mut Vec<Numbered>, at: usize, row: Numbered)
    requires within { at ≤ length index.old.items }
    requires room { length index.old.items < vec_capacity index.old }
    ensures items { index.new.items ≡ insert index.old.items at row }
    ensures capacity { vec_capacity index.old ≤ vec_capacity index.new }
{
    match index.insert(at, row) {
        Ok(()) => (),
        Err(_) => unreachable!(),
    }
}
