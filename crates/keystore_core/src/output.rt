//! How many bytes the work of an enter gives at most.

ghost use Rattle.std.specs.Prelude.{◌≡◌, ◌+◌, ◌≤◌, Some, nat_le};
ghost use Rattle.keystore_core.specs.Outputs as spec;
ghost use Rattle.keystore_core.specs.Outputs.{RowGives, StepGives};

use crate::tables::Tables;
use cipher_ops::{most_of_finish, most_of_update};
use live_tables::OperationRow;
use rule_model::Act;
use tags::OPERATION_BYTES;

/// The text that a work brings to an open operation.
#[derive(Clone, Copy, Debug, PartialEq, Eq)]
pub struct TextStep {
    pub op: u64,
    /// how many bytes it has
    pub size: u64,
    /// whether it is the operation's last
    pub last: bool,
}

/// The text that an act brings, which an update and a finish do.
fn text_step(act: &Act) -> Option<TextStep>
    ensures { result ≡ spec.text_step act.now }
{
    match act {
        Act::EnterUpdate { op, input } => Some(TextStep {
            op: *op,
            size: input.len() as u64,
            last: false,
        }),
        Act::EnterFinish { op, input, .. } => Some(TextStep {
            op: *op,
            size: input.len() as u64,
            last: true,
        }),
        _ => None,
    }
}

/// Whether an operation takes so many bytes more, as far as its text goes.
fn is_within(row: &OperationRow, size: u64) -> bool
    ensures { result ≡ nat_le (row.now.text + size) OPERATION_BYTES }
{
    row.text as u128 + size as u128 <= OPERATION_BYTES as u128
}

/// How many bytes a text gives at most on the operation of a row. One that is too long is not let through.
fn most_of(row: &OperationRow, size: u64, last: bool) -> u64
    ensures most { result ≤ 1048656 }
    ensures small { result ≤ spec.row_most (Some row.now) size last }
    ensures out { RowGives (Some row.now) size last result }
{
    if !is_within(row, size) {
        return 0;
    }
    if last {
        most_of_finish(row.plan, row.limited, row.text, size)
    } else {
        most_of_update(row.plan, row.limited, size)
    }
}

impl Tables {
    /// How many bytes the work of an act gives at most, where it enters an operation now. It takes no memory.
    pub fn most_out(&self, act: &Act) -> u64
        ensures most { result ≤ 1048656 }
        ensures small { result ≤ spec.told_most self.now (spec.text_step act.now) }
        ensures out { StepGives self.now (spec.text_step act.now) result }
    {
        let Some(step) = text_step(act) else {
            return 0;
        };
        match self.operations.get(step.op) {
            Some(row) => most_of(row, step.size, step.last),
            None => 0,
        }
    }
}
