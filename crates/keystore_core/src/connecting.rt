//! A client comes, and goes.

ghost use Rattle.std.specs.Prelude.{◌≡◌, ◌-◌, ◌^◌, map, None, Ok, IfOk};
ghost use Rattle.group_index.specs.Grouped.{number_of};
ghost use Rattle.operation_slots.specs.Table.{FindsNoMore, KeepsLater, capacity_of, operations_of, without_all};
ghost use Rattle.rule_model.specs.Entries.{History};
ghost use Rattle.rule_model.specs.Setup.{Setup};
ghost use Rattle.rule_model.specs.declared.event.Act.TheVariants as acts;
ghost use Rattle.keystore_core.specs.Drawn.{IsUndrawn};
ghost use Rattle.keystore_core.specs.Keys.{SameKeys};
ghost use Rattle.keystore_core.specs.Leaving.{EndsClient};
ghost use Rattle.live_tables.specs.Operations.{has_busy_row};
ghost use Rattle.keystore_core.specs.Tables.{IsCaller, IsTables, ServesAfter, TablesStand, event_by};
ghost use Rattle.keystore_core.specs.Writing.{LeavesStore};

use crate::answered::Answered;
use crate::tables::Tables;
use call_rules::check_disconnect;
use cipher_ops::CipherState;
use group_index::Grouped;
use operation_slots::Slots;
use rule_model::{Caller, Fields, NO_FIELDS, Reply};
use std::alloc::Global;
use tags::NoMemory;

/// Takes the operations of these numbers out of their slots.
fn take_all_out(slots: &mut Slots<CipherState>, numbers: &[Grouped])
    ensures operations { operations_of slots.new ≡ without_all (map number_of numbers.now) (operations_of slots.old) }
    ensures capacity { capacity_of slots.new ≡ capacity_of slots.old }
    ensures fresh { FindsNoMore slots.old slots.new }
    ensures later { KeepsLater slots.old slots.new }
{
    for pair in numbers.iter() {
        slots.take_out(pair.number);
    }
}

impl Tables {
    /// A client comes with this uid.
    pub fn connect(
        &mut self,
        alloc: Global,
        _caller: Caller,
        uid: u32,
    ) -> Result<Answered, NoMemory>
        requires { ∥ IsTables self.old (2 ^ 63 - 1) ∥₁ }
        ensures serves { ServesAfter self.old self.new (event_by _caller (acts.Connect uid)) result }
        ensures job { IfOk result (λ answered. answered.job ≡ None) }
        ensures drew { IfOk result (λ answered. IsUndrawn answered) }
        ensures store { IfOk result (λ answered. LeavesStore self.old self.new answered) }
    {
        let client = self.clients.connect(uid)?;
        let fields = Fields {
            client: Some(client),
            ..NO_FIELDS
        };
        Ok(Answered::undrawn(alloc, Reply::Done(fields)))
    }

    /// The client goes, and its operations close. It takes as many steps as the client has operations.
    fn end_client(&mut self, client: u64)
        ensures ends { (setup : Setup) (past : History) → TablesStand setup self.old past → EndsClient client self.old self.new }
        ensures keys { SameKeys self.old self.new }
    {
        let numbers = self.operations.numbers_of(client);
        take_all_out(&mut self.slots, numbers);
        self.operations.close_of(client);
        self.clients.disconnect(client);
    }

    /// A client goes.
    pub fn disconnect(&mut self, alloc: Global, caller: Caller) -> Answered
        requires { IsCaller self.old caller }
        ensures serves { ServesAfter self.old self.new (event_by caller acts.Disconnect) (Ok result) }
        ensures job { result.job ≡ None }
        ensures drew { IsUndrawn result }
        ensures store { LeavesStore self.old self.new result }
    {
        let busy = self.operations.has_busy(caller.client);
        if let Err((rule, code)) = check_disconnect(caller.uid.is_some(), busy) {
            return Answered::refused(alloc, rule, code);
        }
        self.end_client(caller.client);
        Answered::undrawn(alloc, Reply::Done(NO_FIELDS))
    }
}
