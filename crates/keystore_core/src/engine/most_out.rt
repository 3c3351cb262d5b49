//! How much the leave of an enter puts out.

ghost use Rattle.std.specs.Prelude.{◌≡◌, ◌≤◌, ℕ, List, Option, Some};
ghost use Rattle.tags.specs.declared.settled.Settled.{Settled};
ghost use Rattle.rule_model.specs.declared.event.Event.{Event};
ghost use Rattle.rule_model.specs.declared.reply.Fields.{Fields};
ghost use Rattle.rule_model.specs.declared.reply.Reply.TheVariants.{Done};
ghost use Rattle.rule_model.specs.Entries.{History, after_step};
ghost use Rattle.rule_model.specs.Legal.{MayStep};
ghost use Rattle.rule_model.specs.Setup.{Setup};
ghost use Rattle.keystore_core.specs.Engine.{Stands};
ghost use Rattle.keystore_core.specs.Outputs.{PutsOut, most_for};

use super::Engine;
use rule_model::Act;

impl Engine {
    /// How many bytes the output in the reply to the leave has at most, where an enter of this act is admitted now: at most
    /// 1,048,656, and none but for an update and a finish; by the operation's plan, so that the room for a mac is small and that for
    /// a part of a text is little more than the part. It takes no memory.
    pub fn most_out(&self, act: &Act) -> u64
        ensures most { result ≤ 1048656 }
        ensures small { (setup : Setup) (past : History) → Stands setup self.now past → result ≤ most_for setup past act.now }
        ensures out { (setup : Setup) (past : History) (settled : Option Settled) (event : Event) (drawn : List ℕ) (fields : Fields) (ticket : ℕ) →
            Stands setup self.now past → event.act ≡ act.now → MayStep setup past settled event drawn (Done fields) → fields.ticket ≡ Some ticket →
            PutsOut setup (after_step settled event drawn (Done fields) past) ticket result }
    {
        self.tables.most_out(act)
    }
}
