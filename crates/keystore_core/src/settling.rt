//! Settling: what became of a change whose device call failed is found out before an act that settles first.

ghost use Rattle.std.specs.Prelude.{◌≡◌, ◌≢◌, true, is_err, IfOk, Some};
ghost use Rattle.ks_outside.specs.Images.{Goes, Passes};
ghost use Rattle.journal_records.specs.Holding.{Holding, known};
ghost use Rattle.key_database.specs.Adding.{KeepsSurely, StepsSurely};
ghost use Rattle.key_database.specs.Stands.{Holds, areas_of};
ghost use Rattle.tags.specs.declared.settled.Settled.TheVariants.{Kept};
ghost use Rattle.key_database.specs.Store.{MayBe};
ghost use Rattle.rule_model.specs.Acts.{fixed_for};
ghost use Rattle.keystore_core.specs.Keys.{AreSettled};
ghost use Rattle.keystore_core.specs.Settling as spec;

use crate::tables::Tables;
use ks_outside::{Disk, Failed};
use rule_model::Act;
use tags::Settled;

impl Tables {
    /// Settles a change that waits, where the act settles first; `None` where none waits, or the act settles nothing. Where
    /// a call of the disk failed, all is as it was. Over a sure disk that tells its bytes none is ever kept. It takes no memory.
    pub fn settle_first<D: Disk>(
        &mut self,
        disk: &mut D,
        act: &Act,
    ) -> Result<Option<Settled>, Failed>
        ensures stands { spec.SettlesFirst self.old self.new act.now result }
        ensures rest { self.new ≡ record self.old { keys = self.new.keys } }
        ensures ready { IfOk result (λ settled. (fixed_for act.now).settles ≡ true → AreSettled self.new) }
        ensures holds { (held : Holding) → Holds D.Disk self.old.keys disk.old held → Holds D.Disk self.new.keys disk.new (spec.after_first result held) }
        ensures passes { (held : Holding) → Holds D.Disk self.old.keys disk.old held → Passes D.Disk disk.old disk.new (MayBe held) }
        ensures goes { Goes D.Disk disk.old disk.new (is_err result) }
        ensures surely { (held : Holding) → Holds D.Disk self.old.keys disk.old held → KeepsSurely D.Disk (areas_of self.old.keys) disk.old (known held)
            → StepsSurely D.Disk (areas_of self.old.keys) (areas_of self.new.keys) disk.old disk.new (known held) (known (spec.after_first result held)) }
        ensures unfound { (held : Holding) → Holds D.Disk self.old.keys disk.old held → KeepsSurely D.Disk (areas_of self.old.keys) disk.old (known held)
            → IfOk result (λ settled. settled ≢ Some Kept) }
    {
        if self.keys.is_settled() || !act.settles() {
            return Ok(None);
        }
        match self.keys.settle(disk) {
            Ok(settled) => Ok(Some(settled)),
            Err(Failed) => Err(Failed),
        }
    }
}
