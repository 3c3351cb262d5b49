//! The restart: the store is read again, and all else is forgotten.

ghost use Rattle.std.specs.Prelude.{◌≡◌, true, false, None, IfOk};
ghost use Rattle.ks_outside.specs.Images.{tells};
ghost use Rattle.journal_records.specs.Holding.{Holding};
ghost use Rattle.key_database.specs.Stands.{Holds, lasting};
ghost use Rattle.rule_model.specs.declared.event.Act.TheVariants as acts;
ghost use Rattle.keystore_core.specs.Drawn.{IsUndrawn};
ghost use Rattle.keystore_core.specs.Keys.{AreSettled};
ghost use Rattle.keystore_core.specs.Restarting.{Forgets, HasRead, is_other_store};
ghost use Rattle.keystore_core.specs.Tables.{ServesAfter, event_by};
ghost use Rattle.keystore_core.specs.Writing.{StoreGoesAfter};

use crate::answered::Answered;
use crate::tables::Tables;
use journal_records::StoreFault;
use ks_outside::Disk;
use rule_model::{Caller, NO_FIELDS, Reply};
use std::alloc::Global;
use tags::{Code, NoMemory};

impl Tables {
    /// Forgets clients, operations and tickets, and takes a root of trust where one is given.
    fn forget(&mut self, root: Option<[u8; 32]>)
        ensures { Forgets root self.old self.new }
    {
        self.clients.clear();
        self.operations.clear();
        self.slots.clear();
        self.tickets.clear();
        self.boot.restart();
        if let Some(root) = root {
            self.device.root = root;
        }
    }

    /// The service starts anew: the store is read again, and what does not last is gone.
    pub fn restart<D: Disk>(
        &mut self,
        alloc: Global,
        disk: &mut D,
        caller: Caller,
        root: Option<[u8; 32]>,
    ) -> Result<Answered, NoMemory>
        requires { AreSettled self.old }
        ensures serves { ServesAfter self.old self.new (event_by caller (acts.Restart root)) result }
        ensures job { IfOk result (λ answered. answered.job ≡ None) }
        ensures drew { IfOk result (λ answered. IsUndrawn answered) }
        ensures store { StoreGoesAfter D.Disk self.old self.new disk.old disk.new caller (acts.Restart root) result }
        ensures same { (held : Holding) → Holds D.Disk self.old.keys disk.old held → tells D.Disk disk.old ≡ true
            → IfOk result (λ answered. is_other_store answered.reply ≡ false) }
        ensures reads { IfOk result (λ answered. HasRead D.Disk disk.new (lasting self.new.keys) answered.reply) }
    {
        match self.keys.read_again(alloc, disk) {
            Ok(true) => {
                self.forget(root);
                Ok(Answered::undrawn(alloc, Reply::Done(NO_FIELDS)))
            }
            Ok(false) => Ok(Answered::stopped(alloc, Code::ValueCorrupted)),
            Err(StoreFault::Corrupted { .. }) => {
                Ok(Answered::stopped(alloc, Code::ValueCorrupted))
            }
            Err(StoreFault::Memory) => Err(NoMemory),
            Err(StoreFault::Device) => Ok(Answered::stopped(alloc, Code::SystemError)),
        }
    }
}
