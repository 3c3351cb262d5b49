//! The engine's step.

ghost use Rattle.std.specs.Prelude.{◌≡◌, ◌≢◌, ℕ, ◌+◌, ◌^◌, ◌<◌, ◌≤◌, [], List, Some, None, true, false, is_err, length, IfOk, IfSome, OnOk};
ghost use Rattle.cipher_ops.specs.Jobs.{ticket_of};
ghost use Rattle.ks_outside.specs.Shown.{Drew};
ghost use Rattle.tags.specs.declared.code.Code.TheVariants.{SystemError};
ghost use Rattle.tags.specs.declared.settled.Settled.TheVariants.{Kept};
ghost use Rattle.rule_model.specs.declared.reply.Reply.TheVariants as replies;
ghost use Rattle.rule_model.specs.Acts.{is_restart};
ghost use Rattle.rule_model.specs.Drawn.{is_entropy_fault};
ghost use Rattle.rule_model.specs.Entries.{History, after_settling, after_step};
ghost use Rattle.rule_model.specs.Jobs.{HasDone, HasJob, Stays};
ghost use Rattle.rule_model.specs.Kept.{kept};
ghost use Rattle.rule_model.specs.Legal.{MayStep};
ghost use Rattle.rule_model.specs.ReplyRooms.{Fits, sizes_of};
ghost use Rattle.rule_model.specs.Setup.{Setup};
ghost use Rattle.rule_model.specs.Settling.{is_disk_fault};
ghost use Rattle.journal_compact.specs.Holding.{ReformedFrom, place_of};
ghost use Rattle.journal_records.specs.LastingPart.{Lasting, empty_lasting};
ghost use Rattle.key_database.specs.Adding.{StepsSurely};
ghost use Rattle.key_database.specs.Store.{StandsFor};
ghost use Rattle.ks_outside.specs.Images.{AllImages, Goes, Passes, tells};
ghost use Rattle.journal_records.specs.Commits.{open_failed};
ghost use Rattle.keystore_core.specs.Complete.{GivesAnswer, HasNoFault};
ghost use Rattle.keystore_core.specs.Restarting.{HasRead, is_other_store};
ghost use Rattle.keystore_core.specs.Engine.{entries_made as made_by};
ghost use Rattle.keystore_core.specs.Opening.{IsBrought, LeavesRefused};
ghost use Rattle.keystore_core.specs.Outputs.{HasOutRoom};
ghost use Rattle.keystore_core.specs.Tables.{IsTables};
ghost use Rattle.tags.specs.declared.limits.TheConstants.{MOST_SLOTS};

use crate::tables::Tables;
use cipher_ops::Done;
use journal_compact::StorePlace;
use journal_records::StoreFault;
use key_database::KeyDatabase;
use ks_outside::{Disk, Entropy, Failed};
use rule_model::{Event, Reply, Stepped};
use std::alloc::Global;
use tags::{Bytes, Code, DeviceSecrets, NoMemory, Policy, Settled};

mod most_out;

/// The engine of the service.
#[derive(Drop)]
pub struct Engine {
    alloc: Global,
    /// how many entries were made
    entries: u64,
    tables: Tables,
}

/// The same policy once more.
fn copied(alloc: Global, policy: &Policy) -> Result<Policy, NoMemory>
    ensures { IfOk result (λ copy. copy ≡ policy.now) }
{
    let mut rows = Vec::new(alloc);
    rows.extend_from_slice(policy.rows())?;
    match Policy::of(rows) {
        Some(copy) => Ok(copy),
        None => unreachable!(),
    }
}

/// How many entries a step makes, by what it settled first.
fn entries_made(settled: Option<Settled>) -> u64
    ensures { result ≡ made_by settled }
{
    match settled {
        Some(_) => 2,
        None => 1,
    }
}

/// A device's root of trust has 32 bytes, as its type says.
fn root_is_whole(device: &DeviceSecrets)
    ensures { length device.now.root ≡ 32 }
{
    let _root = device.root;
}

impl Engine {
    ghost use Rattle.keystore_core.specs.Engine.{IsOpened, MayHoldEither, MayTake, OpensFor, OpensStore, Stands, StandsAtFirst, StandsForSome, StandsSurely, StoreStands, areas_in, entries_made, entries_of, lasting_of, tickets_of};

    /// Writes an empty store, a sync behind each write: a crash leaves the store that was, or the empty one. It takes no memory.
    pub fn format<D: Disk>(disk: &mut D) -> Result<(), Failed>
        ensures formatted { OnOk result (AllImages D.Disk disk.new (StandsFor empty_lasting)) }
        ensures passes { Passes D.Disk disk.old disk.new (ReformedFrom D.Disk disk.old) }
        ensures goes { Goes D.Disk disk.old disk.new (is_err result) }
    {
        KeyDatabase::format(disk)
    }

    /// Reads the store that the disk holds, for an engine under a policy, without clients and operations, with 1 to `MOST_SLOTS`
    /// slots: it stands for the empty history over the lasting part that the bytes stand for. Corrupted has the place of
    /// what is wrong first in them.
    ///
    /// A store of the older format is brought to areas: at each moment each image stands for what all stood for at the start. Nothing
    /// is written to a store of areas, nor to one that is refused.
    pub fn open<D: Disk>(
        alloc: Global,
        device: &DeviceSecrets,
        policy: &Policy,
        slots: usize,
        disk: &mut D,
    ) -> Result<Engine, StoreFault>
        requires some { 0 < slots }
        requires few { slots ≤ MOST_SLOTS }
        ensures stands { IfOk result (λ engine. (setup : Setup) → IsOpened setup device.now policy.now slots engine → Stands setup engine []) }
        ensures holds { IfOk result (λ engine. (setup : Setup) → IsOpened setup device.now policy.now slots engine → StoreStands D.Disk setup engine disk.new []) }
        ensures first { IfOk result StandsAtFirst }
        ensures store { IfOk result (λ engine. (setup : Setup) → Stands setup engine [] → StoreStands D.Disk setup engine disk.new []) }
        ensures surely { IfOk result (λ engine. (setup : Setup) → Stands setup engine [] → D.is_sure disk.new → tells D.Disk disk.new ≡ true → StandsSurely D.Disk setup engine disk.new []) }
        ensures reads { AllImages D.Disk disk.new (λ image. OpensStore image result) }
        ensures finds { (part : Lasting) → AllImages D.Disk disk.old (StandsFor part) → tells D.Disk disk.old ≡ true → OpensFor part result }
        ensures entries { IfOk result (λ engine. entries_of engine ≡ 0) }
        ensures brought { IsBrought D.Disk disk.old disk.new }
        ensures refused { LeavesRefused D.Disk disk.old disk.new result }
        ensures goes { Goes D.Disk disk.old disk.new (open_failed result) }
    {
        let Ok(policy) = copied(alloc, policy) else {
            return Err(StoreFault::Memory);
        };
        let keys = match KeyDatabase::open(alloc, disk) {
            Ok(keys) => keys,
            Err(fault) => return Err(fault),
        };
        match Tables::new(alloc, device, policy, slots, keys) {
            Ok(tables) => Ok(Engine {
                alloc,
                entries: 0,
                tables,
            }),
            Err(NoMemory) => Err(StoreFault::Memory),
        }
    }

    /// Where the store is. It takes no memory.
    pub fn place(&self) -> StorePlace
        ensures { result ≡ place_of (areas_in self.now) }
    {
        self.tables.keys.place()
    }

    /// The number that the next ticket takes.
    pub fn next_ticket(&self) -> u64
        requires few { entries_of self.now < 2 ^ 62 }
        requires stands { ∥ StandsForSome self.now ∥₁ }
        ensures { result ≡ tickets_of self.now + 1 }
    {
        self.tables.tickets.next()
    }

    /// The step of an act that is not made, since an earlier change could not be settled. It takes no memory.
    fn not_settled(&mut self) -> Stepped
        requires { entries_of self.old < 2 ^ 62 }
        ensures reply { result ≡ record { settled = None; reply = replies.Stopped SystemError; job = None; drawn = [] } }
        ensures entries { self.new ≡ record self.old { entries = self.old.entries + 1 } }
    {
        self.entries += 1;
        Stepped {
            settled: None,
            reply: Reply::Stopped {
                code: Code::SystemError,
            },
            job: None,
            drawn: Bytes::empty(self.alloc),
        }
    }

    /// Takes one event; a leave of a ticket that is out with what its job came back with, which no other event looks at. Where
    /// an earlier change waits to be settled, every act but a leave and a disconnect settles it first. What the engine stood
    /// for goes on by one step: what it settled, and the event with the bytes that were drawn for it and the reply. There is a
    /// job exactly where the reply gives a ticket, which an admitted enter alone does. It is the work of its operation, and
    /// stays so as long as the ticket is out. The bytes are those that the entropy gave, and a draw failed exactly where the
    /// reply says so. Where no call failed, the reply is that of the rules, or memory was wanting. Each
    /// reply fits the room that can be taken for it before the step, by the act and for a leave by what its work puts out.
    /// Over a sure disk that tells its bytes, each image goes on to stand for what the history keeps, no settling says kept, and the places
    /// before and after the step tell what it added to the store's records.
    pub fn step<D: Disk, N: Entropy>(
        &mut self,
        disk: &mut D,
        entropy: &mut N,
        event: Event,
        done: Option<Done>,
    ) -> Stepped
        requires few { entries_of self.old < 2 ^ 62 }
        requires takes { ∥ MayTake self.old event.act done ∥₁ }
        ensures stands { (setup : Setup) (past : History) → Stands setup self.old past → HasDone setup past event.act done →
            Stands setup self.new (after_step result.settled event result.drawn result.reply past) }
        ensures follows { (setup : Setup) (past : History) → Stands setup self.old past → HasDone setup past event.act done →
            MayStep setup past result.settled event result.drawn result.reply }
        ensures job { (setup : Setup) (past : History) → Stands setup self.old past → HasDone setup past event.act done →
            HasJob setup (after_step result.settled event result.drawn result.reply past) result.reply result.job }
        ensures stays { (setup : Setup) (past : History) → Stands setup self.old past → HasDone setup past event.act done →
            Stays setup past (after_step result.settled event result.drawn result.reply past) }
        ensures fits { (setup : Setup) (past : History) (out : ℕ) → Stands setup self.old past → HasDone setup past event.act done →
            HasOutRoom setup past event.act out → Fits (sizes_of event.act out) result.reply }
        ensures number { IfSome result.job (λ job. ticket_of job ≡ tickets_of self.old + 1) }
        ensures entries { entries_of self.new ≡ entries_of self.old + entries_made result.settled }
        ensures store { (setup : Setup) (past : History) → Stands setup self.old past → StoreStands D.Disk setup self.old disk.old past →
            StoreStands D.Disk setup self.new disk.new (after_step result.settled event result.drawn result.reply past) }
        ensures passes { (setup : Setup) (past : History) → Stands setup self.old past → StoreStands D.Disk setup self.old disk.old past →
            Passes D.Disk disk.old disk.new (MayHoldEither setup past (after_step result.settled event result.drawn result.reply past)) }
        ensures surely { (setup : Setup) (past : History) → Stands setup self.old past → StoreStands D.Disk setup self.old disk.old past →
            StandsSurely D.Disk setup self.old disk.old past →
            StepsSurely D.Disk (areas_in self.old) (areas_in self.new) disk.old disk.new (kept setup past) (kept setup (after_step result.settled event result.drawn result.reply past)) }
        ensures unfound { (setup : Setup) (past : History) → Stands setup self.old past → StoreStands D.Disk setup self.old disk.old past →
            StandsSurely D.Disk setup self.old disk.old past → result.settled ≢ Some Kept }
        ensures same { (setup : Setup) (past : History) → Stands setup self.old past → StoreStands D.Disk setup self.old disk.old past →
            tells D.Disk disk.old ≡ true → is_other_store result.reply ≡ false }
        ensures reads { is_restart event.act ≡ true → HasRead D.Disk disk.new (lasting_of self.new) result.reply }
        ensures complete { (setup : Setup) (past : History) → Stands setup self.old past → HasDone setup past event.act done →
            HasNoFault (D.fault_count disk.old) (D.fault_count disk.new) → HasNoFault (N.fault_count entropy.old) (N.fault_count entropy.new) →
            GivesAnswer setup (after_settling result.settled past) event result.drawn result.reply }
        ensures goes { Goes D.Disk disk.old disk.new (is_disk_fault result.reply) }
        ensures drew { Drew N.Entropy entropy.old entropy.new result.drawn (is_entropy_fault result.reply) }
    {
        root_is_whole(&self.tables.device);
        let settled = match self.tables.settle_first(disk, &event.act) {
            Ok(settled) => settled,
            Err(Failed) => {
                drop(event);
                return self.not_settled();
            }
        };
        let step = self.entries + entries_made(settled);
        let answered = self
            .tables
            .answer(self.alloc, disk, entropy, step, event, done);
        self.entries = step;
        Stepped {
            settled,
            reply: answered.reply,
            job: answered.job,
            drawn: answered.drawn,
        }
    }
}
