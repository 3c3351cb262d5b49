//! The lasting part over a store of two areas.

ghost use Rattle.std.specs.Prelude.{◌≡◌, ◌≤◌, ◌+◌, ◌-◌, ℕ, List, [], true, false, None, Some, is_some, IsErrOf, OnOk, OnErr, IfOk, is_err, not};
ghost use Rattle.std.specs.Option.{ForSome};
ghost use Rattle.ks_outside.specs.Images.{AllImages, Goes, Passes, Reads, tells};
ghost use Rattle.tags.specs.declared.settled.Settled.TheVariants.{Lost};
ghost use Rattle.journal_records.specs.declared.change.Change.{Change};
ghost use Rattle.journal_records.specs.Commits.{apply_failed, apply_state, open_failed};
ghost use Rattle.journal_records.specs.LastingPart.{Lasting, empty_lasting};
ghost use Rattle.journal_records.specs.Needs.{is_met};
ghost use Rattle.journal_records.specs.Holding.{Holding, Sure, after_commit, after_settle, known};
ghost use Rattle.journal_records.specs.Storable.{IsStorable, snapshot_length};
ghost use Rattle.journal_compact.specs.Formats.{IsOlder};
ghost use Rattle.journal_compact.specs.Holding.{ReformedFrom, is_turning, is_waiting, place_of, record_bytes, write_state};
ghost use Rattle.lasting_table.specs.TableView.{CanMake, HasRoomForGrant, HasRoomForKey, KeepsRoom, takes_memory};
ghost use Rattle.key_database.specs.Adding.{KeepsSurely, StepsSurely};
ghost use Rattle.key_database.specs.Compacting.{ExtentAfter, extent_of, is_due, most_bytes};
ghost use Rattle.key_database.specs.Store.{MayBe, StandsFor};

use crate::adopting::to_areas;
use crate::appending::write_change;
use crate::law::one_store;
use crate::opening::{Found, read_store};
use journal_compact::{Areas, StorePlace, one_format};
use journal_records::{ApplyFault, Change, StoreFault};
use ks_outside::{Disk, Failed};
use lasting_table::LastingTable;
use std::alloc::Global;
use tags::{NoMemory, Settled};

/// The keys and grants that last, and the areas that they lie in. While a change whose writing failed waits to be
/// settled, also that change, with the room for it.
#[derive(Drop)]
pub struct KeyDatabase {
    pub(crate) areas: Areas,
    pub(crate) table: LastingTable,
    pending: Option<Change>,
    ghost waits: { is_waiting areas ≡ is_some pending },
    ghost can: { ForSome pending (λ change. CanMake table change) },
}

impl KeyDatabase {
    ghost use Rattle.key_database.specs.Stands.{areas_of, change_bytes, lasting, part_after, table_of, is_unsettled, pending_of, waiting_after, Commits, SamePart, SettledBy, Holds, IsReadAgain, Rereads, SameStore, TakesOver, ReadsStore, FindsStore, StaysFor, WhereRefused, Brings};

    /// Syncs, reads the store that the disk holds, record by record, and tests the need of each. Corrupted has the place of what
    /// is wrong first: of what is no store, and where it is one of the first record whose need is not met.
    ///
    /// A journal, which is the older format, is then brought to areas: at each moment each image stands for what all stood for at the start.
    /// Nothing is written to a store of areas, to one that is refused, and where memory is wanting.
    pub fn open<D: Disk>(alloc: Global, disk: &mut D) -> Result<KeyDatabase, StoreFault>
        ensures holds { IfOk result (λ database. Holds D.Disk database disk.new (Sure (lasting database))) }
        ensures idle { IfOk result (λ database. pending_of database ≡ None) }
        ensures storable { IfOk result (λ database. IsStorable (lasting database)) }
        ensures reads { AllImages D.Disk disk.new (λ image. ReadsStore image result) }
        ensures stands { (part : Lasting) → AllImages D.Disk disk.old (StandsFor part)
            → tells D.Disk disk.old ≡ true → FindsStore part result }
        ensures stays { (part : Lasting) → AllImages D.Disk disk.old (StandsFor part) → StaysFor D.Disk disk.old disk.new part }
        ensures brings { Brings D.Disk disk.old disk.new }
        ensures newer { AllImages D.Disk disk.old (λ image. IsOlder image → ⊥) → Reads D.Disk disk.old disk.new (open_failed result) }
        ensures refused { WhereRefused result (Reads D.Disk disk.old disk.new false) }
        ensures goes { Goes D.Disk disk.old disk.new (open_failed result) }
    {
        one_store();
        one_format();
        let (found, table) = match read_store(alloc, disk) {
            Ok(read) => read,
            Err(fault) => return Err(fault),
        };
        table.storable();
        match to_areas(disk, found, &table) {
            Ok(areas) => Ok(KeyDatabase {
                areas,
                table,
                pending: None,
            }),
            Err(Failed) => {
                drop(table);
                Err(StoreFault::Device)
            }
        }
    }

    /// The keys, the grants and the next numbers, with their look-ups.
    pub fn table(&self) -> &LastingTable
        ensures { result.now ≡ table_of self.now }
    {
        &self.table
    }

    /// Whether no change waits to be settled. It takes no memory.
    pub fn is_settled(&self) -> bool
        ensures { result ≡ not (is_unsettled self.now) }
    {
        self.areas.is_settled()
    }

    /// Where the store is. It takes no memory.
    pub fn place(&self) -> StorePlace
        ensures { result ≡ place_of (areas_of self.now) }
    {
        self.areas.place()
    }

    /// Writes an empty store, a sync behind each write: a crash leaves the store that was, or the empty one. It takes no memory.
    pub fn format<D: Disk>(disk: &mut D) -> Result<(), Failed>
        ensures formatted { OnOk result (AllImages D.Disk disk.new (StandsFor empty_lasting)) }
        ensures passes { Passes D.Disk disk.old disk.new (ReformedFrom D.Disk disk.old) }
        ensures torn { AllImages D.Disk disk.new (ReformedFrom D.Disk disk.old) }
        ensures goes { Goes D.Disk disk.old disk.new (is_err result) }
    {
        Areas::format(disk)
    }

    /// Makes room for one more key, so that `commit` of one takes no memory.
    pub fn reserve_key(&mut self) -> Result<(), NoMemory>
        ensures room { OnOk result (HasRoomForKey (table_of self.new)) }
        ensures kept { KeepsRoom (table_of self.old) (table_of self.new) }
        ensures same { SameStore self.old self.new }
    {
        self.table.reserve_key()
    }

    /// Makes room for one more grant, so that `commit` of one takes no memory.
    pub fn reserve_grant(&mut self) -> Result<(), NoMemory>
        ensures room { OnOk result (HasRoomForGrant (table_of self.new)) }
        ensures kept { KeepsRoom (table_of self.old) (table_of self.new) }
        ensures same { SameStore self.old self.new }
    {
        self.table.reserve_grant()
    }

    /// Makes a change on the disk, and then here; there is room for it. At each moment each image stands for the lasting
    /// part before, or for that with the change. It takes no memory.
    ///
    /// The store is written anew before the change where that is due, and after Ok its records have at most 65,536 bytes,
    /// twice the snapshot before the change, and this record. After a failure the database is unsettled, and tells what it
    /// told before.
    pub fn commit<D: Disk>(&mut self, disk: &mut D, change: Change) -> Result<(), Failed>
        requires settled { is_unsettled self.old ≡ false }
        requires can { CanMake (table_of self.old) change }
        ensures commits { (before : Holding) → Holds D.Disk self.old disk.old before
            → Commits D.Disk self.new disk.old disk.new change (write_state result) before }
        ensures surely { (before : Holding) → Holds D.Disk self.old disk.old before → D.is_sure disk.old → tells D.Disk disk.old ≡ true
            → StepsSurely D.Disk (areas_of self.old) (areas_of self.new) disk.old disk.new (known before) (known (after_commit change (write_state result) before)) }
        ensures made { lasting self.new ≡ part_after change (write_state result) (lasting self.old) }
        ensures waiting { is_unsettled self.new ≡ is_err result }
        ensures pending { pending_of self.new ≡ waiting_after change (write_state result) }
        ensures compacts { ExtentAfter (is_due (record_bytes (areas_of self.old)) (snapshot_length (lasting self.old)) (change_bytes change))
            (snapshot_length (lasting self.old)) (change_bytes change) (extent_of (areas_of self.old)) (extent_of (areas_of self.new)) (write_state result) }
        ensures bounded { OnOk result (record_bytes (areas_of self.new) ≤ most_bytes (snapshot_length (lasting self.old)) + (change_bytes change - 1)) }
        ensures goes { Goes D.Disk disk.old disk.new (is_err result) }
    {
        match write_change(&mut self.areas, disk, &self.table, &change) {
            Ok(()) => {
                self.table.make(change);
                Ok(())
            }
            Err(Failed) => {
                self.pending = Some(change);
                Err(Failed)
            }
        }
    }

    /// Takes memory for a change, and makes it as `commit` does.
    ///
    /// Memory comes before the first call of the disk, and only at a change that makes a key or a grant.
    pub fn apply<D: Disk>(&mut self, disk: &mut D, change: Change) -> Result<(), ApplyFault>
        requires settled { is_unsettled self.old ≡ false }
        requires met { is_met (lasting self.old) change ≡ true }
        ensures commits { (before : Holding) → Holds D.Disk self.old disk.old before
            → Commits D.Disk self.new disk.old disk.new change (apply_state result) before }
        ensures surely { (before : Holding) → Holds D.Disk self.old disk.old before → D.is_sure disk.old → tells D.Disk disk.old ≡ true
            → StepsSurely D.Disk (areas_of self.old) (areas_of self.new) disk.old disk.new (known before) (known (after_commit change (apply_state result) before)) }
        ensures made { lasting self.new ≡ part_after change (apply_state result) (lasting self.old) }
        ensures waiting { is_unsettled self.new ≡ apply_failed result }
        ensures pending { pending_of self.new ≡ waiting_after change (apply_state result) }
        ensures compacts { ExtentAfter (is_due (record_bytes (areas_of self.old)) (snapshot_length (lasting self.old)) (change_bytes change))
            (snapshot_length (lasting self.old)) (change_bytes change) (extent_of (areas_of self.old)) (extent_of (areas_of self.new)) (apply_state result) }
        ensures bounded { OnOk result (record_bytes (areas_of self.new) ≤ most_bytes (snapshot_length (lasting self.old)) + (change_bytes change - 1)) }
        ensures memory { IsErrOf result ApplyFault.Memory → (takes_memory change ≡ true) × (disk.new ≡ disk.old) }
        ensures goes { Goes D.Disk disk.old disk.new (apply_failed result) }
    {
        let Ok(()) = self.table.reserve(&change) else {
            return Err(ApplyFault::Memory);
        };
        match self.commit(disk, change) {
            Ok(()) => Ok(()),
            Err(Failed) => Err(ApplyFault::Device),
        }
    }

    /// Reads the store again, and tells whether it is the same lasting part; where it is, also where its records end now. It writes nothing.
    /// Over a disk that tells its bytes it answers neither false nor Corrupted.
    pub fn read_again<D: Disk>(&mut self, alloc: Global, disk: &mut D) -> Result<bool, StoreFault>
        requires { is_unsettled self.old ≡ false }
        ensures holds { (held : Holding) → Holds D.Disk self.old disk.old held → Holds D.Disk self.new disk.new held }
        ensures passes { (held : Holding) → Holds D.Disk self.old disk.old held
            → Passes D.Disk disk.old disk.new (MayBe held) }
        ensures same { (held : Holding) → Holds D.Disk self.old disk.old held → tells D.Disk disk.old ≡ true
            → IsReadAgain result }
        ensures surely { (held : Holding) → Holds D.Disk self.old disk.old held → D.is_sure disk.old → tells D.Disk disk.old ≡ true
            → StepsSurely D.Disk (areas_of self.old) (areas_of self.new) disk.old disk.new (known held) (known held) }
        ensures reads { AllImages D.Disk disk.new (λ image. Rereads (lasting self.old) image result) }
        ensures settled { is_unsettled self.new ≡ false }
        ensures part { SamePart self.old self.new }
        ensures taken { TakesOver D.Disk self.old self.new disk.new result }
        ensures goes { Reads D.Disk disk.old disk.new (open_failed result) }
    {
        one_store();
        one_format();
        match read_store(alloc, disk) {
            Ok((Found::Areas(areas), table)) => {
                let same = self.table.same(&table);
                drop(table);
                if !same {
                    return Ok(false);
                }
                self.areas = areas.going_on(&self.areas);
                Ok(true)
            }
            Ok((Found::Journal, table)) => {
                drop(table);
                Ok(false)
            }
            Err(fault) => Err(fault),
        }
    }

    /// Finds out what became of a change that waits, and makes it here where the disk has it. Where a call of the disk fails,
    /// the database stays unsettled. A change before which the store was to be written anew is lost, and over a sure disk that tells its bytes
    /// each one is. It takes no memory.
    pub fn settle<D: Disk>(&mut self, disk: &mut D) -> Result<Settled, Failed>
        requires { is_unsettled self.old ≡ true }
        ensures holds { (before : Holding) → Holds D.Disk self.old disk.old before
            → Holds D.Disk self.new disk.new (after_settle result before) }
        ensures passes { (before : Holding) → Holds D.Disk self.old disk.old before
            → Passes D.Disk disk.old disk.new (MayBe before) }
        ensures kept { OnErr result (SameStore self.old self.new) }
        ensures settled { (change : Change) → pending_of self.old ≡ Some change → SettledBy change result self.old self.new }
        ensures lost { is_turning (areas_of self.old) ≡ true → IfOk result (λ settled. settled ≡ Lost) }
        ensures unfound { (before : Holding) → Holds D.Disk self.old disk.old before → KeepsSurely D.Disk (areas_of self.old) disk.old (known before)
            → IfOk result (λ settled. settled ≡ Lost) }
        ensures surely { (before : Holding) → Holds D.Disk self.old disk.old before → KeepsSurely D.Disk (areas_of self.old) disk.old (known before)
            → StepsSurely D.Disk (areas_of self.old) (areas_of self.new) disk.old disk.new (known before) (known (after_settle result before)) }
        ensures waiting { is_unsettled self.new ≡ is_err result }
        ensures goes { Reads D.Disk disk.old disk.new (is_err result) }
    {
        match self.areas.settle(disk) {
            Ok(Settled::Kept) => {
                let Some(change) = self.pending.take() else {
                    unreachable!()
                };
                self.table.make(change);
                Ok(Settled::Kept)
            }
            Ok(Settled::Lost) => {
                self.pending = None;
                Ok(Settled::Lost)
            }
            Err(Failed) => Err(Failed),
        }
    }
}
