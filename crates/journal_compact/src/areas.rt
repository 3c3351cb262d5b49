//! A store of two areas: formatting it, adding to it, writing it anew, and settling what failed.

ghost use Rattle.std.specs.Prelude.{◌≡◌, ◌≤◌, ◌<◌, ◌+◌, ℕ, List, [], length, reverse, true, false, not, is_err, OnOk, OnErr, IfOk, IfErr, ◌∷◌};
ghost use Rattle.std.specs.Option.{ForSome};
ghost use Rattle.ks_outside.specs.Images.{AllImages, Goes, Passes, Reads, tells};
ghost use Rattle.disk_calls.specs.Still.{IsStill};
ghost use Rattle.gated_records.specs.Areas.{HoldsAt};
ghost use Rattle.tags.specs.declared.settled.Settled.TheVariants.{Lost};
ghost use Rattle.journal_records.specs.declared.record.Record.{Record};
ghost use Rattle.journal_records.specs.Commits.{open_failed};
ghost use Rattle.journal_records.specs.Spelling.{record_closed, IsRecord};
ghost use Rattle.journal_records.specs.Storable.{IsStorable, area_kinds, snapshot, snapshot_length};
ghost use Rattle.record_areas.specs.Frames.{Frame, IsMarked, past_of, placed};
ghost use Rattle.record_areas.specs.Holding as lower;
ghost use Rattle.record_areas.specs.Holding.{end_after, end_settled, pending_after};
ghost use Rattle.record_areas.specs.Readings as readings;
ghost use Rattle.journal_compact.specs.Waiting.{is_turn, next_of};
ghost use Rattle.journal_compact.specs.Stores.{AreAreaRecords, IsAreas, limit_of, other, selected_in, start_of};
ghost use Rattle.journal_compact.specs.declared.areas.Turn.TheVariants.{Copying, Idle, Selecting};
ghost use Rattle.journal_compact.specs.declared.places.TheConstants.{AREA_BYTES};
ghost use Rattle.journal_compact.specs.Turning.{seal};

use crate::older::{put_beside_journal, turn_journal};
use crate::opening::find_marks;
use crate::places::{AREA_A, SELECTOR, SELECTS_A, Selected};
use crate::store_place::{StorePlace, counted};
use crate::turning::{put_beside, turn_from};
use disk_calls::{read_synced_byte, sync_ahead, write_synced};
use gated_records::CLOSED;
use held_rows::Held;
use journal_records::{AREA_KINDS, AppendFault, StoreFault, storable_law};
use ks_outside::{Disk, Failed};
use record_areas::{Area, Reading, Records};
use std::alloc::Global;
use tags::Settled;

/// What of a compaction that failed waits to be settled.
#[derive(Clone, Copy, Debug)]
enum Turn {
    /// Nothing does.
    Idle,
    /// The snapshot was begun, and the selector was not.
    Copying,
    /// The selector was begun; the snapshot stands in the other area.
    Selecting { next: Area },
}

/// Which area of a store is selected, and the records in it; and how often it was written anew. While a compaction that failed waits to be
/// settled, also the other area, as far as it has come.
#[derive(Clone, Copy, Debug)]
pub struct Areas {
    selected: Selected,
    area: Area,
    turn: Turn,
    compactions: u64,
    ghost starts: { lower.start_of area ≡ start_of selected },
    ghost ends: { lower.limit_of area ≡ limit_of selected },
    ghost begins: { lower.start_of area ≤ lower.end_of area },
    ghost goes_on: { ForSome (lower.end_with area) (λ next. lower.end_of area ≤ next) },
    ghost one: { is_turn turn ≡ true → lower.is_waiting area ≡ false },
    ghost next_starts: { ForSome (next_of turn) (λ next. lower.start_of next ≡ start_of (other selected)) },
    ghost next_ends: { ForSome (next_of turn) (λ next. lower.limit_of next ≡ limit_of (other selected)) },
    ghost next_begins: { ForSome (next_of turn) (λ next. lower.start_of next ≤ lower.end_of next) },
    ghost next_idle: { ForSome (next_of turn) (λ next. lower.is_waiting next ≡ false) },
}

/// What an empty store of areas begins with, and behind it what an older reader would take for its first gate.
const FRESH: [u8; 13] = [
    0x4b, 0x53, 0x4a, 0x52, 0x4e, 0x4c, 0x30, 0x32, 0x4b, 0xff, 0xff, 0xff, 0xff,
];

impl Areas {
    ghost use Rattle.journal_compact.specs.Holding.{area_of, compactions_of, end_of, end_with, is_turning, is_waiting, place_of, record_bytes, selected_of, turn_of, SameTurn, StaysOrCounts};
    ghost use Rattle.journal_compact.specs.Holding.{Appends, Compacts, HoldsSurely, FindsAreas, IsSettledIn, IsSettledOn, IsTurningOn, IsUnsettledOn, ReadsAreas, ReformedFrom, SettlesTo, SettlesTurn, write_state};
    ghost use Rattle.journal_compact.specs.Counts.{IsCounted};
    ghost use Rattle.journal_compact.specs.Adopting.{Adopts, Comes};
    ghost use Rattle.journal_compact.specs.Older.{new_frame};
    ghost use Rattle.journal_compact.specs.declared.places.Selected.TheVariants.{A};
    ghost use Rattle.journal_compact.specs.declared.places.TheConstants.{JOURNAL_RECORDS};
    ghost use Rattle.use_journal.specs.Journal.{IsJournal};

    /// Writes an empty store, a sync behind each write: area A is emptied and selected before the front of the store is written. So a crash
    /// leaves the store that was, or the empty one. It takes no memory.
    pub fn format<D: Disk>(disk: &mut D) -> Result<(), Failed>
        ensures formatted { OnOk result (AllImages D.Disk disk.new (IsAreas [])) }
        ensures passes { Passes D.Disk disk.old disk.new (ReformedFrom D.Disk disk.old) }
        ensures torn { AllImages D.Disk disk.new (ReformedFrom D.Disk disk.old) }
        ensures goes { Goes D.Disk disk.old disk.new (is_err result) }
    {
        let Ok(()) = write_synced(disk, AREA_A, &[CLOSED]) else {
            return Err(Failed);
        };
        let Ok(()) = write_synced(disk, SELECTOR, &[SELECTS_A]) else {
            return Err(Failed);
        };
        write_synced(disk, 0, &FRESH)
    }

    /// The areas whose selected one a reading has come to the end of. It takes no memory.
    pub fn of(selected: Selected, reading: Reading) -> Areas
        requires start { readings.start_of reading ≡ start_of selected }
        requires limit { readings.limit_of reading ≡ limit_of selected }
        requires begins { readings.start_of reading ≤ readings.place_of reading }
        requires within { readings.place_of reading < readings.limit_of reading }
        ensures selected { selected_of result ≡ selected }
        ensures start { lower.start_of (area_of result) ≡ start_of selected }
        ensures limit { lower.limit_of (area_of result) ≡ limit_of selected }
        ensures end { end_of result ≡ readings.place_of reading }
        ensures idle { is_waiting result ≡ false }
        ensures new { compactions_of result ≡ 0 }
    {
        Areas {
            selected,
            area: reading.into_area(),
            turn: Turn::Idle,
            compactions: 0,
        }
    }

    /// Syncs, and reads the store of areas that the disk holds: the records of the selected one, each with the place of its gate. Corrupted has
    /// the place of what is wrong first, as it is read from left to right.
    pub fn open<D: Disk>(alloc: Global, disk: &mut D) -> Result<(Areas, Records), StoreFault>
        ensures settled { IfOk result (λ opened. IsSettledIn D.Disk opened.0 disk.new (past_of opened.1)) }
        ensures places { IfOk result (λ opened. opened.1 ≡ placed (start_of (selected_of opened.0)) (past_of opened.1)) }
        ensures new { IfOk result (λ opened. compactions_of opened.0 ≡ 0) }
        ensures reads { AllImages D.Disk disk.new (λ image. ReadsAreas image result) }
        ensures stands { (past : List Record) → AreAreaRecords past → AllImages D.Disk disk.old (IsAreas past)
            → tells D.Disk disk.old ≡ true → FindsAreas past result }
        ensures goes { Reads D.Disk disk.old disk.new (open_failed result) }
    {
        let marks = find_marks(disk)?;
        let selected = Selected::by(marks.selector);
        match Area::read(alloc, disk, selected.start(), selected.limit(), AREA_KINDS) {
            Ok((area, records)) => Ok((
                Areas {
                    selected,
                    area,
                    turn: Turn::Idle,
                    compactions: 0,
                },
                records,
            )),
            Err(fault) => Err(fault),
        }
    }

    /// The area that is selected, as far as is known. It takes no memory.
    pub fn selected(&self) -> Selected
        ensures { result ≡ selected_of self.now }
    {
        self.selected
    }

    /// How many bytes its records have. It takes no memory.
    pub fn record_bytes(&self) -> u64
        ensures { result ≡ record_bytes self.now }
    {
        self.area.end() - self.area.start()
    }

    /// Where the store is. It takes no memory.
    pub fn place(&self) -> StorePlace
        ensures { result ≡ place_of self.now }
    {
        StorePlace {
            selected: self.selected,
            bytes: self.record_bytes(),
            compactions: self.compactions,
        }
    }

    /// The same areas, of a store that was read again: the compactions that were made before count on. It takes no memory.
    pub fn going_on(self, before: &Areas) -> Areas
        ensures selected { selected_of result ≡ selected_of self }
        ensures area { area_of result ≡ area_of self }
        ensures turn { turn_of result ≡ turn_of self }
        ensures compactions { compactions_of result ≡ compactions_of before.now }
    {
        Areas {
            selected: self.selected,
            area: self.area,
            turn: self.turn,
            compactions: before.compactions,
        }
    }

    /// Whether neither a record nor a compaction waits to be settled. It takes no memory.
    pub fn is_settled(&self) -> bool
        ensures { result ≡ not (is_waiting self.now) }
    {
        match self.turn {
            Turn::Idle => self.area.is_settled(),
            Turn::Copying | Turn::Selecting { .. } => false,
        }
    }

    /// Adds a record to the selected area, framed, with a byte 00 behind it, as `Area::append` does. It takes no memory.
    pub fn append<D: Disk>(&mut self, disk: &mut D, closed: &[u8]) -> Result<(), Failed>
        requires settled { is_waiting self.old ≡ false }
        requires some { 2 ≤ length closed.now }
        requires fits { record_bytes self.old + length closed.now ≤ AREA_BYTES }
        ensures appends { (frame : Frame) (past : List Record) (it : Record) → IsSettledOn D.Disk self.old disk.old frame past
            → IsRecord frame.kinds it → closed.now ≡ record_closed it
            → Appends D.Disk self.new disk.old disk.new frame past it result }
        ensures same { SameTurn self.old self.new }
        ensures waiting { is_waiting self.new ≡ is_err result }
        ensures end { end_of self.new ≡ end_after (length closed.now) (write_state result) (end_of self.old) }
        ensures pending { end_with self.new ≡ pending_after (length closed.now) (write_state result) (end_of self.old) }
        ensures compactions { compactions_of self.new ≡ compactions_of self.old }
        ensures goes { Goes D.Disk disk.old disk.new (is_err result) }
    {
        match self.area.append(disk, closed) {
            Ok(()) => Ok(()),
            Err(AppendFault::Device) => Err(Failed),
            Err(AppendFault::Full) => unreachable!(),
        }
    }

    /// Writes the snapshot of what a table holds into the other area, with a byte 00 behind it, and syncs; selects that area, and syncs; seals
    /// the area that is left, and syncs. At each moment each image has the records that it had, or the snapshot. After a failure the areas are
    /// unsettled. It takes no memory.
    pub fn compact<D: Disk, K: Held>(&mut self, disk: &mut D, keys: &K) -> Result<(), Failed>
        requires settled { is_waiting self.old ≡ false }
        requires storable { IsStorable (K.part keys.now) }
        ensures compacts { (frame : Frame) (past : List Record) → IsSettledOn D.Disk self.old disk.old frame past
            → Compacts D.Disk self.new disk.old disk.new frame past (reverse (snapshot (K.part keys.now))) result }
        ensures selected { OnOk result (selected_of self.new ≡ other (selected_of self.old)) }
        ensures bytes { OnOk result (record_bytes self.new ≡ snapshot_length (K.part keys.now)) }
        ensures sealed { OnOk result (AllImages D.Disk disk.new (HoldsAt (start_of (selected_of self.old)) seal)) }
        ensures kept { OnErr result ((selected_of self.new ≡ selected_of self.old) × (area_of self.new ≡ area_of self.old)) }
        ensures counted { OnOk result (IsCounted (compactions_of self.old) (compactions_of self.new)) }
        ensures place { OnErr result (place_of self.new ≡ place_of self.old) }
        ensures turning { is_turning self.new ≡ is_err result }
        ensures waiting { is_waiting self.new ≡ is_err result }
        ensures goes { Goes D.Disk disk.old disk.new (is_err result) }
    {
        storable_law();
        let Ok(end) = put_beside(disk, self.selected, keys) else {
            self.turn = Turn::Copying;
            return Err(Failed);
        };
        let selected = self.selected.other();
        let area = Area::at(selected.start(), selected.limit(), end);
        let Ok(()) = turn_from(disk, self.selected) else {
            self.turn = Turn::Selecting { next: area };
            return Err(Failed);
        };
        *self = Areas {
            selected,
            area,
            turn: Turn::Idle,
            compactions: counted(self.compactions),
        };
        Ok(())
    }

    /// Brings a journal to areas: writes the snapshot of what a table holds, which is what the journal's records leave, into area A and
    /// selects it, and syncs; writes the version of a store of areas, and syncs; seals the journal, and syncs. At each moment each image is the
    /// journal, or a store of areas with the snapshot. It takes no memory.
    pub fn adopt<D: Disk, K: Held>(disk: &mut D, keys: &K) -> Result<Areas, Failed>
        requires { IsStorable (K.part keys.now) }
        ensures adopts { (past : List Record) → AllImages D.Disk disk.old (IsJournal past)
            → Adopts D.Disk disk.old disk.new past (reverse (snapshot (K.part keys.now))) result }
        ensures marked { (past : List Record) → AllImages D.Disk disk.old (IsJournal past) → OnOk result (AllImages D.Disk disk.new (IsMarked new_frame)) }
        ensures selected { IfOk result (λ areas. selected_of areas ≡ A) }
        ensures bytes { IfOk result (λ areas. record_bytes areas ≡ snapshot_length (K.part keys.now)) }
        ensures idle { IfOk result (λ areas. is_waiting areas ≡ false) }
        ensures new { IfOk result (λ areas. compactions_of areas ≡ 0) }
        ensures sealed { OnOk result (AllImages D.Disk disk.new (HoldsAt JOURNAL_RECORDS seal)) }
        ensures comes { Comes D.Disk disk.old disk.new }
        ensures goes { Goes D.Disk disk.old disk.new (is_err result) }
    {
        storable_law();
        let Ok(end) = put_beside_journal(disk, keys) else {
            return Err(Failed);
        };
        let selected = Selected::A;
        let area = Area::at(selected.start(), selected.limit(), end);
        let Ok(()) = turn_journal(disk) else {
            return Err(Failed);
        };
        Ok(Areas {
            selected,
            area,
            turn: Turn::Idle,
            compactions: 0,
        })
    }

    /// The areas once the selector was read behind a compaction that failed.
    fn chosen(&self, byte: Option<u8>, next: Area) -> Areas
        requires { turn_of self.now ≡ Selecting next }
        ensures idle { turn_of result ≡ Idle }
        ensures waiting { is_waiting result ≡ false }
        ensures selected { selected_of result ≡ selected_in byte }
        ensures same { selected_in byte ≡ selected_of self.now → area_of result ≡ area_of self.now }
        ensures other { (selected_in byte ≡ selected_of self.now → ⊥) → area_of result ≡ next }
        ensures place { StaysOrCounts (place_of self.now) (place_of result) }
    {
        let selected = Selected::at(byte);
        if selected == self.selected {
            return Areas {
                selected,
                area: self.area,
                turn: Turn::Idle,
                compactions: self.compactions,
            };
        }
        Areas {
            selected,
            area: next,
            turn: Turn::Idle,
            compactions: counted(self.compactions),
        }
    }

    /// Ends a compaction whose selector was not begun: syncs.
    fn settle_copy<D: Disk>(&mut self, disk: &mut D) -> Result<Settled, Failed>
        requires { turn_of self.old ≡ Copying }
        ensures turned { (frame : Frame) (past rows : List Record) → IsTurningOn D.Disk self.old disk.old frame past rows
            → SettlesTurn D.Disk self.new disk.new frame past rows result }
        ensures lost { IfOk result (λ settled. settled ≡ Lost) }
        ensures waiting { is_waiting self.new ≡ is_err result }
        ensures kept { OnErr result (self.new ≡ self.old) }
        ensures place { StaysOrCounts (place_of self.old) (place_of self.new) }
        ensures goes { Reads D.Disk disk.old disk.new (is_err result) }
    {
        let Ok(()) = sync_ahead(disk) else {
            return Err(Failed);
        };
        self.turn = Turn::Idle;
        Ok(Settled::Lost)
    }

    /// Finds out which area is selected behind a compaction whose selector was begun: syncs, and reads it.
    fn settle_selector<D: Disk>(&mut self, disk: &mut D, next: Area) -> Result<Settled, Failed>
        requires { turn_of self.old ≡ Selecting next }
        ensures turned { (frame : Frame) (past rows : List Record) → IsTurningOn D.Disk self.old disk.old frame past rows
            → SettlesTurn D.Disk self.new disk.new frame past rows result }
        ensures lost { IfOk result (λ settled. settled ≡ Lost) }
        ensures waiting { is_waiting self.new ≡ is_err result }
        ensures kept { OnErr result (self.new ≡ self.old) }
        ensures place { StaysOrCounts (place_of self.old) (place_of self.new) }
        ensures goes { Reads D.Disk disk.old disk.new (is_err result) }
    {
        let Ok(byte) = read_synced_byte(disk, SELECTOR) else {
            return Err(Failed);
        };
        *self = self.chosen(byte, next);
        Ok(Settled::Lost)
    }

    /// Finds out what became of a record or of a compaction whose writing failed: syncs, and reads the record's gate or the selector. A
    /// compaction is always lost: its table is the one that is held, whichever area is selected then; and so is a record over a sure disk that
    /// tells its bytes. It takes no memory.
    pub fn settle<D: Disk>(&mut self, disk: &mut D) -> Result<Settled, Failed>
        requires { is_waiting self.old ≡ true }
        ensures settles { (frame : Frame) (past : List Record) (it : Record) → IsUnsettledOn D.Disk self.old disk.old frame past it
            → SettlesTo D.Disk self.new disk.new frame past it result }
        ensures same { is_turning self.old ≡ false → SameTurn self.old self.new }
        ensures end { is_turning self.old ≡ false → end_of self.new ≡ end_settled result (end_with self.old) (end_of self.old) }
        ensures turned { (frame : Frame) (past rows : List Record) → IsTurningOn D.Disk self.old disk.old frame past rows
            → SettlesTurn D.Disk self.new disk.new frame past rows result }
        ensures lost { is_turning self.old ≡ true → IfOk result (λ settled. settled ≡ Lost) }
        ensures unfound { (frame : Frame) (past kept : List Record) (it : Record) → IsUnsettledOn D.Disk self.old disk.old frame past it
            → AreAreaRecords kept → HoldsSurely D.Disk self.old disk.old kept → tells D.Disk disk.old ≡ true → IfOk result (λ settled. settled ≡ Lost) }
        ensures waiting { is_waiting self.new ≡ is_err result }
        ensures kept { OnErr result (self.new ≡ self.old) }
        ensures place { is_turning self.old ≡ true → StaysOrCounts (place_of self.old) (place_of self.new) }
        ensures compactions { is_turning self.old ≡ false → compactions_of self.new ≡ compactions_of self.old }
        ensures goes { Reads D.Disk disk.old disk.new (is_err result) }
    {
        match self.turn {
            Turn::Idle => self.area.settle(disk),
            Turn::Copying => self.settle_copy(disk),
            Turn::Selecting { next } => self.settle_selector(disk, next),
        }
    }
}
