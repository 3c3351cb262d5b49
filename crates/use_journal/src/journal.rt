//! Writing a journal, and settling what failed.

ghost use Rattle.std.specs.Prelude.{◌≡◌, ◌≤◌, ◌<◌, ◌+◌, [], ℕ, List, length, true, false, IsErrOf, not, OnOk, OnErr, IfErr, IfOk, is_err, ◌↔◌};
ghost use Rattle.ks_outside.specs.Images.{AllImages, Goes, Passes, Reads, TornFrom, tells};
ghost use Rattle.disk_calls.specs.Still.{IsStill};
ghost use Rattle.journal_records.specs.declared.record.Record.{Record};
ghost use Rattle.journal_records.specs.Commits.{append_failed, append_state, open_failed};
ghost use Rattle.journal_records.specs.Spelling.{record_closed, IsRecord};
ghost use Rattle.record_areas.specs.Frames.{Frame, IsMarked, past_of, placed};
ghost use Rattle.record_areas.specs.Holding as areas;
ghost use Rattle.record_areas.specs.Holding.{Appends, IsSettledOn, IsUnsettledOn, SettlesTo, end_after, end_settled, pending_after};
ghost use Rattle.record_areas.specs.Readings as readings;
ghost use Rattle.record_areas.specs.Readings.{HasRead, IsBehind, IsOver, IsWhole};
ghost use Rattle.tags.specs.declared.limits.TheConstants.{JOURNAL_BYTES};
ghost use Rattle.use_journal.specs.declared.journal.TheConstants.{HEADER_BYTES, KINDS};

use crate::opening::find_header;
use disk_calls::write_synced;
use journal_records::{AppendFault, StoreFault};
use ks_outside::{Disk, Failed};
use record_areas::{Area, Reading, Records};
use std::alloc::Global;
use tags::{JOURNAL_BYTES, Settled};

/// How many bytes of a journal its header has.
pub(crate) const HEADER_BYTES: usize = 8;

/// The greatest kind of a record of a journal: those of changes.
const KINDS: u8 = 7;

/// The header of a journal, and a gate that is shut.
pub(crate) const FRESH: [u8; 9] = *b"KSJRNL01\0";

/// The area of a journal's records, behind its header.
#[derive(Clone, Copy, Debug)]
pub struct Journal {
    area: Area,
    ghost starts: { areas.start_of area ≡ HEADER_BYTES },
    ghost ends: { areas.limit_of area ≡ JOURNAL_BYTES },
}

impl Journal {
    ghost use Rattle.use_journal.specs.Journal.{IsJournal, AreChanges, journal_frame};
    ghost use Rattle.use_journal.specs.Holding.{area_of, is_waiting, end_of, end_with, FindsJournal, MissesHeader, ReadsJournal};

    /// Writes an empty journal, and syncs. It takes no memory.
    pub fn format<D: Disk>(disk: &mut D) -> Result<(), Failed>
        ensures formatted { OnOk result (AllImages D.Disk disk.new (IsJournal [])) }
        ensures passes { Passes D.Disk disk.old disk.new (TornFrom D.Disk disk.old 0 9) }
        ensures torn { AllImages D.Disk disk.new (TornFrom D.Disk disk.old 0 9) }
        ensures nothing { D.is_sure disk.old → OnErr result (AllImages D.Disk disk.new (D.images disk.old)) }
        ensures goes { Goes D.Disk disk.old disk.new (is_err result) }
    {
        let Ok(()) = write_synced(disk, 0, &FRESH) else {
            return Err(Failed);
        };
        Ok(())
    }

    /// Syncs, and finds the journal that the disk holds: the reading is of its records, none of which was read yet. Corrupted comes where
    /// the header is not there, with the offset 0. It takes no memory.
    pub fn read<D: Disk>(alloc: Global, disk: &mut D) -> Result<Reading, StoreFault>
        ensures whole { IfOk result IsWhole }
        ensures still { OnOk result (IsStill D.Disk disk.new) }
        ensures begins { IfOk result (λ reading. IsBehind D.Disk reading disk.new HEADER_BYTES JOURNAL_BYTES KINDS []) }
        ensures marked { OnOk result (AllImages D.Disk disk.new (IsMarked journal_frame)) }
        ensures missing { IfErr result (λ fault. AllImages D.Disk disk.new (λ image. MissesHeader image fault)) }
        ensures goes { Reads D.Disk disk.old disk.new (open_failed result) }
    {
        find_header(disk)?;
        Ok(Journal::reading(alloc))
    }

    /// The reading of the records of a journal, none of which was read yet. It takes no memory.
    pub fn reading(alloc: Global) -> Reading
        ensures whole { IsWhole result }
        ensures over { IsOver result HEADER_BYTES JOURNAL_BYTES KINDS }
        ensures place { readings.place_of result ≡ HEADER_BYTES }
        ensures begins { (image : List ℕ) → HasRead result HEADER_BYTES JOURNAL_BYTES [] image }
    {
        Reading::at(alloc, HEADER_BYTES as u64, JOURNAL_BYTES, KINDS)
    }

    /// The journal whose records a reading has come to the end of. It takes no memory.
    pub fn of(reading: Reading) -> Journal
        requires start { readings.start_of reading ≡ HEADER_BYTES }
        requires limit { readings.limit_of reading ≡ JOURNAL_BYTES }
        requires within { readings.place_of reading < readings.limit_of reading }
        ensures start { areas.start_of (area_of result) ≡ HEADER_BYTES }
        ensures limit { areas.limit_of (area_of result) ≡ JOURNAL_BYTES }
        ensures end { end_of result ≡ readings.place_of reading }
        ensures idle { is_waiting result ≡ false }
    {
        Journal {
            area: reading.into_area(),
        }
    }

    /// Syncs, and reads the journal that the disk holds: its records, each with the place of its gate. Corrupted has the place of what is
    /// wrong first, as it is read from left to right.
    pub fn open<D: Disk>(alloc: Global, disk: &mut D) -> Result<(Journal, Records), StoreFault>
        ensures settled { IfOk result (λ opened. IsSettledOn D.Disk (area_of opened.0) disk.new journal_frame (past_of opened.1)) }
        ensures places { IfOk result (λ opened. opened.1 ≡ placed HEADER_BYTES (past_of opened.1)) }
        ensures reads { AllImages D.Disk disk.new (λ image. ReadsJournal image result) }
        ensures stands { (past : List Record) → AreChanges past → AllImages D.Disk disk.old (IsJournal past)
            → tells D.Disk disk.old ≡ true → FindsJournal past result }
        ensures goes { Reads D.Disk disk.old disk.new (open_failed result) }
    {
        find_header(disk)?;
        match Area::read(alloc, disk, HEADER_BYTES as u64, JOURNAL_BYTES, KINDS) {
            Ok((area, records)) => Ok((Journal { area }, records)),
            Err(fault) => Err(fault),
        }
    }

    /// Whether no change waits to be settled. It takes no memory.
    pub fn is_settled(&self) -> bool
        ensures { result ≡ not (is_waiting self.now) }
    {
        self.area.is_settled()
    }

    /// The place of the gate behind the records, and so how many bytes the header and the records have. It takes no
    /// memory.
    pub fn end(&self) -> u64
        ensures { result ≡ end_of self.now }
    {
        self.area.end()
    }

    /// Adds a change by its framed record with a byte 00 behind it, as `Area::append` does. It takes no memory.
    ///
    /// Full comes where the record and its closing byte would pass the journal's end, and no call is made then.
    pub fn append<D: Disk>(&mut self, disk: &mut D, closed: &[u8]) -> Result<(), AppendFault>
        requires settled { is_waiting self.old ≡ false }
        requires some { 2 ≤ length closed.now }
        ensures appends { (frame : Frame) (past : List Record) (it : Record) → IsSettledOn D.Disk (area_of self.old) disk.old frame past
            → IsRecord frame.kinds it → closed.now ≡ record_closed it
            → Appends D.Disk (area_of self.new) disk.old disk.new frame past it (append_state result) }
        ensures waiting { is_waiting self.new ≡ append_failed result }
        ensures end { end_of self.new ≡ end_after (length closed.now) (append_state result) (end_of self.old) }
        ensures pending { end_with self.new ≡ pending_after (length closed.now) (append_state result) (end_of self.old) }
        ensures full { IsErrOf result AppendFault.Full ↔ (JOURNAL_BYTES < end_of self.old + length closed.now) }
        ensures same { IsErrOf result AppendFault.Full → (disk.new ≡ disk.old) × (self.new ≡ self.old) }
        ensures goes { Goes D.Disk disk.old disk.new (append_failed result) }
    {
        self.area.append(disk, closed)
    }

    /// Finds out what became of a change whose writing failed: syncs, and reads its gate. It takes no memory.
    pub fn settle<D: Disk>(&mut self, disk: &mut D) -> Result<Settled, Failed>
        requires { is_waiting self.old ≡ true }
        ensures settles { (frame : Frame) (past : List Record) (it : Record) → IsUnsettledOn D.Disk (area_of self.old) disk.old frame past it
            → SettlesTo D.Disk (area_of self.new) disk.new frame past it result }
        ensures waiting { is_waiting self.new ≡ is_err result }
        ensures end { end_of self.new ≡ end_settled result (end_with self.old) (end_of self.old) }
        ensures kept { OnErr result (self.new ≡ self.old) }
        ensures goes { Reads D.Disk disk.old disk.new (is_err result) }
    {
        self.area.settle(disk)
    }
}
