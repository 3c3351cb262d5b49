//! Reading an area record by record.

ghost use Rattle.std.specs.Prelude.{◌≡◌, ◌≤◌, ◌<◌, ◌+◌, ℕ, List, [], IfOk, IfSome, false};
ghost use Rattle.ks_outside.specs.Images.{AllImages, Reads};
ghost use Rattle.disk_calls.specs.Still.{IsStill};
ghost use Rattle.journal_records.specs.declared.record.Record.{Record};
ghost use Rattle.journal_records.specs.Commits.{open_failed};
ghost use Rattle.journal_records.specs.Spelling.{IsRecord};
ghost use Rattle.record_areas.specs.Holding as areas;
ghost use Rattle.record_areas.specs.Holding.{IsRead, ReadsArea};
ghost use Rattle.record_areas.specs.Windows.{next_length};

use crate::area::Area;
use crate::opening::next_record;
use crate::records::Records;
use crate::window::Window;
use journal_records::{Record, StoreFault};
use ks_outside::Disk;
use std::alloc::Global;

/// A reading of the records of an area, of which it has come behind the first ones: where the records begin, the greatest kind of them, and
/// the bytes that follow. It holds one piece of the disk and what is left of the one before, or a record that is longer.
#[derive(Drop)]
pub struct Reading {
    start: u64,
    kinds: u8,
    window: Window,
}

impl Reading {
    ghost use Rattle.record_areas.specs.Readings.{place_of, limit_of, kinds_of, start_of, IsWhole, IsOver, HasRead, IsBehind, ReadsOn};

    /// Nothing was read yet of the records from `start` on, of kinds up to `kinds`, that end before `limit`. It takes no memory.
    pub fn at(alloc: Global, start: u64, limit: u64, kinds: u8) -> Reading
        requires { start ≤ limit }
        ensures whole { IsWhole result }
        ensures over { IsOver result start limit kinds }
        ensures place { place_of result ≡ start }
        ensures begins { (image : List ℕ) → HasRead result start limit [] image }
    {
        Reading {
            start,
            kinds,
            window: Window::at(alloc, start, limit),
        }
    }

    /// The place of the gate that is read next. It takes no memory.
    pub fn place(&self) -> u64
        ensures { result ≡ place_of self.now }
    {
        self.window.place()
    }

    /// Reads the next record of a still disk, and goes on behind it. None comes where a gate that is shut stands there, and Corrupted, with
    /// the place of that gate, where neither does. No piece that begins behind a gate that is shut is read.
    pub fn next<D: Disk>(
        &mut self,
        alloc: Global,
        disk: &mut D,
    ) -> Result<Option<Record>, StoreFault>
        requires whole { IsWhole self.old }
        requires still { IsStill D.Disk disk.old }
        ensures whole { IsWhole self.new }
        ensures still { IsStill D.Disk disk.new }
        ensures reads { (start limit kinds : ℕ) (past : List Record) → IsBehind D.Disk self.old disk.old start limit kinds past
            → ReadsOn D.Disk self.new disk.new start limit kinds past result }
        ensures kind { IfOk result (λ next. IfSome next (IsRecord (kinds_of self.old))) }
        ensures kinds { kinds_of self.new ≡ kinds_of self.old }
        ensures limit { limit_of self.new ≡ limit_of self.old }
        ensures place { IfOk result (λ next. place_of self.new ≡ place_of self.old + next_length next) }
        ensures before { IfOk result (λ next. place_of self.old < limit_of self.old) }
        ensures goes { Reads D.Disk disk.old disk.new (open_failed result) }
    {
        next_record(alloc, disk, &mut self.window, self.kinds)
    }

    /// The area whose records it has come to the end of. It takes no memory.
    pub fn into_area(self) -> Area
        requires { place_of self < limit_of self }
        ensures start { areas.start_of result ≡ start_of self }
        ensures limit { areas.limit_of result ≡ limit_of self }
        ensures end { areas.end_of result ≡ place_of self }
        ensures idle { areas.is_waiting result ≡ false }
    {
        let Reading {
            start,
            kinds: _,
            window,
        } = self;
        Area::at(start, window.limit(), window.place())
    }
}

/// The records of a still disk from `start` on, up to the gate that is shut, with the area that they are.
pub(crate) fn read_area<D: Disk>(
    alloc: Global,
    disk: &mut D,
    start: u64,
    limit: u64,
    kinds: u8,
) -> Result<(Area, Records), StoreFault>
    requires still { IsStill D.Disk disk.old }
    requires order { start ≤ limit }
    ensures still { IsStill D.Disk disk.new }
    ensures read { IfOk result (λ opened. IsRead start limit kinds opened.0 opened.1) }
    ensures reads { AllImages D.Disk disk.new (λ image. ReadsArea start limit kinds image result) }
    ensures goes { Reads D.Disk disk.old disk.new (open_failed result) }
{
    let mut reading = Reading::at(alloc, start, limit, kinds);
    let mut all = Records::empty(alloc);
    let mut at = start;
    'records: while let Some(it) = reading.next(alloc, disk)? {
        let Ok(()) = all.push(at, it) else {
            return Err(StoreFault::Memory);
        };
        at = reading.place();
    }
    Ok((reading.into_area(), all))
}
