//! Bytes are read in one way.

ghost use Rattle.std.specs.Prelude.{◌≡◌, ℕ, List};
ghost use Rattle.journal_records.specs.declared.record.Record.{Record};
ghost use Rattle.record_areas.specs.Frames.{AreRecords, HasRecords, IsBrokenAt};

/// An image has one list of records from a place on at most; where it has one it is broken off at no place; and it is broken off at one
/// place at most.
pub fn one_reading()
    ensures records { (start limit kinds : ℕ) (past later : List Record) (image : List ℕ) → AreRecords kinds past → AreRecords kinds later
        → HasRecords start limit past image → HasRecords start limit later image → past ≡ later }
    ensures sound { (start limit kinds : ℕ) (past : List Record) (offset : ℕ) (image : List ℕ) → AreRecords kinds past
        → HasRecords start limit past image → IsBrokenAt start limit kinds image offset → ⊥ }
    ensures place { (start limit kinds : ℕ) (offset other : ℕ) (image : List ℕ) → IsBrokenAt start limit kinds image offset
        → IsBrokenAt start limit kinds image other → offset ≡ other }
{}
