//! What bytes stand for, and which of them count.

ghost use Rattle.std.specs.Prelude.{◌≡◌, ℕ, List};
ghost use Rattle.journal_records.specs.declared.record.Record.{Record};
ghost use Rattle.record_areas.specs.Frames.{Frame, IsMarked, IsStore};
ghost use Rattle.journal_compact.specs.Formats.{IsNoStore, IsOlder, IsStoreFrame};
ghost use Rattle.journal_compact.specs.Older.{AgreeUpTo};
ghost use Rattle.journal_compact.specs.Quiet.{AgreeIn};
ghost use Rattle.use_journal.specs.Journal.{IsJournal, journal_frame};
ghost use Rattle.journal_compact.specs.Stores.{AreAreaRecords, IsAreas, IsAreasFrame, IsCorrupted, IsUnmarked};

use record_areas::one_reading as one_list;

/// Two images that agree in the marks of a store of areas, and in the selected area up to the gate that ends its records, hold the same
/// records: what is written elsewhere changes nothing, however many writes it takes.
pub fn quiet_law()
    ensures { (frame : Frame) (past : List Record) (image other : List ℕ) → IsAreasFrame frame → IsStore frame past image
        → AgreeIn frame past image other → IsStore frame past other }
{}

/// Two images that agree up to the gate that ends the records of a journal are that journal, or neither is: what is written behind that gate
/// changes nothing.
pub fn older_law()
    ensures { (past : List Record) (image other : List ℕ) → IsJournal past image → AgreeUpTo past image other → IsJournal past other }
{}

/// An image has the marks of one store of areas at most, and of none where it is told that they are not there; it is a store of one list of
/// records at most; one that is a store is not corrupted; and one that is corrupted is so at one place.
pub fn one_reading()
    ensures frame { (frame other : Frame) (image : List ℕ) → IsAreasFrame frame → IsAreasFrame other
        → IsMarked frame image → IsMarked other image → frame ≡ other }
    ensures marked { (frame : Frame) (image : List ℕ) (offset : ℕ) → IsAreasFrame frame → IsMarked frame image → IsUnmarked image offset → ⊥ }
    ensures unmarked { (image : List ℕ) (offset other : ℕ) → IsUnmarked image offset → IsUnmarked image other → offset ≡ other }
    ensures records { (past later : List Record) (image : List ℕ) → AreAreaRecords past → AreAreaRecords later
        → IsAreas past image → IsAreas later image → past ≡ later }
    ensures sound { (past : List Record) (offset : ℕ) (image : List ℕ) → AreAreaRecords past → IsAreas past image
        → IsCorrupted image offset → ⊥ }
    ensures place { (offset other : ℕ) (image : List ℕ) → IsCorrupted image offset → IsCorrupted image other
        → offset ≡ other }
{
    one_list();
}

/// An image has the marks of one store of either format at most, and of none where it is told that they are not there. One with the marks of a
/// journal has its version.
pub fn one_format()
    ensures frame { (frame other : Frame) (image : List ℕ) → IsStoreFrame frame → IsStoreFrame other
        → IsMarked frame image → IsMarked other image → frame ≡ other }
    ensures marked { (frame : Frame) (image : List ℕ) (offset : ℕ) → IsStoreFrame frame → IsMarked frame image → IsNoStore image offset → ⊥ }
    ensures unmarked { (image : List ℕ) (offset other : ℕ) → IsNoStore image offset → IsNoStore image other → offset ≡ other }
    ensures older { (image : List ℕ) → IsMarked journal_frame image → IsOlder image }
{}
