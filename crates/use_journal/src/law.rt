//! Bytes stand for one thing.

ghost use Rattle.std.specs.Prelude.{◌≡◌, ℕ, List};
ghost use Rattle.journal_records.specs.declared.record.Record.{Record};
ghost use Rattle.use_journal.specs.Journal.{IsJournal, IsCorrupted, AreChanges};

use record_areas::one_reading as one_list;

/// An image is a journal of one list of records at most; one that is a journal is not corrupted; and one that is
/// corrupted is so at one place.
pub fn one_reading()
    ensures changes { (past later : List Record) (image : List ℕ) → AreChanges past → AreChanges later
        → IsJournal past image → IsJournal later image → past ≡ later }
    ensures sound { (past : List Record) (offset : ℕ) (image : List ℕ) → AreChanges past → IsJournal past image
        → IsCorrupted image offset → ⊥ }
    ensures place { (offset other : ℕ) (image : List ℕ) → IsCorrupted image offset → IsCorrupted image other
        → offset ≡ other }
{
    one_list();
}
