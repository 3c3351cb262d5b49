//! Bytes stand for one thing.

ghost use Rattle.std.specs.Prelude.{◌≡◌, ℕ, List};
ghost use Rattle.journal_records.specs.LastingPart.{Lasting};
ghost use Rattle.journal_records.specs.Storable.{IsStorable};
ghost use Rattle.journal_compact.specs.Older.{AgreeUpTo};
ghost use Rattle.journal_compact.specs.Quiet.{AgreeIn};
ghost use Rattle.journal_compact.specs.Stores.{IsAreasFrame};
ghost use Rattle.key_database.specs.Store.{StandsFor, IsBadStore};
ghost use Rattle.use_journal.specs.Journal.{journal_frame};

use journal_compact::{older_law, one_format, quiet_law as quiet_areas};
use journal_records::storable_law;
use record_areas::one_reading;

/// An image stands for one lasting part at most; one that stands for a lasting part has nothing wrong; and what is wrong
/// first is so at one place. What it stands for is what a store can hold.
pub fn one_store()
    ensures part { (part other : Lasting) (image : List ℕ) → StandsFor part image → StandsFor other image → part ≡ other }
    ensures sound { (part : Lasting) (offset : ℕ) (image : List ℕ) → StandsFor part image → IsBadStore image offset → ⊥ }
    ensures place { (offset other : ℕ) (image : List ℕ) → IsBadStore image offset → IsBadStore image other
        → offset ≡ other }
    ensures storable { (part : Lasting) (image : List ℕ) → StandsFor part image → IsStorable part }
{
    one_format();
    one_reading();
    storable_law();
}

/// What counts of a store, and what is quiet. Where an image stands for a lasting part as a store of areas, so does each that agrees with it in
/// the first eight bytes, the selector, and the selected area up to the gate that ends its records; and where it does as a journal, each that
/// agrees with it up to the gate that ends its records. What is written elsewhere changes nothing, however many writes it takes.
pub fn quiet_law()
    ensures areas { (part : Lasting) (image other : List ℕ) (stands : StandsFor part image) → IsAreasFrame stands.frame
        → AgreeIn stands.frame stands.past image other → StandsFor part other }
    ensures older { (part : Lasting) (image other : List ℕ) (stands : StandsFor part image) → stands.frame ≡ journal_frame
        → AgreeUpTo stands.past image other → StandsFor part other }
{
    quiet_areas();
    older_law();
}
