//! What a store can hold, and what carries one lasting part to another.

ghost use Rattle.journal_records.specs.Carrying.{CarriesOn, ChangeCarries, NothingCarries, NothingStays, StandsOn};
ghost use Rattle.journal_records.specs.Storable.{LeavesStorable, RestoresStorable, SpellsStorable};

/// What records leave, each with its need met, is what a store can hold. And the snapshot of what a store can hold
/// leaves just that again, with its need met at each record, which can be spelled, in `snapshot_length` bytes.
pub fn storable_law()
    ensures leaves { LeavesStorable }
    ensures restores { RestoresStorable }
    ensures spells { SpellsStorable }
{}

/// No byte carries a lasting part to itself, and to no other; the record of a change whose need is met carries the part before it to the part
/// after it; what carries on may be put behind what carried so far; and records that stand for a part, with what carries from that part on
/// behind them, stand for the part to which it leads. So records of one store may be put behind those of another that stands for the same part.
pub fn carrying_law()
    ensures nothing { NothingCarries }
    ensures stays { NothingStays }
    ensures change { ChangeCarries }
    ensures on { CarriesOn }
    ensures stands { StandsOn }
{}
