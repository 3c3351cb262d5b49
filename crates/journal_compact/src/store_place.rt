//! Where a store is: what tells what was added to it since.

ghost use Rattle.journal_compact.specs.Counts.{IsCounted};

use crate::places::Selected;

/// Where a store is. Two places of one value tell what came between: where both are equal, and the count of compactions is not at its
/// greatest, the store keeps what it kept; where the area and that count are, it has the records that it had, and those behind them.
#[derive(Clone, Copy, Debug, PartialEq, Eq)]
pub struct StorePlace {
    /// The area that is selected, as far as is known.
    pub selected: Selected,
    /// How many bytes the records in it have.
    pub bytes: u64,
    /// How often the value that tells it wrote the store anew since the store was opened, up to 2^64 - 1. A compaction that failed is
    /// counted where a settling finds its area selected.
    pub compactions: u64,
}

/// One compaction more.
pub(crate) fn counted(compactions: u64) -> u64
    ensures { IsCounted compactions result }
{
    compactions.saturating_add(1)
}
