//! One entry of a book.

use rule_model::Entry;

/// An entry of a service's history, with the number of the pass that made it, and how many calls of the disk and draws of the
/// entropy had failed before and after its step, each up to 2^64 - 1. The two entries of one step have the same counts.
#[derive(Debug, Drop)]
pub struct BookEntry {
    pub pass: u64,
    pub entry: Entry,
    pub disk_before: u64,
    pub disk_after: u64,
    pub entropy_before: u64,
    pub entropy_after: u64,
}
