//! What a run writes.

/// What a run writes of each line.
#[derive(Clone, Copy, Debug, PartialEq, Eq)]
pub enum Written {
    /// its reply
    Replies,
    /// the lines of the entries that it adds to the history
    Trace,
}
