//! How a change whose device call failed was settled.

/// How a change whose device call failed was settled.
#[derive(Clone, Copy, Debug, PartialEq, Eq)]
pub enum Settled {
    /// the disk has it, so it counts
    Kept,
    /// the disk does not have it
    Lost,
}
