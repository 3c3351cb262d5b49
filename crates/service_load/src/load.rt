//! A load.

ghost use Rattle.std.specs.Prelude.{◌<◌};

use crate::plan::{LoadPlan, MACS, UPDATES, USES};

/// What a load is for.
#[derive(Clone, Copy, Debug, PartialEq, Eq)]
pub enum LoadKind {
    Macs,
    Updates,
    /// The book is written.
    Book,
}

/// `KIND ROUNDS THREADS`
#[derive(Clone, Copy, Debug)]
pub struct Load {
    pub kind: LoadKind,
    pub rounds: u32,
    pub threads: u32,
    ghost some: { 0 < threads },
}

impl LoadKind {
    /// What its threads do.
    pub fn plan(self) -> &'static LoadPlan {
        match self {
            LoadKind::Macs => &MACS,
            LoadKind::Updates => &UPDATES,
            LoadKind::Book => &USES,
        }
    }
}
