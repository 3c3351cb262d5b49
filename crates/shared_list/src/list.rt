//! A plain list with a history.
ghost use Rattle.std.specs.Prelude.{◌≡◌, ◌++◌, ◌∷◌, [], OnOk, OnErr};

use std::alloc::{AllocError, Global};
use turn_lock::{Closing, History, LockPass, Maker, TurnLock};

/// An item, with the number of the pass that appended it.
#[derive(Clone, Copy, Debug, PartialEq, Eq)]
pub struct ListEntry {
    pub by: u64,
    pub item: u64,
}

/// Entries, the oldest first.
#[derive(Drop)]
pub struct PlainList {
    pub entries: Vec<ListEntry>,
}

impl History<ListEntry, ()> for PlainList {
    ghost use Rattle.std.proofs.Common.{arith};

    ghost entries = { λ list. list.entries.items };

    ghost maker = { λ e. e.by };

    ghost level = { λ _. 0 };

    ghost rises = { λ xs ys. omega arith };

    ghost fits = { λ _ _. Unit {0} };
}

/// A list behind the turn lock. It needs no name, since any list will do.
pub type ListLock = TurnLock<PlainList, ListEntry, ()>;

/// A pass to the lock.
pub type ListPass = LockPass<PlainList, ListEntry, ()>;

/// What makes passes to the lock.
pub type ListMaker = Maker<PlainList, ListEntry, ()>;

/// A lock whose passes come back.
pub type ListClosing = Closing<PlainList, ListEntry, ()>;

impl PlainList {
    /// An empty list.
    pub fn new(alloc: Global) -> PlainList
        ensures { result.entries.items ≡ [] }
    {
        PlainList {
            entries: Vec::new(alloc),
        }
    }

    /// Appends an entry.
    pub fn push(&mut self, entry: ListEntry) -> Result<(), AllocError>
        ensures ok { OnOk result (self.new.entries.items ≡ self.old.entries.items ++ entry ∷ []) }
        ensures err { OnErr result (self.new.entries.items ≡ self.old.entries.items) }
    {
        self.entries.push(entry)?;
        Ok(())
    }
}
