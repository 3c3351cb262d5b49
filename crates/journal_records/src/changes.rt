//! Changes in the order in which they were recorded.

ghost use Rattle.std.specs.Prelude.{◌≡◌, ℕ, List, [], ◌∷◌, ◌++◌, length, OnOk, OnErr};
ghost use Rattle.journal_records.specs.declared.change.Change.{Change};

use crate::change::Change;
use std::alloc::Global;
use std::marker::Model;
use tags::NoMemory;

/// The changes of a store, each with the place of its record's gate, the oldest first; seen as the list of these pairs.
#[derive(Drop)]
pub struct Changes {
    items: Vec<(u64, Change)>,
}

impl Model for Changes {
    ghost Value = { List (ℕ × Change) };

    ghost view = { λ changes. changes.items.items };
}

impl Changes {
    /// No change. It takes no memory.
    pub fn empty(alloc: Global) -> Changes
        ensures { result ≡ [] }
    {
        Changes {
            items: Vec::new(alloc),
        }
    }

    /// Adds a change whose record's gate stands at a place.
    pub fn push(&mut self, at: u64, change: Change) -> Result<(), NoMemory>
        ensures ok { OnOk result (self.new ≡ self.old ++ (at, change) ∷ []) }
        ensures err { OnErr result (self.new ≡ self.old) }
    {
        self.items.push((at, change))?;
        Ok(())
    }

    /// The pairs, lent. It takes no memory.
    pub fn as_slice(&self) -> &[(u64, Change)]
        ensures { result.now ≡ self.now }
    {
        self.items.as_slice()
    }

    /// The pairs. It takes no memory.
    pub fn into_vec(self) -> Vec<(u64, Change)>
        ensures { result.items ≡ self }
    {
        let Changes { items } = self;
        items
    }
}
