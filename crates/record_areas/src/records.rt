//! Records in the order in which they stand.

ghost use Rattle.std.specs.Prelude.{◌≡◌, ℕ, List, [], ◌∷◌, ◌++◌, OnOk, OnErr};
ghost use Rattle.journal_records.specs.declared.record.Record.{Record};

use journal_records::Record;
use std::alloc::Global;
use std::marker::Model;
use tags::NoMemory;

/// The records of an area, each with the place of its gate, the oldest first; seen as the list of these pairs.
#[derive(Drop)]
pub struct Records {
    items: Vec<(u64, Record)>,
}

impl Model for Records {
    ghost Value = { List (ℕ × Record) };

    ghost view = { λ all. all.items.items };
}

impl Records {
    /// No record. It takes no memory.
    pub fn empty(alloc: Global) -> Records
        ensures { result ≡ [] }
    {
        Records {
            items: Vec::new(alloc),
        }
    }

    /// Adds a record whose gate stands at a place.
    pub fn push(&mut self, at: u64, it: Record) -> Result<(), NoMemory>
        ensures ok { OnOk result (self.new ≡ self.old ++ (at, it) ∷ []) }
        ensures err { OnErr result (self.new ≡ self.old) }
    {
        self.items.push((at, it))?;
        Ok(())
    }

    /// The pairs, lent. It takes no memory.
    pub fn as_slice(&self) -> &[(u64, Record)]
        ensures { result.now ≡ self.now }
    {
        self.items.as_slice()
    }

    /// The pairs. It takes no memory.
    pub fn into_vec(self) -> Vec<(u64, Record)>
        ensures { result.items ≡ self }
    {
        let Records { items } = self;
        items
    }
}
