//! How many operations began on each key since the last restart.

ghost use Rattle.std.specs.Prelude.{◌≡◌, ◌^◌, ◌<◌, ℕ, OnOk};
ghost use Rattle.rule_model.specs.declared.entry_change.BootChange.TheVariants.{BeginsOn, StartsAgain};
ghost use Rattle.live_tables.specs.Begins.{ChangesBegins, HasRoomForBegin, SameBegins, begins_in};

use std::alloc::Global;
use std::collections::BTreeMap;
use tags::NoMemory;

/// The begins on each key since the last restart, by the key's number. A place with 0 is room for one.
#[derive(Drop)]
pub struct Begins {
    counts: BTreeMap<u64, u64>,
}

impl Begins {
    /// No begins.
    pub fn new(alloc: Global) -> Begins
        ensures { (key : ℕ) → begins_in result key ≡ 0 }
    {
        Begins {
            counts: BTreeMap::new(alloc),
        }
    }

    /// How many operations began on a key.
    pub fn of(&self, key: u64) -> u64
        ensures { result ≡ begins_in self.now key }
    {
        match self.counts.get(&key) {
            Some(count) => *count,
            None => 0,
        }
    }

    /// Takes room for a begin on a key.
    pub fn reserve(&mut self, key: u64) -> Result<(), NoMemory>
        ensures room { OnOk result (HasRoomForBegin self.new key) }
        ensures same { SameBegins self.old self.new }
    {
        if !self.counts.contains_key(&key) {
            self.counts.insert(key, 0)?;
        }
        Ok(())
    }

    /// Forgets all begins.
    pub fn clear(&mut self)
        ensures { ChangesBegins StartsAgain self.old self.new }
    {
        self.counts.clear();
    }

    /// Counts a begin on a key.
    pub fn count(&mut self, key: u64)
        requires room { HasRoomForBegin self.old key }
        requires few { begins_in self.old key < 2 ^ 63 }
        ensures { ChangesBegins (BeginsOn key) self.old self.new }
    {
        match self.counts.get_mut(&key) {
            Some(count) => *count += 1,
            None => unreachable!(),
        }
    }
}
