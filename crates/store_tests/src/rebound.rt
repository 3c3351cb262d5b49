ghost use Rattle.journal_records.specs.Storable.{IsStorable};
ghost use Rattle.store_tests.specs.Rebound.{rebound};

use held_rows::{Held, HeldRow};
use journal_records::HeldNumbers;

/// A table of one key under an alias, which was imported anew so many times.
#[derive(Clone, Copy)]
pub(crate) struct Rebound {
    pub(crate) times: u32,
}

/// A store can hold the table of a key that was imported anew so many times.
fn storable_after(times: u32)
    ensures { IsStorable (rebound times) }
{}

impl Rebound {
    /// A store can hold it.
    pub(crate) fn storable(&self)
        ensures { IsStorable (rebound self.now.times) }
    {
        storable_after(self.times);
    }
}

impl Held for Rebound {
    ghost part = { λ table. rebound table.times };

    fn next_numbers(&self) -> (u64, u64) {
        (u64::from(self.times) + 2, 1)
    }

    fn key_after(&self, past: u64) -> Option<HeldNumbers> {
        let id = u64::from(self.times) + 1;
        if past >= id {
            return None;
        }
        Some(HeldNumbers {
            id,
            domain: 0,
            nspace: 10_001,
            limit: 0,
            left: 0,
        })
    }

    fn alias(&self, _id: u64) -> &[u8] {
        b"m"
    }

    fn blob(&self, _id: u64) -> &[u8] {
        b"\xaa\xbb\xcc"
    }

    fn list(&self, _id: u64) -> &[u8] {
        b"\x00\x00"
    }

    fn grant_after(&self, _past: u64) -> Option<HeldRow> {
        None
    }
}
