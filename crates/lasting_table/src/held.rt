//! The rows of a table, told in their order.

ghost use Rattle.lasting_table.specs.TableView.{lasting_in};

use crate::lasting::LastingTable;
use held_rows::{Held, HeldRow};
use journal_records::HeldNumbers;

impl Held for LastingTable {
    ghost part = { λ table. lasting_in table };

    fn next_numbers(&self) -> (u64, u64) {
        self.part.next_numbers()
    }

    fn key_after(&self, past: u64) -> Option<HeldNumbers> {
        match self.part.keys.next_after(Some(past)) {
            Some(key) => Some(key.numbers()),
            None => None,
        }
    }

    fn alias(&self, id: u64) -> &[u8] {
        match self.part.keys.numbered(id) {
            Some(key) => key.alias.as_slice(),
            None => unreachable!(),
        }
    }

    fn blob(&self, id: u64) -> &[u8] {
        match self.part.keys.numbered(id) {
            Some(key) => key.blob.as_slice(),
            None => unreachable!(),
        }
    }

    fn list(&self, id: u64) -> &[u8] {
        match self.part.keys.numbered(id) {
            Some(key) => key.list.as_slice(),
            None => unreachable!(),
        }
    }

    fn grant_after(&self, past: u64) -> Option<HeldRow> {
        match self.part.grants.next_after(Some(past)) {
            Some(row) => Some(HeldRow::of(row)),
            None => None,
        }
    }
}
