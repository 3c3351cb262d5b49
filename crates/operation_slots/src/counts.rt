//! How many operations each uid has.

ghost use Rattle.std.specs.Prelude.{◌≡◌, ◌<◌, ◌≤◌, ◌-◌, ◌^◌, ℕ, length, IfOk, IfErr};
ghost use Rattle.slot_chain.specs.Ordered.{IsOrdered, IsAt, IsGap};
ghost use Rattle.operation_slots.specs.Counted.{IsNone, Lowers, Raises, count_in, counted_uid, room_in, total};

use std::alloc::Global;
use std::marker::Model;
use tags::NoMemory;

/// How many operations a uid has, one at least.
#[derive(Clone, Copy, Debug)]
pub struct Counted {
    pub uid: u32,
    pub count: u32,
}

/// A count for each uid, in the order of the uids.
#[derive(Drop)]
pub struct UidCounts {
    rows: Vec<Counted>,
}

impl Model for UidCounts {
    ghost use Rattle.operation_slots.specs.Counted.{CountTable, IsCounts, seen};
    ghost use Rattle.std.specs.Prelude.{vec_capacity};

    ghost Value = { CountTable };

    ghost view = { λ c. seen c.rows.items (vec_capacity c.rows) };

    ghost invariant = { λ c. IsCounts c.rows.items };
}

/// Where the count of a uid stands, or where it would go. It is found by halving.
fn count_at(rows: &[Counted], uid: u32) -> Result<usize, usize>
    requires { IsOrdered counted_uid rows.now }
    ensures found { IfOk result (IsAt counted_uid rows.now uid) }
    ensures absent { IfErr result (IsGap counted_uid rows.now uid) }
{
    rows.binary_search_by_key(&uid, |row| row.uid)
}

impl UidCounts {
    /// None for any uid, with memory for so many uids.
    pub fn with_room(alloc: Global, room: usize) -> Result<UidCounts, NoMemory>
        ensures none { IfOk result IsNone }
        ensures room { IfOk result (λ counts. room ≤ room_in counts) }
    {
        Ok(UidCounts {
            rows: Vec::with_capacity(alloc, room)?,
        })
    }

    /// How many a uid has.
    pub fn of(&self, uid: u32) -> usize
        ensures count { result ≡ count_in self.now uid }
        ensures within { result ≤ total self.now }
    {
        match count_at(&self.rows, uid) {
            Ok(at) => self.rows[at].count as usize,
            Err(_at) => 0,
        }
    }

    /// One more of a uid.
    pub fn raise(&mut self, uid: u32)
        requires room { total self.old < room_in self.old }
        requires few { total self.old < 2 ^ 32 - 1 }
        ensures { Raises self.old self.new uid }
    {
        match count_at(&self.rows, uid) {
            Ok(at) => {
                let count = self.rows[at].count + 1;
                self.rows[at] = Counted { uid, count };
            }
            Err(at) => match self.rows.insert(at, Counted { uid, count: 1 }) {
                Ok(()) => (),
                Err(_) => unreachable!(),
            },
        }
    }

    /// One less of a uid, which needs to have one.
    pub fn lower(&mut self, uid: u32)
        requires { 0 < count_in self.old uid }
        ensures { Lowers self.old self.new uid }
    {
        let at = match count_at(&self.rows, uid) {
            Ok(at) => at,
            Err(_at) => unreachable!(),
        };
        let count = self.rows[at].count - 1;
        if count == 0 {
            self.rows.remove(at);
        } else {
            self.rows[at] = Counted { uid, count };
        }
    }

    /// None for any uid.
    pub fn clear(&mut self)
        ensures none { IsNone self.new }
        ensures room { room_in self.new ≡ room_in self.old }
    {
        self.rows.clear();
    }
}
