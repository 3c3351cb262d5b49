//! Slots with a clock of the test's own, and what they answer by counters of their own.
ghost use Rattle.std.specs.Prelude.{◌≡◌, ◌+◌, ◌<◌, ◌≤◌};
ghost use Rattle.operation_slots.specs.Table.{IsLater};

use operation_slots::{OpId, Slots, Steps, Taken};
use pruning::victim;
use std::alloc::Global;
use std::marker::Brand;
use std::sync::ledger::{Blank, Ledger};
use tags::{MOST_SLOTS, NoMemory};

/// Slots with the stamp that comes next, which is greater than every stamp held.
#[derive(Drop)]
pub(crate) struct Desk {
    slots: Slots<u8>,
    next: u64,
    ghost later: { IsLater slots next },
}

impl Desk {
    /// So many free slots, and the stamp 1.
    pub(crate) fn with_slots(alloc: Global, count: usize) -> Result<Desk, NoMemory>
        requires some { 0 < count }
        requires few { count ≤ MOST_SLOTS }
    {
        let slots = Slots::with_capacity(alloc, count)?;
        Ok(Desk { slots, next: 1 })
    }

    /// The stamp that comes next.
    pub(crate) fn next(&self) -> u64 {
        self.next
    }

    /// How many operations are open.
    pub(crate) fn open_count(&self) -> usize {
        self.slots.open_count()
    }

    /// How many operations of a uid are open.
    pub(crate) fn open_of(&self, uid: u32) -> usize {
        self.slots.open_of(uid)
    }

    /// The uid at a place among those that have an idle operation.
    pub(crate) fn idle_owner(&self, place: usize) -> Option<u32> {
        self.slots.idle_owner(place)
    }

    /// Takes an operation out, idle or busy.
    pub(crate) fn take_out(&mut self, op: OpId) {
        self.slots.take_out(op);
    }

    /// Takes out all operations.
    pub(crate) fn clear(&mut self) {
        self.slots.clear();
    }

    /// Lets time pass.
    pub(crate) fn wait_until(&mut self, time: u64) {
        if self.next < time {
            self.next = time;
        }
    }

    /// Begins an operation where a slot is free and its number is; the stamp is this moment's.
    pub(crate) fn begin(&mut self, op: OpId, uid: u32, client: u64) -> bool {
        let stamp = self.next;
        if stamp == u64::MAX || !self.slots.has_room() {
            return false;
        }
        match self.slots.take(op) {
            Taken::Absent => {
                self.slots.begin(op, uid, client, stamp, 0);
                self.next = stamp + 1;
                true
            }
            _ => false,
        }
    }

    /// Takes an idle operation and gives it back at this moment.
    pub(crate) fn touch(&mut self, op: OpId) -> bool {
        let stamp = self.next;
        if stamp == u64::MAX {
            return false;
        }
        match self.slots.take(op) {
            Taken::Found(value) => {
                self.slots.give(op, stamp, value);
                self.next = stamp + 1;
                true
            }
            _ => false,
        }
    }

    /// Takes an idle operation, which stays busy.
    pub(crate) fn hold(&mut self, op: OpId) -> bool {
        matches!(self.slots.take(op), Taken::Found(_))
    }

    /// Takes an idle operation out, at once or by way of being busy.
    pub(crate) fn finish(&mut self, op: OpId, at_once: bool) -> bool {
        if at_once {
            return self.slots.close(op).is_some();
        }
        match self.slots.take(op) {
            Taken::Found(_) => {
                self.slots.end(op);
                true
            }
            _ => false,
        }
    }
}

/// The victim, and how many uids have an idle operation, which is the most steps that the search takes.
fn counted<L: Ledger>(
    desk: &Desk,
    uid: u32,
    forced: bool,
    steps: &mut Steps<L>,
) -> (Option<OpId>, usize)
    ensures { steps.new ≤ steps.old + result.1 }
{
    let first = victim(&desk.slots, uid, forced, desk.next, steps);
    (first, desk.slots.idle_owners())
}

/// The same, by a counter of its own.
pub(crate) fn pruned<L: Ledger>(
    desk: &Desk,
    uid: u32,
    forced: bool,
    blank: Blank,
) -> (Option<OpId>, usize)
    requires name { blank.name ≡ L.name }
    requires parts { blank.parts ≡ L.parts }
    requires some { 0 < L.parts }
{
    let mut steps = Steps::<L>::new(blank);
    counted(desk, uid, forced, &mut steps)
}

/// The oldest idle operation of a uid, by a counter that is given.
fn oldest<L: Ledger>(desk: &Desk, uid: u32, blank: Blank) -> Option<(OpId, u64)>
    requires name { blank.name ≡ L.name }
    requires parts { blank.parts ≡ L.parts }
    requires some { 0 < L.parts }
{
    let mut steps = Steps::<L>::new(blank);
    desk.slots.oldest_idle(uid, &mut steps)
}

/// The oldest idle operation of a uid, by a counter of its own.
pub(crate) fn oldest_of(desk: &Desk, uid: u32) -> Option<(OpId, u64)> {
    oldest::<Brand>(desk, uid, Blank::new(1))
}
