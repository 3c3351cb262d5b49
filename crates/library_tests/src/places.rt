//! Each call once, over values that are owned and not copied.
ghost use Rattle.std.specs.Prelude.{◌≡◌, ◌<◌};
ghost use Rattle.operation_slots.specs.Table.{IsLater};

use operation_slots::{OpId, Slots, Steps, Taken};
use std::alloc::Global;
use std::marker::Brand;
use std::sync::ledger::{Blank, Ledger};
use std::test::Fail;

/// Slots with the stamp that comes next, which is greater than every stamp held.
#[derive(Drop)]
struct Desk {
    slots: Slots<Vec<u8>>,
    next: u64,
    ghost later: { IsLater slots next },
}

impl Desk {
    /// Begins an operation, where a slot and its number are free.
    fn begin(&mut self, op: OpId, uid: u32, value: Vec<u8>) {
        let stamp = self.next;
        if stamp == u64::MAX || !self.slots.has_room() {
            return;
        }
        if let Taken::Absent = self.slots.take(op) {
            self.slots.begin(op, uid, 100, stamp, value);
            self.next = stamp + 1;
        }
    }

    /// Gives an operation its value back, where it is busy.
    fn give(&mut self, op: OpId, value: Vec<u8>) {
        let stamp = self.next;
        if stamp == u64::MAX {
            return;
        }
        if let Taken::Busy = self.slots.take(op) {
            self.slots.give(op, stamp, value);
            self.next = stamp + 1;
        }
    }

    /// Takes an operation out, where it is busy.
    fn end(&mut self, op: OpId) {
        if let Taken::Busy = self.slots.take(op) {
            self.slots.end(op);
        }
    }

    /// The value of an operation, and none of one that is not idle.
    fn taken(&mut self, op: OpId) -> Option<Vec<u8>> {
        match self.slots.take(op) {
            Taken::Found(value) => Some(value),
            _ => None,
        }
    }
}

/// The oldest idle operation of a uid, by a counter of its own.
fn oldest<L: Ledger>(slots: &Slots<Vec<u8>>, uid: u32, blank: Blank) -> Option<(OpId, u64)>
    requires name { blank.name ≡ L.name }
    requires parts { blank.parts ≡ L.parts }
    requires some { 0 < L.parts }
{
    let mut steps = Steps::<L>::new(blank);
    slots.oldest_idle(uid, &mut steps)
}

fn oldest_of(slots: &Slots<Vec<u8>>, uid: u32) -> Option<(OpId, u64)> {
    oldest::<Brand>(slots, uid, Blank::new(1))
}

/// A value of one byte.
fn value(alloc: Global, byte: u8) -> Vec<u8> {
    let mut value = Vec::new(alloc);
    let _ = value.push(byte);
    value
}

fn is_value(value: &Option<Vec<u8>>, byte: u8) -> bool {
    match value {
        Some(value) => value.as_slice() == [byte].as_slice(),
        None => false,
    }
}

/// Whether there is room, how many operations are open, and of uid 10, how many uids have an idle one, and the oldest idle one of uid 10.
type Told = (bool, usize, usize, usize, Option<(OpId, u64)>);

fn told(slots: &Slots<Vec<u8>>) -> Told {
    (
        slots.has_room(),
        slots.open_count(),
        slots.open_of(10),
        slots.idle_owners(),
        oldest_of(slots, 10),
    )
}

/// Three operations; the oldest goes out and comes back.
fn goes_out(alloc: Global, desk: &mut Desk) -> ([Told; 3], bool) {
    desk.begin(7, 10, value(alloc, 70));
    desk.begin(3, 20, value(alloc, 30));
    desk.begin(9, 10, value(alloc, 90));
    let begun = told(&desk.slots);
    let value = desk.taken(7);
    let same = is_value(&value, 70);
    let out = told(&desk.slots);
    desk.give(7, value.unwrap_or(Vec::new(alloc)));
    ([begun, out, told(&desk.slots)], same)
}

/// One is closed; another that is out is not closed, and ends.
fn ends(desk: &mut Desk) -> ([Told; 3], [bool; 4], [Option<u32>; 2]) {
    let value = desk.slots.close(9);
    let closed = told(&desk.slots);
    let held = desk.taken(3);
    let refused = desk.slots.close(3).is_none();
    let out = told(&desk.slots);
    let owners = [desk.slots.idle_owner(0), desk.slots.idle_owner(1)];
    desk.end(3);
    let ended = oldest_of(&desk.slots, 20).is_none();
    let same = [is_value(&value, 90), is_value(&held, 30), refused, ended];
    drop(value);
    drop(held);
    ([closed, out, told(&desk.slots)], same, owners)
}

#[test]
fn a_value_goes_out_and_comes_back(rt: HostRuntime) -> Result<(), Fail> {
    let mut desk = Desk {
        slots: Slots::with_capacity(rt.alloc(), 3)?,
        next: 1,
    };
    let (first, out) = goes_out(rt.alloc(), &mut desk);
    let (then, same, owners) = ends(&mut desk);
    drop(desk);
    let (begun, old) = (
        (false, 3, 2, 2, Some((7, 1))),
        (false, 3, 2, 2, Some((9, 3))),
    );
    assert!(rt; first == [begun, old, old] && out);
    let new = Some((7, 4));
    let wanted = [
        (true, 2, 1, 2, new),
        (true, 2, 1, 1, new),
        (true, 1, 1, 1, new),
    ];
    assert!(rt; then == wanted && same == [true; 4] && owners == [Some(10), None]);
    Ok(())
}
