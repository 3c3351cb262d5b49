//! All slots taken by idle operations, and calls so often that none can look at every operation: one that did would meet more
//! than 10^10 of them, and a look at the oldest more than 10^11, which does not end within a test's minute.

use crate::slot_desk::{Desk, oldest_of};
use operation_slots::OpId;
use std::alloc::Global;
use std::ops::Range;
use tags::MOST_SLOTS;

/// The number of the operation of uid 2, which is the count of those of uid 1 before it: 511 are behind it.
const LONE: OpId = 512;

/// Begins operations of a uid with ascending stamps, and tells whether all could begin.
fn begin(desk: &mut Desk, ops: Range<OpId>, uid: u32) -> bool {
    let mut all = true;
    for op in ops {
        all &= desk.begin(op, uid, 1);
    }
    all
}

/// Whether each look at uid 2 finds its operation. Which uid a look asks for is told by the answer before it (512 leaves 2 of
/// 510), so no compiler leaves one out.
fn finds_the_lone_one(desk: &Desk) -> bool {
    let mut uid = 2;
    let mut same = true;
    for _ in 0..500_000_000u64 {
        let (op, stamp) = oldest_of(desk, uid).unwrap_or((0, 0));
        same &= (op == LONE) & (stamp == LONE + 1);
        uid = (op % (LONE - 2)) as u32;
    }
    same
}

/// Whether an operation of uid 1 in the middle goes out and comes back each time, and is the youngest then.
fn goes_out_and_comes_back(desk: &mut Desk) -> bool {
    let mut same = true;
    for _ in 0..50_000_000u64 {
        same &= desk.touch(LONE - 1);
    }
    same &= oldest_of(desk, 1) == Some((0, 1));
    same & (desk.next() == 50_001_025)
}

/// Whether slots with operations of two uids answer so.
fn two_uids_answer(alloc: Global) -> bool {
    let Ok(mut desk) = Desk::with_slots(alloc, MOST_SLOTS) else {
        return false;
    };
    let mut same = begin(&mut desk, 0..LONE, 1);
    same &= begin(&mut desk, LONE..LONE + 1, 2);
    same &= begin(&mut desk, LONE + 1..MOST_SLOTS as u64, 1);
    same &= finds_the_lone_one(&desk);
    same &= goes_out_and_comes_back(&mut desk);
    drop(desk);
    same
}

#[test]
fn one_of_a_thousand_operations_is_found_taken_and_given_back_at_once(rt: HostRuntime) {
    assert!(rt; two_uids_answer(rt.alloc()));
}

/// At how many places a uid stands among those that have an idle operation.
fn places_of(desk: &Desk, uid: u32) -> usize {
    let mut count = 0usize;
    for place in 0..=MOST_SLOTS {
        if desk.idle_owner(place) == Some(uid) {
            count = count.saturating_add(1);
        }
    }
    count
}

/// Whether slots with an operation of each of so many uids have each uid at one place.
fn each_uid_stands_once(alloc: Global) -> bool {
    let Ok(mut desk) = Desk::with_slots(alloc, MOST_SLOTS) else {
        return false;
    };
    let mut same = true;
    for op in 0..MOST_SLOTS as u64 {
        same &= begin(&mut desk, op..op + 1, op as u32);
    }
    for _ in 0..500 {
        for uid in 0..MOST_SLOTS as u32 {
            same &= places_of(&desk, uid) == 1;
        }
    }
    drop(desk);
    same
}

#[test]
fn each_of_a_thousand_uids_stands_at_one_place(rt: HostRuntime) {
    assert!(rt; each_uid_stands_once(rt.alloc()));
}
