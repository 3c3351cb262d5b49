//! Random slot lists against the definition computed by filters over a whole list.

use crate::draws::Draws;
use crate::slot_desk::{Desk, oldest_of, pruned};
use operation_slots::OpId;
use std::alloc::Global;
use std::marker::Brand;
use std::sync::ledger::Blank;

/// An operation of the desk, in a plain list of the test's own.
#[derive(Clone, Copy)]
struct Row {
    op: OpId,
    uid: u32,
    client: u64,
    stamp: u64,
    busy: bool,
}

fn open_of(rows: &[Row], uid: u32) -> usize {
    let mut count = 0usize;
    for row in rows {
        if row.uid == uid {
            count = count.saturating_add(1);
        }
    }
    count
}

/// How often a number is halved before nothing is left.
fn digits(number: u64) -> usize {
    let mut left = number;
    let mut count: usize = 0;
    for _ in 0..64 {
        if left > 0 {
            count = count.saturating_add(1);
        }
        left /= 2;
    }
    count
}

fn malus(rows: &[Row], row: &Row, now: u64) -> usize {
    open_of(rows, row.uid).saturating_add(digits(now.saturating_sub(row.stamp)))
}

fn greatest_malus(rows: &[Row], now: u64) -> usize {
    let mut greatest = 0;
    for row in rows {
        if !row.busy {
            greatest = malus(rows, row, now).max(greatest);
        }
    }
    greatest
}

/// Of the idle rows of greatest malus the one touched longest ago, over the bar or forced.
fn by_definition(rows: &[Row], uid: u32, forced: bool, now: u64) -> Option<OpId> {
    let greatest = greatest_malus(rows, now);
    let mut first: Option<Row> = None;
    for row in rows {
        let worst = !row.busy && malus(rows, row, now) == greatest;
        let later = match first {
            Some(other) => other.stamp <= row.stamp,
            None => false,
        };
        if worst && !later {
            first = Some(*row);
        }
    }
    let row = first?;
    if forced || greatest > open_of(rows, uid).saturating_add(1) {
        Some(row.op)
    } else {
        None
    }
}

fn has(rows: &[Row], op: OpId) -> bool {
    let mut found = false;
    for row in rows {
        found |= row.op == op;
    }
    found
}

fn touch(rows: &mut [Row], op: OpId, stamp: u64) {
    for row in rows {
        if row.op == op {
            row.stamp = stamp;
        }
    }
}

fn hold(rows: &mut [Row], op: OpId) {
    for row in rows {
        if row.op == op {
            row.busy = true;
        }
    }
}

/// The idle row of a uid with the least stamp.
fn least(rows: &[Row], uid: u32) -> Option<(OpId, u64)> {
    let mut least: Option<(OpId, u64)> = None;
    for row in rows {
        let less = match least {
            Some((_, stamp)) => row.stamp < stamp,
            None => true,
        };
        if less && !row.busy && row.uid == uid {
            least = Some((row.op, row.stamp));
        }
    }
    least
}

/// Begins an operation here and there where that can be, and tells whether there was memory.
fn begin(desk: &mut Desk, rows: &mut Vec<Row>, op: OpId, uid: u32, client: u64) -> bool {
    let stamp = desk.next();
    if has(rows, op) || !desk.begin(op, uid, client) {
        return true;
    }
    let row = Row {
        op,
        uid,
        client,
        stamp,
        busy: false,
    };
    rows.push(row).is_ok()
}

/// One event on an operation that has begun.
fn go_on(desk: &mut Desk, rows: &mut Vec<Row>, draws: &mut Draws, op: OpId) {
    let stamp = desk.next();
    match draws.below(8) {
        0..=3 => {
            if desk.touch(op) {
                touch(rows, op, stamp);
            }
        }
        4 | 5 => {
            if desk.hold(op) {
                hold(rows, op);
            }
        }
        _ => {
            if desk.finish(op, draws.below(2) == 0) {
                rows.retain(|row| row.op != op);
            }
        }
    }
}

/// Takes the operations of a client out of the desk.
fn take_out_of(desk: &mut Desk, rows: &[Row], client: u64) {
    for row in rows {
        if row.client == client {
            desk.take_out(row.op);
        }
    }
}

/// A client of eight ends, or, seldom, all is cleared.
fn leave(desk: &mut Desk, rows: &mut Vec<Row>, draws: &mut Draws) {
    if draws.below(16) == 0 {
        desk.clear();
        rows.clear();
        return;
    }
    let client = draws.below(8) as u64;
    take_out_of(desk, rows, client);
    rows.retain(|row| row.client != client);
}

/// One event on the slots and on the plain list, and whether there was memory for it.
fn act(desk: &mut Desk, rows: &mut Vec<Row>, draws: &mut Draws, uids: u32) -> bool {
    let pause = draws.below(3).wrapping_mul(draws.below(40)) as u64;
    desk.wait_until(desk.next().saturating_add(pause));
    let op = draws.below(100) as u64;
    match draws.below(64) {
        0..=39 => {
            let (uid, client) = (draws.below(uids), draws.below(8) as u64);
            return begin(desk, rows, op, uid, client);
        }
        40..=62 => go_on(desk, rows, draws, op),
        _ => leave(desk, rows, draws),
    }
    true
}

/// The slots answer a caller as the definition does.
fn agree(desk: &Desk, rows: &[Row], uid: u32) -> bool {
    let mut same = desk.open_of(uid) == open_of(rows, uid);
    for forced in [false, true] {
        let (answer, _) = pruned::<Brand>(desk, uid, forced, Blank::new(1));
        same &= answer == by_definition(rows, uid, forced, desk.next());
    }
    same
}

/// The idle operations of a uid go in the order of their stamps, each behind a look at the oldest.
fn go_in_order(desk: &mut Desk, rows: &mut [Row], uid: u32) -> bool {
    let mut same = true;
    for _ in 0..=rows.len() {
        let answer = oldest_of(desk, uid);
        same &= answer == least(rows, uid);
        let Some((op, _)) = answer else {
            return same;
        };
        same &= desk.hold(op);
        hold(rows, op);
    }
    false
}

/// Whether the slots answer as the definition does behind so many events.
fn agree_behind_events(alloc: Global, draws: &mut Draws) -> bool {
    let count = (draws.below(64) as usize).min(63) + 1;
    let Ok(mut desk) = Desk::with_slots(alloc, count) else {
        return false;
    };
    let mut rows = Vec::new(alloc);
    let uids = draws.below(65).max(1);
    let mut same = true;
    for _ in 0..150 {
        same &= act(&mut desk, &mut rows, draws, uids);
    }
    same &= desk.open_count() == rows.len();
    for _ in 0..6 {
        same &= agree(&desk, rows.as_slice(), draws.below(uids.saturating_add(1)));
    }
    for uid in 0..uids {
        same &= go_in_order(&mut desk, rows.as_mut_slice(), uid);
    }
    drop(desk);
    drop(rows);
    same
}

#[test]
fn random_slot_lists_agree_with_the_definition(rt: HostRuntime) {
    let mut draws = Draws { state: 22 };
    let mut agree = true;
    for _ in 0..10_000 {
        agree &= agree_behind_events(rt.alloc(), &mut draws);
    }
    assert!(rt; agree);
}

/// Whether sixty-four slots with idle operations of four uids, sixteen each, answer as the definition does, and how many are open
/// and looked at.
fn agree_of_four(alloc: Global) -> (bool, usize, usize) {
    let Ok(mut desk) = Desk::with_slots(alloc, 64) else {
        return (false, 0, 0);
    };
    let mut rows = Vec::new(alloc);
    let mut same = true;
    for op in 0..64u64 {
        desk.wait_until(op.saturating_mul(op));
        same &= begin(&mut desk, &mut rows, op, (op % 4) as u32, 1);
    }
    for uid in 0..5 {
        same &= agree(&desk, rows.as_slice(), uid);
    }
    let (_, steps) = pruned::<Brand>(&desk, 4, true, Blank::new(1));
    let open = desk.open_count();
    drop(desk);
    drop(rows);
    (same, open, steps)
}

#[test]
fn sixty_four_operations_of_four_uids_take_four_steps(rt: HostRuntime) {
    assert!(rt; agree_of_four(rt.alloc()) == (true, 64, 4));
}
