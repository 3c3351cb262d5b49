//! A table of sixteen operations: which is the first to go.

use crate::slot_desk::{Desk, pruned};
use operation_slots::OpId;
use std::alloc::Global;
use std::marker::Brand;
use std::sync::ledger::Blank;

/// Sixteen operations, the one of place i with the number (7 i + 3) mod 16 + 1.
struct Case {
    uids: [u32; 16],
    /// by how much this moment is later than the last touch, descending
    ages: [u64; 16],
    /// bit i for place i
    busy: u16,
    uid: u32,
    forced: bool,
    want: Option<OpId>,
}

const NOW: u64 = 1 << 40;

/// Expected values by another program, from the rule as it is written.
static CASES: [Case; 18] = [
    // a uid with all slots: the oldest has 16 and five digits, and the bar is 17
    Case {
        uids: [1, 1, 1, 1, 1, 1, 1, 1, 1, 1, 1, 1, 1, 1, 1, 1],
        ages: [16, 15, 14, 13, 12, 11, 10, 9, 8, 7, 6, 5, 4, 3, 2, 1],
        busy: 0x0000,
        uid: 1,
        forced: false,
        want: Some(4),
    },
    // all busy
    Case {
        uids: [1, 1, 1, 1, 1, 1, 1, 1, 1, 1, 1, 1, 1, 1, 1, 1],
        ages: [16, 15, 14, 13, 12, 11, 10, 9, 8, 7, 6, 5, 4, 3, 2, 1],
        busy: 0xffff,
        uid: 1,
        forced: false,
        want: None,
    },
    // all busy, and the caller forces
    Case {
        uids: [1, 1, 1, 1, 1, 1, 1, 1, 1, 1, 1, 1, 1, 1, 1, 1],
        ages: [16, 15, 14, 13, 12, 11, 10, 9, 8, 7, 6, 5, 4, 3, 2, 1],
        busy: 0xffff,
        uid: 2,
        forced: true,
        want: None,
    },
    // the youngest alone is idle: 16 and one digit are not over 17
    Case {
        uids: [1, 1, 1, 1, 1, 1, 1, 1, 1, 1, 1, 1, 1, 1, 1, 1],
        ages: [16, 15, 14, 13, 12, 11, 10, 9, 8, 7, 6, 5, 4, 3, 2, 1],
        busy: 0x7fff,
        uid: 1,
        forced: false,
        want: None,
    },
    // the same, and the caller forces
    Case {
        uids: [1, 1, 1, 1, 1, 1, 1, 1, 1, 1, 1, 1, 1, 1, 1, 1],
        ages: [16, 15, 14, 13, 12, 11, 10, 9, 8, 7, 6, 5, 4, 3, 2, 1],
        busy: 0x7fff,
        uid: 1,
        forced: true,
        want: Some(13),
    },
    // the same for a uid that has none: the bar is 1
    Case {
        uids: [1, 1, 1, 1, 1, 1, 1, 1, 1, 1, 1, 1, 1, 1, 1, 1],
        ages: [16, 15, 14, 13, 12, 11, 10, 9, 8, 7, 6, 5, 4, 3, 2, 1],
        busy: 0x7fff,
        uid: 2,
        forced: false,
        want: Some(13),
    },
    // equal malus: the one touched longest ago, which is not the first number
    Case {
        uids: [1, 1, 1, 1, 1, 1, 1, 1, 1, 1, 1, 1, 1, 1, 1, 1],
        ages: [
            127, 126, 125, 124, 123, 122, 121, 120, 119, 118, 117, 116, 115, 114, 113, 112,
        ],
        busy: 0x0000,
        uid: 9,
        forced: false,
        want: Some(4),
    },
    // the oldest ones are busy
    Case {
        uids: [1, 1, 1, 1, 1, 1, 1, 1, 1, 1, 1, 1, 1, 1, 1, 1],
        ages: [
            127, 126, 125, 124, 123, 122, 121, 120, 119, 118, 117, 116, 115, 114, 113, 112,
        ],
        busy: 0x00ff,
        uid: 9,
        forced: false,
        want: Some(12),
    },
    // two uids of eight
    Case {
        uids: [1, 1, 1, 1, 1, 1, 1, 1, 2, 2, 2, 2, 2, 2, 2, 2],
        ages: [65, 64, 63, 33, 32, 31, 17, 16, 15, 9, 8, 7, 4, 3, 2, 1],
        busy: 0x0000,
        uid: 2,
        forced: false,
        want: Some(4),
    },
    // two uids, the first one busy
    Case {
        uids: [1, 1, 1, 1, 1, 1, 1, 1, 2, 2, 2, 2, 2, 2, 2, 2],
        ages: [65, 64, 63, 33, 32, 31, 17, 16, 15, 9, 8, 7, 4, 3, 2, 1],
        busy: 0x00ff,
        uid: 2,
        forced: false,
        want: Some(12),
    },
    // four uids, each fourth busy
    Case {
        uids: [1, 2, 3, 4, 1, 2, 3, 4, 1, 2, 3, 4, 1, 2, 3, 4],
        ages: [65, 64, 63, 33, 32, 31, 17, 16, 15, 9, 8, 7, 4, 3, 2, 1],
        busy: 0x1111,
        uid: 1,
        forced: false,
        want: Some(11),
    },
    // a uid each: the bar is two, and one digit is not over it
    Case {
        uids: [1, 2, 3, 4, 5, 6, 7, 8, 9, 10, 11, 12, 13, 14, 15, 16],
        ages: [16, 15, 14, 13, 12, 11, 10, 9, 8, 7, 6, 5, 4, 3, 2, 1],
        busy: 0x7fff,
        uid: 16,
        forced: false,
        want: None,
    },
    // a uid each: two digits are over it
    Case {
        uids: [1, 2, 3, 4, 5, 6, 7, 8, 9, 10, 11, 12, 13, 14, 15, 16],
        ages: [16, 15, 14, 13, 12, 11, 10, 9, 8, 7, 6, 5, 4, 3, 2, 1],
        busy: 0xbfff,
        uid: 16,
        forced: false,
        want: Some(6),
    },
    // a uid each, at powers of two
    Case {
        uids: [1, 2, 3, 4, 5, 6, 7, 8, 9, 10, 11, 12, 13, 14, 15, 16],
        ages: [65, 64, 63, 33, 32, 31, 17, 16, 15, 9, 8, 7, 4, 3, 2, 1],
        busy: 0x0000,
        uid: 3,
        forced: false,
        want: Some(4),
    },
    // twelve of one uid, of up to four digits, against four old ones of eleven
    Case {
        uids: [2, 2, 2, 2, 1, 1, 1, 1, 1, 1, 1, 1, 1, 1, 1, 1],
        ages: [
            2047, 1500, 1300, 1100, 12, 11, 10, 9, 8, 7, 6, 5, 4, 3, 2, 1,
        ],
        busy: 0x0000,
        uid: 1,
        forced: false,
        want: Some(16),
    },
    // the same with an old one of twelve digits: as much malus, and touched longer ago
    Case {
        uids: [2, 2, 2, 2, 1, 1, 1, 1, 1, 1, 1, 1, 1, 1, 1, 1],
        ages: [
            2048, 1500, 1300, 1100, 12, 11, 10, 9, 8, 7, 6, 5, 4, 3, 2, 1,
        ],
        busy: 0x0000,
        uid: 1,
        forced: false,
        want: Some(4),
    },
    // that one is busy
    Case {
        uids: [2, 2, 2, 2, 1, 1, 1, 1, 1, 1, 1, 1, 1, 1, 1, 1],
        ages: [
            2048, 1500, 1300, 1100, 12, 11, 10, 9, 8, 7, 6, 5, 4, 3, 2, 1,
        ],
        busy: 0x0001,
        uid: 1,
        forced: false,
        want: Some(16),
    },
    // long ages of four uids, the oldest busy
    Case {
        uids: [1, 2, 3, 4, 1, 2, 3, 4, 1, 2, 3, 4, 1, 2, 3, 4],
        ages: [
            549755813888,
            137438953472,
            34359738368,
            8589934592,
            2147483648,
            536870912,
            134217728,
            33554432,
            8388608,
            2097152,
            524288,
            131072,
            32768,
            8192,
            2048,
            512,
        ],
        busy: 0x0001,
        uid: 2,
        forced: false,
        want: Some(11),
    },
];

/// Begins the operations of a case, and waits until now.
fn fill(desk: &mut Desk, case: &Case) {
    for place in 0..16u64 {
        desk.wait_until(NOW.saturating_sub(case.ages[place as usize]));
        let op = (7 * place + 3) % 16 + 1;
        desk.begin(op, case.uids[place as usize], 1);
        if case.busy >> place & 1 == 1 {
            desk.hold(op);
        }
    }
    desk.wait_until(NOW);
}

/// How many operations of a case are open, this moment, and the first to go.
fn first_to_go(alloc: Global, case: &Case) -> (usize, u64, Option<OpId>) {
    let Ok(mut desk) = Desk::with_slots(alloc, 16) else {
        return (0, 0, None);
    };
    fill(&mut desk, case);
    let (victim, _) = pruned::<Brand>(&desk, case.uid, case.forced, Blank::new(1));
    let (open, now) = (desk.open_count(), desk.next());
    drop(desk);
    (open, now, victim)
}

#[test]
fn the_first_to_go_of_sixteen(rt: HostRuntime) {
    for (row, case) in CASES.iter().enumerate() {
        let told = first_to_go(rt.alloc(), case);
        assert!(rt; told == (16, NOW, case.want), "in row {row}");
    }
}
