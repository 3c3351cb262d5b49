//! Two connections at once: a work of the one goes on while the gate holds one of the other. A service that served one connection behind
//! the other, or that did its works under the lock, would never end the gate's wait.

use crate::service::{FORMATTED, Links, Outcome, Told, outcome_of};
use keystore_server::ServeStatus;
use ks_outside::Gate;
use std::alloc::Global;
use std::sync::Wait;
use std::sync::atomic::{AtomicU64, Ordering};
use std::thread::Threads;

/// How often a flag is looked at before the test gives up.
const LOOKS: u64 = 1_000_000_000;

/// Holds ticket 1 until it is called with ticket 2, and counts where it gave up.
#[derive(Drop)]
struct Holding<'a> {
    second: &'a AtomicU64,
    missed: &'a AtomicU64,
}

impl Gate for Holding<'_> {
    fn between(&self, ticket: u64) {
        if ticket == 2 {
            self.second.store(1, Ordering::SeqCst);
        }
        if ticket == 1 && !is_raised(self.second) {
            self.missed.store(1, Ordering::SeqCst);
        }
    }
}

/// Waits until a flag is raised, and says whether it was.
fn is_raised(flag: &AtomicU64) -> bool {
    for _look in 0..LOOKS {
        if flag.load(Ordering::SeqCst) != 0 {
            return true;
        }
    }
    false
}

/// A connect with uid 10001, an import of the HMAC key m of twenty bytes 0b, a begin of a mac with it, and an update of operation 1 and
/// one of operation 2, of a byte each.
static ONE: [u8; 195] = [
    0, 0, 0, 5, 1, 0, 0, 0x27, 0x11, 0, 0, 0, 0x63, 4, 0, 0, 0, 0, 0, 0, 0, 0, 0, 0, 0, 0, 1, 0, 0,
    0, 1, 0x6d, 0, 0, 0, 0, 0x2f, 0, 6, 0x20, 0, 0, 1, 0, 0, 0, 2, 0x20, 0, 0, 1, 0, 0, 0, 3, 0x10,
    0, 0, 2, 0, 0, 0, 0x80, 0x20, 0, 0, 5, 0, 0, 0, 4, 0x30, 0, 0, 8, 0, 0, 0, 0x40, 0x70, 0, 1,
    0xf7, 1, 0, 0, 0, 3, 0, 0, 0, 0x14, 11, 11, 11, 11, 11, 11, 11, 11, 11, 11, 11, 11, 11, 11, 11,
    11, 11, 11, 11, 11, 0, 0, 0, 0x2b, 5, 0, 0, 0, 0, 0, 0, 0, 0, 0, 0, 0, 0, 1, 0, 0, 0, 1, 0x6d,
    0, 0, 0, 0, 0x12, 0, 2, 0x20, 0, 0, 1, 0, 0, 0, 2, 0x30, 0, 3, 0xeb, 0, 0, 1, 0, 0, 0, 0, 0,
    14, 7, 0, 0, 0, 0, 0, 0, 0, 1, 0, 0, 0, 1, 0x61, 0, 0, 0, 14, 7, 0, 0, 0, 0, 0, 0, 0, 2, 0, 0,
    0, 1, 0x61,
];

/// The replies to the updates, behind three of 19 bytes: that of an operation of one's own puts nothing out, that of another's has code -28
/// by S1; in this order or the other.
static UPDATES: [&[u8]; 2] = [
    &[
        0, 0, 0, 11, 0, 0, 0, 0, 0, 0, 14, 0, 0, 0, 0, 0, 0, 0, 6, 0xff, 0xff, 0xff, 0xe4, 0x53, 1,
    ],
    &[
        0, 0, 0, 6, 0xff, 0xff, 0xff, 0xe4, 0x53, 1, 0, 0, 0, 11, 0, 0, 0, 0, 0, 0, 14, 0, 0, 0, 0,
    ],
];

/// What comes of a service of both under a gate; the other one's uid is 10002.
fn outcome_under<R: Threads + Wait + Sync>(
    rt: &R,
    alloc: Global,
    gate: &Holding<'_>,
) -> Option<Outcome> {
    let mut other = ONE;
    other[8] = 0x12;
    let texts: [&[u8]; 2] = [&ONE, &other];
    let sent = Links {
        texts: &texts,
        cut: &[],
        failing: &[],
    };
    let told = Told {
        front: 57,
        texts: &UPDATES,
    };
    outcome_of(rt, alloc, "serve 0 2 2", FORMATTED, sent, gate, told)
}

/// Serves both under the gate: what came of it, and whether the gate gave up.
fn served_at_once<R: Threads + Wait + Sync>(rt: &R, alloc: Global) -> (Option<Outcome>, bool) {
    let second = AtomicU64::new(0);
    let missed = AtomicU64::new(0);
    let gate = Holding {
        second: &second,
        missed: &missed,
    };
    let outcome = outcome_under(rt, alloc, &gate);
    (outcome, missed.load(Ordering::SeqCst) != 0)
}

/// Of each connection a connect, an import, a begin, an update in two entries, one that is refused, and a disconnect.
const SERVED: Outcome = Outcome {
    status: ServeStatus::Ok,
    given: 2,
    told: 2,
    entries: Some(14),
    gone: 2,
};

#[test]
fn a_held_work_holds_no_other_connection(rt: HostRuntime) {
    let (outcome, missed) = served_at_once(&rt, rt.alloc());
    assert!(&rt; outcome == Some(SERVED) && !missed);
}
