//! What threads tell one another.

use crate::counts::Counts;
use crate::plan::LoadPlan;
use ks_outside::Gate;
use std::sync::atomic::{AtomicU64, Ordering};

/// How often a signal is looked for before a thread goes on without it.
const LOOKS: u64 = 1_000_000_000;

/// What all threads of a load do and how often they make a round, their signals, and what their calls came to. It is the gate of their
/// calls too.
#[derive(Debug, Drop)]
pub struct Board {
    pub plan: &'static LoadPlan,
    pub rounds: u32,
    raised: AtomicU64,
    tickets: AtomicU64,
    admitted: AtomicU64,
    right: AtomicU64,
    gone: AtomicU64,
    late: AtomicU64,
    full: AtomicU64,
    missed: AtomicU64,
}

impl Board {
    /// The board of a load that was not begun.
    pub fn new(plan: &'static LoadPlan, rounds: u32) -> Board {
        Board {
            plan,
            rounds,
            raised: AtomicU64::new(0),
            tickets: AtomicU64::new(0),
            admitted: AtomicU64::new(0),
            right: AtomicU64::new(0),
            gone: AtomicU64::new(0),
            late: AtomicU64::new(0),
            full: AtomicU64::new(0),
            missed: AtomicU64::new(0),
        }
    }

    /// Raises one signal more.
    pub(crate) fn raise(&self) {
        self.raised.fetch_add(1, Ordering::SeqCst);
    }

    /// Lets the thread with this number in: the first at once, each other once a signal was raised.
    pub(crate) fn let_in(&self, number: u64) {
        if number > 0 {
            self.wait_for(1);
        }
    }

    /// Waits until so many signals were raised. That it gave up is counted as missed.
    fn wait_for(&self, signals: u64) {
        for _look in 0..LOOKS {
            if self.raised.load(Ordering::SeqCst) >= signals {
                return;
            }
        }
        self.missed.fetch_add(1, Ordering::SeqCst);
    }

    /// Adds what the calls of one thread came to.
    pub(crate) fn add(&self, counts: Counts) {
        self.admitted.fetch_add(counts.admitted, Ordering::SeqCst);
        self.right.fetch_add(counts.right, Ordering::SeqCst);
        self.gone.fetch_add(counts.gone, Ordering::SeqCst);
        self.late.fetch_add(counts.late, Ordering::SeqCst);
        self.full.fetch_add(counts.full, Ordering::SeqCst);
        self.missed.fetch_add(counts.missed, Ordering::SeqCst);
    }

    /// The sum of the tickets with which the gate was called.
    pub fn tickets(&self) -> u64 {
        self.tickets.load(Ordering::SeqCst)
    }

    /// What all calls came to.
    pub fn counts(&self) -> Counts {
        Counts {
            admitted: self.admitted.load(Ordering::SeqCst),
            right: self.right.load(Ordering::SeqCst),
            gone: self.gone.load(Ordering::SeqCst),
            late: self.late.load(Ordering::SeqCst),
            full: self.full.load(Ordering::SeqCst),
            missed: self.missed.load(Ordering::SeqCst),
        }
    }
}

impl Gate for Board {
    fn between(&self, ticket: u64) {
        self.tickets.fetch_add(ticket, Ordering::SeqCst);
        if self.plan.holds {
            self.raise();
            self.wait_for(2);
        }
    }
}
