//! What a listener still has to give, and the links that it gave.

ghost use Rattle.std.specs.Prelude.{◌≡◌, true, IfSome, IsNone};
ghost use Rattle.connection_workers.specs.Arrivals.{Arrives, arrived};
ghost use Rattle.connection_workers.specs.Intakes.{IsIntake, is_shut};

use ks_outside::{Failed, Listener};
use std::snapshot::Snapshot;
use turn_lock::{History, LockPass, TurnLock};

/// What a service of connections begins with: its listener, which clauses alone see, and how many connections it is to serve.
#[derive(Drop)]
pub struct Start<B> {
    pub(crate) begin: Snapshot<B>,
    pub(crate) connections: u64,
}

/// A link as it was taken from a listener, which clauses alone see, and the number of the worker that took it.
pub struct Arrival<L> {
    pub worker: u64,
    pub link: Snapshot<L>,
}

impl<L> Drop for Arrival<L> {
    fn drop(self) {
        let Arrival { worker: _, link } = self;
        drop(link);
    }
}

/// All links that were taken from a listener, which clauses alone see: there is memory for the last of them alone.
pub enum Arrivals<L> {
    Nothing,
    Last(Arrival<L>, Snapshot<Arrivals<L>>),
}

impl<L> Drop for Arrivals<L> {
    fn drop(self) {
        match self {
            Arrivals::Nothing => {}
            Arrivals::Last(last, before) => {
                drop(last);
                drop(before);
            }
        }
    }
}

/// A listener, and how many connections are still to be taken from it.
pub struct Intake<B, L> {
    pub(crate) listener: B,
    pub(crate) left: u64,
    /// a call of the listener failed
    pub(crate) failed: bool,
    /// the listener said that no more come
    pub(crate) over: bool,
    /// the links that were taken
    pub(crate) arrivals: Arrivals<L>,
}

impl<B: Drop, L> Drop for Intake<B, L> {
    fn drop(self) {
        let Intake {
            listener,
            left: _,
            failed: _,
            over: _,
            arrivals,
        } = self;
        drop(listener);
        drop(arrivals);
    }
}

/// The history of an intake are the links that were taken, each with the worker that took it; it is known by what it began with.
impl<B: Listener> History<Arrival<B::L>, Start<B>> for Intake<B, B::L> {
    ghost use Rattle.std.proofs.Common.{arith};
    ghost use Rattle.connection_workers.specs.Arrivals.{arrived};
    ghost use Rattle.connection_workers.specs.Intakes.{IsIntake};

    ghost entries = { λ intake. arrived intake };

    ghost maker = { λ arrival. arrival.worker };

    ghost level = { λ _. 0 };

    ghost rises = { λ xs ys. omega arith };

    ghost fits = { IsIntake B.Listener };
}

/// An intake behind the turn lock.
pub type IntakeLock<B, L> = TurnLock<Intake<B, L>, Arrival<L>, Start<B>>;

pub type IntakePass<B, L> = LockPass<Intake<B, L>, Arrival<L>, Start<B>>;

impl<B, L> Intake<B, L> {
    /// Its listener.
    pub(crate) fn into_listener(self) -> B
        ensures { result ≡ self.listener }
    {
        let Intake {
            listener,
            left: _,
            failed: _,
            over: _,
            arrivals,
        } = self;
        drop(arrivals);
        listener
    }

    /// Notes a link that a worker takes.
    fn note(&mut self, worker: u64, link: &L)
        ensures arrives { Arrives worker link.now (arrived self.old) (arrived self.new) }
        ensures same { self.new ≡ record self.old { arrivals = self.new.arrivals } }
    {
        let last = Arrival {
            worker,
            link: Snapshot::of(link),
        };
        self.arrivals = Arrivals::Last(last, Snapshot::of(&self.arrivals));
    }

    /// Notes that a call of the listener failed.
    fn note_failure(&mut self)
        ensures { self.new ≡ record self.old { failed = true } }
    {
        self.failed = true;
    }
}

impl<B: Listener> Intake<B, B::L> {
    /// The next connection, for the worker of this number; `None` where as many were taken as are wanted, the listener said that no more
    /// come, or a call of it failed.
    pub(crate) fn take(&mut self, worker: u64) -> Option<B::L>
        ensures goes_on { (start : Start B) → IsIntake B.Listener start self.old → IsIntake B.Listener start self.new }
        ensures arrives { IfSome result (λ link. Arrives worker link (arrived self.old) (arrived self.new)) }
        ensures none { IsNone result → is_shut self.new ≡ true }
        ensures same { IsNone result → arrived self.new ≡ arrived self.old }
    {
        if self.left == 0 || self.failed || self.over {
            return None;
        }
        match self.listener.next() {
            Ok(Some(link)) => {
                self.left -= 1;
                self.note(worker, &link);
                Some(link)
            }
            Ok(None) => {
                self.over = true;
                None
            }
            Err(Failed) => {
                self.note_failure();
                None
            }
        }
    }

    /// Hands the listener what is left of a connection that was hung up, where something is.
    pub(crate) fn give_back(&mut self, left: Option<B::L>)
        ensures goes_on { (start : Start B) → IsIntake B.Listener start self.old → IsIntake B.Listener start self.new }
        ensures same { arrived self.new ≡ arrived self.old }
    {
        let Some(link) = left else {
            return;
        };
        self.listener.done(link);
    }
}
