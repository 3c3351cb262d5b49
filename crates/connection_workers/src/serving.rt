//! All connections of a listener.

ghost use Rattle.std.specs.Prelude.{◌≡◌, ◌<◌, ◌^◌, ◌+◌, ℕ, true, Some, List, length};
ghost use Rattle.turn_lock.specs.Passes.{made_before, made_of, IsClosingOf, IsMakerOf, Took, name_of};
ghost use Rattle.connection_workers.specs.Arrivals.{arrived};
ghost use Rattle.connection_workers.specs.Intakes.{IsIntake, is_shut};
ghost use Rattle.connection_workers.specs.Workers.{AllFree, AllLetIn, AllOurs, AllTookIn, AllTurned, AreKept, AreServed, HadMemory, HasFinished, HasTurned, IntakePass, IsAttended, IsFree, IsLetIn, SameAnswerers};
ghost use Rattle.connection_workers.specs.declared.intake.Start.{Start};
ghost use Rattle.connection_workers.specs.declared.serving.Attendance.TheVariants.{Memory};

use crate::intake::{Arrival, Arrivals, Intake, IntakeLock, Start};
use crate::worker::Worker;
use connections::Answerer;
use outside_net::HangsUp;
use std::alloc::Global;
use std::snapshot::Snapshot;
use std::sync::Wait;
use std::thread;
use std::thread::Threads;
use turn_lock::{Closing, Maker, TurnLock};

/// How the service of a listener's connections ended.
#[derive(Clone, Copy, Debug, PartialEq, Eq)]
pub enum Attendance {
    /// As many connections came as were wanted, or the listener said that no more come.
    Served,
    /// A call of the listener failed.
    ListenFault,
    /// Memory was wanting, and nothing was served.
    Memory,
}

type IntakeMaker<B, L> = Maker<Intake<B, L>, Arrival<L>, Start<B>>;

type IntakeClosing<B, L> = Closing<Intake<B, L>, Arrival<L>, Start<B>>;

/// Gives each worker a pass, whose number is the worker's place.
fn let_all_in<B: HangsUp, A: Answerer + Drop>(
    lock: &IntakeLock<B, B::L>,
    maker: &mut IntakeMaker<B, B::L>,
    workers: &mut [Worker<B, B::L, A>],
)
    requires ours { IsMakerOf lock.now maker.old }
    requires first { made_of maker.old ≡ 0 }
    ensures ours { IsMakerOf lock.now maker.new }
    ensures made { made_of maker.new ≡ length workers.old }
    ensures passes { AllLetIn lock.now workers.new }
    ensures same { SameAnswerers workers.old workers.new }
{
    'passes: for place in 0..workers.len() {
        let pass = lock.another(maker);
        workers[place].let_in(pass);
    }
}

/// Has each worker serve connections, in a thread of its own where one can be made.
fn serve_together<R: Threads + Wait + Sync, B: HangsUp + Send, A: Answerer + Send + Drop>(
    rt: &R,
    alloc: Global,
    lock: &IntakeLock<B, B::L>,
    workers: &mut [Worker<B, B::L, A>],
)
where
    B::L: Send,
    requires some { 0 < length workers.old }
    requires passes { AllLetIn lock.now workers.old }
    requires free { AllFree A.connected workers.old }
    ensures count { length workers.new ≡ length workers.old }
    ensures turned { AllTurned lock.now B.L.Link A.answers B.leaves A.connected workers.old workers.new }
{
    let count = workers.len();
    thread::for_each_mut(
        rt,
        workers,
        count,
        &|place: usize, worker: &mut Worker<B, B::L, A>|
            requires { IsLetIn lock.now place worker.now × IsFree A.connected worker.now }
            ensures { HasTurned lock.entry.now B.L.Link A.answers B.leaves A.connected place worker.entry.now worker.exit.now }
        { worker.work(rt, alloc, lock) },
    );
}

/// Has the last turn take in the passes of all workers.
fn let_all_out<B: HangsUp, A: Answerer + Drop>(
    lock: &IntakeLock<B, B::L>,
    closing: &mut IntakeClosing<B, B::L>,
    workers: &mut [Worker<B, B::L, A>],
)
    requires ours { IsClosingOf lock.now closing.old }
    requires passes { AllOurs lock.now workers.old }
    ensures ours { IsClosingOf lock.now closing.new }
    ensures made { made_before closing.new ≡ made_before closing.old }
    ensures took { AllTookIn closing.new workers.old }
    ensures kept { (pass : IntakePass B B.L) → Took closing.old pass → Took closing.new pass }
    ensures same { SameAnswerers workers.old workers.new }
{
    'passes: for place in 0..workers.len() {
        let pass = workers[place].let_out();
        lock.absorb(closing, pass);
    }
}

/// The intake of a lock that ends.
fn intake_of<B: HangsUp + Drop>(
    lock: IntakeLock<B, B::L>,
    closing: IntakeClosing<B, B::L>,
) -> Intake<B, B::L>
    requires ours { IsClosingOf lock closing }
    ensures fits { IsIntake B.Listener (name_of lock) result }
    ensures kept { AreKept closing (arrived result) }
{
    let (slot, _made) = lock.end(closing);
    let Some(intake) = slot else { unreachable!() };
    intake
}

/// Has the first worker serve what is left.
fn finish<R: Wait, B: HangsUp, A: Answerer + Drop>(
    rt: &R,
    alloc: Global,
    intake: &mut Intake<B, B::L>,
    workers: &mut [Worker<B, B::L, A>],
)
    requires some { 0 < length workers.old }
    requires free { AllFree A.connected workers.old }
    ensures finished { HasFinished B.L.Link A.answers B.leaves A.connected (arrived intake.old) (arrived intake.new) workers.old workers.new }
    ensures goes_on { (start : Start B) → IsIntake B.Listener start intake.old → IsIntake B.Listener start intake.new }
    ensures shut { is_shut intake.new ≡ true }
{
    workers[0].finish(rt, alloc, intake, 0);
}

/// The listener of an intake that is shut, and how it ended.
fn ended<B: HangsUp>(intake: Intake<B, B::L>) -> (B, Attendance)
    requires shut { is_shut intake ≡ true }
    ensures attended { (start : Start B) → IsIntake B.Listener start intake
        → IsAttended B.Listener start.connections (length (arrived intake)) start.begin.value result.0 result.1 }
    ensures memory { HadMemory result.1 }
{
    let failed = intake.failed;
    let listener = intake.into_listener();
    if failed {
        (listener, Attendance::ListenFault)
    } else {
        (listener, Attendance::Served)
    }
}

/// Serves so many connections of a listener, or as many as come, by workers to whose answerers no client has come. Each is served once, by
/// the worker that took it. Where no thread can be made they work one after another; what they leave the first of them serves in the end.
/// It takes memory for a lock alone, and where that is wanting the workers stay as they are.
pub fn serve_all<R: Threads + Wait + Sync, B: HangsUp + Send + Drop, A: Answerer + Send + Drop>(
    rt: &R,
    alloc: Global,
    listener: B,
    connections: u64,
    workers: &mut [Worker<B, B::L, A>],
) -> (B, Attendance)
where
    B::L: Send,
    requires some { 0 < length workers.old }
    requires free { AllFree A.connected workers.old }
    ensures served { AreServed B.Listener B.L.Link A.answers B.leaves A.connected connections listener result.0 result.1 workers.old workers.new }
    ensures unserved { result.1 ≡ Memory → workers.new ≡ workers.old }
{
    let start = Start {
        begin: Snapshot::of(&listener),
        connections,
    };
    let intake = Intake {
        listener,
        left: connections,
        failed: false,
        over: false,
        arrivals: Arrivals::Nothing,
    };
    let (lock, mut maker) = match TurnLock::open(alloc, intake, start) {
        Ok(opened) => opened,
        Err(intake) => return (intake.into_listener(), Attendance::Memory),
    };
    let_all_in(&lock, &mut maker, workers);
    serve_together(rt, alloc, &lock, workers);
    let own = lock.another(&mut maker);
    let mut closing = lock.last_turn(rt, own, maker);
    let_all_out(&lock, &mut closing, workers);
    let mut intake = intake_of(lock, closing);
    finish(rt, alloc, &mut intake, workers);
    ended(intake)
}
