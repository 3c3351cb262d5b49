//! All connections of a listener.

ghost use Rattle.std.specs.Prelude.{◌≡◌, ◌<◌, All, length};
ghost use Rattle.connection_workers.specs.Workers.{AllFree, AreServed};
ghost use Rattle.connection_workers.specs.declared.serving.Attendance.TheVariants.{Memory};
ghost use Rattle.shared_service.specs.Passes.{IsOurs};
ghost use Rattle.keystore_server.specs.Listening.{IsIdle, IsListened};

use crate::workers::{add_workers, take_passes};
use connection_workers::{Attendance, Worker, serve_all};
use connections::Answerer;
use ks_outside::{Clock, Disk, Entropy, Gate};
use outside_net::HangsUp;
use shared_service::{Pass, Shared};
use std::alloc::Global;
use std::sync::Wait;
use std::thread::Threads;

/// Has all of the workers serve the connections of a listener.
fn serve_by<R: Threads + Wait + Sync, B: HangsUp + Send + Drop, A: Answerer + Send + Drop>(
    rt: &R,
    alloc: Global,
    listener: B,
    connections: u64,
    workers: &mut Vec<Worker<B, B::L, A>>,
) -> (B, Attendance)
where
    B::L: Send,
    requires some { 0 < length workers.old.items }
    requires free { AllFree A.connected workers.old.items }
    ensures count { length workers.new.items ≡ length workers.old.items }
    ensures served { AreServed B.Listener B.L.Link A.answers B.leaves A.connected connections listener result.0 result.1 workers.old.items workers.new.items }
    ensures unserved { result.1 ≡ Memory → workers.new.items ≡ workers.old.items }
{
    serve_all(rt, alloc, listener, connections, workers.as_mut_slice())
}

/// Serves so many connections of a listener, or as many as come, by passes of the service that have no client, each in a worker of its
/// own: at once where threads can be made, else one after another. Each is served once, as `serve_connection` says, and hung up then. The
/// passes come back in their order. Where memory for the workers is wanting, nothing is served, and they come back as they were.
pub fn serve_listener<
    R: Threads + Wait + Sync,
    B: HangsUp + Send + Drop,
    D: Disk + Send + Drop,
    N: Entropy + Send + Drop,
    C: Clock + Sync,
    G: Gate + Sync,
>(
    rt: &R,
    alloc: Global,
    shared: &Shared<D, N>,
    passes: Vec<Pass<N>>,
    listener: B,
    connections: u64,
    clock: &C,
    gate: &G,
) -> (Vec<Pass<N>>, B, Attendance)
where
    B::L: Send,
    requires some { 0 < length passes.items }
    requires ours { All (IsOurs shared.now) passes.items }
    requires idle { All IsIdle passes.items }
    ensures served { IsListened B.L.Link shared.now (C.shows clock.now) B.leaves B.Listener connections listener result.1 result.2 passes.items result.0.items }
    ensures unserved { result.2 ≡ Memory → result.0.items ≡ passes.items }
{
    let Ok(mut workers) = Vec::with_capacity(alloc, passes.len()) else {
        return (passes, listener, Attendance::Memory);
    };
    let Ok(mut back) = Vec::with_capacity(alloc, passes.len()) else {
        return (passes, listener, Attendance::Memory);
    };
    add_workers(shared, passes, clock, gate, &mut workers);
    let (listener, attendance) = serve_by(rt, alloc, listener, connections, &mut workers);
    take_passes(workers, &mut back);
    (back, listener, attendance)
}
