//! The passes of a service as workers, and back.

ghost use Rattle.std.specs.Prelude.{◌≡◌, ◌<◌, ◌≤◌, ◌++◌, ◌∷◌, [], All, Some, length, vec_capacity};
ghost use Rattle.connection_workers.specs.Workers.{answerer_of};
ghost use Rattle.shared_service.specs.Passes.{IsOurs};
ghost use Rattle.keystore_server.specs.Listening.{AllAnswered, ArePaired};

use crate::caller::ServicePass;
use connection_workers::Worker;
use ks_outside::{Disk, Entropy};
use shared_service::{Pass, Shared};

/// Adds an item at a place that there is.
fn add<T: Drop>(items: &mut Vec<T>, item: T)
    requires place { length items.old.items < vec_capacity items.old }
    ensures added { items.new.items ≡ items.old.items ++ item ∷ [] }
    ensures places { vec_capacity items.old ≤ vec_capacity items.new }
{
    match items.push(item) {
        Ok(()) => {}
        Err(_) => unreachable!(),
    }
}

/// Adds a worker for each pass, in their order, where there were none and are places for them.
pub(crate) fn add_workers<'a, B: Drop, L, D: Disk + Drop, N: Entropy + Drop, C, G>(
    shared: &'a Shared<D, N>,
    passes: Vec<Pass<N>>,
    clock: &'a C,
    gate: &'a G,
    workers: &mut Vec<Worker<B, L, ServicePass<'a, D, N, C, G>>>,
)
    requires none { length workers.old.items ≡ 0 }
    requires places { length passes.items ≤ vec_capacity workers.old }
    requires ours { All (IsOurs shared.now) passes.items }
    ensures paired { ArePaired passes.items workers.new.items (λ pass caller. (caller.shared.now ≡ shared.now) × (caller.clock.now ≡ clock.now) × (caller.pass ≡ pass)) }
{
    let mut left = passes.into_iter();
    'passes: while let Some(pass) = left.next() {
        let caller = ServicePass::new(shared, pass, clock, gate);
        add(workers, Worker::of(caller));
    }
}

/// Who answers for a worker.
fn answerer_in<B, L, A>(worker: Worker<B, L, A>) -> A
    requires { (answerer : A) × (answerer_of worker ≡ Some answerer) }
    ensures { answerer_of worker ≡ Some result }
{
    match worker.into_answerer() {
        Some(answerer) => answerer,
        None => unreachable!(),
    }
}

/// Takes the passes of the workers back, in their order, where there were none and are places for them.
pub(crate) fn take_passes<'a, B: Drop, L, D: Disk + Drop, N: Entropy + Drop, C, G>(
    workers: Vec<Worker<B, L, ServicePass<'a, D, N, C, G>>>,
    passes: &mut Vec<Pass<N>>,
)
    requires none { length passes.old.items ≡ 0 }
    requires places { length workers.items ≤ vec_capacity passes.old }
    requires answered { AllAnswered workers.items }
    ensures paired { ArePaired passes.new.items workers.entry.items (λ pass caller. caller.pass ≡ pass) }
{
    let mut left = workers.into_iter();
    'workers: while let Some(worker) = left.next() {
        add(passes, answerer_in(worker).into_pass());
    }
}
