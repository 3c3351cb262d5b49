//! All threads of a load.

ghost use Rattle.std.specs.Prelude.{◌≡◌, ◌<◌, All, length, IfOk, IfSome};
ghost use Rattle.shared_service.specs.Passes.{AreNumbered, number_of};
ghost use Rattle.service_load.specs.Services.{IsBookBy};

use crate::board::Board;
use crate::caller::work;
use crate::service::{LoadPass, Service};
use service_book::Book;
use std::alloc::{AllocError, Global};
use std::sync::Wait;
use std::thread;
use std::thread::Threads;

/// What each thread does with its pass.
trait Task {
    ghost use Rattle.service_load.specs.Services.{LoadPass};

    /// Whether it can be done with this pass.
    ghost is_for: { Self → LoadPass → Type 0 };

    /// Does it with a pass, which comes back under its number.
    fn perform<R: Wait>(&self, rt: &R, alloc: Global, pass: LoadPass) -> LoadPass
        requires ours { is_for self.now pass }
        ensures ours { is_for self.now result }
        ensures number { number_of result ≡ number_of pass };
}

/// The calls of a load, to this service.
#[derive(Clone, Copy)]
struct Calls<'a> {
    service: &'a Service,
    board: &'a Board,
}

impl<'a> Task for Calls<'a> {
    ghost use Rattle.service_load.specs.Services.{IsPassOf};

    ghost is_for = { λ calls pass. IsPassOf calls.service.now pass };

    fn perform<R: Wait>(&self, rt: &R, alloc: Global, pass: LoadPass) -> LoadPass {
        work(rt, alloc, self.service, pass, self.board)
    }
}

/// Does a task with each pass, in a thread of its own where one can be made.
fn perform_all<R: Threads + Wait + Sync, T: Task + Sync>(
    rt: &R,
    alloc: Global,
    task: &T,
    passes: Vec<LoadPass>,
) -> Result<Vec<LoadPass>, AllocError>
    requires ours { All (T.is_for task.now) passes.items }
    requires numbers { AreNumbered passes.items }
    ensures ours { IfOk result (λ v. All (T.is_for task.now) v.items) }
    ensures numbers { IfOk result (λ v. AreNumbered v.items) }
    ensures count { IfOk result (λ v. length v.items ≡ length passes.items) }
{
    thread::map_vec(
        rt,
        passes,
        &|pass: LoadPass| -> LoadPass
            requires { T.is_for task.now pass }
            ensures { T.is_for task.entry.now result × (number_of result ≡ number_of pass) }
        { task.perform(rt, alloc, pass) },
    )
}

/// The book of a service over an empty store that so many threads called, where there is memory for it: one legal history of all their
/// calls.
pub fn run<R: Threads + Wait + Sync>(
    rt: &R,
    alloc: Global,
    board: &Board,
    threads: u32,
) -> Option<Book>
    requires some { 0 < threads }
    ensures book { IfSome result (IsBookBy threads) }
{
    let (service, passes) = Service::open(alloc, threads)?;
    let calls = Calls {
        service: &service,
        board,
    };
    match perform_all(rt, alloc, &calls, passes) {
        Ok(passes) => Some(service.close(rt, passes)),
        Err(_) => None,
    }
}
