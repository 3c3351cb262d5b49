//! One thread's calls.

ghost use Rattle.std.specs.Prelude.{◌≡◌};
ghost use Rattle.shared_service.specs.Passes.{number_of};
ghost use Rattle.service_load.specs.Callers.{Goes, IsFor};
ghost use Rattle.service_load.specs.Services.{IsPassOf};

use crate::board::Board;
use crate::counts::{Counts, NO_CALLS};
use crate::plan::LoadCall;
use crate::requests::request_of;
use crate::service::{LoadPass, Service};
use rule_model::Reply;
use shared_service::Served;
use std::alloc::Global;
use std::sync::Wait;

/// Who calls: a pass, the operation that it began last, and what its calls came to.
#[derive(Drop)]
pub struct LoadThread {
    pass: LoadPass,
    op: u64,
    counts: Counts,
}

/// The operation that was begun last, after an answer.
fn op_after(op: u64, served: &Served) -> u64 {
    match &served.reply {
        Reply::Done(fields) => fields.op.unwrap_or(op),
        _ => op,
    }
}

/// Makes a call.
fn make<R: Wait>(
    rt: &R,
    alloc: Global,
    service: &Service,
    caller: LoadThread,
    call: LoadCall,
    board: &Board,
) -> LoadThread
    requires ours { IsFor service.now caller }
    ensures goes { Goes service.now caller result }
{
    let LoadThread { pass, op, counts } = caller;
    let Some(request) = request_of(alloc, call, pass.number(), op) else {
        return LoadThread {
            pass,
            op,
            counts: counts.with_missed(),
        };
    };
    let (pass, served) = service.call(rt, pass, request, board);
    let op = op_after(op, &served);
    let counts = counts.with(&served);
    LoadThread { pass, op, counts }
}

/// Makes calls in turn.
fn make_all<R: Wait>(
    rt: &R,
    alloc: Global,
    service: &Service,
    caller: LoadThread,
    calls: &[LoadCall],
    board: &Board,
) -> LoadThread
    requires ours { IsFor service.now caller }
    ensures goes { Goes service.now caller result }
{
    let mut caller = caller;
    for call in calls {
        let next = make(rt, alloc, service, caller, *call, board);
        caller = next;
    }
    caller
}

/// Makes the rounds of a load.
fn make_rounds<R: Wait>(
    rt: &R,
    alloc: Global,
    service: &Service,
    caller: LoadThread,
    board: &Board,
) -> LoadThread
    requires ours { IsFor service.now caller }
    ensures goes { Goes service.now caller result }
{
    let mut caller = caller;
    for _round in 0..board.rounds {
        let next = make_all(rt, alloc, service, caller, board.plan.round, board);
        caller = next;
    }
    caller
}

/// Makes the calls of one thread, behind the first calls of the first one, and says what they came to.
pub fn work<R: Wait>(
    rt: &R,
    alloc: Global,
    service: &Service,
    pass: LoadPass,
    board: &Board,
) -> LoadPass
    requires ours { IsPassOf service.now pass }
    ensures ours { IsPassOf service.now result }
    ensures number { number_of result ≡ number_of pass }
{
    let plan = board.plan;
    let number = pass.number();
    board.let_in(number);
    let caller = LoadThread {
        pass,
        op: 0,
        counts: NO_CALLS,
    };
    let caller = make_all(rt, alloc, service, caller, plan.beginning(number), board);
    board.raise();
    let caller = make_rounds(rt, alloc, service, caller, board);
    let LoadThread { pass, counts, .. } = make_all(rt, alloc, service, caller, plan.last, board);
    board.add(counts);
    pass
}
