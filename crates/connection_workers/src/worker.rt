//! One worker.

ghost use Rattle.std.specs.Prelude.{◌≡◌, ℕ, [], true, false, Some, IfSome, IsNone, IsSome};
ghost use Rattle.turn_lock.specs.Passes.{IsPassOf, front, number_of};
ghost use Rattle.connection_workers.specs.Arrivals.{Arrives, arrived};
ghost use Rattle.connection_workers.specs.Intakes.{IsIntake, is_shut};
ghost use Rattle.connection_workers.specs.declared.intake.Start.{Start};
ghost use Rattle.connection_workers.specs.Workers.{ByLink, HasGone, HasTaken, HasTurned, IsFree, IsLetIn, answerer_of, own_of, pass_of};

use crate::intake::{Intake, IntakeLock, IntakePass};
use connections::{Answerer, serve_link};
use outside_net::HangsUp;
use std::alloc::Global;
use std::sync::Wait;

/// Who answers for a worker, and its pass to the intake while it serves.
pub struct Worker<B, L, A> {
    answerer: Option<A>,
    pass: Option<IntakePass<B, L>>,
}

impl<B, L, A: Drop> Drop for Worker<B, L, A> {
    fn drop(self) {
        let Worker { answerer, pass } = self;
        drop(answerer);
        drop(pass);
    }
}

impl<B, L, A> Worker<B, L, A> {
    /// A worker for which this one answers.
    pub fn of(answerer: A) -> Worker<B, L, A>
        ensures { answerer_of result ≡ Some answerer }
    {
        Worker {
            answerer: Some(answerer),
            pass: None,
        }
    }

    /// Who answers for it.
    pub fn into_answerer(self) -> Option<A>
        ensures { result ≡ answerer_of self }
    {
        let Worker { answerer, pass } = self;
        drop(pass);
        answerer
    }
}

/// The next connection, taken in a turn.
fn take_next<R: Wait, B: HangsUp>(
    rt: &R,
    lock: &IntakeLock<B, B::L>,
    pass: IntakePass<B, B::L>,
) -> (IntakePass<B, B::L>, Option<B::L>)
    requires ours { IsPassOf lock.now pass }
    ensures ours { IsPassOf lock.now result.0 }
    ensures number { number_of result.0 ≡ number_of pass }
    ensures arrives { IfSome result.1 (λ link. Arrives (number_of pass) link (own_of pass) (own_of result.0)) }
    ensures none { IsNone result.1 → own_of result.0 ≡ own_of pass }
{
    let (turn, mut intake) = lock.enter(rt, pass);
    match intake.take(turn.number()) {
        Some(link) => (lock.leave(turn, intake, 1, 0), Some(link)),
        None => (lock.leave_seeing(turn, intake), None),
    }
}

/// Hands back what is left of a connection, in a turn. Where nothing is left none is taken: the turn may be with a worker that waits for
/// the next client.
fn hand_back<R: Wait, B: HangsUp>(
    rt: &R,
    lock: &IntakeLock<B, B::L>,
    pass: IntakePass<B, B::L>,
    left: Option<B::L>,
) -> IntakePass<B, B::L>
    requires ours { IsPassOf lock.now pass }
    ensures ours { IsPassOf lock.now result }
    ensures number { number_of result ≡ number_of pass }
    ensures same { own_of result ≡ own_of pass }
{
    match left {
        None => pass,
        left => {
            let (turn, mut intake) = lock.enter(rt, pass);
            intake.give_back(left);
            lock.leave_seeing(turn, intake)
        }
    }
}

/// Serves one connection, once, and ends it; what is left of it, where something is, is to be handed back.
fn serve_one<R: Wait, B: HangsUp, A: Answerer>(
    rt: &R,
    alloc: Global,
    link: B::L,
    answerer: A,
) -> (Option<B::L>, A)
    requires client { A.connected answerer ≡ false }
    ensures visits { ByLink B.L.Link A.answers B.leaves answerer link result.0 result.1 }
    ensures client { A.connected result.1 ≡ false }
{
    let mut link = link;
    let (answerer, _end) = serve_link(rt, alloc, &mut link, answerer);
    (B::hang_up(link), answerer)
}

/// Serves connections until there is none to be taken.
fn serve_until_shut<R: Wait, B: HangsUp, A: Answerer>(
    rt: &R,
    alloc: Global,
    lock: &IntakeLock<B, B::L>,
    mut pass: IntakePass<B, B::L>,
    mut answerer: A,
) -> (IntakePass<B, B::L>, A)
    requires ours { IsPassOf lock.now pass }
    requires client { A.connected answerer ≡ false }
    ensures ours { IsPassOf lock.now result.0 }
    ensures number { number_of result.0 ≡ number_of pass }
    ensures taken { HasTaken B.L.Link A.answers B.leaves (number_of pass) (own_of pass) (own_of result.0) answerer result.1 }
    ensures client { A.connected result.1 ≡ false }
{
    'connections: for _ in rt.forever() {
        let (next, taken) = take_next(rt, lock, pass);
        let Some(link) = taken else {
            return (next, answerer);
        };
        let (left, after) = serve_one::<R, B, A>(rt, alloc, link, answerer);
        answerer = after;
        pass = hand_back(rt, lock, next, left);
    }
    unreachable!()
}

/// Serves connections of an intake that nobody else has, by the worker of this number, until there is none to be taken.
fn finish_all<R: Wait, B: HangsUp, A: Answerer>(
    rt: &R,
    alloc: Global,
    intake: &mut Intake<B, B::L>,
    worker: u64,
    mut answerer: A,
) -> A
    requires client { A.connected answerer ≡ false }
    ensures taken { HasTaken B.L.Link A.answers B.leaves worker (arrived intake.old) (arrived intake.new) answerer result }
    ensures client { A.connected result ≡ false }
    ensures goes_on { (start : Start B) → IsIntake B.Listener start intake.old → IsIntake B.Listener start intake.new }
    ensures shut { is_shut intake.new ≡ true }
{
    'connections: for _ in rt.forever() {
        let Some(link) = intake.take(worker) else {
            return answerer;
        };
        let (left, after) = serve_one::<R, B, A>(rt, alloc, link, answerer);
        answerer = after;
        intake.give_back(left);
    }
    unreachable!()
}

impl<B: HangsUp, A: Answerer + Drop> Worker<B, B::L, A> {
    /// Gives it a pass.
    pub(crate) fn let_in(&mut self, pass: IntakePass<B, B::L>)
        ensures answerer { answerer_of self.new ≡ answerer_of self.old }
        ensures pass { pass_of self.new ≡ Some pass }
    {
        self.pass = Some(pass);
    }

    /// Its pass, taken away.
    pub(crate) fn let_out(&mut self) -> IntakePass<B, B::L>
        requires some { IsSome (pass_of self.old) }
        ensures answerer { answerer_of self.new ≡ answerer_of self.old }
        ensures pass { pass_of self.old ≡ Some result }
    {
        let Some(pass) = self.pass.take() else {
            unreachable!()
        };
        pass
    }

    /// Serves connections until there is none to be taken.
    pub(crate) fn work<R: Wait>(&mut self, rt: &R, alloc: Global, lock: &IntakeLock<B, B::L>)
        requires let_in { (number : ℕ) × IsLetIn lock.now number self.old }
        requires free { IsFree A.connected self.old }
        ensures turned { (number : ℕ) → IsLetIn lock.now number self.old → HasTurned lock.now B.L.Link A.answers B.leaves A.connected number self.old self.new }
    {
        let Some(pass) = self.pass.take() else {
            unreachable!()
        };
        let Some(answerer) = self.answerer.take() else {
            unreachable!()
        };
        let (pass, answerer) = serve_until_shut(rt, alloc, lock, pass, answerer);
        self.pass = Some(pass);
        self.answerer = Some(answerer);
    }

    /// Serves connections of an intake that no other worker has, as the worker of this number, until there is none to be taken.
    pub(crate) fn finish<R: Wait>(
        &mut self,
        rt: &R,
        alloc: Global,
        intake: &mut Intake<B, B::L>,
        number: u64,
    )
        requires free { IsFree A.connected self.old }
        ensures gone { HasGone B.L.Link A.answers B.leaves A.connected number (arrived intake.old) (arrived intake.new) self.old self.new }
        ensures goes_on { (start : Start B) → IsIntake B.Listener start intake.old → IsIntake B.Listener start intake.new }
        ensures shut { is_shut intake.new ≡ true }
    {
        let Some(answerer) = self.answerer.take() else {
            unreachable!()
        };
        self.answerer = Some(finish_all(rt, alloc, intake, number, answerer));
    }
}
