//! A call of the service.

ghost use Rattle.std.specs.Prelude.{◌≡◌, ◌<◌, ◌^◌, length, true};
ghost use Rattle.rule_model.specs.Legal.{Legal};
ghost use Rattle.rule_model.specs.Setup.{Setup};
ghost use Rattle.service_book.specs.Book.{IsCaused, history_of, log_of};
ghost use Rattle.rule_model.specs.declared.event.Act.TheVariants.{Disconnect};
ghost use Rattle.rule_model.specs.Entries.{is_done};
ghost use Rattle.wire_frames.specs.Replies.{reply_body};
ghost use Rattle.wire_frames.specs.Spelling.{body_of};
ghost use Rattle.shared_service.specs.Answers.{AreAnswers};
ghost use Rattle.shared_service.specs.Calls.{IsCall};
ghost use Rattle.shared_service.specs.Drawn.{DrewFirst};
ghost use Rattle.shared_service.specs.Kinds.{connected_after};
ghost use Rattle.shared_service.specs.Passes.{IsOurs, IsSetupOf, connected_of, entropy_of, front_of, number_of, start_of};

use super::Shared;
use super::away::Asked;
use crate::pass::Pass;
use crate::served::Served;
use ks_outside::{Disk, Entropy, Gate};
use rule_model::{Reading, Request};
use std::sync::Wait;

impl<D: Disk, N: Entropy> Shared<D, N> {
    /// Makes a call of a pass: its step in a turn of the lock; or its enter in one turn, then the work and the gate while
    /// the lock is free, and its leave in another turn. Each reading is that of the clocks. The reply is that of the last
    /// entry that the call adds. A call that would pass a limit of the run is answered 1001 and adds nothing, and one for
    /// which memory is wanting before its step is answered -41 and adds nothing. The disconnect of a connected client is
    /// admitted. The body of the reply has fewer than 2^32 bytes.
    pub fn call<R: Wait, G: Gate>(
        &self,
        rt: &R,
        pass: Pass<N>,
        reading: Reading,
        request: Request,
        gate: &G,
    ) -> (Pass<N>, Served)
        requires ours { IsOurs self.now pass }
        requires short { length (body_of request) < 2 ^ 32 }
        ensures ours { IsOurs self.now result.0 }
        ensures number { number_of result.0 ≡ number_of pass }
        ensures calls { ∥ IsCall (number_of pass) reading request (front_of pass) (front_of result.0) result.1 ∥₁ }
        ensures connected { connected_of result.0 ≡ connected_after request result.1.reply (connected_of pass) }
        ensures parts { request ≡ Disconnect → connected_of pass ≡ true → is_done result.1.reply ≡ true }
        ensures told { length (reply_body result.1.reply) < 2 ^ 32 }
        ensures legal { (setup : Setup) → IsSetupOf self.now setup → ∥ Legal setup (history_of (log_of (front_of result.0))) ∥₁ }
        ensures caused { ∥ IsCaused (start_of self.now) (front_of result.0) ∥₁ }
        ensures drew { ∥ DrewFirst N.Entropy (entropy_of self.now) (front_of result.0) ∥₁ }
        ensures complete { (setup : Setup) → IsSetupOf self.now setup → ∥ AreAnswers setup (log_of (front_of result.0)) ∥₁ }
    {
        match self.ask(rt, pass, reading, request) {
            Asked::Answered(pass, served) => (pass, served),
            Asked::Out(away, job) => {
                gate.between(away.ticket);
                let back = job.run();
                self.bring_back(rt, away, back)
            }
        }
    }
}
