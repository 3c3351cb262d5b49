//! A request of a caller, and the leave of its ticket.

ghost use Rattle.std.specs.Prelude.{◌≡◌, ◌+◌, ◌≤◌, ◌<◌, ◌^◌, ℕ, true, false, length, is_some, Err, IfOk, IfSome};
ghost use Rattle.rule_model.specs.Acts as acts_spec;
ghost use Rattle.rule_model.specs.Acts.{need_of};
ghost use Rattle.rule_model.specs.declared.event.Act.TheVariants.{Disconnect};
ghost use Rattle.service_book.specs.Book.{log_of};
ghost use Rattle.service_book.specs.Limits.{passes_limit};
ghost use Rattle.wire_frames.specs.Replies.{reply_body};
ghost use Rattle.wire_frames.specs.Sizes as sizes;
ghost use Rattle.wire_frames.specs.Spelling.{body_of};
ghost use Rattle.ks_outside.specs.declared.clock.Reading.{Reading};
ghost use Rattle.shared_service.specs.Prepared.{Comes, IsAt, IsReady, act_in};
ghost use Rattle.shared_service.specs.DeskWords.{desk_book, desk_engine, desk_name, desk_places};
ghost use Rattle.shared_service.specs.Desks.{weight};
ghost use Rattle.shared_service.specs.Going.{HasLeaveRoom, MayGo};
ghost use Rattle.shared_service.specs.Owning.{event_for, is_parting};
ghost use Rattle.shared_service.specs.declared.name.ServiceId.{ServiceId};
ghost use Rattle.shared_service.specs.Requests.{AreNumbers, GrowsBy, IsCaller, IsRequested};
ghost use Rattle.shared_service.specs.Rooms.{IsOutput};
ghost use Rattle.shared_service.specs.Turns.{HasLeft, MayLeave, Requests, leave_by};

use super::Desk;
use crate::prepared::Prepared;
use crate::step::Step;
use cipher_ops::Done;
use ks_outside::{Disk, Entropy};
use rule_model::{Act, Event, Reading, ReplyRoom, Request};
use tags::{Code, NoMemory};
use wire_frames::frame_length;

/// The leave of a ticket.
fn leave_at(reading: Reading, client: u64, ticket: u64) -> Event
    ensures { result ≡ leave_by reading client ticket }
{
    Event {
        reading,
        client,
        act: Act::Leave { ticket },
    }
}

impl<D: Disk, N: Entropy> Desk<D, N> {
    /// Makes the disconnect of a connected client. It takes no memory.
    fn part(&mut self, pass: u64, prepared: Prepared) -> Step
        requires ready { IsReady prepared }
        requires disconnects { prepared.event.act ≡ Disconnect }
        requires caller { IsCaller pass prepared.event.client true (log_of (desk_book self.old)) }
        ensures name { desk_name self.new ≡ desk_name self.old }
        ensures requested { ∥ IsRequested (desk_name self.old) pass (event_for prepared.event.reading Disconnect pass (log_of (desk_book self.old))) (desk_book self.old) (desk_book self.new) result.reply result.job result.leave ∥₁ }
        ensures numbers { AreNumbers (desk_book self.old) (desk_book self.new) result.first result.last }
        ensures grown { GrowsBy pass (desk_book self.old) (desk_book self.new) }
        ensures told { length (reply_body result.reply) < 2 ^ 32 }
    {
        self.step(pass, prepared, None)
    }

    /// Makes the step of a request, with all its memory; of an enter with the room for the reply to its leave.
    fn go(&mut self, pass: u64, prepared: Prepared, leave: Option<ReplyRoom>) -> Step
        requires ready { IsReady prepared }
        requires may { MayGo pass prepared.event (log_of (desk_book self.old)) (desk_places self.old) }
        requires leave { HasLeaveRoom (desk_engine self.old) prepared.event.act leave }
        ensures name { desk_name self.new ≡ desk_name self.old }
        ensures requested { ∥ IsRequested (desk_name self.old) pass prepared.event (desk_book self.old) (desk_book self.new) result.reply result.job result.leave ∥₁ }
        ensures numbers { AreNumbers (desk_book self.old) (desk_book self.new) result.first result.last }
        ensures grown { GrowsBy pass (desk_book self.old) (desk_book self.new) }
        ensures told { length (reply_body result.reply) < 2 ^ 32 }
    {
        let step = self.step(pass, prepared, None);
        Step { leave, ..step }
    }

    /// Takes the places of an act in the book, and for an enter the room for the reply to its leave.
    fn make_ready(&mut self, act: &Act) -> Result<Option<ReplyRoom>, NoMemory>
        ensures name { desk_name self.new ≡ desk_name self.old }
        ensures book { desk_book self.new ≡ desk_book self.old }
        ensures places { IfOk result (λ o. weight (log_of (desk_book self.old)) + need_of act.now ≤ desk_places self.new) }
        ensures some { IfOk result (λ o. is_some o ≡ acts_spec.is_enter act.now) }
        ensures room { IfOk result (λ o. IfSome o (λ room. IsOutput (desk_engine self.new) act.now room)) }
    {
        self.reserve(act)?;
        self.leave_room(act)
    }

    /// Whether a request with a frame of this length passes a limit.
    fn is_full(&self, act: &Act, frame: u64) -> bool
        requires frame { frame ≡ sizes.frame_length act.now }
        requires small { frame < 2 ^ 33 }
        ensures { result ≡ passes_limit act.now (log_of (desk_book self.now)) }
    {
        self.book.is_full(act, frame)
    }

    /// Why a request is refused for whose copies memory was wanting: a limit that it passes is told first.
    fn refusal(&self, request: &Request) -> Code
        requires short { length (body_of request.now) < 2 ^ 32 }
        ensures { (name : ServiceId N) (pass : ℕ) (reading : Reading) → is_parting request.now pass (log_of (desk_book self.now)) ≡ false
            → Requests name pass (event_for reading request.now pass (log_of (desk_book self.now))) (desk_book self.now) (desk_book self.now) (Err result) }
    {
        if self.is_full(request.act(), frame_length(request)) {
            Code::RunFull
        } else {
            Code::MemoryAllocationFailed
        }
    }

    /// Takes what comes of a pass: its step, or the code with which it is turned away, where it passes a limit or memory was
    /// wanting.
    pub(crate) fn request(
        &mut self,
        pass: u64,
        coming: Result<Prepared, Request>,
    ) -> Result<Step, Code>
        requires short { length (body_of (act_in coming)) < 2 ^ 32 }
        requires comes { Comes pass (log_of (desk_book self.old)) coming }
        ensures name { desk_name self.new ≡ desk_name self.old }
        ensures requests { (reading : Reading) → IsAt reading coming → Requests (desk_name self.old) pass (event_for reading (act_in coming) pass (log_of (desk_book self.old))) (desk_book self.old) (desk_book self.new) result }
    {
        let prepared = match coming {
            Ok(prepared) => prepared,
            Err(request) => return Err(self.refusal(&request)),
        };
        if prepared.parting {
            return Ok(self.part(pass, prepared));
        }
        if self.is_full(&prepared.event.act, prepared.frame) {
            drop(prepared);
            return Err(Code::RunFull);
        }
        match self.make_ready(&prepared.event.act) {
            Ok(leave) => Ok(self.go(pass, prepared, leave)),
            Err(NoMemory) => {
                drop(prepared);
                Err(Code::MemoryAllocationFailed)
            }
        }
    }

    /// Takes the leave of the ticket that is out with a pass. It takes no memory.
    pub(crate) fn bring(
        &mut self,
        pass: u64,
        client: u64,
        reading: Reading,
        ticket: u64,
        back: Done,
        room: ReplyRoom,
    ) -> Step
        requires may { ∥ MayLeave (desk_name self.old) (log_of (desk_book self.old)) pass ticket back room ∥₁ }
        ensures name { desk_name self.new ≡ desk_name self.old }
        ensures left { ∥ HasLeft (desk_name self.old) pass client reading ticket (desk_book self.old) (desk_book self.new) result.reply ∥₁ }
        ensures numbers { AreNumbers (desk_book self.old) (desk_book self.new) result.first result.last }
        ensures grown { GrowsBy pass (desk_book self.old) (desk_book self.new) }
        ensures told { length (reply_body result.reply) < 2 ^ 32 }
    {
        let prepared = Prepared {
            event: leave_at(reading, client, ticket),
            copy: leave_at(reading, client, ticket),
            frame: 0,
            room,
            parting: false,
        };
        self.step(pass, prepared, Some(back))
    }
}
