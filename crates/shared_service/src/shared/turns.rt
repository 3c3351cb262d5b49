//! The two turns of a call.

ghost use Rattle.std.specs.Prelude.{◌≡◌, ◌<◌, ◌^◌, length};
ghost use Rattle.rule_model.specs.declared.event.Act.{Act};
ghost use Rattle.rule_model.specs.declared.reply.Reply.TheVariants as replies;
ghost use Rattle.wire_frames.specs.Spelling.{body_of};
ghost use Rattle.ks_outside.specs.declared.clock.Reading.{Reading};
ghost use Rattle.turn_lock.specs.Passes.{IsTurnAt, seen, turn_number};
ghost use Rattle.turn_lock.specs.Resting.{IsRestingPassAt, resting_front, resting_number};
ghost use Rattle.service_book.specs.Book.{log_of};
ghost use Rattle.shared_service.specs.declared.pass.Pass.{Pass};
ghost use Rattle.shared_service.specs.Asking.{Asks, IsAnswered, IsAwayOf, IsOut, TurnedAway};
ghost use Rattle.shared_service.specs.Away.{IsBack};
ghost use Rattle.shared_service.specs.DeskWords.{desk_book, desk_name};
ghost use Rattle.shared_service.specs.Desks.{HasSeen};
ghost use Rattle.shared_service.specs.Kinds.{client_after, kind_of};
ghost use Rattle.shared_service.specs.Kinds.{client_after as spec_after};
ghost use Rattle.shared_service.specs.Owning.{by};
ghost use Rattle.shared_service.specs.Passes.{HoldsMaker, IsOurs, connected_of, front_of, number_of, passes_of, service_lock, service_name};
ghost use Rattle.shared_service.specs.Requests.{IsCaller};

use super::Shared;
use super::away::{Asked, Away, Sent, sent_with};
use crate::desk::Desk;
use crate::name::ServiceId;
use crate::pass::{Kept, Pass};
use crate::prepared::Prepared;
use crate::served::Served;
use crate::step::Step;
use cipher_ops::Done;
use ks_outside::{Disk, Entropy};
use rule_model::{Act, Reading, Reply, Request};
use service_book::BookEntry;
use std::sync::Wait;
use tags::Code;
use turn_lock::{RestingPass, Turn};

/// What a call changes of its pass's client.
#[derive(Clone, Copy)]
pub(crate) enum ClientAct {
    Connects,
    Parts,
    Other,
}

fn kind_of(act: &Act) -> ClientAct
    ensures { result ≡ kind_of act.now }
{
    match act {
        Act::Connect { .. } => ClientAct::Connects,
        Act::Disconnect => ClientAct::Parts,
        _ => ClientAct::Other,
    }
}

/// The client of a pass, and whether it is connected, after a reply.
fn client_after(kind: ClientAct, client: u64, connected: bool, reply: &Reply) -> (u64, bool)
    ensures { (result.0, result.1) ≡ client_after kind reply.now (client, connected) }
{
    let Reply::Done(fields) = reply else {
        return (client, connected);
    };
    match kind {
        ClientAct::Connects => (fields.client.unwrap_or(client), true),
        ClientAct::Parts => (client, false),
        ClientAct::Other => (client, connected),
    }
}

impl<N> Kept<N> {
    /// The same, with the client that the pass has after a reply.
    fn after(self, kind: ClientAct, reply: &Reply) -> Kept<N>
        ensures client { (result.client, result.connected) ≡ spec_after kind reply.now (self.client, self.connected) }
        ensures maker { result.maker ≡ self.maker }
    {
        let (client, connected) = client_after(kind, self.client, self.connected, reply);
        Kept {
            client,
            connected,
            maker: self.maker,
        }
    }
}

/// The answer of a call that adds nothing.
fn refused(code: Code) -> Served
    ensures { result ≡ record { first = 0; last = 0; reply = replies.Stopped code } }
{
    Served {
        first: 0,
        last: 0,
        reply: Reply::Stopped { code },
    }
}

impl<D: Disk, N: Entropy> Shared<D, N> {
    /// The pass with what it kept.
    fn seated(&self, pass: RestingPass<BookEntry, ServiceId<N>>, kept: Kept<N>) -> Pass<N>
        requires resting { IsRestingPassAt (service_lock self.now) (service_name self.now) pass }
        requires seen { ∥ HasSeen N.Entropy (service_name self.now) (resting_number pass) (resting_front pass) kept.client kept.connected ∥₁ }
        requires maker { HoldsMaker (service_lock self.now) (service_name self.now) (passes_of self.now) (resting_number pass) kept.maker }
        ensures ours { IsOurs self.now result }
        ensures number { number_of result ≡ resting_number pass }
        ensures front { front_of result ≡ resting_front pass }
        ensures connected { connected_of result ≡ kept.connected }
    {
        Pass { seat: pass, kept }
    }

    /// The end of a call that adds nothing: it gives its turn back, and its pass has then seen the whole book.
    fn turned_away(
        &self,
        turn: Turn<Desk<D, N>, BookEntry, ServiceId<N>>,
        desk: Desk<D, N>,
        kept: Kept<N>,
        code: Code,
    ) -> Asked<N>
        requires turn { IsTurnAt by (service_lock self.now) (service_name self.now) turn }
        requires same { desk_book desk ≡ seen turn }
        requires fits { desk_name desk ≡ service_name self.now }
        requires caller { IsCaller (turn_number turn) kept.client kept.connected (log_of (desk_book desk)) }
        requires maker { HoldsMaker (service_lock self.now) (service_name self.now) (passes_of self.now) (turn_number turn) kept.maker }
        ensures turned { TurnedAway self.now (turn_number turn) (desk_book desk) kept.connected code result }
    {
        let pass = self.lock.rest(self.lock.leave_seeing(turn, desk));
        Asked::Answered(self.seated(pass, kept), refused(code))
    }

    /// The first turn of a call: its step, or its enter. What memory the desk need not take is taken before.
    pub(super) fn ask<R: Wait>(
        &self,
        rt: &R,
        pass: Pass<N>,
        reading: Reading,
        request: Request,
    ) -> Asked<N>
        requires ours { IsOurs self.now pass }
        requires short { length (body_of request) < 2 ^ 32 }
        ensures asks { Asks self.now pass reading request result }
    {
        let Pass { seat, kept } = pass;
        let kind = kind_of(request.act());
        let number = seat.number();
        let coming = Prepared::of(self.alloc, reading, kept.client, kept.connected, request);
        let (turn, mut desk) = self.lock.enter(rt, self.lock.wake(seat));
        let step = match desk.request(number, coming) {
            Ok(step) => step,
            Err(code) => return self.turned_away(turn, desk, kept, code),
        };
        let Step {
            first,
            last,
            reply,
            job,
            leave,
        } = step;
        let added = last + 1 - first;
        let seat = self.lock.rest(self.lock.leave(turn, desk, added, 0));
        let kept = kept.after(kind, &reply);
        let Some(Sent { ticket, job, room }) = sent_with(&reply, job, leave) else {
            return Asked::Answered(self.seated(seat, kept), Served { first, last, reply });
        };
        drop(reply);
        let away = Away {
            seat,
            kept,
            reading,
            first,
            ticket,
            room,
        };
        Asked::Out(away, job)
    }

    /// The second turn of a call: its leave.
    pub(super) fn bring_back<R: Wait>(&self, rt: &R, away: Away<N>, back: Done) -> (Pass<N>, Served)
        requires away { IsOut self.now away }
        requires back { ∥ IsBack (service_name self.now) (resting_front away.seat) away.ticket back ∥₁ }
        ensures brings { (pass : Pass N N.Entropy) (reading : Reading) (act : Act) → IsAwayOf self.now pass reading act away → IsAnswered self.now pass reading act result.0 result.1 }
    {
        let Away {
            seat,
            kept,
            reading,
            first,
            ticket,
            room,
        } = away;
        let number = seat.number();
        let (turn, mut desk) = self.lock.enter(rt, self.lock.wake(seat));
        let step = desk.bring(number, kept.client, reading, ticket, back, room);
        let Step { last, reply, .. } = step;
        let seat = self.lock.rest(self.lock.leave(turn, desk, 1, 0));
        (self.seated(seat, kept), Served { first, last, reply })
    }
}
