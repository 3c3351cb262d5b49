//! A call between its two turns.

ghost use Rattle.std.specs.Prelude.{◌≡◌};
ghost use Rattle.service_book.specs.Book.{ticket_in};
ghost use Rattle.shared_service.specs.Sending as sending;

use crate::name::ServiceId;
use crate::pass::{Kept, Pass};
use crate::served::Served;
use cipher_ops::Job;
use ks_outside::Entropy;
use rule_model::{Reading, Reply, ReplyRoom};
use service_book::BookEntry;
use turn_lock::RestingPass;

/// The pass of a call whose ticket is out, with the room for the reply to the leave.
#[derive(Drop)]
pub(crate) struct Away<N> {
    pub(crate) seat: RestingPass<BookEntry, ServiceId<N>>,
    pub(crate) kept: Kept<N>,
    pub(crate) reading: Reading,
    pub(crate) first: u64,
    pub(crate) ticket: u64,
    pub(crate) room: ReplyRoom,
}

/// How the first turn of a call ended.
#[derive(Drop)]
pub(crate) enum Asked<N: Entropy> {
    /// with the answer
    Answered(Pass<N>, Served),
    /// with a work that is to be done
    Out(Away<N>, Job),
}

/// The work of an enter that is admitted, with the room for the reply to its leave.
#[derive(Drop)]
pub(crate) struct Sent {
    pub(crate) ticket: u64,
    pub(crate) job: Job,
    pub(crate) room: ReplyRoom,
}

/// The ticket that a reply gives.
fn ticket_in(reply: &Reply) -> Option<u64>
    ensures { result ≡ ticket_in reply.now }
{
    match reply {
        Reply::Done(fields) => fields.ticket,
        _ => None,
    }
}

/// The work that goes out with a reply.
pub(super) fn sent_with(reply: &Reply, job: Option<Job>, room: Option<ReplyRoom>) -> Option<Sent>
    ensures { result ≡ sending.sent (ticket_in reply.now) job room }
{
    let ticket = ticket_in(reply)?;
    let job = job?;
    let room = room?;
    Some(Sent { ticket, job, room })
}
