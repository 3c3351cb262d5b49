//! Requests, answered in turn.

ghost use Rattle.std.specs.Prelude.{◌≡◌, ◌+◌, ◌^◌, ◌<◌, ◌||◌, [], false, length, flat_map, IfOk, IfErr, OnOk};
ghost use Rattle.std.specs.List.{AllByRecursion};
ghost use Rattle.wire_frames.specs.Spelling.{frame_of, IsRequest};
ghost use Rattle.wire_frames.specs.Replies.{reply_body};
ghost use Rattle.connections.specs.Talks as spec;
ghost use Rattle.connections.specs.Steps.{Goes, StopsAmong, Tells, TellsLast};

use crate::answerer::Answerer;
use crate::end::End;
use crate::writing::write_reply;
use ks_outside::Link;
use rule_model::{Act, Reply, Request};
use std::sync::Wait;
use tags::Code;
use wire_frames::{FrameWindow, frame_length};

/// Where a connection stands before its next request.
#[derive(Clone, Copy, Debug)]
pub(crate) struct Progress {
    /// a client has come
    pub(crate) joined: bool,
    /// how many bytes the frames before have
    pub(crate) place: u64,
}

/// Whether a reply says that the run is full.
fn says_full(reply: &Reply) -> bool
    ensures { result ≡ spec.says_full reply.now }
{
    match reply {
        Reply::Stopped {
            code: Code::RunFull,
        } => true,
        _ => false,
    }
}

/// Whether the act comes when it is due.
fn is_due(joined: bool, act: &Act) -> bool
    ensures { result ≡ spec.is_due joined act.now }
{
    if act.is_connect() { !joined } else { joined }
}

/// Has one request answered, and says whether a client came by it.
fn answer_one<R: Wait, A: Answerer>(rt: &R, answerer: A, request: Request) -> (A, Reply, bool)
    requires framed { IsRequest request }
    ensures answers { A.answers answerer request result.1 result.0 }
    ensures joins { result.2 ≡ spec.joins (record { act = request; reply = result.1 }) }
    ensures client { A.connected result.0 ≡ (A.connected answerer || result.2) }
    ensures told { length (reply_body result.1) < 2 ^ 32 }
{
    let connects = request.act().is_connect();
    let (answerer, reply) = answerer.answer(rt, request);
    let joins = reply.is_done() && connects;
    (answerer, reply, joins)
}

/// Writes a reply. The connection ends where it is not written, and behind one that says that the run is full.
fn tell<L: Link>(link: &mut L, window: &mut FrameWindow, reply: Reply) -> Result<(), End>
    requires short { length (reply_body reply) < 2 ^ 32 }
    ensures ok { OnOk result (Tells L.Link link.old link.new reply) }
    ensures err { IfErr result (λ end. TellsLast L.Link link.old link.new reply end) }
{
    let Ok(()) = write_reply(link, window, &reply) else {
        return Err(End::LinkFault);
    };
    if says_full(&reply) {
        return Err(End::RunFull);
    }
    Ok(())
}

/// Answers the requests in turn, and goes on in the progress. Whatever comes, the progress knows whether a client has come.
pub(crate) fn answer_all<R: Wait, L: Link, A: Answerer>(
    rt: &R,
    link: &mut L,
    window: &mut FrameWindow,
    mut answerer: A,
    progress: &mut Progress,
    requests: Vec<Request>,
) -> (A, Result<(), End>)
    requires framed { AllByRecursion IsRequest requests.items }
    requires place { progress.old.place + length (flat_map frame_of requests.items) < 2 ^ 62 }
    requires client { A.connected answerer ≡ progress.old.joined }
    ensures ok { IfOk result.1 (λ _. Goes L.Link A.answers link.old link.new answerer result.0 progress.old progress.new requests.items []) }
    ensures err { IfErr result.1 (λ end. StopsAmong L.Link A.answers link.old link.new answerer result.0 progress.old progress.new requests.items end) }
    ensures client { A.connected result.0 ≡ progress.new.joined }
{
    let mut left = requests.into_iter();
    'requests: while let Some(request) = left.next() {
        if !is_due(progress.joined, request.act()) {
            drop(request);
            let offset = progress.place;
            return (answerer, Err(End::BadFrame { offset }));
        }
        let size = frame_length(&request);
        let (next, reply, joins) = answer_one(rt, answerer, request);
        answerer = next;
        progress.joined |= joins;
        if let Err(end) = tell(link, window, reply) {
            return (answerer, Err(end));
        }
        progress.place += size;
    }
    (answerer, Ok(()))
}
