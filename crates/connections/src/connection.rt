//! A whole connection.

ghost use Rattle.std.specs.Prelude.{◌≡◌, ◌+◌, ◌-◌, ◌^◌, ◌<◌, ◌≤◌, false, List, [], ℕ, length, Some, IfOk, IfErr};
ghost use Rattle.wire_frames.specs.Standing.{reach};
ghost use Rattle.wire_frames.specs.Spelling.{IsRequest};
ghost use Rattle.wire_frames.specs.Streams.{stream_of};
ghost use Rattle.rule_model.specs.declared.event.Act.{Act};
ghost use Rattle.std.specs.List.{AllByRecursion};
ghost use Rattle.connections.specs.Ends.{EndsWhole, Serves, Talked};
ghost use Rattle.connections.specs.Pieces.{Follows, PieceServed, PieceStops};
ghost use Rattle.connections.specs.Talks.{Closes, Exchange};

use crate::answerer::Answerer;
use crate::answering::{Progress, answer_all};
use crate::end::End;
use ks_outside::Link;
use rule_model::{Act, Request};
use std::alloc::Global;
use std::sync::Wait;
use wire_frames::{FrameFault, FrameWindow, Frames, whole_frames};

/// How many bytes are taken at once.
const PIECE: usize = 16384;

/// So many bytes are taken at most.
const MOST_TAKEN: u64 = 1 << 61;

/// Answers what a piece of the stream completes.
fn serve_piece<R: Wait, L: Link, A: Answerer>(
    rt: &R,
    alloc: Global,
    link: &mut L,
    window: &mut FrameWindow,
    answerer: A,
    frames: &mut Frames,
    progress: &mut Progress,
    piece: &[u8],
) -> (A, Result<(), End>)
    requires room { reach frames.old + length piece.now < 2 ^ 62 }
    requires follows { (stream : List ℕ) × (talk : List Exchange) × (length stream + length piece.now < 2 ^ 62) × Follows stream talk frames.old progress.old }
    requires client { A.connected answerer ≡ progress.old.joined }
    ensures ok { IfOk result.1 (λ _. (stream : List ℕ) (talk : List Exchange) → Follows stream talk frames.old progress.old →
        PieceServed L.Link A.answers link.old link.new answerer result.0 stream piece.now talk frames.new progress.new) }
    ensures err { IfErr result.1 (λ end. (stream : List ℕ) (talk : List Exchange) → Follows stream talk frames.old progress.old →
        PieceStops L.Link A.answers link.old link.new answerer result.0 stream piece.now talk progress.new end) }
    ensures client { A.connected result.0 ≡ progress.new.joined }
    ensures reach { reach frames.new ≤ reach frames.old + length piece.now }
{
    let requests = match frames.feed(alloc, piece) {
        Ok(requests) => requests,
        Err(FrameFault::Bad { offset }) => return (answerer, Err(End::BadFrame { offset })),
        Err(FrameFault::Memory) => return (answerer, Err(End::Memory)),
    };
    let (answerer, answered) = answer_all(rt, link, window, answerer, progress, requests);
    if let Err(end) = answered {
        return (answerer, Err(end));
    }
    match frames.bad_offset() {
        Some(offset) => (answerer, Err(End::BadFrame { offset })),
        None => (answerer, Ok(())),
    }
}

/// Answers the requests of a connection, until an end. Whatever comes, the progress knows whether a client has come.
fn serve_requests<R: Wait, L: Link, A: Answerer>(
    rt: &R,
    alloc: Global,
    link: &mut L,
    mut answerer: A,
    progress: &mut Progress,
) -> (A, End)
    requires unjoined { progress.old.joined ≡ false }
    requires start { progress.old.place ≡ 0 }
    requires client { A.connected answerer ≡ false }
    ensures talked { Talked L.Link A.answers link.old link.new answerer result.0 progress.new.joined result.1 }
    ensures client { A.connected result.0 ≡ progress.new.joined }
{
    let mut frames = Frames::new(alloc);
    let mut window = FrameWindow::new();
    let mut buffer = [0; PIECE];
    let mut taken = 0;
    'reads: while taken < MOST_TAKEN {
        let Ok(count) = link.read(&mut buffer) else {
            return (answerer, End::LinkFault);
        };
        if count == 0 {
            let end = if frames.at_edge() {
                End::EndOfInput
            } else {
                End::Truncated
            };
            return (answerer, end);
        }
        let piece = &buffer[..count];
        let (next, served) = serve_piece(
            rt,
            alloc,
            link,
            &mut window,
            answerer,
            &mut frames,
            progress,
            piece,
        );
        answerer = next;
        if let Err(end) = served {
            return (answerer, end);
        }
        taken += count as u64;
    }
    (answerer, End::Memory)
}

/// Ends the client, where one has come.
fn disconnect<R: Wait, A: Answerer>(rt: &R, answerer: A, joined: bool) -> A
    requires client { A.connected answerer ≡ joined }
    ensures closes { Closes A.answers joined answerer result }
    ensures client { A.connected result ≡ false }
{
    if !joined {
        return answerer;
    }
    let Some(request) = Request::of(Act::Disconnect) else {
        unreachable!();
    };
    let (answerer, _reply) = answerer.answer(rt, request);
    answerer
}

/// Serves a connection of whoever answers, to whom no client has come: its requests are answered, one call for each and in their
/// order, and the replies written, until an end. Whatever the end is, a client that has come is then disconnected. Where the link brings
/// whole frames of requests that are due and does not fail, all are answered, unless the run is full or memory is wanting.
pub fn serve_link<R: Wait, L: Link, A: Answerer>(
    rt: &R,
    alloc: Global,
    link: &mut L,
    answerer: A,
) -> (A, End)
    requires client { A.connected answerer ≡ false }
    ensures serves { Serves L.Link A.answers link.old link.new answerer result.0 result.1 }
    ensures client { A.connected result.0 ≡ false }
    ensures complete { (acts : List Act) → AllByRecursion IsRequest acts → L.incoming link.old ≡ Some (stream_of acts []) → L.fault_count link.old < 2 ^ 64 - 1
        → L.fault_count link.new ≡ L.fault_count link.old → EndsWhole A.answers answerer acts result.1 }
{
    let mut progress = Progress {
        joined: false,
        place: 0,
    };
    let (answerer, end) = serve_requests(rt, alloc, link, answerer, &mut progress);
    let answerer = disconnect(rt, answerer, progress.joined);
    whole_frames();
    (answerer, end)
}
