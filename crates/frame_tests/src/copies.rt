//! Copies of events and replies.

ghost use Rattle.std.specs.Prelude.{◌≡◌, ◌^◌, ◌<◌, None, length, IfOk};
ghost use Rattle.rule_model.specs.ReplyRooms.{Fits, sizes_of};
ghost use Rattle.rule_model.specs.declared.event.Act.TheVariants.{Leave, ListEntriesBatched};
ghost use Rattle.wire_frames.specs.Replies.{reply_body};

use rule_model::{Act, Entries, Event, Fields, NO_FIELDS, Reading, Reply, ReplyRoom};
use std::alloc::Global;
use std::test::Fail;
use tags::{Bytes, Code, NoMemory};
use wire_frames::reply_frame;

/// Bytes; none where memory is wanting, so that what is compared is then another.
fn bytes(alloc: Global, text: &[u8]) -> Bytes {
    match Bytes::copy_of(alloc, text) {
        Ok(bytes) => bytes,
        Err(_) => Bytes::empty(alloc),
    }
}

/// A finish.
fn finishing(alloc: Global) -> Event {
    Event {
        reading: Reading { boot: 3, wall: 5 },
        client: 2,
        act: Act::EnterFinish {
            op: 9,
            input: bytes(alloc, b"text"),
            signature: Some(bytes(alloc, b"\x5a")),
        },
    }
}

/// The copy of an event in words.
fn words_of_copy(alloc: Global, event: &Event) -> Option<String> {
    match event.copy(alloc) {
        Ok(copy) => {
            let words = format!(in alloc; "{copy:?}").ok();
            drop(copy);
            words
        }
        Err(_) => None,
    }
}

const FINISHING: &str =
    "Event { reading: Reading { boot: 3, wall: 5 }, client: 2, act: EnterFinish { op: 9, input: Bytes { bytes: [116, 101, 120, 116] }, signature: Some(Bytes { bytes: [90] }) } }";

#[test]
fn an_event_is_copied(rt: HostRuntime) -> Result<(), Fail> {
    let event = finishing(rt.alloc());
    let copy = words_of_copy(rt.alloc(), &event);
    drop(event);
    let copy = copy.ok_or("memory")?;
    assert_eq!(rt; copy.as_str(), FINISHING);
    Ok(())
}

/// Whether the copy of a reply of such an act, with an output of at most `out` bytes, has the reply's frame.
fn is_copied(alloc: Global, act: &Act, out: u64, reply: &Reply) -> bool
    requires fits { Fits (sizes_of act.now out) reply.now }
    requires short { length (reply_body reply.now) < 2 ^ 32 }
{
    let Ok(room) = ReplyRoom::of(alloc, act, out) else {
        return false;
    };
    let copy = room.copy(reply);
    let copied = has_frame_of(alloc, &copy, reply);
    drop(copy);
    copied
}

/// Whether two replies have one frame.
fn has_frame_of(alloc: Global, copy: &Reply, reply: &Reply) -> bool
    requires copy { length (reply_body copy.now) < 2 ^ 32 }
    requires reply { length (reply_body reply.now) < 2 ^ 32 }
{
    match (reply_frame(alloc, copy), reply_frame(alloc, reply)) {
        (Ok(found), Ok(wanted)) => found.as_slice() == wanted.as_slice(),
        _ => false,
    }
}

/// A listing of two keys.
#[tactic(auto, unfolding(wire_frames::specs::Replies::reply_body))]
fn listing(alloc: Global, act: &Act) -> Result<Reply, NoMemory>
    requires { act.now ≡ ListEntriesBatched 0 0 None }
    ensures fits { IfOk result (λ reply. Fits (sizes_of act.now 0) reply) }
    ensures short { IfOk result (λ reply. length (reply_body reply) < 2 ^ 32) }
{
    let mut entries = Vec::new(alloc);
    entries.push((Bytes::copy_of(alloc, b"a")?, 1))?;
    entries.push((Bytes::copy_of(alloc, b"bc")?, 2))?;
    Ok(Reply::Done(Fields {
        entries: Some(Entries::of(entries)),
        ..NO_FIELDS
    }))
}

/// An output of four bytes.
#[tactic(auto, unfolding(wire_frames::specs::Replies::reply_body))]
fn output(alloc: Global, act: &Act) -> Result<Reply, NoMemory>
    requires { act.now ≡ Leave 1 }
    ensures fits { IfOk result (λ reply. Fits (sizes_of act.now 4) reply) }
    ensures short { IfOk result (λ reply. length (reply_body reply) < 2 ^ 32) }
{
    Ok(Reply::Done(Fields {
        out: Some(Bytes::copy_of(alloc, b"text")?),
        ..NO_FIELDS
    }))
}

/// A call that was stopped.
#[tactic(auto, unfolding(wire_frames::specs::Replies::reply_body))]
fn stopped() -> Reply
    ensures fits { Fits (sizes_of (Leave 1) 0) result }
    ensures short { length (reply_body result) < 2 ^ 32 }
{
    Reply::Stopped {
        code: Code::NoTicket,
    }
}

fn is_listing_copied(alloc: Global, list: &Act) -> bool
    requires { list.now ≡ ListEntriesBatched 0 0 None }
{
    match listing(alloc, list) {
        Ok(reply) => {
            let copied = is_copied(alloc, list, 0, &reply);
            drop(reply);
            copied
        }
        Err(_) => false,
    }
}

fn is_output_copied(alloc: Global, leave: &Act) -> bool
    requires { leave.now ≡ Leave 1 }
{
    match output(alloc, leave) {
        Ok(reply) => {
            let copied = is_copied(alloc, leave, 4, &reply);
            drop(reply);
            copied
        }
        Err(_) => false,
    }
}

/// Whether a call of a leave that was stopped is copied, and one with an output.
fn are_leaves_copied(alloc: Global) -> (bool, bool) {
    let leave = Act::Leave { ticket: 1 };
    let stopped = stopped();
    let told = (
        is_copied(alloc, &leave, 0, &stopped),
        is_output_copied(alloc, &leave),
    );
    drop(stopped);
    drop(leave);
    told
}

fn are_listings_copied(alloc: Global) -> bool {
    let list = Act::ListEntriesBatched {
        domain: 0,
        nspace: 0,
        past: None,
    };
    let copied = is_listing_copied(alloc, &list);
    drop(list);
    copied
}

#[test]
fn replies_are_copied(rt: HostRuntime) {
    let leaves = are_leaves_copied(rt.alloc());
    let told = (leaves, are_listings_copied(rt.alloc()));
    assert_eq!(rt; told, ((true, true), true));
}
