//! Connections in memory, and who answers a connect with client 1 and all else with no field.

ghost use Rattle.std.specs.Prelude.{◌≡◌, ◌≢◌, ◌<◌, ◌^◌, ◌||◌, ◌&&◌, true, false, length};
ghost use Rattle.rule_model.specs.Acts.{is_framed};
ghost use Rattle.wire_frames.specs.Replies.{reply_body};
ghost use Rattle.rule_model.specs.Acts as acts;
ghost use Rattle.rule_model.specs.Entries.{is_done};
ghost use Rattle.rule_model.specs.declared.event.Act.TheVariants.{Disconnect};
ghost use Rattle.connections.specs.Talks.{is_refusal};

use connections::{Answerer, End, serve_link};
use ks_outside::MemoryLink;
use rule_model::{Act, Fields, NO_FIELDS, Reply, Request};
use std::alloc::Global;
use std::sync::Wait;
use tags::Code;

/// Answers so many requests, and then says that the run is full.
#[derive(Drop)]
struct Stub {
    left: u32,
    /// a client has come, and has not gone
    joined: bool,
}

/// A client's number.
#[tactic(auto, unfolding(wire_frames::specs::Replies::reply_body))]
fn first_client() -> Reply
    ensures short { length (reply_body result) < 2 ^ 32 }
    ensures done { is_done result ≡ true }
{
    Reply::Done(Fields {
        client: Some(1),
        ..NO_FIELDS
    })
}

/// No field.
#[tactic(auto, unfolding(wire_frames::specs::Replies::reply_body))]
fn nothing() -> Reply
    ensures short { length (reply_body result) < 2 ^ 32 }
    ensures made { is_refusal result ≡ false }
{
    Reply::Done(NO_FIELDS)
}

/// The run is full.
#[tactic(auto, unfolding(wire_frames::specs::Replies::reply_body))]
fn full() -> Reply
    ensures short { length (reply_body result) < 2 ^ 32 }
    ensures refused { is_done result ≡ false }
{
    Reply::Stopped {
        code: Code::RunFull,
    }
}

/// Whether an act is a connect, and whether it is a disconnect.
fn looked_at(act: &Act) -> (bool, bool)
    ensures connects { result.0 ≡ acts.is_connect act.now }
    ensures yes { result.1 ≡ true → is_framed act.now ≡ false }
    ensures no { result.1 ≡ false → act.now ≢ Disconnect }
{
    match act {
        Act::Connect { .. } => (true, false),
        Act::Disconnect => (false, true),
        _ => (false, false),
    }
}

impl Stub {
    /// Answers an act that is a connect, a disconnect or neither.
    fn told(self, connects: bool, goes: bool) -> (Stub, Reply)
        ensures short { length (reply_body result.1) < 2 ^ 32 }
        ensures stays { goes ≡ false → result.0.joined ≡ (self.joined || (is_done result.1 && connects)) }
        ensures gone { goes ≡ true → (result.0.joined ≡ false) × (is_refusal result.1 ≡ false) }
    {
        let Stub { left, joined } = self;
        if goes {
            let joined = false;
            return (Stub { left, joined }, nothing());
        }
        if left == 0 {
            return (Stub { left, joined }, full());
        }
        let left = left - 1;
        if connects {
            let joined = true;
            return (Stub { left, joined }, first_client());
        }
        (Stub { left, joined }, nothing())
    }
}

impl Answerer for Stub {
    ghost answers = { λ old act reply new. Unit {0} };

    ghost connected = { λ stub. stub.joined };

    fn answer<R: Wait>(self, _rt: &R, request: Request) -> (Stub, Reply) {
        let (connects, goes) = looked_at(request.act());
        drop(request);
        self.told(connects, goes)
    }
}

/// Whether a connection of these bytes whose calls with these numbers fail ends so, has written so, and leaves no client.
fn ends<R: Wait>(
    rt: &R,
    alloc: Global,
    (bytes, failing, left): (&[u8], &[u64], u32),
    end: End,
    written: &[u8],
) -> bool {
    let Ok(mut link) = MemoryLink::with_room(alloc, bytes, 64, 4, failing) else {
        return false;
    };
    let stub = Stub {
        left,
        joined: false,
    };
    let (stub, found) = serve_link(rt, alloc, &mut link, stub);
    let told = (found, link.written() == written, stub.joined);
    told == (end, true, false)
}

/// The bytes that come, which calls of the link fail, and how many requests are answered before the run is full; how the connection
/// ends, and what it writes.
type Row = ((&'static [u8], &'static [u64], u32), End, &'static [u8]);

/// Connects with uid 10001, also twice, and the number of what the client sent in its place. The reply has code 0, no rule, and field
/// 1 with the client's number.
static ROWS: [Row; 9] = [
    (
        (b"\x00\x00\x00\x05\x01\x00\x00\x27\x11", &[], 9),
        End::EndOfInput,
        b"\x00\x00\x00\x0f\x00\x00\x00\x00\x00\x00\x01\x00\x00\x00\x00\x00\x00\x00\x01",
    ),
    (
        (b"\x00\x00\x00\x05\x01\x00\x00\x27", &[], 9),
        End::Truncated,
        b"",
    ),
    ((b"", &[], 9), End::EndOfInput, b""),
    // frames that end a connection
    ((b"\0\0\0\0", &[], 9), End::BadFrame { offset: 0 }, b""),
    (
        (
            b"\x00\x00\x00\x05\x01\x00\x00\x27\x11\x00\x00\x00\x05\x01\x00\x00\x27\x11",
            &[],
            9,
        ),
        End::BadFrame { offset: 9 },
        b"\x00\x00\x00\x0f\x00\x00\x00\x00\x00\x00\x01\x00\x00\x00\x00\x00\x00\x00\x01",
    ),
    // a link that fails
    (
        (b"\x00\x00\x00\x05\x01\x00\x00\x27\x11", &[1], 9),
        End::LinkFault,
        b"",
    ),
    (
        (b"\x00\x00\x00\x05\x01\x00\x00\x27\x11", &[2], 9),
        End::LinkFault,
        b"",
    ),
    (
        (b"\x00\x00\x00\x05\x01\x00\x00\x27\x11", &[3], 9),
        End::LinkFault,
        b"\x00\x00\x00\x0f\x00\x00\x00\x00\x00\x00\x01\x00\x00\x00\x00\x00\x00\x00\x01",
    ),
    // a run that is full
    (
        (
            b"\x00\x00\x00\x05\x01\x00\x00\x27\x11\x00\x00\x00\x05\x01\x00\x00\x27\x11",
            &[],
            0,
        ),
        End::RunFull,
        b"\x00\x00\x00\x06\x00\x00\x03\xe9\x00\x00",
    ),
];

#[test]
fn a_connection_ends_with_its_cause(rt: HostRuntime) {
    for (row, (of, end, written)) in ROWS.iter().enumerate() {
        let right = ends(&rt, rt.alloc(), *of, *end, written);
        assert!(&rt; right, "in row {row}");
    }
}

/// A connect, an abort and a count of keys, as a client sends them.
static SESSION: [u8; 39] = [
    0, 0, 0, 5, 1, 0, 0, 0x27, 0x11, 0, 0, 0, 9, 9, 0, 0, 0, 0, 0, 0, 0, 7, 0, 0, 0, 13, 14, 0, 0,
    0, 0, 0, 0, 0, 0, 0, 0, 0, 0,
];

/// The replies to them.
static REPLIES: [u8; 39] = [
    0, 0, 0, 15, 0, 0, 0, 0, 0, 0, 1, 0, 0, 0, 0, 0, 0, 0, 1, 0, 0, 0, 6, 0, 0, 0, 0, 0, 0, 0, 0,
    0, 6, 0, 0, 0, 0, 0, 0,
];

/// How a session ends of which so many bytes came, and how many bytes of replies it wrote.
fn cut_end(cut: usize) -> (End, usize) {
    match cut {
        0 => (End::EndOfInput, 0),
        1..9 => (End::Truncated, 0),
        9 => (End::EndOfInput, 19),
        10..22 => (End::Truncated, 19),
        22 => (End::EndOfInput, 29),
        23..39 => (End::Truncated, 29),
        _ => (End::EndOfInput, 39),
    }
}

/// Whether a session of which so many bytes came ends so.
fn is_cut<R: Wait>(rt: &R, alloc: Global, cut: usize) -> bool {
    let (end, count) = cut_end(cut);
    let bytes = SESSION.get(..cut).unwrap_or(&[]);
    let replies = REPLIES.get(..count).unwrap_or(&[]);
    ends(rt, alloc, (bytes, &[], 9), end, replies)
}

// A stream that ends at each of its bytes.
#[test]
fn a_session_is_cut_at_each_byte(rt: HostRuntime) {
    let mut right = true;
    for cut in 0..40usize {
        right &= is_cut(&rt, rt.alloc(), cut);
    }
    assert!(&rt; right);
}

/// How many bytes of replies a session has written before its call with this number fails: a read, three writes, and a read.
static WRITTEN: [(u64, usize); 5] = [(1, 0), (2, 0), (3, 19), (4, 29), (5, 39)];

/// Whether a session whose call with this number fails ends so.
fn is_faulted<R: Wait>(rt: &R, alloc: Global, call: u64, count: usize) -> bool {
    let calls = [call];
    let replies = REPLIES.get(..count).unwrap_or(&[]);
    ends(rt, alloc, (&SESSION, &calls, 9), End::LinkFault, replies)
}

// A link that fails at each of its calls; the client that has come is disconnected all the same.
#[test]
fn each_call_of_a_link_fails(rt: HostRuntime) {
    let mut right = true;
    for (call, count) in &WRITTEN {
        right &= is_faulted(&rt, rt.alloc(), *call, *count);
    }
    assert!(&rt; right);
}
