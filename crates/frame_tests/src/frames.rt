//! Frames beside those of a writer that stands apart (`tools/ks make frames`).

ghost use Rattle.std.specs.Prelude.{◌≡◌, ◌+◌, ◌^◌, ◌<◌, ◌≤◌, length, IfSome};
ghost use Rattle.wire_frames.specs.Standing.{reach};
ghost use Rattle.wire_frames.specs.Replies.{entries_of, reply_body};

use rule_model::{Act, Entries, Fields, NO_FIELDS, Reply, Request};
use std::alloc::Global;
use std::test::Fail;
use tags::{Bytes, Code, Rule, RuleTable};
use wire_frames::{
    FrameFault, FrameWindow, Frames, frame_length, reply_frame, reply_length, request_frame,
};

/// One frame of each act, in the order of their numbers, and the act in words.
static FRAMES: [(&[u8], &str); 22] = [
    (
        b"\x00\x00\x00\x05\x01\x00\x00\x27\x11",
        "Connect { uid: 10001 }",
    ),
    (
        b"\x00\x00\x00\x1a\x03\x00\x00\x00\x00\x00\x00\x00\x00\x00\x00\x27\x11\x01\x00\x00\x00\x01\x6d\x00\x00\x00\x00\x02\x00\x00",
        "GenerateKey { key: Descriptor { domain: 0, nspace: 10001, alias: Some(Bytes { bytes: [109] }), blob: None }, params: Bytes { bytes: [0, 0] } }",
    ),
    (
        b"\x00\x00\x00\x34\x04\x00\x00\x00\x03\x00\x00\x00\x00\x00\x00\x00\x00\x00\x01\x00\x00\x00\x02\xaa\xbb\x00\x00\x00\x03\x00\x01\x02\x00\x00\x00\x03\x00\x00\x00\x10\x11\x11\x11\x11\x11\x11\x11\x11\x11\x11\x11\x11\x11\x11\x11\x11",
        "ImportKey { key: Descriptor { domain: 3, nspace: 0, alias: None, blob: Some(Bytes { bytes: [170, 187] }) }, params: Bytes { bytes: [0, 1, 2] }, format: 3, material: Material }",
    ),
    (
        b"\x00\x00\x00\x1d\x05\xff\xff\xff\xff\xff\xff\xff\xff\xff\xff\xff\xff\x01\x00\x00\x00\x00\x01\x00\x00\x00\x01\x00\x00\x00\x00\x00\x01",
        "CreateOperation { key: Descriptor { domain: 4294967295, nspace: 18446744073709551615, alias: Some(Bytes { bytes: [] }), blob: Some(Bytes { bytes: [0] }) }, params: Bytes { bytes: [] }, forced: true }",
    ),
    (
        b"\x00\x00\x00\x0f\x06\x00\x00\x00\x00\x00\x00\x00\x07\x00\x00\x00\x02\x61\x64",
        "EnterAad { op: 7, input: Bytes { bytes: [97, 100] } }",
    ),
    (
        b"\x00\x00\x00\x11\x07\x00\x00\x00\x00\x00\x00\x00\x08\x00\x00\x00\x04\x74\x65\x78\x74",
        "EnterUpdate { op: 8, input: Bytes { bytes: [116, 101, 120, 116] } }",
    ),
    (
        b"\x00\x00\x00\x14\x08\x00\x00\x00\x00\x00\x00\x00\x09\x00\x00\x00\x00\x01\x00\x00\x00\x02\x5a\x5b",
        "EnterFinish { op: 9, input: Bytes { bytes: [] }, signature: Some(Bytes { bytes: [90, 91] }) }",
    ),
    (
        b"\x00\x00\x00\x09\x09\x01\x02\x03\x04\x05\x06\x07\x08",
        "Abort { op: 72623859790382856 }",
    ),
    (
        b"\x00\x00\x00\x14\x0a\x00\x00\x00\x00\x00\x00\x00\x00\x00\x00\x27\x11\x01\x00\x00\x00\x01\x6d\x00",
        "GetKeyEntry { key: Descriptor { domain: 0, nspace: 10001, alias: Some(Bytes { bytes: [109] }), blob: None } }",
    ),
    (
        b"\x00\x00\x00\x15\x0b\x00\x00\x00\x03\x00\x00\x00\x00\x00\x00\x00\x00\x00\x01\x00\x00\x00\x02\xaa\xbb",
        "DeleteKey { key: Descriptor { domain: 3, nspace: 0, alias: None, blob: Some(Bytes { bytes: [170, 187] }) } }",
    ),
    (
        b"\x00\x00\x00\x1c\x0c\x00\x00\x00\x00\x00\x00\x00\x00\x00\x00\x27\x11\x01\x00\x00\x00\x01\x6d\x00\x00\x00\x27\x12\x00\x00\x01\x04",
        "Grant { key: Descriptor { domain: 0, nspace: 10001, alias: Some(Bytes { bytes: [109] }), blob: None }, uid: 10002, bits: 260 }",
    ),
    (
        b"\x00\x00\x00\x18\x0d\x00\x00\x00\x00\x00\x00\x00\x00\x00\x00\x27\x11\x01\x00\x00\x00\x01\x6d\x00\x00\x00\x27\x13",
        "Ungrant { key: Descriptor { domain: 0, nspace: 10001, alias: Some(Bytes { bytes: [109] }), blob: None }, uid: 10003 }",
    ),
    (
        b"\x00\x00\x00\x0d\x0e\x00\x00\x00\x02\x00\x00\x00\x00\x00\x00\x00\x65",
        "GetNumberOfEntries { domain: 2, nspace: 101 }",
    ),
    (
        b"\x00\x00\x00\x13\x0f\x00\x00\x00\x00\x00\x00\x00\x00\x00\x00\x00\x05\x01\x00\x00\x00\x01\x61",
        "ListEntriesBatched { domain: 0, nspace: 5, past: Some(Bytes { bytes: [97] }) }",
    ),
    (
        b"\x00\x00\x00\x45\x10\x00\x00\x00\x00\x00\x00\x00\x01\x00\x00\x00\x00\x00\x00\x00\x02\x00\x00\x00\x00\x00\x00\x00\x03\x00\x00\x00\x04\x00\x00\x00\x00\x00\x00\x00\x05\x00\x01\x02\x03\x04\x05\x06\x07\x08\x09\x0a\x0b\x0c\x0d\x0e\x0f\x10\x11\x12\x13\x14\x15\x16\x17\x18\x19\x1a\x1b\x1c\x1d\x1e\x1f",
        "AddAuthToken { challenge: 1, user: 2, authenticator: 3, kind: 4, time: 5, mac: [0, 1, 2, 3, 4, 5, 6, 7, 8, 9, 10, 11, 12, 13, 14, 15, 16, 17, 18, 19, 20, 21, 22, 23, 24, 25, 26, 27, 28, 29, 30, 31] }",
    ),
    (
        b"\x00\x00\x00\x05\x11\x00\x00\x00\x00",
        "DeviceLocked { user: 0 }",
    ),
    (
        b"\x00\x00\x00\x05\x12\x00\x00\xa7\xc5",
        "DeviceUnlocked { user: 42949 }",
    ),
    (b"\x00\x00\x00\x01\x13", "EarlyBootEnded"),
    (
        b"\x00\x00\x00\x0d\x14\x00\x00\x00\x02\x00\x00\x00\x00\x00\x00\x00\x64",
        "ClearNamespace { domain: 2, nspace: 100 }",
    ),
    (
        b"\x00\x00\x00\x05\x15\x00\x00\x00\x0a",
        "UserRemoved { user: 10 }",
    ),
    (
        b"\x00\x00\x00\x1a\x18\x00\x00\x00\x00\x00\x00\x00\x00\x00\x00\x27\x11\x01\x00\x00\x00\x01\x6d\x00\x00\x00\x00\x02\x00\x03",
        "UpgradeKey { key: Descriptor { domain: 0, nspace: 10001, alias: Some(Bytes { bytes: [109] }), blob: None }, params: Bytes { bytes: [0, 3] } }",
    ),
    (
        b"\x00\x00\x00\x4b\x19\x00\x00\x00\x00\x00\x00\x00\x00\x00\x00\x27\x11\x01\x00\x00\x00\x01\x6d\x00\x00\x00\x00\x02\x00\x04\x00\x00\x00\x04\x00\x00\x00\x00\x00\x00\x00\x09\x00\x00\x00\x00\x00\x18\x22\x22\x22\x22\x22\x22\x22\x22\x22\x22\x22\x22\x22\x22\x22\x22\x22\x22\x22\x22\x22\x22\x22\x22\x00\x00\x00\x03\x00\x05\x06",
        "ImportWrappedKey { key: Descriptor { domain: 0, nspace: 10001, alias: Some(Bytes { bytes: [109] }), blob: None }, params: Bytes { bytes: [0, 4] }, wrapping: Descriptor { domain: 4, nspace: 9, alias: None, blob: None }, wrapped: Bytes { bytes: [34, 34, 34, 34, 34, 34, 34, 34, 34, 34, 34, 34, 34, 34, 34, 34, 34, 34, 34, 34, 34, 34, 34, 34] }, unwrapping: Bytes { bytes: [0, 5, 6] } }",
    ),
];

/// The frames of the replies of `reply_at`.
static REPLIES: [&[u8]; 5] = [
    b"\x00\x00\x00\x06\x00\x00\x00\x00\x00\x00",
    b"\x00\x00\x00\x06\xff\xff\xff\xe4\x53\x01",
    b"\x00\x00\x00\x06\xff\xff\xff\xd7\x00\x00",
    b"\x00\x00\x00\x06\x00\x00\x03\xe9\x00\x00",
    b"\x00\x00\x00\xa3\x00\x00\x00\x00\x00\x00\x01\x00\x00\x00\x00\x00\x00\x00\x01\x02\x00\x00\x00\x00\x00\x00\x00\x02\x03\x00\x00\x00\x00\x00\x00\x00\x03\x04\x00\x00\x00\x00\x00\x00\x00\x04\x05\x00\x00\x00\x00\x00\x00\x00\x05\x06\x00\x00\x00\x00\x00\x00\x00\x06\x07\x00\x00\x00\x00\x00\x00\x00\x07\x08\x00\x00\x00\x00\x00\x00\x00\x08\x09\x00\x00\x00\x09\x0a\x00\x00\x00\x0a\x0b\x00\x00\x00\x00\x00\x00\x00\x0b\x0c\x00\x00\x00\x01\x6d\x0d\x00\x00\x00\x05\x6e\x6f\x6e\x63\x65\x0e\x00\x00\x00\x00\x0f\x00\x00\x00\x01\x4b\x10\x00\x00\x00\x02\x00\x00\x11\x00\x00\x00\x02\x00\x00\x00\x01\x61\x00\x00\x00\x00\x00\x00\x00\x01\x00\x00\x00\x02\x62\x63\x00\x00\x00\x00\x00\x00\x00\x02",
];

/// A stream, how many bytes its good frames have, and where its bad frame begins
static BAD: [(&[u8], usize, u64); 23] = [
    (b"\x00\x00\x00\x00", 0, 0),
    (b"\x00\x04\x00\x01", 0, 0),
    (b"\xff\xff\xff\xff", 0, 0),
    (b"\x00\x00\x00\x01\x00", 0, 0),
    (b"\x00\x00\x00\x01\x02", 0, 0),
    (
        b"\x00\x00\x00\x09\x16\x00\x00\x00\x00\x00\x00\x00\x01",
        0,
        0,
    ),
    (b"\x00\x00\x00\x02\x17\x00", 0, 0),
    (b"\x00\x00\x00\x01\x1a", 0, 0),
    // a flag of 2
    (
        b"\x00\x00\x00\x14\x05\x00\x00\x00\x00\x00\x00\x00\x00\x00\x00\x00\x00\x00\x00\x00\x00\x00\x00\x02",
        0,
        0,
    ),
    // an option byte of 2
    (
        b"\x00\x00\x00\x0f\x0a\x00\x00\x00\x00\x00\x00\x00\x00\x00\x00\x00\x00\x02\x00",
        0,
        0,
    ),
    // a byte left over
    (b"\x00\x00\x00\x02\x13\x00", 0, 0),
    // of a wrapped key: each field cut
    (
        b"\x00\x00\x00\x0e\x19\x00\x00\x00\x00\x00\x00\x00\x00\x00\x00\x00\x00\x00",
        0,
        0,
    ),
    (
        b"\x00\x00\x00\x12\x19\x00\x00\x00\x00\x00\x00\x00\x00\x00\x00\x00\x00\x00\x00\x00\x00\x00",
        0,
        0,
    ),
    (
        b"\x00\x00\x00\x20\x19\x00\x00\x00\x00\x00\x00\x00\x00\x00\x00\x00\x00\x00\x00\x00\x00\x00\x00\x00\x00\x00\x00\x00\x00\x00\x00\x00\x00\x00\x00\x00",
        0,
        0,
    ),
    (
        b"\x00\x00\x00\x24\x19\x00\x00\x00\x00\x00\x00\x00\x00\x00\x00\x00\x00\x00\x00\x00\x00\x00\x00\x00\x00\x00\x00\x00\x00\x00\x00\x00\x00\x00\x00\x00\x00\x00\x00\x00",
        0,
        0,
    ),
    (
        b"\x00\x00\x00\x28\x19\x00\x00\x00\x00\x00\x00\x00\x00\x00\x00\x00\x00\x00\x00\x00\x00\x00\x00\x00\x00\x00\x00\x00\x00\x00\x00\x00\x00\x00\x00\x00\x00\x00\x00\x00\x00\x00\x00\x00",
        0,
        0,
    ),
    // an option byte of 2 in either descriptor
    (
        b"\x00\x00\x00\x29\x19\x00\x00\x00\x00\x00\x00\x00\x00\x00\x00\x00\x00\x02\x00\x00\x00\x00\x00\x00\x00\x00\x00\x00\x00\x00\x00\x00\x00\x00\x00\x00\x00\x00\x00\x00\x00\x00\x00\x00\x00",
        0,
        0,
    ),
    (
        b"\x00\x00\x00\x29\x19\x00\x00\x00\x00\x00\x00\x00\x00\x00\x00\x00\x00\x00\x00\x00\x00\x00\x00\x00\x00\x00\x00\x00\x00\x00\x00\x00\x00\x00\x00\x00\x02\x00\x00\x00\x00\x00\x00\x00\x00",
        0,
        0,
    ),
    // a byte left over
    (
        b"\x00\x00\x00\x2a\x19\x00\x00\x00\x00\x00\x00\x00\x00\x00\x00\x00\x00\x00\x00\x00\x00\x00\x00\x00\x00\x00\x00\x00\x00\x00\x00\x00\x00\x00\x00\x00\x00\x00\x00\x00\x00\x00\x00\x00\x00\x00",
        0,
        0,
    ),
    // a length past the body
    (
        b"\x00\x00\x00\x0f\x07\x00\x00\x00\x00\x00\x00\x00\x01\x00\x00\x00\x03\x61\x62",
        0,
        0,
    ),
    // a body that ends in a number
    (b"\x00\x00\x00\x04\x01\x00\x00\x00", 0, 0),
    // two good frames and a bad one
    (
        b"\x00\x00\x00\x05\x01\x00\x00\x27\x11\x00\x00\x00\x01\x13\x00\x00\x00\x01\x02",
        14,
        14,
    ),
    (
        b"\x00\x00\x00\x01\x13\x00\x00\x00\x00\x00\x00\x00\x01\x13",
        5,
        5,
    ),
];

/// Adds the frame of a request, where it has the length that is told of it.
fn put_frame(alloc: Global, request: &Request, out: &mut Vec<u8>) -> bool {
    let Ok(Some(bytes)) = request_frame(alloc, request) else {
        return false;
    };
    let same = frame_length(request) == bytes.len() as u64;
    out.extend_from_slice(bytes.as_slice()).is_ok() && same
}

fn put_frames(alloc: Global, requests: &[Request], out: &mut Vec<u8>) -> bool {
    let mut put = true;
    for request in requests {
        put &= put_frame(alloc, request, out);
    }
    put
}

/// What is told where anything but a bad frame is wrong.
const WRONG: u64 = u64::MAX;

/// Feeds a piece, adds the frames of what it gave, and answers where a bad frame begins.
fn feed(alloc: Global, frames: &mut Frames, piece: &[u8], out: &mut Vec<u8>) -> Option<u64>
    requires { reach frames.old + length piece.now < 2 ^ 62 }
    ensures { reach frames.new ≤ reach frames.old + length piece.now }
{
    match frames.feed(alloc, piece) {
        Ok(requests) => {
            let put = put_frames(alloc, requests.as_slice(), out);
            drop(requests);
            if put { None } else { Some(WRONG) }
        }
        Err(FrameFault::Bad { offset }) => Some(offset),
        Err(FrameFault::Memory) => Some(WRONG),
    }
}

/// Whether a stream of good frames, cut after so many bytes, is given again.
fn is_read(alloc: Global, stream: &[u8], cut: usize) -> bool
    requires short { length stream.now < 2 ^ 40 }
    requires inside { cut ≤ length stream.now }
{
    let mut frames = Frames::new(alloc);
    let mut out = Vec::new(alloc);
    let first = feed(alloc, &mut frames, &stream[..cut], &mut out);
    let second = feed(alloc, &mut frames, &stream[cut..], &mut out);
    let told = (first, second, frames.at_edge(), out.as_slice() == stream);
    told == (None, None, true, true)
}

/// The same, byte by byte.
fn is_read_slowly(alloc: Global, stream: &[u8]) -> bool
    requires short { length stream.now < 2 ^ 40 }
{
    let mut frames = Frames::new(alloc);
    let mut out = Vec::new(alloc);
    let mut good = true;
    for i in 0..stream.len() {
        good &= feed(alloc, &mut frames, &stream[i..i + 1], &mut out).is_none();
    }
    let told = (good, frames.at_edge(), out.as_slice() == stream);
    told == (true, true, true)
}

/// Whether the first request is of the act with this number, and it is so in words.
fn is_act(alloc: Global, requests: &[Request], number: u8, words: &str) -> bool {
    let Some(request) = requests.first() else {
        return false;
    };
    let own = request.act().kind().row().number;
    match format!(in alloc; "{:?}", request.act()) {
        Ok(spelled) => own == number && spelled.as_str() == words,
        Err(_) => false,
    }
}

/// Whether a frame is that of an act with these words, whose number is the frame's fifth byte.
fn is_frame_of(alloc: Global, stream: &[u8], words: &str) -> bool
    requires { length stream.now < 2 ^ 40 }
{
    let number = stream.get(4).copied().unwrap_or(0);
    let mut frames = Frames::new(alloc);
    match frames.feed(alloc, stream) {
        Ok(requests) => is_act(alloc, requests.as_slice(), number, words),
        Err(_) => false,
    }
}

/// Whether a stream of one short frame is read at once, in bytes, and cut anywhere, and is that of an act with these words.
fn is_read_always(alloc: Global, stream: &[u8], words: &str) -> bool {
    if stream.len() > 1_000 {
        return false;
    }
    let mut read = is_read_slowly(alloc, stream);
    for cut in 0..stream.len() {
        read &= is_read(alloc, stream, cut);
    }
    read && is_frame_of(alloc, stream, words)
}

#[test]
fn every_frame_is_read_however_it_is_cut(rt: HostRuntime) {
    for (stream, words) in &FRAMES {
        let read = is_read_always(rt.alloc(), stream, words);
        assert!(rt; read, "{words}");
    }
}

/// Whether a stream gives its good frames, and then its bad one for good.
fn is_refused(alloc: Global, row: &(&[u8], usize, u64)) -> bool
    requires short { length row.now.0.now < 2 ^ 40 }
    requires inside { row.now.1 ≤ length row.now.0.now }
{
    let (stream, good, offset) = *row;
    let begun = if good == 0 { Some(offset) } else { None };
    let mut frames = Frames::new(alloc);
    let mut out = Vec::new(alloc);
    let first = feed(alloc, &mut frames, stream, &mut out);
    let second = feed(alloc, &mut frames, &[], &mut out);
    let third = feed(alloc, &mut frames, &[0; 9], &mut out);
    let read = out.as_slice() == &stream[..good];
    let told = (first, second, third, frames.at_edge(), read);
    told == (begun, Some(offset), Some(offset), false, true)
}

#[test]
fn a_bad_frame_is_told_by_its_first_byte(rt: HostRuntime) {
    let mut other = None;
    for (number, row) in BAD.iter().enumerate() {
        if !is_refused(rt.alloc(), row) {
            other = Some(number);
        }
    }
    assert_eq!(rt; other, None);
}

/// A frame whose body has the most bytes: an update.
fn longest(alloc: Global) -> Option<Vec<u8>>
    ensures { IfSome result (λ stream. length stream.items ≡ 262148) }
{
    let head = b"\x00\x04\x00\x00\x07\x00\x00\x00\x00\x00\x00\x00\x08\x00\x03\xff\xf3";
    let Ok(mut stream) = Vec::from_slice(alloc, head) else {
        return None;
    };
    match stream.resize(262_148, 0x61) {
        Ok(()) => Some(stream),
        Err(_) => None,
    }
}

#[test]
fn a_body_of_262144_bytes_is_read(rt: HostRuntime) -> Result<(), Fail> {
    let stream = longest(rt.alloc()).ok_or("memory")?;
    let mut read = [false; 3];
    for (i, cut) in [0, 4, 262_147].iter().enumerate() {
        read[i] = is_read(rt.alloc(), stream.as_slice(), *cut);
    }
    drop(stream);
    assert_eq!(rt; read, [true; 3]);
    Ok(())
}

/// Bytes; none where memory is wanting, so that a frame is then another.
fn bytes(alloc: Global, text: &[u8]) -> Option<Bytes>
    ensures { IfSome result (λ bytes. bytes ≡ text.now) }
{
    Bytes::copy_of(alloc, text).ok()
}

/// Two entries of a listing.
fn two_entries(alloc: Global) -> Option<Entries>
    ensures { IfSome result (λ entries. length (entries_of entries) < 64) }
{
    let (a, bc) = (bytes(alloc, b"a")?, bytes(alloc, b"bc")?);
    let entries = vec![in alloc; (a, 1), (bc, 2)].ok()?;
    Some(Entries::of(entries))
}

/// A reply with every field.
#[tactic(auto, unfolding(wire_frames::specs::Replies::reply_body))]
fn full_reply(alloc: Global) -> Reply
    ensures { length (reply_body result) < 2 ^ 32 }
{
    Reply::Done(Fields {
        client: Some(1),
        key: Some(2),
        op: Some(3),
        challenge: Some(4),
        ticket: Some(5),
        pruned: Some(6),
        grant: Some(7),
        count: Some(8),
        uses: Some(9),
        domain: Some(10),
        nspace: Some(11),
        alias: bytes(alloc, b"m"),
        nonce: bytes(alloc, b"nonce"),
        out: bytes(alloc, b""),
        blob: bytes(alloc, b"\x4b"),
        list: bytes(alloc, b"\x00\x00"),
        entries: two_entries(alloc),
    })
}

/// The replies whose frames stand in the table.
#[tactic(auto, unfolding(wire_frames::specs::Replies::reply_body))]
fn reply_at(alloc: Global, place: usize) -> Reply
    ensures { length (reply_body result) < 2 ^ 32 }
{
    let rule = Rule {
        table: RuleTable::S,
        number: 1,
    };
    match place {
        0 => Reply::Done(NO_FIELDS),
        1 => Reply::Broken {
            rule,
            code: Code::InvalidOperationHandle,
        },
        2 => Reply::Stopped {
            code: Code::MemoryAllocationFailed,
        },
        3 => Reply::Stopped {
            code: Code::RunFull,
        },
        _ => full_reply(alloc),
    }
}

/// Whether a reply has this frame, and is told to have its length.
fn is_written(alloc: Global, reply: &Reply, wanted: &[u8]) -> bool
    requires { length (reply_body reply.now) < 2 ^ 32 }
{
    match reply_frame(alloc, reply) {
        Ok(bytes) => bytes.as_slice() == wanted && reply_length(reply) == wanted.len() as u64,
        Err(_) => false,
    }
}

/// Whether a window shows this frame of a reply from each of its places on.
fn is_shown(reply: &Reply, wanted: &[u8]) -> bool
    requires { length (reply_body reply.now) < 2 ^ 32 }
{
    let mut window = FrameWindow::new();
    let mut right = true;
    for place in 0..wanted.len() {
        window.show(reply, place);
        right &= window.bytes() == wanted.get(place..).unwrap_or(&[]);
    }
    right
}

#[test]
fn replies_are_written_as_the_format_says(rt: HostRuntime) {
    let mut other = None;
    for (place, wanted) in REPLIES.iter().enumerate() {
        let reply = reply_at(rt.alloc(), place);
        let written = is_written(rt.alloc(), &reply, wanted);
        let shown = is_shown(&reply, wanted);
        drop(reply);
        if !(written & shown) {
            other = Some(place);
        }
    }
    assert_eq!(rt; other, None);
}

#[test]
fn a_disconnect_has_no_frame(rt: HostRuntime) {
    let length = match Request::of(Act::Disconnect) {
        Some(request) => {
            let length = frame_length(&request);
            drop(request);
            length
        }
        None => 1,
    };
    assert!(&rt; length == 0);
}
