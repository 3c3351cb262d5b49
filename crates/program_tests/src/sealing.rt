//! AES in Galois/Counter Mode: texts that are sealed and opened again, and tags that do not match. More
//! of these are in `checks/openings.jsonl`.

use crate::script::{
    BEGUN, CONNECT, CONNECTED, FRESH, IMPORTED, NOTHING_OUT, Outside, Row, check_each,
};
use std::alloc::Global;
use std::str;

const SEAL: &str =
    r#"{"t":[0,1000],"c":1,"do":"createOperation","key":{"domain":0,"alias":"z"},"params":[["PURPOSE",0],["BLOCK_MODE",32],["PADDING",1],["MAC_LENGTH",128],["NONCE","000000000000000000000000"]]}"#;

const OPEN: &str =
    r#"{"t":[0,1000],"c":1,"do":"createOperation","key":{"domain":0,"alias":"z"},"params":[["PURPOSE",1],["BLOCK_MODE",32],["PADDING",1],["MAC_LENGTH",128],["NONCE","000000000000000000000000"]]}"#;

const EIGHT_ZEROS: &str = r#"{"code":0,"out":"0000000000000000"}"#;

const WRONG_TAG: &str = r#"{"code":-30}"#;

/// The Galois/Counter Mode of Operation, test cases 1 and 2: an opening keeps back as many bytes as a tag has.
static TAGS: [&[Row]; 1] = [&[
    (CONNECT, CONNECTED),
    (
        r#"{"t":[0,1000],"c":1,"do":"importKey","key":{"domain":0,"alias":"z"},"params":[["PURPOSE",0],["PURPOSE",1],["ALGORITHM",32],["BLOCK_MODE",1],["BLOCK_MODE",2],["BLOCK_MODE",3],["BLOCK_MODE",32],["PADDING",1],["PADDING",64],["MIN_MAC_LENGTH",96],["CALLER_NONCE",true],["NO_AUTH_REQUIRED",true]],"format":3,"material":"00000000000000000000000000000000"}"#,
        IMPORTED,
    ),
    (SEAL, BEGUN),
    (
        r#"{"t":[0,1000],"c":1,"do":"finish","op":1,"input":""}"#,
        r#"{"code":0,"out":"58e2fccefa7e3061367f1d57a4e7455a"}"#,
    ),
    (SEAL, r#"{"code":0,"op":2}"#),
    (
        r#"{"t":[0,1000],"c":1,"do":"update","op":2,"input":"00000000000000000000000000000000"}"#,
        r#"{"code":0,"out":"0388dace60b6a392f328c2b971b2fe78"}"#,
    ),
    (
        r#"{"t":[0,1000],"c":1,"do":"finish","op":2,"input":""}"#,
        r#"{"code":0,"out":"ab6e47d42cec13bdf53a67b21257bddf"}"#,
    ),
    (OPEN, r#"{"code":0,"op":3}"#),
    (
        r#"{"t":[0,1000],"c":1,"do":"update","op":3,"input":"0388dace60b6a392f328c2b971b2fe78ab6e47d42cec13bd"}"#,
        EIGHT_ZEROS,
    ),
    (
        r#"{"t":[0,1000],"c":1,"do":"update","op":3,"input":"f53a67b21257bddf"}"#,
        EIGHT_ZEROS,
    ),
    (
        r#"{"t":[0,1000],"c":1,"do":"finish","op":3,"input":""}"#,
        NOTHING_OUT,
    ),
    (OPEN, r#"{"code":0,"op":4}"#),
    (
        r#"{"t":[0,1000],"c":1,"do":"update","op":4,"input":"0388dace60b6a392f328c2b971b2fe78ab6e47d42cec13bd"}"#,
        EIGHT_ZEROS,
    ),
    (
        r#"{"t":[0,1000],"c":1,"do":"update","op":4,"input":"f53a67b21257bdde"}"#,
        EIGHT_ZEROS,
    ),
    (
        r#"{"t":[0,1000],"c":1,"do":"finish","op":4,"input":""}"#,
        WRONG_TAG,
    ),
]];

#[test]
fn an_opening_keeps_back_a_tag_and_tells_one_that_does_not_match(rt: HostRuntime) {
    check_each(&rt, rt.alloc(), &TAGS);
}

/// The bytes from 00 to ff.
const COUNTING: &str =
    "000102030405060708090a0b0c0d0e0f101112131415161718191a1b1c1d1e1f202122232425262728292a2b2c2d2e2f303132333435363738393a3b3c3d3e3f404142434445464748494a4b4c4d4e4f505152535455565758595a5b5c5d5e5f606162636465666768696a6b6c6d6e6f707172737475767778797a7b7c7d7e7f808182838485868788898a8b8c8d8e8f909192939495969798999a9b9c9d9e9fa0a1a2a3a4a5a6a7a8a9aaabacadaeafb0b1b2b3b4b5b6b7b8b9babbbcbdbebfc0c1c2c3c4c5c6c7c8c9cacbcccdcecfd0d1d2d3d4d5d6d7d8d9dadbdcdddedfe0e1e2e3e4e5e6e7e8e9eaebecedeeeff0f1f2f3f4f5f6f7f8f9fafbfcfdfeff";

/// A key and a nonce that are drawn, and what they get.
const START: &str = r#"{"t":[0,1000],"do":"connect","uid":10001}
{"t":[0,1000],"c":1,"do":"generateKey","key":{"domain":0,"alias":"k"},"params":[["PURPOSE",0],["PURPOSE",1],["ALGORITHM",32],["KEY_SIZE",256],["BLOCK_MODE",32],["PADDING",1],["MIN_MAC_LENGTH",128],["NO_AUTH_REQUIRED",true]]}
{"t":[0,1000],"c":1,"do":"createOperation","key":{"domain":0,"alias":"k"},"params":[["PURPOSE",0],["BLOCK_MODE",32],["PADDING",1],["MAC_LENGTH",128]]}
"#;

const STARTED: &str = r#"{"client":1,"code":0}
{"code":0,"key":1}
{"code":0,"nonce":"2c2d2e2f3031323334353637","op":1}
"#;

/// The key is listed, and begins an opening.
const BETWEEN: &str = r#"{"t":[0,1000],"c":1,"do":"finish","op":1}
{"t":[0,1000],"c":1,"do":"listEntriesBatched","domain":0}
{"t":[0,1000],"c":1,"do":"createOperation","key":{"domain":0,"alias":"k"},"params":[["PURPOSE",1],["BLOCK_MODE",32],["PADDING",1],["MAC_LENGTH",128],["NONCE","2c2d2e2f3031323334353637"]]}
"#;

const LISTED: &str = r#"{"code":0,"entries":[["k",1]]}
{"code":0,"op":2}
"#;

/// The key ends.
const END: &str = r#"{"t":[0,1000],"c":1,"do":"finish","op":2}
{"t":[0,1000],"c":1,"do":"deleteKey","key":{"domain":0,"alias":"k"}}
{"t":[0,1000],"c":1,"do":"listEntriesBatched","domain":0}
{"t":[0,1000],"c":1,"do":"getNumberOfEntries","domain":0}
{"t":[0,1000],"c":1,"do":"getKeyEntry","key":{"domain":0,"alias":"k"}}
"#;

const ENDED: &str = r#"{"code":0}
{"code":0,"entries":[]}
{"code":0,"count":0}
{"code":7,"rule":"A5"}
"#;

/// What stands before the digits of a piece: of an update of either operation, and of a reply.
const SEAL_PIECE: &str = r#"{"t":[0,1000],"c":1,"do":"update","op":1,"input":""#;

const OPEN_PIECE: &str = r#"{"t":[0,1000],"c":1,"do":"update","op":2,"input":""#;

const TOLD_PIECE: &str = r#"{"code":0,"out":""#;

/// Adds the lines of the pieces of a text that end at these digits. Where memory is wanting, here or below, the text is another.
fn put_pieces(out: &mut String, before: &str, text: &str, ends: &[usize]) {
    let mut from = 0;
    for to in ends {
        let digits = text.as_bytes().get(from..*to).unwrap_or(b"");
        let _ = out.push_str(before);
        let _ = out.push_str(str::from_utf8(digits).unwrap_or(""));
        let _ = out.push_str("\"}\n");
        from = *to;
    }
}

/// The digits that replies tell as bytes, joined.
fn joined(alloc: Global, replies: &str) -> String {
    let mut out = String::new(alloc);
    for reply in replies.split('\n') {
        let rest = reply.strip_prefix(TOLD_PIECE).unwrap_or("");
        let _ = out.push_str(rest.strip_suffix("\"}").unwrap_or(""));
    }
    out
}

/// The lines that seal a text of 8,192, 8,192 and 4,096 bytes, and those that open its ciphertext with the tag, where there is one.
fn script_of(alloc: Global, text: &str, sealed: &str) -> String {
    let mut out = String::new(alloc);
    let _ = out.push_str(START);
    put_pieces(&mut out, SEAL_PIECE, text, &[16_384, 32_768, 40_960]);
    let _ = out.push_str(BETWEEN);
    if !sealed.is_empty() {
        put_pieces(&mut out, OPEN_PIECE, sealed, &[16_384, 32_768, 40_992]);
        let _ = out.push_str(END);
    }
    out
}

/// What both get: the finish of the sealing tells the tag, and the opening keeps 16 bytes back.
fn told(alloc: Global, text: &str, sealed: &str) -> String {
    let mut out = String::new(alloc);
    let _ = out.push_str(STARTED);
    let ends = [16_384, 32_768, 40_960, 40_992];
    put_pieces(&mut out, TOLD_PIECE, sealed, &ends);
    let _ = out.push_str(LISTED);
    let ends = [16_352, 32_736, 40_960, 40_960];
    put_pieces(&mut out, TOLD_PIECE, text, &ends);
    let _ = out.push_str(ENDED);
    out
}

/// What these lines get in a fresh store.
fn text_of(alloc: Global, text: &str, sealed: &str) -> Option<String> {
    let script = script_of(alloc, text, sealed);
    let script = script.as_str();
    Outside { script, ..FRESH }.fresh_text(alloc)
}

/// What a text is sealed to.
fn sealed_of(alloc: Global, text: &str) -> Option<String> {
    let given = text_of(alloc, text, "")?;
    Some(joined(alloc, given.as_str()))
}

/// Whether a ciphertext with its tag opens to the text.
fn opens(alloc: Global, text: &str, sealed: &str) -> bool {
    match text_of(alloc, text, sealed) {
        Some(given) => given.as_str() == told(alloc, text, sealed).as_str(),
        None => false,
    }
}

/// Whether a text is sealed so that its ciphertext begins and its tag ends so, and opens again.
fn is_sealed(alloc: Global, text: &str, begin: &str, end: &str) -> bool {
    match sealed_of(alloc, text) {
        Some(sealed) => {
            let sealed = sealed.as_str();
            let known = sealed.starts_with(begin) && sealed.ends_with(end);
            opens(alloc, text, sealed) && known
        }
        None => false,
    }
}

/// How often the counting bytes stand in the text of the usual app, which has 20,480 bytes.
const REPEATS: usize = 80;

/// A usual app: it makes a key, seals a text in pieces, opens it again, and ends the key.
pub fn usual_app(alloc: Global) -> Option<String> {
    let text = COUNTING.repeat(alloc, REPEATS).ok()?;
    let sealed = sealed_of(alloc, text.as_str());
    let script = match &sealed {
        Some(sealed) => Some(script_of(alloc, text.as_str(), sealed.as_str())),
        None => None,
    };
    drop(text);
    drop(sealed);
    script
}

/// Whether its text is sealed.
fn is_file_sealed(alloc: Global) -> bool {
    let begin = "52fc27156694e2cb3ec197ed37ee6417";
    let end = "b5088d127906caefa5e7df825b2b625b";
    match COUNTING.repeat(alloc, REPEATS) {
        Ok(text) => is_sealed(alloc, text.as_str(), begin, end),
        Err(_) => false,
    }
}

#[test]
fn a_file_is_sealed_in_pieces_and_opened_again(rt: HostRuntime) {
    let sealed = is_file_sealed(rt.alloc());
    assert!(rt; sealed);
}
