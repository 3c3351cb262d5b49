//! Lines with the events that they spell, and a reply with its line. Acts that are spelled wrongly are in
//! `checks/malformed-lines.jsonl`.

use ks_outside::Reading;
use line_members::LineFault;
use rule_model::{Entries, Fields, Line, Reply, Stepped};
use script_lines::{event_of, line_of, malformed_line};
use std::alloc::Global;
use tags::Bytes;

/// Lines of one HMAC key, from the client to the mac, and a line of each act with all its members; the reading of the clock since boot and
/// the client of each, and its act in words. A member that no act has is not looked at, and of two of one name the last counts.
static LINES: [(&str, (u64, u64), &str); 34] = [
    (
        r#"{"t":[0,1000],"do":"connect","uid":10001,"x":1}"#,
        (0, 0),
        "Connect { uid: 10001 }",
    ),
    (
        r#"{"t":[5,1000],"c":1,"do":"importKey","key":{"domain":0,"alias":"m"},"params":[["PURPOSE",2],["PURPOSE",3],["ALGORITHM",128],["DIGEST",4],["MIN_MAC_LENGTH",64],["NO_AUTH_REQUIRED",true]],"format":3,"material":"0b0b0b0b0b0b0b0b0b0b0b0b0b0b0b0b0b0b0b0b"}"#,
        (5, 1),
        "ImportKey { key: Descriptor { domain: 0, nspace: 0, alias: Some(Bytes { bytes: [109] }), blob: None }, params: Bytes { bytes: [0, 6, 32, 0, 0, 1, 0, 0, 0, 2, 32, 0, 0, 1, 0, 0, 0, 3, 16, 0, 0, 2, 0, 0, 0, 128, 32, 0, 0, 5, 0, 0, 0, 4, 48, 0, 0, 8, 0, 0, 0, 64, 112, 0, 1, 247, 1] }, format: 3, material: Material }",
    ),
    (
        r#"{"t":[0,1000],"c":1,"do":"createOperation","key":{"domain":0,"alias":"m"},"params":[["PURPOSE",2],["MAC_LENGTH",256]]}"#,
        (0, 1),
        "CreateOperation { key: Descriptor { domain: 0, nspace: 0, alias: Some(Bytes { bytes: [109] }), blob: None }, params: Bytes { bytes: [0, 2, 32, 0, 0, 1, 0, 0, 0, 2, 48, 0, 3, 235, 0, 0, 1, 0] }, forced: false }",
    ),
    (
        r#"{"do":"finish","op":1,"c":2,"c":1,"t":[0,1000],"input":"4869205468657265","hold":false}"#,
        (0, 1),
        "EnterFinish { op: 1, input: Bytes { bytes: [72, 105, 32, 84, 104, 101, 114, 101] }, signature: None }",
    ),
    (
        r#"{"t":[0,1000],"do":"connect","uid":10001}"#,
        (0, 0),
        "Connect { uid: 10001 }",
    ),
    (
        r#"{"t":[0,1000],"c":1,"do":"disconnect"}"#,
        (0, 1),
        "Disconnect",
    ),
    (
        r#"{"t":[0,1000],"c":1,"do":"generateKey","key":{"domain":2,"nspace":100,"alias":"k"}}"#,
        (0, 1),
        "GenerateKey { key: Descriptor { domain: 2, nspace: 100, alias: Some(Bytes { bytes: [107] }), blob: None }, params: Bytes { bytes: [0, 0] } }",
    ),
    (
        r#"{"t":[0,1000],"c":1,"do":"generateKey","key":{"domain":3},"params":"0002fF"}"#,
        (0, 1),
        "GenerateKey { key: Descriptor { domain: 3, nspace: 0, alias: None, blob: None }, params: Bytes { bytes: [0, 2, 255] } }",
    ),
    (
        r#"{"t":[0,1000],"c":1,"do":"generateKey","key":{"domain":3},"params":[["USER_SECURE_ID",7],["NONCE","abcd"],["PURPOSE",1],["CALLER_NONCE",true],["ACTIVE_DATETIME",18446744073709551615]]}"#,
        (0, 1),
        "GenerateKey { key: Descriptor { domain: 3, nspace: 0, alias: None, blob: None }, params: Bytes { bytes: [0, 5, 160, 0, 1, 246, 0, 0, 0, 0, 0, 0, 0, 7, 144, 0, 3, 233, 0, 2, 171, 205, 32, 0, 0, 1, 0, 0, 0, 1, 112, 0, 0, 7, 1, 96, 0, 1, 144, 255, 255, 255, 255, 255, 255, 255, 255] } }",
    ),
    (
        r#"{"t":[0,1000],"c":1,"do":"importKey","key":{"domain":4,"nspace":18446744073709551615},"format":1,"material":"00"}"#,
        (0, 1),
        "ImportKey { key: Descriptor { domain: 4, nspace: 18446744073709551615, alias: None, blob: None }, params: Bytes { bytes: [0, 0] }, format: 1, material: Material }",
    ),
    (
        r#"{"t":[0,1000],"c":1,"do":"createOperation","key":{"domain":3,"blob":"4b53"},"params":[],"forced":true}"#,
        (0, 1),
        "CreateOperation { key: Descriptor { domain: 3, nspace: 0, alias: None, blob: Some(Bytes { bytes: [75, 83] }) }, params: Bytes { bytes: [0, 0] }, forced: true }",
    ),
    (
        r#"{"t":[0,1000],"c":1,"do":"updateAad","op":1,"input":"AaBb"}"#,
        (0, 1),
        "EnterAad { op: 1, input: Bytes { bytes: [170, 187] } }",
    ),
    (
        r#"{"t":[0,1000],"c":1,"do":"update","op":2}"#,
        (0, 1),
        "EnterUpdate { op: 2, input: Bytes { bytes: [] } }",
    ),
    (
        r#"{"t":[0,1000],"c":1,"do":"finish","op":3,"input":"","signature":"00ff"}"#,
        (0, 1),
        "EnterFinish { op: 3, input: Bytes { bytes: [] }, signature: Some(Bytes { bytes: [0, 255] }) }",
    ),
    (
        r#"{"t":[0,1000],"c":1,"do":"finish","op":3}"#,
        (0, 1),
        "EnterFinish { op: 3, input: Bytes { bytes: [] }, signature: None }",
    ),
    (
        r#"{"t":[0,1000],"c":1,"do":"abort","op":4}"#,
        (0, 1),
        "Abort { op: 4 }",
    ),
    (
        r#"{"t":[0,1000],"c":1,"do":"getKeyEntry","key":{"domain":1,"nspace":9}}"#,
        (0, 1),
        "GetKeyEntry { key: Descriptor { domain: 1, nspace: 9, alias: None, blob: None } }",
    ),
    (
        r#"{"t":[0,1000],"c":1,"do":"deleteKey","key":{"domain":0,"alias":""}}"#,
        (0, 1),
        "DeleteKey { key: Descriptor { domain: 0, nspace: 0, alias: Some(Bytes { bytes: [] }), blob: None } }",
    ),
    (
        r#"{"t":[0,1000],"c":1,"do":"grant","key":{"domain":0},"uid":10002,"bits":260}"#,
        (0, 1),
        "Grant { key: Descriptor { domain: 0, nspace: 0, alias: None, blob: None }, uid: 10002, bits: 260 }",
    ),
    (
        r#"{"t":[0,1000],"c":1,"do":"ungrant","key":{"domain":0},"uid":4294967295}"#,
        (0, 1),
        "Ungrant { key: Descriptor { domain: 0, nspace: 0, alias: None, blob: None }, uid: 4294967295 }",
    ),
    (
        r#"{"t":[0,1000],"c":1,"do":"getNumberOfEntries","domain":2,"nspace":100}"#,
        (0, 1),
        "GetNumberOfEntries { domain: 2, nspace: 100 }",
    ),
    (
        r#"{"t":[0,1000],"c":1,"do":"listEntriesBatched","domain":0}"#,
        (0, 1),
        "ListEntriesBatched { domain: 0, nspace: 0, past: None }",
    ),
    (
        r#"{"t":[0,1000],"c":1,"do":"listEntriesBatched","domain":0,"nspace":1,"past":"\u00e9"}"#,
        (0, 1),
        "ListEntriesBatched { domain: 0, nspace: 1, past: Some(Bytes { bytes: [195, 169] }) }",
    ),
    (
        r#"{"t":[0,1000],"c":1,"do":"addAuthToken","challenge":1,"user":2,"authenticator":3,"kind":4,"time":5,"mac":"0101010101010101010101010101010101010101010101010101010101010102"}"#,
        (0, 1),
        "AddAuthToken { challenge: 1, user: 2, authenticator: 3, kind: 4, time: 5, mac: [1, 1, 1, 1, 1, 1, 1, 1, 1, 1, 1, 1, 1, 1, 1, 1, 1, 1, 1, 1, 1, 1, 1, 1, 1, 1, 1, 1, 1, 1, 1, 2] }",
    ),
    (
        r#"{"t":[0,1000],"c":1,"do":"deviceLocked","user":42950}"#,
        (0, 1),
        "DeviceLocked { user: 42950 }",
    ),
    (
        r#"{"t":[0,1000],"c":1,"do":"deviceUnlocked","user":0}"#,
        (0, 1),
        "DeviceUnlocked { user: 0 }",
    ),
    (
        r#"{"t":[0,1000],"c":1,"do":"earlyBootEnded"}"#,
        (0, 1),
        "EarlyBootEnded",
    ),
    (
        r#"{"t":[0,1000],"c":1,"do":"clearNamespace","domain":0,"nspace":10001}"#,
        (0, 1),
        "ClearNamespace { domain: 0, nspace: 10001 }",
    ),
    (
        r#"{"t":[0,1000],"c":1,"do":"userRemoved","user":1}"#,
        (0, 1),
        "UserRemoved { user: 1 }",
    ),
    (
        r#"{"t":[0,1000],"do":"leave","ticket":1}"#,
        (0, 0),
        "Leave { ticket: 1 }",
    ),
    (
        r#"{"t":[0,1000],"do":"restart","root":"0404040404040404040404040404040404040404040404040404040404040405"}"#,
        (0, 0),
        "Restart { root: Some([4, 4, 4, 4, 4, 4, 4, 4, 4, 4, 4, 4, 4, 4, 4, 4, 4, 4, 4, 4, 4, 4, 4, 4, 4, 4, 4, 4, 4, 4, 4, 5]) }",
    ),
    (
        r#"{"t":[0,1000],"c":1,"do":"upgradeKey","key":{"domain":3,"nspace":100,"blob":"4b53"},"params":[["APPLICATION_ID","6162"]]}"#,
        (0, 1),
        "UpgradeKey { key: Descriptor { domain: 3, nspace: 100, alias: None, blob: Some(Bytes { bytes: [75, 83] }) }, params: Bytes { bytes: [0, 1, 144, 0, 2, 89, 0, 2, 97, 98] } }",
    ),
    (
        r#"{"t":[0,1000],"c":1,"do":"importWrappedKey","key":{"domain":0,"alias":"k"},"params":[["ALGORITHM",32]],"wrapping":{"domain":4,"nspace":9,"blob":"4b53"},"wrapped":"22Aa","unwrapping":[["APPLICATION_ID","6162"]]}"#,
        (0, 1),
        "ImportWrappedKey { key: Descriptor { domain: 0, nspace: 0, alias: Some(Bytes { bytes: [107] }), blob: None }, params: Bytes { bytes: [0, 1, 16, 0, 0, 2, 0, 0, 0, 32] }, wrapping: Descriptor { domain: 4, nspace: 9, alias: None, blob: Some(Bytes { bytes: [75, 83] }) }, wrapped: Bytes { bytes: [34, 170] }, unwrapping: Bytes { bytes: [0, 1, 144, 0, 2, 89, 0, 2, 97, 98] } }",
    ),
    (
        r#"{"t":[0,1000],"c":1,"do":"importWrappedKey","key":{"domain":3},"wrapping":{"domain":2,"nspace":100,"alias":"w"},"wrapped":""}"#,
        (0, 1),
        "ImportWrappedKey { key: Descriptor { domain: 3, nspace: 0, alias: None, blob: None }, params: Bytes { bytes: [0, 0] }, wrapping: Descriptor { domain: 2, nspace: 100, alias: Some(Bytes { bytes: [119] }), blob: None }, wrapped: Bytes { bytes: [] }, unwrapping: Bytes { bytes: [0, 0] } }",
    ),
];

/// Whether a line that holds nothing spells the act in these words.
fn is_line(alloc: Global, line: &Line, (boot, client): (u64, u64), words: &str) -> bool {
    let reading = Reading { boot, wall: 1000 };
    let event = &line.event;
    let same = event.reading == reading && event.client == client && !line.hold;
    match format!(in alloc; "{:?}", event.act) {
        Ok(spelled) => same && spelled.as_str() == words,
        Err(_) => false,
    }
}

fn spells(alloc: Global, line: &str, of: (u64, u64), words: &str) -> bool {
    match event_of(alloc, line.as_bytes()) {
        Ok(line) => {
            let right = is_line(alloc, &line, of, words);
            drop(line);
            right
        }
        Err(_) => false,
    }
}

/// The first line that spells another event.
fn first_other(alloc: Global) -> Option<&'static str> {
    let mut first = None;
    for (line, of, words) in &LINES {
        if first.is_none() && !spells(alloc, line, *of, words) {
            first = Some(*line);
        }
    }
    first
}

#[test]
fn each_line_spells_its_event(rt: HostRuntime) {
    let other = first_other(rt.alloc());
    assert_eq!(rt; other, None);
}

/// Whether a line is malformed.
fn is_malformed(alloc: Global, line: &[u8]) -> bool {
    let read = event_of(alloc, line);
    let malformed = matches!(&read, Err(LineFault::Malformed));
    drop(read);
    malformed
}

#[test]
fn a_line_is_utf_8(rt: HostRuntime) {
    let line = b"{\"t\":[0,1000],\"do\":\"connect\",\"uid\":1,\"x\":\"\xff\"}";
    let malformed = is_malformed(rt.alloc(), line);
    assert!(rt; malformed);
}

/// Bytes; none where memory is wanting, so that a line is then another.
fn bytes(alloc: Global, text: &str) -> Option<Bytes> {
    Bytes::copy_of(alloc, text.as_bytes()).ok()
}

fn two_entries(alloc: Global) -> Option<Entries> {
    let (first, second) = (bytes(alloc, "a\"")?, bytes(alloc, "\u{e9}")?);
    let entries = vec![in alloc; (first, 1), (second, 18446744073709551615)].ok()?;
    Some(Entries::of(entries))
}

fn all_fields(alloc: Global) -> Fields {
    Fields {
        client: Some(1),
        key: Some(2),
        op: Some(3),
        challenge: Some(868365761009226259),
        ticket: Some(5),
        pruned: Some(6),
        grant: Some(7),
        count: Some(8),
        uses: Some(9),
        domain: Some(0),
        nspace: Some(11),
        alias: bytes(alloc, "k"),
        nonce: bytes(alloc, "JZ"),
        out: bytes(alloc, ""),
        blob: bytes(alloc, "KSB1"),
        list: bytes(alloc, "\n"),
        entries: two_entries(alloc),
    }
}

/// The line of a reply with all fields.
const WHOLE: &str =
    "{\"alias\":\"k\",\"blob\":\"4b534231\",\"challenge\":868365761009226259,\"client\":1,\"code\":0,\"count\":8,\"domain\":0,\"entries\":[[\"a\\\"\",1],[\"\u{e9}\",18446744073709551615]],\"grant\":7,\"key\":2,\"list\":\"0a\",\"nonce\":\"4a5a\",\"nspace\":11,\"op\":3,\"out\":\"\",\"pruned\":6,\"ticket\":5,\"uses\":9}\n";

/// Whether that is the line of these fields.
fn is_whole(alloc: Global, fields: Fields) -> bool {
    let stepped = Stepped {
        settled: None,
        reply: Reply::Done(fields),
        job: None,
        drawn: Bytes::empty(alloc),
    };
    let line = line_of(alloc, &stepped);
    drop(stepped);
    match line {
        Ok(line) => line.as_slice() == WHOLE.as_bytes(),
        Err(_) => false,
    }
}

#[test]
fn a_reply_has_its_fields_in_their_order(rt: HostRuntime) {
    let malformed = malformed_line() == b"{\"code\":20,\"rule\":\"L1\"}\n".as_slice();
    let whole = is_whole(rt.alloc(), all_fields(rt.alloc()));
    assert_eq!(rt; (malformed, whole), (true, true));
}
