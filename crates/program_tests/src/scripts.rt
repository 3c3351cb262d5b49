//! Scripts from their bytes to their text, and each status. Further scripts are in `checks/finished-again.jsonl`, without its last LF,
//! and `checks/replaced-key.jsonl`.

use crate::script::{CONNECT, FRESH, Outside, ROOM};
use disk_model::MemoryDisk;
use keystore_run::Status;
use std::alloc::{AllocError, Global};
use std::process::Abort;

/// The first case of RFC 4231, and what its lines get.
pub const FIRST_MAC: &str = r#"{"t":[0,1000],"do":"connect","uid":10001}
{"t":[0,1000],"c":1,"do":"importKey","key":{"domain":0,"alias":"m"},"params":[["PURPOSE",2],["PURPOSE",3],["ALGORITHM",128],["DIGEST",4],["MIN_MAC_LENGTH",64],["NO_AUTH_REQUIRED",true]],"format":3,"material":"0b0b0b0b0b0b0b0b0b0b0b0b0b0b0b0b0b0b0b0b"}
{"t":[0,1000],"c":1,"do":"createOperation","key":{"domain":0,"alias":"m"},"params":[["PURPOSE",2],["MAC_LENGTH",256]]}
{"t":[0,1000],"c":1,"do":"finish","op":1,"input":"4869205468657265"}
"#;

const KNOWN: &str = r#"{"client":1,"code":0}
{"code":0,"key":1}
{"code":0,"op":1}
{"code":0,"out":"b0344c61d8db38535ca8afceaf0bf12b881dc200c9833da726e9376c2e32cff7"}
"#;

const CONNECTED: &str = "{\"client\":1,\"code\":0}\n";

const CONNECTED_TRACE: &str =
    "{\"drawn\":\"\",\"event\":{\"do\":\"connect\",\"t\":[0,1000],\"uid\":10001},\"reply\":{\"client\":1,\"code\":0}}\n";

const MALFORMED: &str = "{\"code\":20,\"rule\":\"L1\"}\n";

/// Scripts, and the text of each.
static CASES: [(&str, &str); 9] = [
    ("", ""),
    ("\n", MALFORMED),
    ("{}", MALFORMED),
    (
        "{}\n{}",
        "{\"code\":20,\"rule\":\"L1\"}\n{\"code\":20,\"rule\":\"L1\"}\n",
    ),
    (CONNECT, CONNECTED),
    (crate::script::IMPORT, "{\"code\":20,\"rule\":\"K1\"}\n"),
    (crate::script::BEGIN, "{\"code\":20,\"rule\":\"B1\"}\n"),
    (crate::script::FINISH, "{\"code\":-28,\"rule\":\"S1\"}\n"),
    (FIRST_MAC, KNOWN),
];

/// Whether a run over an empty disk ends with this status and this text.
fn ends_fresh(alloc: Global, outside: Outside, status: Status, text: &str) -> bool {
    match MemoryDisk::with_room(alloc, ROOM, &[]) {
        Ok(mut disk) => {
            let right = outside.ends_so(alloc, &mut disk, status, text);
            drop(disk);
            right
        }
        Err(_) => false,
    }
}

/// Compares the status and the text of a run.
pub fn check_end(rt: &impl Abort, alloc: Global, outside: Outside, status: Status, text: &str) {
    let right = ends_fresh(alloc, outside, status, text);
    assert!(rt; right, "{} is to write {text}", outside.words);
}

#[test]
fn scripts_end_with_their_text(rt: HostRuntime) {
    for (script, text) in &CASES {
        let outside = Outside { script, ..FRESH };
        check_end(&rt, rt.alloc(), outside, Status::Ok, text);
    }
}

/// Where a connect is filled with spaces to so many bytes, behind another line: the status and the text.
static LONG_LINES: [(usize, Status, &str); 2] = [
    (
        262_144,
        Status::Ok,
        "{\"code\":20,\"rule\":\"L1\"}\n{\"client\":1,\"code\":0}\n",
    ),
    (262_145, Status::LineTooLong { line: 2 }, MALFORMED),
];

/// A line without members, and a connect behind spaces, together of so many bytes.
fn long_script(alloc: Global, length: usize) -> Result<String, AllocError> {
    let mut script = String::new(alloc);
    script.push_str("{}\n")?;
    script.push_str(CONNECT)?;
    for _ in CONNECT.len()..length {
        script.push(' ')?;
    }
    Ok(script)
}

/// Whether such a script ends so.
fn ends_long(alloc: Global, length: usize, status: Status, text: &str) -> bool {
    match long_script(alloc, length) {
        Ok(script) => {
            let script = script.as_str();
            ends_fresh(alloc, Outside { script, ..FRESH }, status, text)
        }
        Err(_) => false,
    }
}

#[test]
fn a_line_has_at_most_262144_bytes(rt: HostRuntime) {
    for (length, status, text) in &LONG_LINES {
        let right = ends_long(rt.alloc(), *length, *status, text);
        assert!(rt; right, "of {length} bytes");
    }
}

/// Words with the status of a connect under them, and its text: those that are no form do nothing.
static WORDS: [(&str, Status, &str); 25] = [
    ("run --fresh --slots 1", Status::Ok, CONNECTED),
    ("run --fresh --slots 1024", Status::Ok, CONNECTED),
    ("run --fresh --slots 007", Status::Ok, CONNECTED),
    (
        "run --fresh --slots 00000000000000001024",
        Status::Ok,
        CONNECTED,
    ),
    ("run --fresh --trace", Status::Ok, CONNECTED_TRACE),
    ("run --fresh --slots 1 --trace", Status::Ok, CONNECTED_TRACE),
    ("run --trace --fresh", Status::Usage, ""),
    ("run --trace --slots 4", Status::Usage, ""),
    ("run --fresh --trace --trace", Status::Usage, ""),
    ("init --trace", Status::Usage, ""),
    ("", Status::Usage, ""),
    ("init init", Status::Usage, ""),
    ("init --fresh", Status::Usage, ""),
    ("run --slots", Status::Usage, ""),
    ("run --slots 1025", Status::Usage, ""),
    ("--fresh run", Status::Usage, ""),
    ("run --fresh x", Status::Usage, ""),
    ("run --fresh --slots", Status::Usage, ""),
    ("run --fresh --slots 0", Status::Usage, ""),
    ("run --fresh --slots 1025", Status::Usage, ""),
    ("run --fresh --slots +1", Status::Usage, ""),
    ("run --fresh --slots 1a", Status::Usage, ""),
    (
        "run --fresh --slots 18446744073709551617",
        Status::Usage,
        "",
    ),
    ("run --fresh --slots 1 1", Status::Usage, ""),
    ("run --slots 1 --fresh", Status::Usage, ""),
];

#[test]
fn words_are_a_form_with_1_to_64_slots_or_do_nothing(rt: HostRuntime) {
    for (words, status, text) in &WORDS {
        let outside = Outside {
            words,
            script: CONNECT,
            ..FRESH
        };
        check_end(&rt, rt.alloc(), outside, *status, text);
    }
}
