//! Runs that write traces: each line of a script with the lines of the entries that it adds.

use crate::script::{FRESH, Outside, ROOM};
use disk_model::MemoryDisk;
use keystore_run::Status;
use std::alloc::Global;

/// The first case of RFC 4231.
const KNOWN: &str = r#"{"t":[0,1000],"do":"connect","uid":10001}
{"t":[0,1000],"c":1,"do":"importKey","key":{"domain":0,"alias":"m"},"params":[["PURPOSE",2],["PURPOSE",3],["ALGORITHM",128],["DIGEST",4],["MIN_MAC_LENGTH",64],["NO_AUTH_REQUIRED",true]],"format":3,"material":"0b0b0b0b0b0b0b0b0b0b0b0b0b0b0b0b0b0b0b0b"}
{"t":[0,1000],"c":1,"do":"createOperation","key":{"domain":0,"alias":"m"},"params":[["PURPOSE",2],["MAC_LENGTH",256]]}
{"t":[0,1000],"c":1,"do":"finish","op":1,"input":"4869205468657265"}
"#;

/// Its trace: a finish that does not hold its work is two entries.
const KNOWN_TRACE: &str =
    r#"{"drawn":"","event":{"do":"connect","t":[0,1000],"uid":10001},"reply":{"client":1,"code":0}}
{"drawn":"000102030405060708090a0b","event":{"c":1,"do":"importKey","format":3,"key":{"alias":"m","domain":0,"nspace":0},"material":"0b0b0b0b0b0b0b0b0b0b0b0b0b0b0b0b0b0b0b0b","params":"000620000001000000022000000100000003100000020000008020000005000000043000000800000040700001f701","t":[0,1000]},"reply":{"code":0,"key":1}}
{"drawn":"","event":{"c":1,"do":"createOperation","forced":false,"key":{"alias":"m","domain":0,"nspace":0},"params":"00022000000100000002300003eb00000100","t":[0,1000]},"reply":{"code":0,"op":1}}
{"drawn":"","event":{"c":1,"do":"finish","input":"4869205468657265","op":1,"t":[0,1000]},"reply":{"code":0,"ticket":1}}
{"drawn":"","event":{"do":"leave","t":[0,1000],"ticket":1},"reply":{"code":0,"out":"b0344c61d8db38535ca8afceaf0bf12b881dc200c9833da726e9376c2e32cff7"}}
"#;

/// A key of one use, whose record fails at the last sync: the use is kept all the same.
const USED_UP: &str = r#"{"t":[0,1000],"do":"connect","uid":10001}
{"t":[0,1000],"c":1,"do":"importKey","key":{"domain":0,"alias":"m"},"params":[["PURPOSE",2],["PURPOSE",3],["ALGORITHM",128],["DIGEST",4],["MIN_MAC_LENGTH",64],["NO_AUTH_REQUIRED",true],["USAGE_COUNT_LIMIT",1]],"format":3,"material":"0b0b0b0b0b0b0b0b0b0b0b0b0b0b0b0b0b0b0b0b"}
{"t":[0,1000],"c":1,"do":"createOperation","key":{"domain":0,"alias":"m"},"params":[["PURPOSE",2],["MAC_LENGTH",256]]}
{"t":[0,1000],"c":1,"do":"finish","op":1,"input":""}
{"t":[0,1000],"c":1,"do":"createOperation","key":{"domain":0,"alias":"m"},"params":[["PURPOSE",2],["MAC_LENGTH",256]]}
"#;

/// What the disk was found to hold has a line of its own, before that of the event that found it.
const USED_UP_TRACE: &str =
    r#"{"drawn":"","event":{"do":"connect","t":[0,1000],"uid":10001},"reply":{"client":1,"code":0}}
{"drawn":"000102030405060708090a0b","event":{"c":1,"do":"importKey","format":3,"key":{"alias":"m","domain":0,"nspace":0},"material":"0b0b0b0b0b0b0b0b0b0b0b0b0b0b0b0b0b0b0b0b","params":"000720000001000000022000000100000003100000020000008020000005000000043000000800000040700001f7013000019500000001","t":[0,1000]},"reply":{"code":0,"key":1}}
{"drawn":"","event":{"c":1,"do":"createOperation","forced":false,"key":{"alias":"m","domain":0,"nspace":0},"params":"00022000000100000002300003eb00000100","t":[0,1000]},"reply":{"code":0,"op":1}}
{"drawn":"","event":{"c":1,"do":"finish","input":"","op":1,"t":[0,1000]},"reply":{"code":4}}
{"settled":"kept"}
{"drawn":"","event":{"c":1,"do":"createOperation","forced":false,"key":{"alias":"m","domain":0,"nspace":0},"params":"00022000000100000002300003eb00000100","t":[0,1000]},"reply":{"code":7,"rule":"B4"}}
"#;

/// A work that is held, with another line before its leave, and a line that spells no event.
const HELD: &str = r#"{"t":[0,1000],"do":"connect","uid":10001}
{"t":[0,1000],"c":1,"do":"importKey","key":{"domain":0,"alias":"m"},"params":[["PURPOSE",2],["PURPOSE",3],["ALGORITHM",128],["DIGEST",4],["MIN_MAC_LENGTH",64],["NO_AUTH_REQUIRED",true],["USAGE_COUNT_LIMIT",1]],"format":3,"material":"0b0b0b0b0b0b0b0b0b0b0b0b0b0b0b0b0b0b0b0b"}
{"t":[0,1000],"c":1,"do":"createOperation","key":{"domain":0,"alias":"m"},"params":[["PURPOSE",2],["MAC_LENGTH",256]]}
{"t":[0,1000],"c":1,"do":"update","op":1,"input":"4869","hold":true}
{}
{"t":[1,1001],"do":"connect","uid":10002}
{"t":[2,1002],"do":"leave","ticket":1}
{"t":[3,1003],"c":1,"do":"finish","op":1,"input":"205468657265"}
"#;

/// The entries stand in the order in which they were made; the line that spells no event has none.
const HELD_TRACE: &str =
    r#"{"drawn":"","event":{"do":"connect","t":[0,1000],"uid":10001},"reply":{"client":1,"code":0}}
{"drawn":"000102030405060708090a0b","event":{"c":1,"do":"importKey","format":3,"key":{"alias":"m","domain":0,"nspace":0},"material":"0b0b0b0b0b0b0b0b0b0b0b0b0b0b0b0b0b0b0b0b","params":"000720000001000000022000000100000003100000020000008020000005000000043000000800000040700001f7013000019500000001","t":[0,1000]},"reply":{"code":0,"key":1}}
{"drawn":"","event":{"c":1,"do":"createOperation","forced":false,"key":{"alias":"m","domain":0,"nspace":0},"params":"00022000000100000002300003eb00000100","t":[0,1000]},"reply":{"code":0,"op":1}}
{"drawn":"","event":{"c":1,"do":"update","input":"4869","op":1,"t":[0,1000]},"reply":{"code":0,"ticket":1}}
{"drawn":"","event":{"do":"connect","t":[1,1001],"uid":10002},"reply":{"client":2,"code":0}}
{"drawn":"","event":{"do":"leave","t":[2,1002],"ticket":1},"reply":{"code":0,"out":""}}
{"drawn":"","event":{"c":1,"do":"finish","input":"205468657265","op":1,"t":[3,1003]},"reply":{"code":0,"ticket":2}}
{"drawn":"","event":{"do":"leave","t":[3,1003],"ticket":2},"reply":{"code":0,"out":"b0344c61d8db38535ca8afceaf0bf12b881dc200c9833da726e9376c2e32cff7"}}
"#;

const CONNECT_TRACE: &str =
    r#"{"drawn":"","event":{"do":"connect","t":[0,1000],"uid":10001},"reply":{"client":1,"code":0}}
"#;

/// A script, the calls of the disk and the writes that fail, and the status and the trace of a run.
type Case = (
    &'static str,
    (&'static [u64], &'static [u64]),
    Status,
    &'static str,
);

static CASES: [Case; 8] = [
    ("", (&[], &[]), Status::Ok, ""),
    ("{}\n\n[]\n{", (&[], &[]), Status::Ok, ""),
    (KNOWN, (&[], &[]), Status::Ok, KNOWN_TRACE),
    (USED_UP, (&[20], &[]), Status::Ok, USED_UP_TRACE),
    (HELD, (&[], &[]), Status::Ok, HELD_TRACE),
    // a write that fails ends a run, and the entries before it are whole
    (KNOWN, (&[], &[1]), Status::WriteFault, ""),
    (KNOWN, (&[], &[2]), Status::WriteFault, CONNECT_TRACE),
    // the words alone say what is written
    ("{}\n{}", (&[], &[1]), Status::Ok, ""),
];

/// Whether a run over a fresh store with such a fault ends so.
fn ends_so(alloc: Global, outside: Outside, failing: &[u64], status: Status, text: &str) -> bool {
    match MemoryDisk::with_room(alloc, ROOM, failing) {
        Ok(mut disk) => {
            let right = outside.ends_so(alloc, &mut disk, status, text);
            drop(disk);
            right
        }
        Err(_) => false,
    }
}

#[test]
fn a_trace_has_a_line_for_each_entry(rt: HostRuntime) {
    for (script, (failing, writes), status, text) in &CASES {
        let outside = Outside {
            words: "run --fresh --trace",
            script,
            writes,
            ..FRESH
        };
        let right = ends_so(rt.alloc(), outside, failing, *status, text);
        assert!(rt; right, "{text}");
    }
}
