//! Keys with a use limit, over restarts, further runs and failing disks.

use crate::script::{
    BEGIN, BEGUN, CONNECT, CONNECTED, DONE, FINISH, IMPORTED, MAC, NO_KEY, NOT_OPEN, NOTHING_OUT,
    Row, Runs, SECOND_CONNECTED, check_runs,
};

const IMPORT_ONCE: &str =
    r#"{"t":[0,1000],"c":1,"do":"importKey","key":{"domain":0,"alias":"m"},"params":[["PURPOSE",2],["PURPOSE",3],["ALGORITHM",128],["DIGEST",4],["MIN_MAC_LENGTH",64],["NO_AUTH_REQUIRED",true],["USAGE_COUNT_LIMIT",1]],"format":3,"material":"0b0b0b0b0b0b0b0b0b0b0b0b0b0b0b0b0b0b0b0b"}"#;

const IMPORT_TWICE: &str =
    r#"{"t":[0,1000],"c":1,"do":"importKey","key":{"domain":0,"alias":"m"},"params":[["PURPOSE",2],["PURPOSE",3],["ALGORITHM",128],["DIGEST",4],["MIN_MAC_LENGTH",64],["NO_AUTH_REQUIRED",true],["USAGE_COUNT_LIMIT",2]],"format":3,"material":"0b0b0b0b0b0b0b0b0b0b0b0b0b0b0b0b0b0b0b0b"}"#;

const IMPORT_ONCE_A_BOOT: &str =
    r#"{"t":[0,1000],"c":1,"do":"importKey","key":{"domain":0,"alias":"m"},"params":[["PURPOSE",2],["PURPOSE",3],["ALGORITHM",128],["DIGEST",4],["MIN_MAC_LENGTH",64],["NO_AUTH_REQUIRED",true],["MAX_USES_PER_BOOT",1]],"format":3,"material":"0b0b0b0b0b0b0b0b0b0b0b0b0b0b0b0b0b0b0b0b"}"#;

const RESTART: &str = r#"{"t":[0,1000],"do":"restart"}"#;

const BEGUN_AGAIN: &str = r#"{"code":0,"op":2}"#;

const FAILED: &str = r#"{"code":4}"#;

const FINISH_EMPTY: &str = r#"{"t":[0,1000],"c":1,"do":"finish","op":1,"input":""}"#;

const FINISH_SECOND: &str = r#"{"t":[0,1000],"c":1,"do":"finish","op":2,"input":""}"#;

/// The mac of no bytes.
const EMPTY_MAC: &str =
    r#"{"code":0,"out":"999a901219f032cd497cadb5e6051e97b6a29ab297bd6ae722bd6062a2f59542"}"#;

const ENDED: &str = r#"{"code":-33,"rule":"S4"}"#;

const NONE_LEFT: &str = r#"{"code":-56,"rule":"B16"}"#;

/// The key after its first use.
const ONE_USE_LEFT: &str =
    r#"{"alias":"m","code":0,"domain":0,"key":1,"list":"000c20000001000000022000000100000003100000020000008030000003000000a0200000050000000430000008000000403000019500000002700001f701600002bd00000000000003e8100002be00000002300002c1000222e0300002c2000316a6","nspace":10001,"uses":1}"#;

const SHOW: &str = r#"{"t":[0,1000],"c":1,"do":"getKeyEntry","key":{"domain":0,"alias":"m"}}"#;

const GONE: &[Row] = &[(CONNECT, CONNECTED), (BEGIN, NO_KEY)];

static LIMITED: [Runs; 2] = [
    &[
        &[
            (CONNECT, CONNECTED),
            (IMPORT_ONCE, IMPORTED),
            (BEGIN, BEGUN),
            (BEGIN, BEGUN_AGAIN),
            (FINISH_EMPTY, EMPTY_MAC),
            (FINISH_SECOND, ENDED),
            (BEGIN, NO_KEY),
            (RESTART, DONE),
            (CONNECT, SECOND_CONNECTED),
            (
                r#"{"t":[0,1000],"c":2,"do":"createOperation","key":{"domain":0,"alias":"m"},"params":[["PURPOSE",2],["MAC_LENGTH",256]]}"#,
                NO_KEY,
            ),
        ],
        GONE,
    ],
    &[
        &[
            // All output of a limited key comes at the finish.
            (CONNECT, CONNECTED),
            (IMPORT_TWICE, IMPORTED),
            (BEGIN, BEGUN),
            (
                r#"{"t":[0,1000],"c":1,"do":"update","op":1,"input":"4869"}"#,
                NOTHING_OUT,
            ),
            (
                r#"{"t":[0,1000],"c":1,"do":"finish","op":1,"input":"205468657265"}"#,
                MAC,
            ),
            (SHOW, ONE_USE_LEFT),
            (RESTART, DONE),
            (CONNECT, SECOND_CONNECTED),
            (
                r#"{"t":[0,1000],"c":2,"do":"getKeyEntry","key":{"domain":0,"alias":"m"}}"#,
                ONE_USE_LEFT,
            ),
        ],
        &[
            (CONNECT, CONNECTED),
            (SHOW, ONE_USE_LEFT),
            (BEGIN, BEGUN),
            (BEGIN, BEGUN_AGAIN),
            (FINISH, MAC),
            (FINISH_SECOND, ENDED),
            (BEGIN, NO_KEY),
        ],
        GONE,
    ],
];

#[test]
fn a_used_up_key_stays_used_up_after_a_restart(rt: HostRuntime) {
    let alloc = rt.alloc();
    for runs in &LIMITED {
        check_runs(&rt, alloc, &[], runs);
    }
}

/// The last sync of the use fails: it is on the disk all the same.
const KEPT: Runs = &[
    &[
        (CONNECT, CONNECTED),
        (IMPORT_ONCE, IMPORTED),
        (BEGIN, BEGUN),
        (FINISH_EMPTY, FAILED),
        (
            BEGIN,
            "{\"settled\":\"kept\"}\n{\"code\":7,\"rule\":\"B4\"}",
        ),
        (FINISH_EMPTY, NOT_OPEN),
        (BEGIN, NO_KEY),
    ],
    GONE,
];

/// A call before the gate is open fails: the use is lost, and the operation is closed.
const LOST: Runs = &[
    &[
        (CONNECT, CONNECTED),
        (IMPORT_ONCE, IMPORTED),
        (BEGIN, BEGUN),
        (FINISH_EMPTY, FAILED),
        (BEGIN, "{\"settled\":\"lost\"}\n{\"code\":0,\"op\":2}"),
        (FINISH_EMPTY, NOT_OPEN),
        (FINISH_SECOND, EMPTY_MAC),
    ],
    GONE,
];

/// Calls of the disk that fail, by their numbers from 1, and the runs: formatting makes six calls, the opening of an empty store six,
/// and each record four.
static FAULTED: [(&[u64], Runs); 4] = [
    (&[20], KEPT),
    (&[17], LOST),
    (&[19], LOST),
    (
        &[18],
        &[
            &[
                // A leave, a disconnect and a line that is no event settle nothing; a call that breaks a rule does.
                (CONNECT, CONNECTED),
                (CONNECT, SECOND_CONNECTED),
                (IMPORT_ONCE, IMPORTED),
                (BEGIN, BEGUN),
                (BEGIN, BEGUN_AGAIN),
                (
                    r#"{"t":[0,1000],"c":1,"do":"update","op":2,"input":"4869","hold":true}"#,
                    r#"{"code":0,"ticket":1}"#,
                ),
                (FINISH_EMPTY, FAILED),
                (r#"{"t":[0,1000],"do":"leave","ticket":1}"#, NOTHING_OUT),
                (r#"{"t":[0,1000],"c":2,"do":"disconnect"}"#, DONE),
                ("{}", r#"{"code":20,"rule":"L1"}"#),
                (
                    FINISH_EMPTY,
                    "{\"settled\":\"lost\"}\n{\"code\":-28,\"rule\":\"S1\"}",
                ),
                (
                    r#"{"t":[0,1000],"c":1,"do":"finish","op":2,"input":"205468657265"}"#,
                    MAC,
                ),
            ],
            GONE,
        ],
    ),
];

#[test]
fn a_use_whose_record_failed_is_kept_or_lost_as_it_is_told(rt: HostRuntime) {
    let alloc = rt.alloc();
    for (failing, runs) in &FAULTED {
        check_runs(&rt, alloc, failing, runs);
    }
}

/// A begin count begins anew at a restart, and in the next run.
static COUNTED: [&[Row]; 2] = [
    &[
        (CONNECT, CONNECTED),
        (IMPORT_ONCE_A_BOOT, IMPORTED),
        (BEGIN, BEGUN),
        (BEGIN, NONE_LEFT),
        (RESTART, DONE),
        (CONNECT, SECOND_CONNECTED),
        (
            r#"{"t":[0,1000],"c":2,"do":"createOperation","key":{"domain":0,"alias":"m"},"params":[["PURPOSE",2],["MAC_LENGTH",256]]}"#,
            BEGUN_AGAIN,
        ),
    ],
    &[(CONNECT, CONNECTED), (BEGIN, BEGUN), (BEGIN, NONE_LEFT)],
];

#[test]
fn begins_are_counted_until_the_next_restart(rt: HostRuntime) {
    check_runs(&rt, rt.alloc(), &[], &COUNTED);
}
