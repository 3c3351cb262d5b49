//! Keys that need a token. More of them are in `checks/timed-tokens.jsonl` and `checks/shown-tokens.jsonl`, as many tokens as there is
//! room for in `checks/token-room.jsonl`, locks, early boot and begins that are counted in `checks/locked-users.jsonl` and
//! `checks/counted-begins.jsonl`.

use crate::script::{
    BEGIN, BEGUN, CONNECT, CONNECTED, DONE, IMPORTED, NOTHING_OUT, Row, SECOND_CONNECTED, SYSTEM,
    check_each,
};

const NO_TOKEN: &str = r#"{"code":-26,"rule":"B15"}"#;

static BOUND: [&[Row]; 2] = [
    &[
        // A token opens its user's keys from its time on until the timeout.
        (CONNECT, CONNECTED),
        (SYSTEM, SECOND_CONNECTED),
        (
            r#"{"t":[0,1000],"c":1,"do":"importKey","key":{"domain":0,"alias":"m"},"params":[["PURPOSE",2],["PURPOSE",3],["ALGORITHM",128],["DIGEST",4],["MIN_MAC_LENGTH",64],["USER_SECURE_ID",7],["USER_AUTH_TYPE",1],["AUTH_TIMEOUT",10]],"format":3,"material":"0b0b0b0b0b0b0b0b0b0b0b0b0b0b0b0b0b0b0b0b"}"#,
            IMPORTED,
        ),
        (
            r#"{"t":[0,1000],"c":2,"do":"addAuthToken","challenge":0,"user":7,"authenticator":0,"kind":1,"time":5000,"mac":"4c723d6f22216d94bf3f449178f55caa31e26256671c729f492a4ea97421159e"}"#,
            r#"{"code":-30,"rule":"A7"}"#,
        ),
        (
            r#"{"t":[0,1000],"c":1,"do":"addAuthToken","challenge":0,"user":7,"authenticator":0,"kind":1,"time":5000,"mac":"4c723d6f22216d94bf3f449178f55caa31e26256671c729f492a4ea97421159f"}"#,
            r#"{"code":6,"rule":"A3"}"#,
        ),
        (
            r#"{"t":[0,1000],"c":2,"do":"addAuthToken","challenge":0,"user":7,"authenticator":0,"kind":1,"time":5000,"mac":"4c723d6f22216d94bf3f449178f55caa31e26256671c729f492a4ea97421159f"}"#,
            DONE,
        ),
        (
            r#"{"t":[15000,1000],"c":1,"do":"createOperation","key":{"domain":0,"alias":"m"},"params":[["PURPOSE",2],["MAC_LENGTH",256]]}"#,
            BEGUN,
        ),
        (
            r#"{"t":[15001,1000],"c":1,"do":"createOperation","key":{"domain":0,"alias":"m"},"params":[["PURPOSE",2],["MAC_LENGTH",256]]}"#,
            NO_TOKEN,
        ),
        (
            r#"{"t":[4999,1000],"c":1,"do":"createOperation","key":{"domain":0,"alias":"m"},"params":[["PURPOSE",2],["MAC_LENGTH",256]]}"#,
            NO_TOKEN,
        ),
    ],
    &[
        // An operation goes on once a token that fits its key has named its challenge. A date is looked at before tokens.
        (CONNECT, CONNECTED),
        (SYSTEM, SECOND_CONNECTED),
        (
            r#"{"t":[0,1000],"c":1,"do":"importKey","key":{"domain":0,"alias":"m"},"params":[["PURPOSE",2],["PURPOSE",3],["ALGORITHM",128],["DIGEST",4],["MIN_MAC_LENGTH",64],["USER_SECURE_ID",7],["USER_AUTH_TYPE",1]],"format":3,"material":"0b0b0b0b0b0b0b0b0b0b0b0b0b0b0b0b0b0b0b0b"}"#,
            IMPORTED,
        ),
        (BEGIN, r#"{"challenge":868365761009226259,"code":0,"op":1}"#),
        (
            r#"{"t":[0,1000],"c":1,"do":"update","op":1,"input":"00"}"#,
            r#"{"code":-26,"rule":"S5"}"#,
        ),
        (
            r#"{"t":[0,1000],"c":2,"do":"addAuthToken","challenge":868365761009226259,"user":7,"authenticator":0,"kind":1,"time":0,"mac":"eb5a19f6d2b509c865cfb1c6ba7b590227ede16faa40acb5c481b383367827f5"}"#,
            DONE,
        ),
        (
            r#"{"t":[0,1000],"c":1,"do":"update","op":1,"input":"00"}"#,
            NOTHING_OUT,
        ),
        (
            r#"{"t":[0,1000],"c":1,"do":"importKey","key":{"domain":0,"alias":"x"},"params":[["PURPOSE",2],["ALGORITHM",128],["DIGEST",4],["MIN_MAC_LENGTH",64],["USER_SECURE_ID",7],["USER_AUTH_TYPE",1],["AUTH_TIMEOUT",10],["ORIGINATION_EXPIRE_DATETIME",999]],"format":3,"material":"0b0b0b0b0b0b0b0b0b0b0b0b0b0b0b0b0b0b0b0b"}"#,
            r#"{"code":0,"key":2}"#,
        ),
        (
            r#"{"t":[0,1000],"c":1,"do":"createOperation","key":{"domain":0,"alias":"x"},"params":[["PURPOSE",2],["MAC_LENGTH",256]]}"#,
            r#"{"code":-25,"rule":"B11"}"#,
        ),
    ],
];

#[test]
fn a_begin_and_a_step_meet_the_tokens_of_their_key(rt: HostRuntime) {
    check_each(&rt, rt.alloc(), &BOUND);
}
