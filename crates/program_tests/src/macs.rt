//! HMAC: shortened macs, and signatures. More of each are in `checks/mac-lengths.jsonl` and `checks/signatures.jsonl`, the cases of
//! RFC 4231 in `checks/macs.jsonl`.

use crate::script::{
    BEGUN, CONNECT, CONNECTED, FINISH, IMPORT, IMPORTED, NOTHING_OUT, Row, check_each,
};

const VERIFY: &str =
    r#"{"t":[0,1000],"c":1,"do":"createOperation","key":{"domain":0,"alias":"m"},"params":[["PURPOSE",3]]}"#;

static MACS: [&[Row]; 1] = [&[
    // A mac of the length that was asked, and lengths that are none; the front of a mac, and the same with a bit changed.
    (CONNECT, CONNECTED),
    (IMPORT, IMPORTED),
    (
        r#"{"t":[0,1000],"c":1,"do":"createOperation","key":{"domain":0,"alias":"m"},"params":[["PURPOSE",2],["MAC_LENGTH",128]]}"#,
        BEGUN,
    ),
    (
        FINISH,
        r#"{"code":0,"out":"b0344c61d8db38535ca8afceaf0bf12b"}"#,
    ),
    (
        r#"{"t":[0,1000],"c":1,"do":"createOperation","key":{"domain":0,"alias":"m"},"params":[["PURPOSE",2],["MAC_LENGTH",56]]}"#,
        r#"{"code":-57,"rule":"B20"}"#,
    ),
    (
        r#"{"t":[0,1000],"c":1,"do":"createOperation","key":{"domain":0,"alias":"m"},"params":[["PURPOSE",2],["MAC_LENGTH",264]]}"#,
        r#"{"code":-9,"rule":"B20"}"#,
    ),
    (VERIFY, r#"{"code":0,"op":2}"#),
    (
        r#"{"t":[0,1000],"c":1,"do":"finish","op":2,"input":"4869205468657265","signature":"b0344c61d8db38535ca8afceaf0bf12b"}"#,
        NOTHING_OUT,
    ),
    (VERIFY, r#"{"code":0,"op":3}"#),
    (
        r#"{"t":[0,1000],"c":1,"do":"finish","op":3,"input":"4869205468657265","signature":"b0344c61d8db38535ca8afceaf0bf12a"}"#,
        r#"{"code":-30}"#,
    ),
]];

#[test]
fn a_mac_has_the_length_that_was_asked_and_a_signature_is_a_front_of_it(rt: HostRuntime) {
    check_each(&rt, rt.alloc(), &MACS);
}
