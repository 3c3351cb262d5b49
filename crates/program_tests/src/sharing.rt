//! Keys of other owners: grants, namespaces, and begins that force.

use crate::script::{
    BEGIN, BEGUN, CONNECT, CONNECTED, DONE, FRESH, IMPORT, IMPORTED, NO_KEY, Outside, Row,
    SECOND_CONNECTED, check, check_each,
};

const COUNT: &str = r#"{"t":[0,1000],"c":1,"do":"getNumberOfEntries","domain":2,"nspace":100}"#;

static SHARED: [&[Row]; 2] = [
    &[
        // A grant carries what it says and no more, is not shared further, and ends.
        (CONNECT, CONNECTED),
        (
            r#"{"t":[0,1000],"do":"connect","uid":10002}"#,
            SECOND_CONNECTED,
        ),
        (IMPORT, IMPORTED),
        (
            r#"{"t":[0,1000],"c":1,"do":"grant","key":{"domain":0,"alias":"m"},"uid":10002,"bits":256}"#,
            r#"{"code":0,"grant":1}"#,
        ),
        (
            r#"{"t":[0,1000],"c":2,"do":"createOperation","key":{"domain":1,"nspace":1},"params":[["PURPOSE",2],["MAC_LENGTH",256]]}"#,
            BEGUN,
        ),
        (
            r#"{"t":[0,1000],"c":2,"do":"getKeyEntry","key":{"domain":1,"nspace":1}}"#,
            r#"{"code":6,"rule":"A6"}"#,
        ),
        (
            r#"{"t":[0,1000],"c":1,"do":"grant","key":{"domain":0,"alias":"m"},"uid":10002,"bits":264}"#,
            r#"{"code":6,"rule":"A8"}"#,
        ),
        (
            r#"{"t":[0,1000],"c":1,"do":"ungrant","key":{"domain":0,"alias":"m"},"uid":10002}"#,
            DONE,
        ),
        (
            r#"{"t":[0,1000],"c":2,"do":"createOperation","key":{"domain":1,"nspace":1},"params":[["PURPOSE",2],["MAC_LENGTH",256]]}"#,
            NO_KEY,
        ),
    ],
    &[
        // A namespace that the policy knows the caller in, and one that it does not; the system clears it.
        (r#"{"t":[0,1000],"do":"connect","uid":1000}"#, CONNECTED),
        (
            r#"{"t":[0,1000],"c":1,"do":"importKey","key":{"domain":2,"nspace":100,"alias":"x"},"params":[["PURPOSE",2],["PURPOSE",3],["ALGORITHM",128],["DIGEST",4],["MIN_MAC_LENGTH",64],["NO_AUTH_REQUIRED",true]],"format":3,"material":"0b0b0b0b0b0b0b0b0b0b0b0b0b0b0b0b0b0b0b0b"}"#,
            IMPORTED,
        ),
        (COUNT, r#"{"code":0,"count":1}"#),
        (
            r#"{"t":[0,1000],"c":1,"do":"getNumberOfEntries","domain":2,"nspace":101}"#,
            r#"{"code":6,"rule":"A4"}"#,
        ),
        (
            r#"{"t":[0,1000],"c":1,"do":"clearNamespace","domain":2,"nspace":100}"#,
            DONE,
        ),
        (COUNT, r#"{"code":0,"count":0}"#),
    ],
];

/// Over one slot: who has the bit forces, and who lacks it does not.
static FORCED: [Row; 7] = [
    (CONNECT, CONNECTED),
    (IMPORT, IMPORTED),
    (BEGIN, BEGUN),
    (
        r#"{"t":[0,1000],"do":"connect","uid":1000}"#,
        SECOND_CONNECTED,
    ),
    (
        r#"{"t":[0,1000],"c":2,"do":"importKey","key":{"domain":0,"alias":"n"},"params":[["PURPOSE",2],["PURPOSE",3],["ALGORITHM",128],["DIGEST",4],["MIN_MAC_LENGTH",64],["NO_AUTH_REQUIRED",true]],"format":3,"material":"0b0b0b0b0b0b0b0b0b0b0b0b0b0b0b0b0b0b0b0b"}"#,
        r#"{"code":0,"key":2}"#,
    ),
    (
        r#"{"t":[0,1000],"c":2,"do":"createOperation","key":{"domain":0,"alias":"n"},"params":[["PURPOSE",2],["MAC_LENGTH",256]],"forced":true}"#,
        r#"{"code":0,"op":2,"pruned":1}"#,
    ),
    (
        r#"{"t":[0,1000],"c":1,"do":"createOperation","key":{"domain":0,"alias":"m"},"params":[["PURPOSE",2],["MAC_LENGTH",256]],"forced":true}"#,
        r#"{"code":6,"rule":"B5"}"#,
    ),
];

#[test]
fn keys_are_shared_and_cleared_and_begins_forced_as_the_rules_say(rt: HostRuntime) {
    let alloc = rt.alloc();
    check_each(&rt, alloc, &SHARED);
    let one_slot = Outside {
        words: "run --fresh --slots 1",
        ..FRESH
    };
    check(&rt, alloc, one_slot, &FORCED);
}
