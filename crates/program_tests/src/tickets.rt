//! Works that are held. Works that come back in another order, clients that go, and a seventeenth operation beside them are in
//! `checks/crossed-works.jsonl`, `checks/gone-clients.jsonl` and `checks/seventeenth-operation.jsonl`; `tools/ks check held_orders` takes six
//! works in every order.

use crate::script::{
    BEGIN, BEGUN, CONNECT, CONNECTED, DONE, IMPORT, IMPORTED, MAC, NOT_OPEN, NOTHING_OUT, Row,
    check_each,
};

const DISCONNECT: &str = r#"{"t":[0,1000],"c":1,"do":"disconnect"}"#;

const BUSY: &str = r#"{"code":19,"rule":"S2"}"#;

const NO_TICKET: &str = r#"{"code":1006}"#;

static HELD: [&[Row]; 1] = [&[
    // A work that is out lets no step in; what came back is no longer out.
    (CONNECT, CONNECTED),
    (IMPORT, IMPORTED),
    (BEGIN, BEGUN),
    (
        r#"{"t":[0,1000],"c":1,"do":"update","op":1,"input":"","hold":true}"#,
        r#"{"code":0,"ticket":1}"#,
    ),
    (
        r#"{"t":[0,1000],"c":1,"do":"update","op":1,"input":"00"}"#,
        BUSY,
    ),
    (r#"{"t":[0,1000],"c":1,"do":"abort","op":1}"#, BUSY),
    (r#"{"t":[0,1000],"do":"leave","ticket":2}"#, NO_TICKET),
    (r#"{"t":[0,1000],"do":"leave","ticket":1}"#, NOTHING_OUT),
    (
        r#"{"t":[0,1000],"c":1,"do":"update","op":1,"input":""}"#,
        NOTHING_OUT,
    ),
    (r#"{"t":[0,1000],"do":"leave","ticket":1}"#, NO_TICKET),
    (
        r#"{"t":[0,1000],"c":1,"do":"finish","op":1,"input":"4869205468657265","hold":true}"#,
        r#"{"code":0,"ticket":3}"#,
    ),
    (DISCONNECT, r#"{"code":19,"rule":"A10"}"#),
    (r#"{"t":[0,1000],"do":"leave","ticket":3}"#, MAC),
    (r#"{"t":[0,1000],"do":"leave","ticket":3}"#, NO_TICKET),
    (r#"{"t":[0,1000],"c":1,"do":"abort","op":1}"#, NOT_OPEN),
    (DISCONNECT, DONE),
]];

#[test]
fn a_work_that_is_out_keeps_others_away(rt: HostRuntime) {
    check_each(&rt, rt.alloc(), &HELD);
}
