//! Keys over systems that rise and fall.

use crate::script::{
    BEGIN, BEGUN, CONNECT, CONNECTED, DEMO_SYSTEM, DONE, IMPORT, IMPORTED, Row, System,
    check_systems,
};

const UPGRADE: &str = r#"{"t":[0,1000],"c":1,"do":"upgradeKey","key":{"domain":0,"alias":"m"}}"#;

/// The demo device's system, the one of an update, and the first one again.
static SYSTEMS: [System; 3] = [DEMO_SYSTEM, (140_000, 202_407), DEMO_SYSTEM];

/// A key is made, waits for its upgrade and works behind it, and does not work on the older system.
static RUNS: [&[Row]; 3] = [
    &[(CONNECT, CONNECTED), (IMPORT, IMPORTED)],
    &[
        (CONNECT, CONNECTED),
        (BEGIN, r#"{"code":-62,"rule":"B23"}"#),
        (UPGRADE, DONE),
        (BEGIN, BEGUN),
    ],
    &[
        (CONNECT, CONNECTED),
        (BEGIN, r#"{"code":-33,"rule":"B23"}"#),
        (UPGRADE, r#"{"code":-38,"rule":"A14"}"#),
    ],
];

#[test]
fn an_upgraded_key_works_on_and_not_on_an_older_system(rt: HostRuntime) {
    check_systems(&rt, rt.alloc(), &SYSTEMS, &RUNS);
}
