//! Loads of a seed. What the help tells of them is in `tools/checks/test_help.py`.

use crate::script::{FRESH, Outside};
use crate::scripts::check_end;
use keystore_run::Status;

/// Words of loads, with the status and the text of each; the text is that of a model that was written apart from the service.
static LOADS: [(&str, Status, &str); 4] = [
    (
        "soak 7 20",
        Status::Ok,
        "code -28 count 9\ncode 0 count 18\nsha256 dbb7812fa4fdef92534c0b945cc86702545279a09c3d104db6ca2dfebdc6d1a5\n",
    ),
    ("soak 7 0", Status::Usage, ""),
    ("soak 7 100001", Status::Usage, ""),
    ("soak 18446744073709551616 1", Status::Usage, ""),
];

#[test]
fn a_load_prints_its_summary(rt: HostRuntime) {
    for (words, status, text) in &LOADS {
        let outside = Outside { words, ..FRESH };
        check_end(&rt, rt.alloc(), outside, *status, text);
    }
}
