//! Strings of one length that differ at each place, and strings of two lengths.

use byte_strings::same_bytes;

static PAIRS: [(&[u8], &[u8], bool); 4] = [
    (b"", b"", true),
    (b"", b"a", false),
    (b"mac", b"ma", false),
    (&[7; 64], &[7; 64], true),
];

/// Whether a string is told from each other one that differs from it at one place.
fn tells_each_place() -> bool {
    let mac = [7u8; 64];
    let mut told = true;
    for i in 0..64usize {
        let mut other = mac;
        other[i] = 6;
        told &= !same_bytes(&mac, &other);
    }
    told
}

#[test]
fn same_bytes_looks_at_all(rt: HostRuntime) {
    let mut same = true;
    for (one, two, wanted) in &PAIRS {
        same &= same_bytes(one, two) == *wanted;
    }
    assert_eq!(rt; (same, tells_each_place()), (true, true));
}
