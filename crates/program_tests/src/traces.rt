//! Lines of a trace, read and written again.

use line_members::LineFault;
use std::alloc::Global;
use trace_lines::{entry_line, entry_of};

/// The history of one HMAC key from the client to the mac, a line of each act, of each field of a reply and of both ways in which a change
/// is settled; numbers at their ends, and aliases that are escaped, and no UTF-8.
static LINES: [&str; 34] = [
    r#"{"drawn":"","event":{"do":"connect","t":[0,1000],"uid":10001},"reply":{"client":1,"code":0}}"#,
    r#"{"drawn":"000102030405060708090a0b","event":{"c":1,"do":"importKey","format":3,"key":{"alias":"m","domain":0,"nspace":0},"material":"0b0b0b0b0b0b0b0b0b0b0b0b0b0b0b0b0b0b0b0b","params":"000620000001000000022000000100000003100000020000008020000005000000043000000800000040700001f701","t":[0,1000]},"reply":{"code":0,"key":1}}"#,
    r#"{"drawn":"","event":{"c":1,"do":"createOperation","forced":false,"key":{"alias":"m","domain":0,"nspace":0},"params":"00022000000100000002300003eb00000100","t":[0,1000]},"reply":{"code":0,"op":1}}"#,
    r#"{"drawn":"","event":{"c":1,"do":"finish","input":"4869205468657265","op":1,"t":[0,1000]},"reply":{"code":0,"ticket":1}}"#,
    r#"{"drawn":"","event":{"do":"leave","t":[0,1000],"ticket":1},"reply":{"code":0,"out":"b0344c61d8db38535ca8afceaf0bf12b881dc200c9833da726e9376c2e32cff7"}}"#,
    r#"{"settled":"kept"}"#,
    r#"{"settled":"lost"}"#,
    r#"{"drawn":"","event":{"do":"connect","t":[5,1000],"uid":4294967295},"reply":{"code":20,"rule":"A2"}}"#,
    r#"{"drawn":"","event":{"c":18446744073709551615,"do":"disconnect","t":[5,1000]},"reply":{"code":0}}"#,
    r#"{"drawn":"00ff","event":{"c":18446744073709551615,"do":"generateKey","key":{"alias":"é\"\\\n","domain":0,"nspace":0},"params":"","t":[5,1000]},"reply":{"code":0,"key":2,"list":"0000"}}"#,
    r#"{"drawn":"","event":{"c":18446744073709551615,"do":"importKey","format":4294967295,"key":{"alias":{"hex":"ff"},"blob":"","domain":4294967295,"nspace":18446744073709551615},"material":"","params":"0000","t":[5,1000]},"reply":{"code":-41}}"#,
    r#"{"drawn":"4a5a","event":{"c":18446744073709551615,"do":"createOperation","forced":true,"key":{"blob":"4b53","domain":3,"nspace":0},"params":"0000","t":[5,1000]},"reply":{"challenge":868365761009226259,"code":0,"nonce":"4a5a","op":2,"pruned":1}}"#,
    r#"{"drawn":"","event":{"c":18446744073709551615,"do":"updateAad","input":"","op":1,"t":[5,1000]},"reply":{"code":0,"ticket":2}}"#,
    r#"{"drawn":"","event":{"c":18446744073709551615,"do":"update","input":"aabb","op":18446744073709551615,"t":[5,1000]},"reply":{"code":-28,"rule":"S1"}}"#,
    r#"{"drawn":"","event":{"c":18446744073709551615,"do":"finish","input":"","op":3,"signature":"00ff","t":[5,1000]},"reply":{"code":21,"rule":"L0"}}"#,
    r#"{"drawn":"","event":{"c":18446744073709551615,"do":"finish","input":"","op":3,"signature":"","t":[5,1000]},"reply":{"code":1005}}"#,
    r#"{"drawn":"","event":{"c":18446744073709551615,"do":"abort","op":4,"t":[5,1000]},"reply":{"code":0}}"#,
    r#"{"drawn":"","event":{"c":18446744073709551615,"do":"getKeyEntry","key":{"domain":4,"nspace":1},"t":[5,1000]},"reply":{"alias":"m","code":0,"domain":0,"key":1,"list":"0000","nspace":10001,"uses":4294967295}}"#,
    r#"{"drawn":"","event":{"c":18446744073709551615,"do":"deleteKey","key":{"alias":"","domain":0,"nspace":0},"t":[5,1000]},"reply":{"code":7,"rule":"A255"}}"#,
    r#"{"drawn":"","event":{"bits":4294967295,"c":18446744073709551615,"do":"grant","key":{"alias":"é\"\\\n","domain":0,"nspace":0},"t":[5,1000],"uid":10002},"reply":{"code":0,"grant":1}}"#,
    r#"{"drawn":"","event":{"c":18446744073709551615,"do":"ungrant","key":{"alias":"😀😀😀😀😀😀😀😀😀😀😀😀😀😀😀😀😀😀😀😀😀😀😀😀😀😀😀😀😀😀😀😀😀😀😀😀😀😀😀😀😀😀😀😀😀😀😀😀😀😀😀😀😀😀😀😀😀😀😀😀😀😀😀😀","domain":0,"nspace":0},"t":[5,1000],"uid":10002},"reply":{"code":0}}"#,
    r#"{"drawn":"","event":{"c":18446744073709551615,"do":"getNumberOfEntries","domain":0,"nspace":0,"t":[5,1000]},"reply":{"code":0,"count":3}}"#,
    r#"{"drawn":"","event":{"c":18446744073709551615,"do":"listEntriesBatched","domain":0,"nspace":0,"t":[5,1000]},"reply":{"code":0,"entries":[]}}"#,
    r#"{"drawn":"","event":{"c":18446744073709551615,"do":"listEntriesBatched","domain":0,"nspace":0,"past":"m","t":[5,1000]},"reply":{"code":0,"entries":[["a\"",1],["é",18446744073709551615]]}}"#,
    r#"{"drawn":"","event":{"c":18446744073709551615,"do":"listEntriesBatched","domain":0,"nspace":0,"past":{"hex":"c328"},"t":[5,1000]},"reply":{"code":6,"rule":"A1"}}"#,
    r#"{"drawn":"","event":{"authenticator":3,"c":18446744073709551615,"challenge":1,"do":"addAuthToken","kind":4294967295,"mac":"00000000000000000000000000000000000000000000000000000000000000ff","t":[5,1000],"time":18446744073709551615,"user":2},"reply":{"code":0}}"#,
    r#"{"drawn":"","event":{"c":18446744073709551615,"do":"deviceLocked","t":[5,1000],"user":0},"reply":{"code":0}}"#,
    r#"{"drawn":"","event":{"c":18446744073709551615,"do":"deviceUnlocked","t":[5,1000],"user":42949},"reply":{"code":0}}"#,
    r#"{"drawn":"","event":{"c":18446744073709551615,"do":"earlyBootEnded","t":[5,1000]},"reply":{"code":-73,"rule":"K13"}}"#,
    r#"{"drawn":"","event":{"c":18446744073709551615,"do":"clearNamespace","domain":2,"nspace":100,"t":[5,1000]},"reply":{"code":0}}"#,
    r#"{"drawn":"","event":{"c":18446744073709551615,"do":"userRemoved","t":[5,1000],"user":10},"reply":{"code":4}}"#,
    r#"{"drawn":"","event":{"do":"leave","t":[5,1000],"ticket":9},"reply":{"blob":"4b534231","code":0,"out":""}}"#,
    r#"{"drawn":"","event":{"do":"restart","t":[5,1000]},"reply":{"code":0}}"#,
    r#"{"drawn":"","event":{"do":"restart","root":"ffffffffffffffffffffffffffffffffffffffffffffffffffffffffffffffff","t":[5,1000]},"reply":{"code":8,"rule":"B11"}}"#,
];

/// Lines that are no line of a trace: a space, an upper-case digit, members in another order or one more, pairs of params, a member left out
/// that is written, a member that has none, codes and rules that no table has, fields beside a code, no bytes.
static OTHERS: [&str; 26] = [
    r#"{"drawn": "","event":{"do":"connect","t":[0,1000],"uid":10001},"reply":{"client":1,"code":0}}"#,
    r#"{"drawn":"000102030405060708090A0B","event":{"c":1,"do":"importKey","format":3,"key":{"alias":"m","domain":0,"nspace":0},"material":"0b0b0b0b0b0b0b0b0b0b0b0b0b0b0b0b0b0b0b0b","params":"000620000001000000022000000100000003100000020000008020000005000000043000000800000040700001f701","t":[0,1000]},"reply":{"code":0,"key":1}}"#,
    r#"{"event":{"do":"connect","t":[0,1000],"uid":10001},"drawn":"","reply":{"client":1,"code":0}}"#,
    r#"{"drawn":"","event":{"do":"connect","t":[0,1000],"uid":10001},"reply":{"client":1,"code":0},"x":1}"#,
    r#"{"drawn":"","event":{"c":1,"do":"createOperation","forced":false,"key":{"alias":"m","domain":0,"nspace":0},"params":[["PURPOSE",2],["MAC_LENGTH",256]],"t":[0,1000]},"reply":{"code":0,"op":1}}"#,
    r#"{"drawn":"000102030405060708090a0b","event":{"c":1,"do":"importKey","format":3,"key":{"alias":"m","domain":0},"material":"0b0b0b0b0b0b0b0b0b0b0b0b0b0b0b0b0b0b0b0b","params":"000620000001000000022000000100000003100000020000008020000005000000043000000800000040700001f701","t":[0,1000]},"reply":{"code":0,"key":1}}"#,
    r#"{"drawn":"","event":{"c":1,"do":"finish","op":1,"t":[0,1000]},"reply":{"code":0,"ticket":1}}"#,
    r#"{"drawn":"","event":{"c":1,"do":"createOperation","forced":false,"key":{"alias":"m","blob":null,"domain":0,"nspace":0},"params":"00022000000100000002300003eb00000100","t":[0,1000]},"reply":{"code":0,"op":1}}"#,
    r#"{"drawn":"","event":{"c":0,"do":"restart","t":[0,1000]},"reply":{"code":0}}"#,
    r#"{"drawn":"","event":{"do":"connect","t":[0,1000],"uid":010001},"reply":{"client":1,"code":0}}"#,
    r#"{"drawn":"","event":{"do":"connect","t":[0,1000],"uid":10001},"reply":{"code":5}}"#,
    r#"{"drawn":"","event":{"do":"connect","t":[0,1000],"uid":10001},"reply":{"code":0,"rule":"A1"}}"#,
    r#"{"drawn":"","event":{"do":"connect","t":[0,1000],"uid":10001},"reply":{"client":1,"code":4}}"#,
    r#"{"drawn":"","event":{"do":"connect","t":[0,1000],"uid":10001},"reply":{"code":20,"rule":"A02"}}"#,
    r#"{"drawn":"","event":{"do":"connect","t":[0,1000],"uid":10001},"reply":{"code":20,"rule":"A256"}}"#,
    r#"{"drawn":"","event":{"do":"connect","t":[0,1000],"uid":10001},"reply":{"code":20,"rule":"C1"}}"#,
    r#"{"drawn":"","event":{"do":"connect","t":[0,1000],"uid":10001},"reply":{"code":20,"rule":"A 1"}}"#,
    r#"{"drawn":"","event":{"do":"connect","t":[0,1000],"uid":10001},"reply":{"code":20,"rule":"A"}}"#,
    r#"{"drawn":"0","event":{"do":"connect","t":[0,1000],"uid":10001},"reply":{"client":1,"code":0}}"#,
    r#""#,
    r#"{}"#,
    r#"{"settled":"held"}"#,
    r#"{"drawn":"","settled":"kept"}"#,
    r#"{"drawn":"000102030405060708090a0b","event":{"c":1,"do":"importKey","format":3,"key":{"alias":{"hex":"6d"},"domain":0,"nspace":0},"material":"0b0b0b0b0b0b0b0b0b0b0b0b0b0b0b0b0b0b0b0b","params":"000620000001000000022000000100000003100000020000008020000005000000043000000800000040700001f701","t":[0,1000]},"reply":{"code":0,"key":1}}"#,
    r#"{"drawn":"","event":{"c":1,"do":"finish","hold":true,"input":"4869205468657265","op":1,"t":[0,1000]},"reply":{"code":0,"ticket":1}}"#,
    "{\"settled\":\"kept\"}\n",
];

/// What a byte is changed to; the last change takes it away.
static CHANGES: [&str; 6] = ["0", "f", "\"", "}", " ", ""];

/// Of each line of `LINES` how many of its changes of one byte are lines of a trace, and the sum of their numbers, six a byte from 0, as
/// `tools/ks make trace_changes` tells them.
static READ_CHANGES: [(u64, u64); 34] = [
    (40, 11_886),
    (379, 400_395),
    (131, 94_038),
    (73, 26_655),
    (162, 99_450),
    (5, 335),
    (5, 335),
    (53, 17_434),
    (68, 18_178),
    (126, 62_860),
    (186, 129_304),
    (167, 121_192),
    (78, 25_214),
    (127, 54_174),
    (93, 35_563),
    (81, 27_223),
    (71, 19_466),
    (135, 86_940),
    (89, 35_972),
    (133, 64_672),
    (91, 90_111),
    (78, 27_125),
    (76, 25_996),
    (136, 84_929),
    (92, 39_507),
    (271, 233_490),
    (71, 20_324),
    (79, 25_137),
    (76, 24_020),
    (77, 25_534),
    (73, 21_288),
    (54, 19_950),
    (27, 6_206),
    (165, 78_788),
];

fn is_line_with_lf(text: &[u8], line: &str) -> bool {
    match text.split_last() {
        Some((last, front)) => *last == b'\n' && front == line.as_bytes(),
        None => false,
    }
}

/// Whether a line, without its LF, is read as an entry of which it is the line.
fn is_written_again(alloc: Global, line: &str) -> bool {
    let Ok(entry) = entry_of(alloc, line.as_bytes()) else {
        return false;
    };
    let again = entry_line(alloc, &entry);
    drop(entry);
    match again {
        Ok(again) => is_line_with_lf(again.as_slice(), line),
        Err(_) => false,
    }
}

fn is_no_line(alloc: Global, line: &str) -> bool {
    let read = entry_of(alloc, line.as_bytes());
    let malformed = matches!(&read, Err(LineFault::Malformed));
    drop(read);
    malformed
}

/// A line with the byte at a place changed. Where memory is wanting it is cut.
fn changed(alloc: Global, line: &[u8], place: usize, change: &[u8]) -> Vec<u8> {
    let mut text = Vec::new(alloc);
    let _ = text.extend_from_slice(line.get(..place).unwrap_or(&[]));
    let _ = text.extend_from_slice(change);
    let _ = text.extend_from_slice(line.get(place.saturating_add(1)..).unwrap_or(&[]));
    text
}

fn is_read(alloc: Global, line: &[u8]) -> bool {
    let read = entry_of(alloc, line);
    let is_entry = read.is_ok();
    drop(read);
    is_entry
}

/// How many changes of one byte of a line are read, and the sum of their numbers.
fn read_changes(alloc: Global, line: &[u8]) -> (u64, u64) {
    let mut number = 0u64;
    let mut count = 0u64;
    let mut sum = 0u64;
    for place in 0..line.len() {
        for change in &CHANGES {
            let text = changed(alloc, line, place, change.as_bytes());
            if is_read(alloc, text.as_slice()) {
                count = count.saturating_add(1);
                sum = sum.saturating_add(number);
            }
            drop(text);
            number = number.saturating_add(1);
        }
    }
    (count, sum)
}

/// The first line of which other changes are read.
fn first_other(alloc: Global) -> Option<&'static str> {
    let mut first = None;
    for (line, wanted) in LINES.iter().zip(&READ_CHANGES) {
        if first.is_none() && read_changes(alloc, line.as_bytes()) != *wanted {
            first = Some(*line);
        }
    }
    first
}

/// The first line that is not written as it was read.
fn first_changed(alloc: Global) -> Option<&'static str> {
    let mut first = None;
    for line in &LINES {
        if first.is_none() && !is_written_again(alloc, line) {
            first = Some(*line);
        }
    }
    first
}

/// The first line that is read, and is no line of a trace.
fn first_read(alloc: Global) -> Option<&'static str> {
    let mut first = None;
    for line in &OTHERS {
        if first.is_none() && !is_no_line(alloc, line) {
            first = Some(*line);
        }
    }
    first
}

#[test]
fn each_line_of_a_trace_is_written_again(rt: HostRuntime) {
    let changed = first_changed(rt.alloc());
    assert_eq!(rt; changed, None);
}

#[test]
fn no_other_line_is_read(rt: HostRuntime) {
    let read = first_read(rt.alloc());
    assert_eq!(rt; read, None);
}

#[test]
fn changes_of_one_byte_are_read_as_the_second_model_reads_them(rt: HostRuntime) {
    let other = first_other(rt.alloc());
    assert_eq!(rt; other, None);
}
