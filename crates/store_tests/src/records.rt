ghost use Rattle.journal_records.specs.Worked.{WorkedAreas, WorkedExamples};

use journal_records::{
    AREA_KINDS, RecordFault, frame, frame_into, frame_record_into, framed_length, parse,
    read_record, record_length,
};
use std::alloc::Global;
use std::test::Fail;

/// A record of each kind of change, as `tools/ks make stores --records` spells it. The last one stands in areas alone.
static RECORDS: [&[u8]; 8] = [
    b"\x4b\x00\x00\x00\x36\x01\xd1\xfb\xaf\x7f\x72\x8d\x2e\xae\xae\x16\xdf\x9d\x6a\xc7\x6b\xd3\x22\
\x00\x00\x00\x06\x11\x74\x2b\x44\x58\xc8\x00\x00\x00\x08\x43\xaf\xd8\x48\xed\xb6\xf8\xdd\
\x00\x00\x00\x06\x61\x59\xbd\xae\x4d\x92\x2a\x5a\x9f\xa2",
    b"\x4b\x00\x00\x00\x09\x02\xf1\x23\x6f\x67\x3e\x07\x8c\x15",
    b"\x4b\x00\x00\x00\x09\x03\xa2\x81\x34\x81\x15\xa1\x2b\xd7",
    b"\x4b\x00\x00\x00\x19\x04\x96\x38\x2c\x28\x41\xa3\x0a\x71\x2e\x72\x5c\x42\x6b\x79\x3e\
\xba\x1b\x1c\x31\x98\x8d\xbf\x98\xaa",
    b"\x4b\x00\x00\x00\x09\x05\x00\x12\xf5\x6e\xcd\x0f\x27\x48",
    b"\x4b\x00\x00\x00\x0a\x06\x7d\xd1\xf1\xe9\x40\x7b\x98\x80\x8c",
    b"\x4b\x00\x00\x00\x05\x07\xe2\xfe\x43\xf5",
    b"\x4b\x00\x00\x00\x15\x0b\xfd\x5d\x46\xc8\x76\x2b\xa7\x51\x00\x00\x00\x00\x00\x00\x00\x04\x75\x86\xa3\xc4",
];

/// Bytes that are no record: cut, of no kind, with a body that is too long or too short for its fields, with a shut
/// gate, with more behind.
static NO_RECORDS: [&[u8]; 9] = [
    b"",
    b"\x4b",
    b"\x4b\x00\x00\x00\x00",
    b"\x4b\x00\x00\x00\x01\x00",
    b"\x4b\x00\x00\x00\x05\x08\x00\x00\x00\x00",
    b"\x4b\x00\x00\x00\x06\x07\x00\x00\x00\x00\x00",
    b"\x4b\x00\x00\x00\x04\x07\x00\x00\x00",
    b"\x00\x00\x00\x00\x05\x07\x00\x00\x00\x00",
    b"\x4b\x00\x00\x00\x05\x07\x00\x00\x00\x00\x00",
];

/// Whether the record is read, and written so again with a byte 00 behind it and nothing more.
pub(crate) fn is_read_and_written(alloc: Global, record: &[u8]) -> bool {
    let Ok(change) = parse(alloc, record) else {
        return false;
    };
    let mut out = [9; 80];
    if framed_length(&change) > out.len() {
        return false;
    }
    let end = frame_into(&change, &mut out);
    let Ok(framed) = frame(alloc, &change) else {
        return false;
    };
    framed.as_slice() == record
        && out.starts_with(record)
        && out.get(end - 1) == Some(&0)
        && out.get(end) == Some(&9)
        && end == record.len() + 1
}

/// Whether the bytes are no record.
fn is_no_record(alloc: Global, bytes: &[u8]) -> bool {
    matches!(parse(alloc, bytes), Err(RecordFault::Bad))
}

#[test]
fn records_of_each_kind(rt: HostRuntime) {
    let mut read = true;
    for record in &RECORDS {
        read &= is_read_and_written(rt.alloc(), record);
        read &= is_no_record(rt.alloc(), &record[..record.len() - 1]);
    }
    let mut bad = true;
    for bytes in &NO_RECORDS {
        bad &= is_no_record(rt.alloc(), bytes);
    }
    assert_eq!(rt; (read, bad), (true, true));
}

/// The new key of `RECORDS` in words.
const NEW_KEY: &str =
    "Create { id: 15130880334998875822, domain: 174, nspace: 1648209070578717474, alias: Bytes { bytes: [17, 116, 43, 68, 88, 200] }, blob: Bytes { bytes: [67, 175, 216, 72, 237, 182, 248, 221] }, list: Bytes { bytes: [97, 89, 189, 174, 77, 146] }, limit: 710582178 }";

/// A record's change in words.
fn words_of(alloc: Global, record: &[u8]) -> Option<String> {
    let change = parse(alloc, record).ok()?;
    format!(in alloc; "{change:?}").ok()
}

#[test]
fn the_fields_of_a_new_key(rt: HostRuntime) -> Result<(), Fail> {
    let words = words_of(rt.alloc(), RECORDS[0]).ok_or("a change")?;
    assert_eq!(rt; words.as_str(), NEW_KEY);
    Ok(())
}

/// A row of each kind: the next numbers 5 and 4; key 2 of uid 10001, m, with one use left of two; grant 3 of it to uid 10002.
static ROWS: [&[u8]; 3] = [
    b"\x4b\x00\x00\x00\x11\x08\x00\x00\x00\x00\x00\x00\x00\x05\x00\x00\x00\x00\x00\x00\x00\x04",
    b"\x4b\x00\x00\x00\x2a\x09\x00\x00\x00\x00\x00\x00\x00\x02\x00\x00\x00\x00\x00\x00\x00\x27\x11\
\x00\x00\x00\x01m\x00\x00\x00\x01\xaa\x00\x00\x00\x02\x00\x00\x00\x00\x00\x02\x00\x00\x00\x01",
    b"\x4b\x00\x00\x00\x19\x0a\x00\x00\x00\x00\x00\x00\x00\x03\x00\x00\x00\x00\x00\x00\x00\x02\
\x00\x00\x27\x12\x00\x00\x01\x00",
];

/// Whether the row is read where the kinds of an area may stand, and written so again with a byte 00 behind it and nothing more.
fn is_row(alloc: Global, row: &[u8]) -> bool {
    let Ok((it, rest)) = read_record(alloc, AREA_KINDS, row.get(1..).unwrap_or(&[])) else {
        return false;
    };
    let whole = rest.is_empty();
    let mut out = [9; 80];
    if record_length(&it) > out.len() {
        return false;
    }
    let end = frame_record_into(&it, &mut out);
    drop(it);
    whole
        && out.starts_with(row)
        && out.get(end - 1) == Some(&0)
        && out.get(end) == Some(&9)
        && end == row.len() + 1
}

/// Whether it is no record of a journal.
fn is_of_areas(alloc: Global, record: &[u8]) -> bool {
    matches!(
        read_record(alloc, 7, record.get(1..).unwrap_or(&[])),
        Err(RecordFault::Bad)
    )
}

#[test]
fn rows_of_each_kind(rt: HostRuntime) {
    let mut read = true;
    for row in &ROWS {
        read &= is_row(rt.alloc(), row);
        read &= is_no_record(rt.alloc(), row);
        read &= is_of_areas(rt.alloc(), row);
    }
    read &= is_of_areas(rt.alloc(), RECORDS[7]);
    assert!(rt; read);
}

/// What a few changes leave of the lasting part, by its definitions.
fn worked_examples()
    ensures { WorkedExamples }
{}

/// What a few records of an area leave, by their definitions.
fn worked_areas()
    ensures { WorkedAreas }
{}

// The examples are proved; the calls are here so that they are.
#[test]
fn what_a_few_changes_leave() {
    worked_examples();
    worked_areas();
}
