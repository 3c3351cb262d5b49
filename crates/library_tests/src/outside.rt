//! What sources, sinks and entropies answer to the calls of a table.

use crate::broken::Broken;
use ks_outside::{
    DeviceEntropy, Entropy, Failed, MemoryEntropy, MemorySink, MemorySource, ReaderSource,
    SeededEntropy, Sink, Source, SteadyEntropy, SteadySource, WriterSink, open_device,
    open_device_at,
};
use std::io;
use std::io::{Error, ErrorKind, Read, Write};
use std::test::Fail;

/// A reader that fails once, and then gives the byte 7 for each place of the buffer.
#[derive(Drop)]
struct FailsOnce {
    asked: u64,
}

impl Read for FailsOnce {
    fn read(&mut self, buf: &mut [u8]) -> io::Result<usize> {
        self.asked = self.asked.saturating_add(1);
        if self.asked == 1 {
            return Err(Error::from(ErrorKind::Other));
        }
        for byte in buf.iter_mut() {
            *byte = 7;
        }
        Ok(buf.len())
    }
}

/// A read or a draw of at most eight bytes, and the bytes that it gives; `None` where it fails.
type Fill = (usize, Option<&'static [u8]>);

/// Whether the front of the buffer has these bytes, and the rest is as it was.
fn begins_with(out: &[u8; 8], bytes: &[u8]) -> bool {
    let mut same = true;
    for (place, byte) in out.iter().enumerate() {
        same &= *byte == *bytes.get(place).unwrap_or(&9);
    }
    same && bytes.len() <= 8
}

/// Whether each read gives the bytes of its row, and leaves the rest of the buffer as it was.
fn reads<S: Source>(source: &mut S, rows: &[Fill]) -> bool {
    let mut right = true;
    for (room, wanted) in rows {
        let mut out = [9; 8];
        let end = (*room).min(8);
        right &= match (source.read(&mut out[..end]), *wanted) {
            (Ok(count), Some(bytes)) => count == bytes.len() && begins_with(&out, bytes),
            (Err(Failed), None) => begins_with(&out, b""),
            _ => false,
        };
    }
    right
}

static STEADY: [Fill; 3] = [(3, Some(b"abc")), (3, Some(b"de")), (3, Some(b""))];

static PLANNED: [Fill; 3] = [(3, None), (3, Some(b"abc")), (3, None)];

/// How many bytes a steady source leaves, and one that fails twice.
fn left_in_memory() -> (usize, usize, u64) {
    let mut steady = SteadySource::new(b"abcde");
    let mut failing = MemorySource::new(b"abcde", &[1, 3]);
    if reads(&mut steady, &STEADY) && reads(&mut failing, &PLANNED) {
        (steady.left().len(), failing.left().len(), failing.faults())
    } else {
        (5, 5, 0)
    }
}

#[test]
fn sources_in_memory(rt: HostRuntime) {
    assert_eq!(rt; left_in_memory(), (0, 2, 2));
}

static AT_END: [Fill; 1] = [(0, Some(b""))];

static CUT: [Fill; 3] = [(4, Some(b"abcd")), (4, Some(b"e")), (4, Some(b""))];

static FAILED: [Fill; 1] = [(4, None)];

static ONCE: [Fill; 2] = [(3, None), (3, Some(b"\x07\x07\x07"))];

/// Whether a source reads so, and how many of its calls fail then.
fn reads_over<R: Read + Drop>(reader: R, rows: &[Fill]) -> (bool, u64) {
    let mut source = ReaderSource::new(reader);
    let right = reads(&mut source, rows);
    let faults = source.faults();
    drop(source);
    (right, faults)
}

// Each read is one call of the reader, whatever the buffer's length, and a failed one is answered and counted.
#[test]
fn sources_over_readers(rt: HostRuntime) {
    let told = [
        reads_over(rt.stdin(), &AT_END),
        reads_over(b"abcde".as_slice(), &CUT),
        reads_over(Broken { fails: true }, &FAILED),
        reads_over(FailsOnce { asked: 0 }, &ONCE),
    ];
    assert_eq!(rt; told, [(true, 0), (true, 0), (true, 1), (true, 1)]);
}

/// A piece, and how many of its bytes are taken; `None` where the write fails.
type Put = (&'static [u8], Option<usize>);

/// Whether each write takes as much as its row says.
fn writes<K: Sink>(sink: &mut K, rows: &[Put]) -> bool {
    let mut right = true;
    for (piece, wanted) in rows {
        right &= sink.write(piece).ok() == *wanted;
    }
    right
}

static KEPT: [Put; 4] = [
    (b"abc", Some(3)),
    (b"xy", None),
    (b"", Some(0)),
    (b"de", Some(2)),
];

static NOTHING: [Put; 1] = [(b"", Some(0))];

static REFUSED: [Put; 2] = [(b"a", None), (b"", Some(0))];

/// Whether a sink in memory takes pieces so, and has what it took, and how many of its calls fail then.
fn writes_in_memory(mut sink: MemorySink) -> (bool, bool, u64) {
    let right = writes(&mut sink, &KEPT);
    let kept = sink.written() == b"abcde".as_slice() && sink.pieces() == [3, 0, 2].as_slice();
    let faults = sink.faults();
    drop(sink);
    (right, kept, faults)
}

/// Whether a sink writes so, and how many of its calls fail then.
fn writes_over<W: Write + Drop>(writer: W, rows: &[Put]) -> (bool, u64) {
    let mut sink = WriterSink::new(writer);
    let right = writes(&mut sink, rows);
    let faults = sink.faults();
    drop(sink);
    (right, faults)
}

#[test]
fn sinks_in_memory_and_over_writers(rt: HostRuntime) -> Result<(), Fail> {
    let memory = writes_in_memory(MemorySink::with_room(rt.alloc(), 5, 2, &[2])?);
    let told = [
        writes_over(rt.stdout(), &NOTHING),
        writes_over(Broken { fails: true }, &REFUSED[..1]),
        writes_over(Broken { fails: false }, &REFUSED),
    ];
    assert_eq!(rt; memory, (true, true, 1));
    assert_eq!(rt; told, [(true, 0), (true, 1), (true, 1)]);
    Ok(())
}

/// Whether each draw gives the bytes of its row, and how many failed in all.
fn draws<N: Entropy>(entropy: &mut N, rows: &[Fill]) -> (bool, u64) {
    let mut right = true;
    for (room, wanted) in rows {
        let mut out = [9; 8];
        let end = (*room).min(8);
        right &= match (entropy.draw(&mut out[..end]), *wanted) {
            (Ok(()), Some(bytes)) => end == bytes.len() && begins_with(&out, bytes),
            (Err(Failed), None) => true,
            _ => false,
        };
    }
    (right, entropy.faults())
}

static AROUND: [Fill; 2] = [(0, Some(b"")), (3, Some(b"\xff\x00\x01"))];

static COUNTED: [Fill; 1] = [(3, Some(b"\x00\x01\x02"))];

static COUNTED_BETWEEN: [Fill; 4] = [
    (3, None),
    (3, Some(b"\x00\x01\x02")),
    (3, None),
    (3, Some(b"\x03\x04\x05")),
];

/// The key stream of the zero key and nonce (RFC 8439, appendix A.1, the first vector), drawn with cuts inside words.
static KEY_STREAM: [Fill; 3] = [
    (3, Some(b"\x76\xb8\xe0")),
    (6, Some(b"\xad\xa0\xf1\x3d\x90\x40")),
    (3, Some(b"\x5d\x6a\xe5")),
];

/// Whether the counting bytes are drawn up to their end and from their start on again.
fn draws_around() -> (bool, u64) {
    let mut all = [0; 255];
    let mut steady = SteadyEntropy::counting();
    let drawn = steady.draw(&mut all);
    let counted = (drawn, all[0], all[1], all[254]) == (Ok(()), 0, 1, 254);
    let (right, faults) = draws(&mut steady, &AROUND);
    (counted && right, faults)
}

#[test]
fn entropies_in_memory(rt: HostRuntime) {
    let told = [
        draws_around(),
        draws(&mut MemoryEntropy::counting(), &COUNTED),
        draws(&mut MemoryEntropy::failing(&[1, 3]), &COUNTED_BETWEEN),
        draws(&mut SeededEntropy::new([0; 32]), &KEY_STREAM),
    ];
    assert_eq!(rt; told, [(true, 0), (true, 0), (true, 2), (true, 0)]);
}

static SHORT: [Fill; 2] = [(3, Some(b"abc")), (3, None)];

/// Whether two draws of 64 bytes differ, and neither is of zeros.
fn draws_twice<N: Entropy + Drop>(mut device: N) -> bool {
    let (mut first, mut second) = ([0; 64], [0; 64]);
    let drawn = (device.draw(&mut first), device.draw(&mut second));
    drop(device);
    drawn == (Ok(()), Ok(())) && first != second && first != [0; 64] && second != [0; 64]
}

/// The same of an entropy that is let go then.
fn draws_over<N: Entropy + Drop>(mut entropy: N, rows: &[Fill]) -> (bool, u64) {
    let told = draws(&mut entropy, rows);
    drop(entropy);
    told
}

#[test]
fn entropy_of_the_random_device(rt: HostRuntime) {
    let told = [
        draws_over(open_device(&rt), &AT_END),
        draws_over(open_device_at(&rt, "no_such_device"), &FAILED),
        draws_over(DeviceEntropy::new(b"abcde".as_slice()), &SHORT),
        draws_over(DeviceEntropy::new(Broken { fails: true }), &FAILED),
        draws_over(DeviceEntropy::new(FailsOnce { asked: 0 }), &ONCE),
    ];
    let twice = draws_twice(open_device(&rt));
    let faults = [(true, 0), (true, 1), (true, 1), (true, 1), (true, 1)];
    assert_eq!(rt; (told, twice), (faults, true));
}
