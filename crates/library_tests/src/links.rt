//! What links, listeners, clocks and a gate answer to the calls of a table.

use crate::broken::Broken;
use ks_outside::{
    Clock, Failed, FixedClock, Gate, Link, Listener, MachineClock, MemoryLink, MemoryListener,
    OpenGate, Reading, StreamLink,
};
use std::alloc::{AllocError, Global};
use std::io::{Error, ErrorKind};
use std::test::Fail;
use std::time::Duration;
use std::{io, time};

/// A call of a link: a read of at most eight bytes with the bytes that it gives, or a write with how many it takes; `None` where it fails.
enum Call {
    Read(usize, Option<&'static [u8]>),
    Write(&'static [u8], Option<usize>),
}

/// Whether a link answers so.
fn answers<L: Link>(link: &mut L, call: &Call) -> bool {
    match call {
        Call::Read(room, wanted) => {
            let mut out = [9; 8];
            let end = (*room).min(8);
            match (link.read(&mut out[..end]), *wanted) {
                (Ok(count), Some(bytes)) => {
                    count == bytes.len() && count <= 8 && &out[..count] == bytes
                }
                (Err(Failed), None) => out == [9; 8],
                _ => false,
            }
        }
        Call::Write(piece, wanted) => link.write(piece).ok() == *wanted,
    }
}

fn answers_all<L: Link>(link: &mut L, calls: &[Call]) -> bool {
    let mut right = true;
    for call in calls {
        right &= answers(link, call);
    }
    right
}

/// Reads and writes are counted together, and a call moves its own direction alone: the calls 2 and 5 fail.
static PLANNED: [Call; 6] = [
    Call::Read(3, Some(b"abc")),
    Call::Write(b"xy", None),
    Call::Write(b"xyz", Some(3)),
    Call::Read(3, Some(b"de")),
    Call::Read(3, None),
    Call::Read(3, Some(b"")),
];

/// Whether a link in memory answers so, and has taken and given what it told, and how many of its calls failed.
fn answers_in_memory(mut link: MemoryLink) -> (bool, bool, u64) {
    let right = answers_all(&mut link, &PLANNED);
    let moved = (link.left(), link.written()) == (b"".as_slice(), b"xyz".as_slice());
    let pieces = link.pieces() == [3].as_slice();
    let faults = link.faults();
    drop(link);
    (right, moved && pieces, faults)
}

#[test]
fn links_in_memory(rt: HostRuntime) -> Result<(), Fail> {
    let told = answers_in_memory(MemoryLink::with_room(rt.alloc(), b"abcde", 3, 1, &[2, 5])?);
    assert_eq!(rt; told, (true, true, 2));
    Ok(())
}

static FAILING: [Call; 2] = [Call::Read(3, None), Call::Write(b"a", None)];

static FULL: [Call; 2] = [Call::Write(b"a", None), Call::Write(b"", Some(0))];

/// Whether a link answers so, and how many of its calls fail then.
fn answers_over(stream: Broken, calls: &[Call]) -> (bool, u64) {
    let mut link = StreamLink::new(stream);
    let right = answers_all(&mut link, calls);
    let faults = link.faults();
    drop(link);
    (right, faults)
}

#[test]
fn links_over_streams(rt: HostRuntime) {
    let told = [
        answers_over(Broken { fails: true }, &FAILING),
        answers_over(Broken { fails: false }, &FULL),
    ];
    assert_eq!(rt; told, [(true, 2), (true, 1)]);
}

/// Two links with one byte each.
fn two(alloc: Global) -> Result<Vec<MemoryLink<'static>>, AllocError> {
    let mut links = Vec::with_capacity(alloc, 2)?;
    links.push(MemoryLink::with_room(alloc, b"a", 0, 0, &[])?)?;
    links.push(MemoryLink::with_room(alloc, b"b", 0, 0, &[])?)?;
    Ok(links)
}

/// The bytes left of the next link, which is handed back; `None` where no more come, or the call fails.
fn next_left<'a>(listener: &mut MemoryListener<'a>) -> Option<&'a [u8]> {
    let link = listener.next().ok()??;
    let left = link.left();
    listener.done(link);
    Some(left)
}

/// How many calls of a listener failed, how many links it gave, and how often it told the end.
fn counts(listener: &MemoryListener) -> (u64, u64, u64) {
    (listener.faults(), listener.given(), listener.ended())
}

/// Whether a listener of two links whose second call fails gives them so; and its counts behind that call and at the end.
fn gives_two(mut listener: MemoryListener) -> (bool, [(u64, u64, u64); 2], usize) {
    let first = (next_left(&mut listener), next_left(&mut listener));
    let before = counts(&listener);
    let second = (next_left(&mut listener), next_left(&mut listener));
    let end = next_left(&mut listener);
    let given = first == (Some(b"a".as_slice()), None)
        && second == (Some(b"b".as_slice()), None)
        && end.is_none();
    let (after, served) = (counts(&listener), listener.served().len());
    drop(listener);
    (given, [before, after], served)
}

// The links come in order and are kept; a call that fails takes none, and the end is told each time.
#[test]
fn a_listener_in_memory(rt: HostRuntime) -> Result<(), Fail> {
    let links = two(rt.alloc())?;
    let told = gives_two(MemoryListener::with_links(rt.alloc(), links, &[2])?);
    assert_eq!(rt; told, (true, [(1, 1, 0), (1, 2, 2)], 2));
    Ok(())
}

/// Clocks with these times in milliseconds; the wall's may be one that cannot be read.
#[derive(Drop)]
struct Stub {
    boot: u64,
    wall: Option<u64>,
}

impl time::Clock for Stub {
    fn monotonic(&self) -> io::Result<Duration> {
        Ok(Duration::from_millis(self.boot))
    }

    fn since_1970(&self) -> io::Result<Duration> {
        match self.wall {
            Some(wall) => Ok(Duration::from_millis(wall)),
            None => Err(Error::from(ErrorKind::Other)),
        }
    }
}

// The machine's clocks are read in milliseconds, its wall clock is past the year 2020, and its other clock does not go back.
#[test]
fn clocks(rt: HostRuntime) {
    let reading = Reading { boot: 3, wall: 5 };
    let unread = Reading { boot: 3, wall: 0 };
    let told = [
        FixedClock::at(reading).now(),
        stub_reading(Some(5)),
        stub_reading(None),
    ];
    assert_eq!(rt; told, [reading, reading, unread]);
    let machine = MachineClock::new(&rt);
    let (first, second) = (machine.now(), machine.now());
    assert!(rt; first.wall > 1_577_836_800_000 && first.boot <= second.boot);
    OpenGate.between(1);
}

/// What is read of a stub.
fn stub_reading(wall: Option<u64>) -> Reading {
    MachineClock::new(&Stub { boot: 3, wall }).now()
}
