//! Clients that keep a listener's patience, and clients that do not.

use ks_outside::{Link, Listener, StreamLink};
use outside_net::{Patience, listen};
use std::io::Write;
use std::net::{Ipv4Addr, TcpStream};
use std::thread;
use std::time::{Duration, Instant};

/// How long a connection is waited for.
const PATIENCE: Patience = Patience {
    read: 300,
    write: 200,
};

/// How often a client sends a byte, 100 milliseconds apart: longer than the patience in all.
const TIMES: usize = 6;

/// More bytes than a connection holds that nobody reads, in pieces.
const PIECES: usize = 4096;

const PIECE: usize = 16384;

/// A connection, and its client.
fn connected(rt: &HostRuntime) -> Option<(StreamLink<TcpStream>, TcpStream)> {
    let mut listener = listen(rt, 0, PATIENCE);
    let port = listener.port()?;
    let client = TcpStream::connect(rt, (Ipv4Addr::LOCALHOST, port)).ok()?;
    match listener.next() {
        Ok(Some(link)) => Some((link, client)),
        _ => None,
    }
}

/// Whether the next read of a connection fails, not much before its time, and is counted.
fn is_given_up(rt: &HostRuntime, link: &mut StreamLink<TcpStream>) -> bool {
    let Ok(start) = Instant::now(rt) else {
        return false;
    };
    let failed = link.read(&mut [0; 8]).is_err();
    let Ok(waited) = start.elapsed(rt) else {
        return false;
    };
    failed && waited >= Duration::from_millis(250) && link.faults() == 1
}

/// Whether a client that sent this and nothing more is given up.
fn is_given_up_behind(rt: &HostRuntime, sent: &[u8]) -> bool {
    let Some((mut link, mut client)) = connected(rt) else {
        return false;
    };
    let sends = client.write_all(sent).is_ok();
    let comes = sent.is_empty() || link.read(&mut [0; 8]) == Ok(sent.len());
    let given_up = is_given_up(rt, &mut link);
    drop(client);
    sends && comes && given_up
}

// One that has sent nothing, and one that has sent a part of a frame.
#[test]
fn a_silent_client_is_given_up(rt: HostRuntime) {
    let at_an_edge = is_given_up_behind(&rt, b"");
    let within_a_frame = is_given_up_behind(&rt, b"\0\0\0");
    assert!(&rt; at_an_edge && within_a_frame);
}

/// Whether a connection comes to a write that fails, and counts it.
fn is_full(link: &mut StreamLink<TcpStream>) -> bool {
    let piece = [7; PIECE];
    for _ in 0..PIECES {
        if link.write(&piece).is_err() {
            return link.faults() == 1;
        }
    }
    false
}

#[test]
fn a_client_that_never_reads_is_given_up(rt: HostRuntime) {
    let mut full = false;
    if let Some((mut link, client)) = connected(&rt) {
        full = is_full(&mut link);
        drop(client);
    }
    assert!(&rt; full);
}

/// Whether a byte of the client comes; a pause follows.
fn comes_in_time(
    rt: &HostRuntime,
    link: &mut StreamLink<TcpStream>,
    client: &mut TcpStream,
) -> bool {
    let sends = client.write_all(b"x").is_ok();
    let comes = link.read(&mut [0; 8]) == Ok(1);
    thread::sleep(rt, Duration::from_millis(100));
    sends && comes
}

#[test]
fn a_client_that_sends_in_time_is_never_given_up(rt: HostRuntime) {
    let mut times = 0usize;
    if let Some((mut link, mut client)) = connected(&rt) {
        for _ in 0..TIMES {
            if comes_in_time(&rt, &mut link, &mut client) {
                times = times.saturating_add(1);
            }
        }
        drop(client);
        drop(link);
    }
    assert!(&rt; times == TIMES);
}
