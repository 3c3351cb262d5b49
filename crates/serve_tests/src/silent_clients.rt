//! Clients of a port that have come and are silent, and one that waits behind them.

use crate::service::{FORMATTED, NOW, counts_of, disk_of, words_of};
use crate::sessions::{CONNECT, SESSION, replies};
use keystore_server::{ServeStatus, serve_words};
use ks_outside::{FixedClock, OpenGate, SteadyEntropy};
use outside_net::{Patience, PortListener, listen};
use std::io::{Read, Write};
use std::net::{Ipv4Addr, Shutdown, TcpListener, TcpStream};
use std::sync::Wait;
use std::thread::Threads;
use tags::{DeviceSecrets, Policy};

/// How long a connection is waited for.
const PATIENCE: Patience = Patience {
    read: 1_000,
    write: 1_000,
};

/// Where the client's number ends in the reply to its connect.
const CLIENT: usize = 18;

/// How a service ended, how many entries its book has at what the clocks said, and how many of them are the disconnect of a client.
type Outcome = (ServeStatus, Option<usize>, usize);

/// A client of a port that has sent these bytes.
fn client_of(rt: &HostRuntime, port: u16, sent: &[u8]) -> Option<TcpStream> {
    let mut client = TcpStream::connect(rt, (Ipv4Addr::LOCALHOST, port)).ok()?;
    client.write_all(sent).ok()?;
    Some(client)
}

/// What comes of three connections, one behind the other.
fn outcome_of<R: Threads + Wait + Sync>(
    threads: &R,
    rt: &HostRuntime,
    listener: PortListener<'_, TcpListener, HostRuntime>,
) -> Option<Outcome> {
    let policy = Policy::demo(rt.alloc()).ok()?;
    let disk = disk_of(rt.alloc(), FORMATTED)?;
    let words = words_of(rt.alloc(), "serve 0 3 1");
    let end = serve_words(
        threads,
        rt.alloc(),
        &words,
        &DeviceSecrets::demo(),
        &policy,
        listener,
        disk,
        SteadyEntropy::counting(),
        &FixedClock::at(NOW),
        &OpenGate,
    );
    let (entries, gone) = counts_of(&end.book);
    Some((end.status, entries, gone))
}

/// Whether a client hears the replies to the session, as the third client, and then the end.
fn is_answered(mut client: TcpStream) -> bool {
    let mut heard = [0; 64];
    let Ok(count) = client.read(&mut heard) else {
        return false;
    };
    let Ok(more) = client.read(&mut heard[count..]) else {
        return false;
    };
    let number = heard[CLIENT];
    heard[CLIENT] = 1;
    number == 3 && heard.get(..count.saturating_add(more)) == Some(replies(38))
}

/// What comes of a client that is silent behind its connect, one that is silent within a frame, and one that asks behind them, by one worker;
/// and whether the last is answered.
fn outcome_behind<R: Threads + Wait + Sync>(
    threads: &R,
    rt: &HostRuntime,
) -> Option<(Outcome, bool)> {
    let listener = listen(rt, 0, PATIENCE);
    let port = listener.port()?;
    let at_an_edge = client_of(rt, port, &CONNECT)?;
    let within_a_frame = client_of(rt, port, SESSION.get(..12)?)?;
    let asks = client_of(rt, port, &SESSION)?;
    asks.shutdown(Shutdown::Write).ok()?;
    let outcome = outcome_of(threads, rt, listener)?;
    drop(at_an_edge);
    drop(within_a_frame);
    Some((outcome, is_answered(asks)))
}

// Each silent client is disconnected.
#[test]
fn a_client_behind_silent_ones_is_answered(rt: HostRuntime) {
    let wanted = ((ServeStatus::Ok, Some(7), 3), true);
    let found = outcome_behind(&rt, &rt);
    assert!(&rt; found == Some(wanted));
}
