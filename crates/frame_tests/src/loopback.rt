//! A client over loopback.

use ks_outside::{Link, Listener, StreamLink};
use outside_net::{HangsUp, Patience, PortListener, listen};
use std::io::{Read, Write};
use std::net::{Ipv4Addr, TcpListener, TcpStream};
use std::test::Fail;

/// Longer than a test waits.
const PATIENCE: Patience = Patience {
    read: 60_000,
    write: 60_000,
};

/// A listener on a port of this machine.
type Port<'a> = PortListener<'a, TcpListener, HostRuntime>;

/// Reads until the buffer is full or the input ends, and says how many bytes came; `None` where a read failed.
fn all_of<R: Read>(stream: &mut R, out: &mut [u8]) -> Option<usize> {
    let mut count = 0;
    for _ in 0..64 {
        match stream.read(&mut out[count..]) {
            Ok(0) => return Some(count),
            Ok(more) => count += more,
            Err(_) => return None,
        }
    }
    None
}

/// Whether a link reads `hello`, and takes `world`.
fn greets(link: &mut StreamLink<TcpStream>) -> bool {
    let mut heard = [0; 5];
    let calls = (link.read(&mut heard), link.write(b"world"));
    calls == (Ok(5), Ok(5)) && &heard == b"hello"
}

/// The next connection of a listener greets, and is hung up with bytes of the client unread.
fn greets_next(listener: &mut Port<'_>, client: &mut TcpStream) -> bool {
    let Ok(Some(mut link)) = listener.next() else {
        return false;
    };
    let greeted = greets(&mut link);
    let sent = client.write_all(&[7; 40000]).is_ok();
    let closed = Port::hang_up(link).is_none();
    greeted && sent && closed
}

/// Whether a client is greeted, and hears `world` and then the end.
fn is_greeted(listener: &mut Port<'_>, mut client: TcpStream) -> bool {
    let sent = client.write_all(b"hello").is_ok();
    let greeted = greets_next(listener, &mut client);
    let mut answer = [0; 16];
    let heard = all_of(&mut client, &mut answer);
    sent && greeted && heard == Some(5) && &answer[..5] == b"world".as_slice()
}

// What the client sent that was never read does not take back what was written to it.
#[test]
fn a_connection_over_loopback(rt: HostRuntime) -> Result<(), Fail> {
    let mut listener = listen(&rt, 0, PATIENCE);
    let port = listener.port().unwrap_or(0);
    let client = TcpStream::connect(&rt, (Ipv4Addr::LOCALHOST, port))?;
    let greeted = is_greeted(&mut listener, client);
    let faults = listener.faults();
    drop(listener);
    assert_eq!(rt; (greeted, faults), (true, 0));
    Ok(())
}

/// Whether the next connection of a listener is at its end, and sends each piece at once.
fn ends_next(listener: &mut Port<'_>) -> bool {
    let Ok(Some(mut link)) = listener.next() else {
        return false;
    };
    let end = link.read(&mut [0; 8]);
    let stream = link.into_stream();
    end == Ok(0) && stream.nodelay().ok() == Some(true)
}

/// Whether a listener has no port, and its call fails.
fn has_no_port(mut listener: Port<'_>) -> bool {
    let port = listener.port();
    let failed = listener.next().is_err();
    port.is_none() && failed && listener.faults() == 1
}

// A client that goes is the end of the input, and a port that another has cannot be had.
#[test]
fn the_ends_over_loopback(rt: HostRuntime) -> Result<(), Fail> {
    let mut listener = listen(&rt, 0, PATIENCE);
    let port = listener.port().unwrap_or(0);
    let taken = has_no_port(listen(&rt, port, PATIENCE));
    drop(TcpStream::connect(&rt, (Ipv4Addr::LOCALHOST, port))?);
    let ended = ends_next(&mut listener);
    drop(listener);
    assert_eq!(rt; (taken, ended), (true, true));
    Ok(())
}
