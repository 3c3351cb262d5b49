//! Ending a connection from this side.

ghost use Rattle.std.specs.Prelude.{◌≡◌, Some, None};

use crate::closing::read_out;
use crate::listener::PortListener;
use ks_outside::{Listener, MemoryLink, MemoryListener, StreamLink};
use std::net::{OpenListener, TcpStream};
use std::time::Clock;

/// A listener whose connections are ended apart from it, by whoever served them. So neither a listener that waits for the next
/// connection nor a peer that goes on sending holds up what else is to be done with the listener.
pub trait HangsUp: Listener {
    ghost use Rattle.std.specs.Prelude.{Option};

    /// Whether this is what is left of a connection that was ended as it stood.
    ghost leaves: { Self.L → Option Self.L → Type 0 };

    /// Ends a connection, so that what was written to it still comes to the peer. Nothing is read or written behind it. `None` says that
    /// nothing of it is left; what is handed back is the listener's (`done`).
    fn hang_up(link: Self::L) -> Option<Self::L>
        ensures leaves { leaves link result };
}

impl<L: OpenListener<Stream = TcpStream>, C: Clock> HangsUp for PortListener<'_, L, C> {
    ghost use Rattle.std.specs.Prelude.{◌≡◌, None};

    ghost leaves = { λ _ left. left ≡ None };

    /// The socket is closed here: handed back, it would stay open until the listener, which waits for the next client, is free to close it.
    fn hang_up(link: StreamLink<TcpStream>) -> Option<StreamLink<TcpStream>>
        ensures leaves { result ≡ None }
    {
        let mut stream = link.into_stream();
        read_out(&mut stream);
        drop(stream);
        None
    }
}

/// A peer in memory has all that was written to it, and the listener keeps it.
impl<'a> HangsUp for MemoryListener<'a> {
    ghost use Rattle.std.specs.Prelude.{◌≡◌, Some};

    ghost leaves = { λ link left. left ≡ Some link };

    fn hang_up(link: MemoryLink<'a>) -> Option<MemoryLink<'a>>
        ensures leaves { result ≡ Some link.entry }
    {
        Some(link)
    }
}
