//! How long a connection is waited for.

use std::io;
use std::net::TcpStream;
use std::time::Duration;

/// How long a call of a connection waits, in milliseconds, before it fails: a read to which no byte comes, and a write of which no byte is
/// taken. With a time of 0 no connection can be taken.
#[derive(Clone, Copy, Debug, PartialEq, Eq)]
pub struct Patience {
    pub read: u64,
    pub write: u64,
}

impl Patience {
    /// Gives a stream both times.
    pub(crate) fn set_on(self, stream: &TcpStream) -> io::Result<()> {
        stream.set_read_timeout(Some(Duration::from_millis(self.read)))?;
        stream.set_write_timeout(Some(Duration::from_millis(self.write)))
    }
}
