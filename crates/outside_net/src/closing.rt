//! The end of a connection.

use std::io::Read;
use std::net::{Shutdown, TcpStream};
use std::time::Duration;

/// How often is read at most before a connection is closed.
const READS: usize = 64;

/// How many bytes are read at once.
const PIECE: usize = 16384;

/// How long a read waits, in milliseconds.
const PATIENCE: u64 = 500;

/// Makes a connection ready to be closed, so that what was written still comes to the peer. A socket that is closed with bytes unread takes
/// back what is on its way. So the writing side is shut down first; then what the peer still sends is read and thrown away, until its end,
/// or a failure, or 64 pieces of at most 16,384 bytes, for each of which is waited half a second at most. Then the socket is to be closed:
/// a peer that still sends learns by that alone that nobody reads.
pub(crate) fn read_out(stream: &mut TcpStream) {
    if stream.shutdown(Shutdown::Write).is_err() {
        return;
    }
    if stream
        .set_read_timeout(Some(Duration::from_millis(PATIENCE)))
        .is_err()
    {
        return;
    }
    let mut thrown = [0; PIECE];
    for _ in 0..READS {
        match stream.read(&mut thrown) {
            Ok(count) if count > 0 => {}
            _ => return,
        }
    }
}
