//! Sessions of one connection.

use connections::End;

/// A connect with uid 10001.
pub(crate) const CONNECT: [u8; 9] = [0, 0, 0, 5, 1, 0, 0, 0x27, 0x11];

/// The connect, sent twice.
const TWICE: [u8; 18] = [
    0, 0, 0, 5, 1, 0, 0, 0x27, 0x11, 0, 0, 0, 5, 1, 0, 0, 0x27, 0x11,
];

/// The connect, and a count of the client's keys.
pub(crate) const SESSION: [u8; 26] = [
    0, 0, 0, 5, 1, 0, 0, 0x27, 0x11, 0, 0, 0, 13, 14, 0, 0, 0, 0, 0, 0, 0, 0, 0, 0, 0, 0,
];

/// The replies to it: client 1, and no key.
static REPLIES: [u8; 38] = [
    0, 0, 0, 15, 0, 0, 0, 0, 0, 0, 1, 0, 0, 0, 0, 0, 0, 0, 1, 0, 0, 0, 15, 0, 0, 0, 0, 0, 0, 8, 0,
    0, 0, 0, 0, 0, 0, 0,
];

/// A connection, and what comes of it.
#[derive(Clone, Copy)]
pub(crate) struct Row {
    pub(crate) sent: &'static [u8],
    /// which calls of the link fail, counted from 1
    pub(crate) failing: &'static [u64],
    pub(crate) end: End,
    /// how many bytes of the replies were written
    pub(crate) written: usize,
    /// how many entries the book has, and how many of them are the disconnect of a client
    pub(crate) entries: usize,
    pub(crate) gone: usize,
}

/// A connect alone, without its last byte, a frame of no body, a link that fails at once, and a second connect; then a session over a link
/// that fails at each of its calls: a read, a write of each reply, and the read at the end.
pub(crate) static ROWS: [Row; 10] = [
    Row {
        sent: &CONNECT,
        failing: &[],
        end: End::EndOfInput,
        written: 19,
        entries: 2,
        gone: 1,
    },
    Row {
        sent: &[0, 0, 0, 5, 1, 0, 0, 0x27],
        failing: &[],
        end: End::Truncated,
        written: 0,
        entries: 0,
        gone: 0,
    },
    Row {
        sent: &[0; 4],
        failing: &[],
        end: End::BadFrame { offset: 0 },
        written: 0,
        entries: 0,
        gone: 0,
    },
    Row {
        sent: &CONNECT,
        failing: &[1],
        end: End::LinkFault,
        written: 0,
        entries: 0,
        gone: 0,
    },
    Row {
        sent: &TWICE,
        failing: &[],
        end: End::BadFrame { offset: 9 },
        written: 19,
        entries: 2,
        gone: 1,
    },
    Row {
        sent: &SESSION,
        failing: &[],
        end: End::EndOfInput,
        written: 38,
        entries: 3,
        gone: 1,
    },
    Row {
        sent: &SESSION,
        failing: &[1],
        end: End::LinkFault,
        written: 0,
        entries: 0,
        gone: 0,
    },
    Row {
        sent: &SESSION,
        failing: &[2],
        end: End::LinkFault,
        written: 0,
        entries: 2,
        gone: 1,
    },
    Row {
        sent: &SESSION,
        failing: &[3],
        end: End::LinkFault,
        written: 19,
        entries: 3,
        gone: 1,
    },
    Row {
        sent: &SESSION,
        failing: &[4],
        end: End::LinkFault,
        written: 38,
        entries: 3,
        gone: 1,
    },
];

/// The first bytes of the replies to the session.
pub(crate) fn replies(count: usize) -> &'static [u8] {
    REPLIES.get(..count).unwrap_or(&[])
}

/// How a session ends of which so many bytes came, and how many bytes of replies it wrote.
pub(crate) fn cut_end(cut: usize) -> (End, usize) {
    match cut {
        0 => (End::EndOfInput, 0),
        1..9 => (End::Truncated, 0),
        9 => (End::EndOfInput, 19),
        10..26 => (End::Truncated, 19),
        _ => (End::EndOfInput, 38),
    }
}
