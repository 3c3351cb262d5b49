//! The trace of a service's book.

use crate::service::{FORMATTED, Links, end_of};
use crate::sessions::SESSION;
use book_traces::{BookFault, write_book};
use keystore_server::ServeEnd;
use ks_outside::{MemorySink, OpenGate};
use service_book::Book;
use std::alloc::Global;
use std::sync::Wait;
use std::thread::Threads;

/// The entries of two connections that one worker serves: of each a connect, a count of the client's keys, and the disconnect.
static LINES: [&str; 6] = [
    r#"{"drawn":"","event":{"do":"connect","t":[0,1000],"uid":10001},"reply":{"client":1,"code":0}}"#,
    r#"{"drawn":"","event":{"c":1,"do":"getNumberOfEntries","domain":0,"nspace":0,"t":[0,1000]},"reply":{"code":0,"count":0}}"#,
    r#"{"drawn":"","event":{"c":1,"do":"disconnect","t":[0,1000]},"reply":{"code":0}}"#,
    r#"{"drawn":"","event":{"do":"connect","t":[0,1000],"uid":10001},"reply":{"client":2,"code":0}}"#,
    r#"{"drawn":"","event":{"c":2,"do":"getNumberOfEntries","domain":0,"nspace":0,"t":[0,1000]},"reply":{"code":0,"count":0}}"#,
    r#"{"drawn":"","event":{"c":2,"do":"disconnect","t":[0,1000]},"reply":{"code":0}}"#,
];

/// Which writes of the sink fail, counted from 1, how the writing ends, and how many lines are written.
type Row = (&'static [u64], Result<(), BookFault>, usize);

static ROWS: [Row; 3] = [
    (&[], Ok(()), 6),
    (&[1], Err(BookFault::Write), 0),
    (&[5], Err(BookFault::Write), 4),
];

/// The book of the service.
fn book_of<R: Threads + Wait + Sync>(rt: &R, alloc: Global) -> Option<Book> {
    let texts: [&[u8]; 2] = [&SESSION, &SESSION];
    let sent = Links {
        texts: &texts,
        cut: &[],
        failing: &[],
    };
    let end = end_of(rt, alloc, "serve 0 2 1 --trace", FORMATTED, sent, &OpenGate)?;
    let ServeEnd {
        status: _,
        listener,
        disk,
        entropy,
        book,
    } = end;
    drop(listener);
    drop(disk);
    drop(entropy);
    book
}

/// Whether a text is the first lines, each with its LF.
fn is_front(text: &[u8], lines: usize) -> bool {
    let mut rest = text;
    let mut same = true;
    for line in LINES.iter().take(lines) {
        let (front, back) = rest.split_at(rest.len().min(line.len().saturating_add(1)));
        same &= front.strip_suffix(b"\n") == Some(line.as_bytes());
        rest = back;
    }
    same && rest.is_empty()
}

/// Whether the book is written so.
fn is_written_so(alloc: Global, book: &Book, row: Row) -> bool {
    let Ok(mut sink) = MemorySink::with_room(alloc, 1024, 8, row.0) else {
        return false;
    };
    let end = write_book(alloc, book, &mut sink);
    let right = end == row.1 && is_front(sink.written(), row.2);
    drop(sink);
    right
}

#[test]
fn a_trace_has_all_entries_of_a_book(rt: HostRuntime) {
    let book = book_of(&rt, rt.alloc());
    assert!(&rt; book.is_some());
    if let Some(book) = book {
        for row in &ROWS {
            assert!(&rt; is_written_so(rt.alloc(), &book, *row));
        }
        drop(book);
    }
}
