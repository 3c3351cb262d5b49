//! A service over connections and a store in memory.

use disk_model::{DiskRoom, MemoryDisk};
use keystore_server::{ServeEnd, ServeStatus, serve_words};
use ks_outside::{Disk, FixedClock, Gate, MemoryLink, MemoryListener, Reading, SteadyEntropy};
use rule_model::Entry;
use service_book::{Book, BookEntry};
use std::alloc::Global;
use std::sync::Wait;
use std::thread::Threads;
use tags::{DeviceSecrets, Policy};

/// What a disk of a test has room for.
const ROOM: DiskRoom = DiskRoom {
    calls: 64,
    bytes: 16_384,
    pages: 8,
};

/// How many bytes a link has room for, in so many writes.
const WRITTEN: usize = 256;

const WRITES: usize = 16;

/// The reading of each call.
pub(crate) const NOW: Reading = Reading {
    boot: 0,
    wall: 1000,
};

/// What a disk holds, each piece at its place, which takes its first calls, and which of its calls fail, counted from 1.
#[derive(Clone, Copy)]
pub(crate) struct Held {
    pub(crate) pieces: &'static [(u64, &'static [u8])],
    pub(crate) failing: &'static [u64],
}

/// An empty store: its front, its selector, and the byte that closes area A.
pub(crate) const FORMATTED: Held = Held {
    pieces: &[(0, b"KSJRNL02"), (268_435_456, b"A"), (268_439_552, b"\0")],
    failing: &[],
};

/// What each link sends, which calls of each fail, and which of the listener, counted from 1.
#[derive(Clone, Copy)]
pub(crate) struct Links<'a> {
    pub(crate) texts: &'a [&'a [u8]],
    pub(crate) cut: &'a [u64],
    pub(crate) failing: &'a [u64],
}

/// What links wrote: so many bytes, and behind them one of these texts.
#[derive(Clone, Copy)]
pub(crate) struct Told<'a> {
    pub(crate) front: usize,
    pub(crate) texts: &'a [&'a [u8]],
}

/// What came of a service.
#[derive(Clone, Copy, PartialEq)]
pub(crate) struct Outcome {
    pub(crate) status: ServeStatus,
    /// how many links the listener gave
    pub(crate) given: u64,
    /// how many of them wrote what was wanted
    pub(crate) told: usize,
    /// how many entries the book has at what the clocks said, where there is one
    pub(crate) entries: Option<usize>,
    /// how many of them are the disconnect of a client
    pub(crate) gone: usize,
}

/// A disk in memory. A write for which memory is wanting shows in what comes of the disk.
pub(crate) fn disk_of(alloc: Global, held: Held) -> Option<MemoryDisk<'static>> {
    let mut disk = MemoryDisk::with_room(alloc, ROOM, held.failing).ok()?;
    for (at, piece) in held.pieces {
        let _ = disk.write_at(*at, *piece);
    }
    Some(disk)
}

/// A link that gives these bytes; its calls with these numbers fail.
pub(crate) fn link_of<'a>(
    alloc: Global,
    bytes: &'a [u8],
    failing: &'a [u64],
) -> Option<MemoryLink<'a>> {
    MemoryLink::with_room(alloc, bytes, WRITTEN, WRITES, failing).ok()
}

/// A listener of such links.
fn listener_of<'a>(alloc: Global, sent: Links<'a>) -> Option<MemoryListener<'a>> {
    let mut links = Vec::new(alloc);
    for text in sent.texts {
        links.push(link_of(alloc, *text, sent.cut)?).ok()?;
    }
    MemoryListener::with_links(alloc, links, sent.failing).ok()
}

/// The words of a text, but those for which memory is wanting, which shows in the status.
pub(crate) fn words_of(alloc: Global, text: &str) -> Vec<String> {
    let mut words = Vec::new(alloc);
    for word in text.split_whitespace() {
        if let Ok(word) = String::from_str(alloc, word) {
            let _ = words.push(word);
        }
    }
    words
}

/// Whether this is what was wanted.
fn is_told(written: &[u8], told: Told<'_>) -> bool {
    let rest = written.get(told.front..);
    let mut same = false;
    for text in told.texts {
        same |= rest == Some(*text);
    }
    same
}

/// How many links wrote what was wanted.
fn links_that_told(links: &[MemoryLink<'_>], told: Told<'_>) -> usize {
    let mut count = 0usize;
    for link in links {
        if is_told(link.written(), told) {
            count = count.saturating_add(1);
        }
    }
    count
}

/// Whether an entry is the disconnect of a client.
fn is_disconnect(entry: &BookEntry) -> bool {
    match &entry.entry {
        Entry::Acted { event, reply, .. } => event.act.is_disconnect() && reply.is_done(),
        Entry::Settling { .. } => false,
    }
}

/// Whether an entry is at what the clocks said, or at no reading.
fn is_timed(entry: &BookEntry) -> bool {
    match &entry.entry {
        Entry::Acted { event, .. } => event.reading == NOW,
        Entry::Settling { .. } => true,
    }
}

/// How many entries are at what the clocks said.
fn timed(entries: &[BookEntry]) -> usize {
    let mut count = 0usize;
    for entry in entries {
        if is_timed(entry) {
            count = count.saturating_add(1);
        }
    }
    count
}

/// How many entries are the disconnect of a client.
fn disconnects(entries: &[BookEntry]) -> usize {
    let mut count = 0usize;
    for entry in entries {
        if is_disconnect(entry) {
            count = count.saturating_add(1);
        }
    }
    count
}

/// How many entries a book has at what the clocks said, and how many are the disconnect of a client.
pub(crate) fn counts_of(book: &Option<Book>) -> (Option<usize>, usize) {
    match book {
        Some(book) => {
            let entries = book.entries();
            (Some(timed(entries)), disconnects(entries))
        }
        None => (None, 0),
    }
}

/// How a service of the words over such a disk and such links ends; `None` where memory is wanting before.
pub(crate) fn end_of<'a, R: Threads + Wait + Sync, G: Gate + Sync>(
    rt: &R,
    alloc: Global,
    words: &str,
    held: Held,
    sent: Links<'a>,
    gate: &G,
) -> Option<ServeEnd<MemoryListener<'a>, MemoryDisk<'static>, SteadyEntropy>> {
    let policy = Policy::demo(alloc).ok()?;
    let disk = disk_of(alloc, held)?;
    let Some(listener) = listener_of(alloc, sent) else {
        drop(disk);
        return None;
    };
    let words = words_of(alloc, words);
    let end = serve_words(
        rt,
        alloc,
        &words,
        &DeviceSecrets::demo(),
        &policy,
        listener,
        disk,
        SteadyEntropy::counting(),
        &FixedClock::at(NOW),
        gate,
    );
    drop(words);
    drop(policy);
    Some(end)
}

/// What comes of the words over such a disk and such links; `None` where memory is wanting before.
pub(crate) fn outcome_of<R: Threads + Wait + Sync, G: Gate + Sync>(
    rt: &R,
    alloc: Global,
    words: &str,
    held: Held,
    sent: Links<'_>,
    gate: &G,
    told: Told<'_>,
) -> Option<Outcome> {
    let end = end_of(rt, alloc, words, held, sent, gate)?;
    let (entries, gone) = counts_of(&end.book);
    let outcome = Outcome {
        status: end.status,
        given: end.listener.given(),
        told: links_that_told(end.listener.served(), told),
        entries,
        gone,
    };
    drop(end);
    Some(outcome)
}
