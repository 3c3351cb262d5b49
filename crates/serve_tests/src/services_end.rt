//! How services end.

use crate::service::{FORMATTED, Held, Links, Outcome, Told, outcome_of};
use crate::sessions::CONNECT;
use keystore_server::ServeStatus;
use ks_outside::OpenGate;
use std::alloc::Global;
use std::sync::Wait;
use std::thread::Threads;

/// A service of two links that each send a connect.
#[derive(Clone, Copy)]
struct Row {
    words: &'static str,
    disk: Held,
    /// which calls of the listener fail, counted from 1
    failing: &'static [u64],
    status: ServeStatus,
    /// how many links were given and answered; each has two entries
    served: usize,
    /// whether there was a service at all
    has_book: bool,
}

/// A disk that holds nothing, and one whose first call fails, that of an opening.
const EMPTY: Held = Held {
    pieces: &[],
    failing: &[],
};

const FAILING: Held = Held {
    pieces: &[],
    failing: &[1],
};

/// A service that was not there.
const REFUSED: Row = Row {
    words: "run",
    disk: FORMATTED,
    failing: &[],
    status: ServeStatus::Usage,
    served: 0,
    has_book: false,
};

/// A service that served both.
const SERVED: Row = Row {
    words: "serve 0 2 2",
    disk: FORMATTED,
    failing: &[],
    status: ServeStatus::Ok,
    served: 2,
    has_book: true,
};

static ROWS: [Row; 11] = [
    SERVED,
    Row {
        words: "serve 65535 65536 1",
        ..SERVED
    },
    Row {
        words: "serve 0 1 2",
        served: 1,
        ..SERVED
    },
    Row {
        words: "serve 0 3 1",
        failing: &[2],
        status: ServeStatus::ListenFault,
        served: 1,
        ..SERVED
    },
    Row {
        words: "serve 0 2 1",
        failing: &[1],
        status: ServeStatus::ListenFault,
        served: 0,
        ..SERVED
    },
    REFUSED,
    Row {
        words: "serve 65536 1 1",
        ..REFUSED
    },
    Row {
        words: "serve 0 0 1",
        ..REFUSED
    },
    Row {
        words: "serve 0 1 65",
        ..REFUSED
    },
    Row {
        words: "serve 0 1 1",
        disk: EMPTY,
        status: ServeStatus::Corrupted { offset: 0 },
        ..REFUSED
    },
    Row {
        words: "serve 0 1 1",
        disk: FAILING,
        status: ServeStatus::DiskFault,
        ..REFUSED
    },
];

/// The last byte of the reply to a connect: the client's number.
static CLIENTS: [&[u8]; 2] = [&[1], &[2]];

/// What comes of the row's service.
fn outcome_of_row<R: Threads + Wait + Sync>(rt: &R, alloc: Global, row: Row) -> Option<Outcome> {
    let texts: [&[u8]; 2] = [&CONNECT, &CONNECT];
    let sent = Links {
        texts: &texts,
        cut: &[],
        failing: row.failing,
    };
    let told = Told {
        front: 18,
        texts: &CLIENTS,
    };
    outcome_of(rt, alloc, row.words, row.disk, sent, &OpenGate, told)
}

/// What is wanted of it.
fn wanted_of(row: Row) -> Outcome {
    let entries = row.served.saturating_mul(2);
    Outcome {
        status: row.status,
        given: row.served as u64,
        told: row.served,
        entries: if row.has_book { Some(entries) } else { None },
        gone: row.served,
    }
}

#[test]
fn each_service_ends_as_it_should(rt: HostRuntime) {
    for row in &ROWS {
        let found = outcome_of_row(&rt, rt.alloc(), *row);
        assert!(&rt; found == Some(wanted_of(*row)));
    }
}
