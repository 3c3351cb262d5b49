//! What the book of a service has of a connection.

use crate::service::{FORMATTED, Links, Outcome, Told, outcome_of};
use crate::sessions::{ROWS, Row, replies};
use keystore_server::ServeStatus;
use ks_outside::OpenGate;
use std::alloc::Global;
use std::sync::Wait;
use std::thread::Threads;

/// What comes of a service of the row's connection alone.
fn outcome_of_row<R: Threads + Wait + Sync>(rt: &R, alloc: Global, row: Row) -> Option<Outcome> {
    let texts = [row.sent];
    let wanted = [replies(row.written)];
    let sent = Links {
        texts: &texts,
        cut: row.failing,
        failing: &[],
    };
    let told = Told {
        front: 0,
        texts: &wanted,
    };
    outcome_of(rt, alloc, "serve 0 1 1", FORMATTED, sent, &OpenGate, told)
}

// Whatever the end is, a client that has come is disconnected.
#[test]
fn a_client_that_came_is_disconnected(rt: HostRuntime) {
    for row in &ROWS {
        let wanted = Outcome {
            status: ServeStatus::Ok,
            given: 1,
            told: 1,
            entries: Some(row.entries),
            gone: row.gone,
        };
        let found = outcome_of_row(&rt, rt.alloc(), *row);
        assert!(&rt; found == Some(wanted));
    }
}
