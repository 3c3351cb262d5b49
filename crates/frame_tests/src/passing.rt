//! A listener of the system whose calls fail, and a clock that counts how long is slept.

use ks_outside::Listener;
use outside_net::{Patience, PortListener};
use std::io;
use std::net::{Ipv4Addr, OpenListener, SocketAddr, TcpListener, TcpStream};
use std::sync::atomic::{AtomicU64, Ordering};
use std::test::Fail;
use std::time::{Clock, Duration};

/// A listener whose first calls fail with a number of the system.
#[derive(Drop)]
struct FailingListener<'a> {
    listener: &'a TcpListener,
    code: i32,
    failing: u64,
    calls: &'a AtomicU64,
}

impl OpenListener for FailingListener<'_> {
    type Stream = TcpStream;

    fn accept(&self) -> io::Result<(TcpStream, SocketAddr)> {
        if self.calls.fetch_add(1, Ordering::SeqCst) < self.failing {
            return Err(io::Error::from_raw_os_error(self.code));
        }
        self.listener.accept()
    }
}

/// A clock that does not sleep, and counts the milliseconds that it was to sleep.
#[derive(Drop)]
struct CountingClock<'a> {
    slept: &'a AtomicU64,
}

impl Clock for CountingClock<'_> {
    fn monotonic(&self) -> io::Result<Duration> {
        Ok(Duration::ZERO)
    }

    fn since_1970(&self) -> io::Result<Duration> {
        Ok(Duration::ZERO)
    }

    fn sleep(&self, duration: Duration) {
        let milliseconds = u64::try_from(duration.as_millis()).unwrap_or(u64::MAX);
        self.slept.fetch_add(milliseconds, Ordering::SeqCst);
    }
}

/// What comes of a call of a listener.
#[derive(Clone, Copy, PartialEq)]
struct Outcome {
    /// how many connections were taken, and how many calls failed
    taken: u64,
    faults: u64,
    /// how many calls were made of the system, and for how many milliseconds was slept between them
    calls: u64,
    slept: u64,
}

/// How many calls of the system fail with which number of it, and what comes of it.
#[derive(Clone, Copy)]
struct Row {
    code: i32,
    failing: u64,
    outcome: Outcome,
}

/// A connection that was taken behind so many calls.
const TAKEN: Outcome = Outcome {
    taken: 1,
    faults: 0,
    calls: 0,
    slept: 0,
};

/// A call that failed.
const FAILED: Outcome = Outcome {
    taken: 0,
    faults: 1,
    ..TAKEN
};

/// A connection that the client took back, a signal, and systems that are out of memory, of descriptors in either way and of buffers, each
/// for a moment; one that stays out of descriptors; and failures that do not pass, a call that is not allowed and a listener that is shut.
static ROWS: [Row; 9] = [
    Row {
        code: 103,
        failing: 1,
        outcome: Outcome {
            calls: 2,
            slept: 50,
            ..TAKEN
        },
    },
    Row {
        code: 4,
        failing: 2,
        outcome: Outcome {
            calls: 3,
            slept: 150,
            ..TAKEN
        },
    },
    Row {
        code: 12,
        failing: 3,
        outcome: Outcome {
            calls: 4,
            slept: 350,
            ..TAKEN
        },
    },
    Row {
        code: 23,
        failing: 5,
        outcome: Outcome {
            calls: 6,
            slept: 1550,
            ..TAKEN
        },
    },
    Row {
        code: 24,
        failing: 7,
        outcome: Outcome {
            calls: 8,
            slept: 3550,
            ..TAKEN
        },
    },
    Row {
        code: 105,
        failing: 1,
        outcome: Outcome {
            calls: 2,
            slept: 50,
            ..TAKEN
        },
    },
    Row {
        code: 24,
        failing: 1000,
        outcome: Outcome {
            calls: 65,
            slept: 60000,
            ..FAILED
        },
    },
    Row {
        code: 1,
        failing: 1,
        outcome: Outcome {
            calls: 1,
            slept: 0,
            ..FAILED
        },
    },
    Row {
        code: 22,
        failing: 1,
        outcome: Outcome {
            calls: 1,
            slept: 0,
            ..FAILED
        },
    },
];

/// What comes of the row's calls over this listener.
fn outcome_of(listener: &TcpListener, row: Row) -> Outcome {
    let calls = AtomicU64::new(0);
    let slept = AtomicU64::new(0);
    let failing = FailingListener {
        listener,
        code: row.code,
        failing: row.failing,
        calls: &calls,
    };
    let clock = CountingClock { slept: &slept };
    let patience = Patience { read: 1, write: 1 };
    let mut port = PortListener::over(Some(failing), None, &clock, patience);
    let taken = u64::from(port.next().is_ok());
    let faults = port.faults();
    drop(port);
    Outcome {
        taken,
        faults,
        calls: calls.load(Ordering::SeqCst),
        slept: slept.load(Ordering::SeqCst),
    }
}

// A client has connected to each.
#[test]
fn a_failure_that_passes_is_waited_for(rt: HostRuntime) -> Result<(), Fail> {
    let listener = TcpListener::bind(&rt, (Ipv4Addr::LOCALHOST, 0))?;
    let port = listener.local_addr()?.port();
    for row in &ROWS {
        let client = TcpStream::connect(&rt, (Ipv4Addr::LOCALHOST, port))?;
        let outcome = outcome_of(&listener, *row);
        drop(client);
        assert!(&rt; outcome == row.outcome);
    }
    Ok(())
}
