//! What threads that call at once come to, row by row.

ghost use Rattle.std.specs.Prelude.{◌<◌};

use service_load::{Board, Counts, LoadCall, LoadPlan, MACS, USES, run};
use std::alloc::Global;
use std::io;
use std::sync::Wait;
use std::thread::Threads;

/// One thread fills the book, whose last places are those of a call that is too many and of the disconnect.
static FILLS: LoadPlan = LoadPlan {
    first: &[LoadCall::Connect],
    others: &[],
    round: &[LoadCall::Count],
    last: &[LoadCall::Count, LoadCall::Disconnect],
    holds: false,
};

/// One thread's update is held until a call of another was answered. A service that did the work of a cipher, or called the gate,
/// under its lock would never answer that call.
static HOLDS: LoadPlan = LoadPlan {
    first: &[
        LoadCall::Connect,
        LoadCall::Import,
        LoadCall::Begin,
        LoadCall::Update,
    ],
    others: &[LoadCall::Connect],
    round: &[],
    last: &[],
    holds: true,
};

/// Which calls are made, and in how many rounds.
#[derive(Clone, Copy)]
pub struct Row {
    name: &'static str,
    plan: &'static LoadPlan,
    rounds: u32,
}

/// Two threads make a mac each.
pub fn pair() -> Row {
    Row {
        name: "a mac by each of two threads",
        plan: &MACS,
        rounds: 1,
    }
}

/// One thread is held, and another is not.
pub fn held() -> Row {
    Row {
        name: "a held call beside another thread's",
        plan: &HOLDS,
        rounds: 0,
    }
}

/// Eight threads use a limited key.
pub fn limited() -> Row {
    Row {
        name: "eight threads and a key of five uses",
        plan: &USES,
        rounds: 3,
    }
}

/// One thread fills the book.
pub fn full() -> Row {
    Row {
        name: "a full book",
        plan: &FILLS,
        rounds: 1_048_573,
    }
}

/// What the calls of a row came to: the sum of the tickets with which the gate was called, and how many entries the book has.
#[derive(Clone, Copy)]
pub struct RowOutcome {
    counts: Counts,
    tickets: u64,
    entries: usize,
}

/// Makes the calls of a row.
pub fn run_row<R: Threads + Wait + Sync>(
    rt: &R,
    alloc: Global,
    row: Row,
    threads: u32,
) -> RowOutcome
    requires some { 0 < threads }
{
    let board = Board::new(row.plan, row.rounds);
    let entries = match run(rt, alloc, &board, threads) {
        Some(book) => book.entries().len(),
        None => 0,
    };
    RowOutcome {
        counts: board.counts(),
        tickets: board.tickets(),
        entries,
    }
}

/// Says what the calls of a row came to.
pub fn show(rt: &HostRuntime, row: Row, outcome: RowOutcome) -> io::Result<()> {
    let RowOutcome {
        counts,
        tickets,
        entries,
    } = outcome;
    println!(rt;
        "{}: {} calls served, {} right, {} uses refused, {} full, {} missed",
        row.name,
        counts.served(),
        counts.right,
        counts.refused(),
        counts.full,
        counts.missed
    )?;
    println!(rt; "  tickets that add up to {tickets}, {entries} entries")
}
