//! Each read of a script and each write of its replies fails alone.

use crate::images::asked_on;
use crate::script::{FRESH, Outside, ROOM};
use crate::scripts::FIRST_MAC;
use crate::sealing::usual_app;
use disk_model::MemoryDisk;
use keystore_run::Status;
use std::alloc::Global;

/// What fails of a run: a read of its script, or a write of its replies.
#[derive(Clone, Copy, Debug)]
enum Stream {
    Source,
    Sink,
}

/// Scripts, by name.
#[derive(Clone, Copy, Debug)]
enum Script {
    FirstMac,
    UsualApp,
}

/// Scripts, with what fails under them.
static FAILING: [(Script, Stream); 4] = [
    (Script::FirstMac, Stream::Source),
    (Script::FirstMac, Stream::Sink),
    (Script::UsualApp, Stream::Source),
    (Script::UsualApp, Stream::Sink),
];

/// The lines of a script.
fn lines_of(alloc: Global, script: Script) -> Option<String> {
    match script {
        Script::FirstMac => String::from_str(alloc, FIRST_MAC).ok(),
        Script::UsualApp => usual_app(alloc),
    }
}

/// A run of a script in which such calls of a stream fail.
fn outside_of<'a>(script: &'a str, stream: Stream, failing: &'a [u64]) -> Outside<'a> {
    let (reads, writes): (&[u64], &[u64]) = match stream {
        Stream::Source => (failing, &[]),
        Stream::Sink => (&[], failing),
    };
    Outside {
        script,
        reads,
        writes,
        ..FRESH
    }
}

/// How a run over an empty disk ended, what it wrote, and what lasts then.
#[derive(Drop)]
struct Told {
    status: Status,
    text: String,
    /// how many reads and writes failed
    faults: u64,
    lasts: String,
}

fn told_by(alloc: Global, outside: Outside) -> Option<Told> {
    let mut disk = MemoryDisk::with_room(alloc, ROOM, &[]).ok()?;
    let ended = match outside.run(alloc, &mut disk) {
        Some(ended) => {
            let text = String::from_str(alloc, ended.text()).ok();
            let (status, faults) = (ended.status, ended.faults);
            drop(ended);
            Some((status, text, faults))
        }
        None => None,
    };
    let lasts = asked_on(alloc, &mut disk);
    drop(disk);
    let (status, text, faults) = ended?;
    Some(Told {
        status,
        text: text?,
        faults,
        lasts: lasts?,
    })
}

/// How many lines a text has, each with its LF.
fn lines_in(text: &str) -> usize {
    let mut count: usize = 0;
    for byte in text.as_bytes() {
        if *byte == b'\n' {
            count = count.saturating_add(1);
        }
    }
    count
}

/// So many lines of a script.
fn front_of(script: &str, lines: usize) -> &str {
    let mut rest = script;
    for _ in 0..lines {
        (_, rest) = rest.split_once('\n').unwrap_or(("", ""));
    }
    script.strip_suffix(rest).unwrap_or(script)
}

/// Which status a run has where a call of a stream fails, and how many lines were served where so many were answered.
fn end_of(stream: Stream, answered: usize) -> (Status, usize) {
    match stream {
        Stream::Source => (Status::ReadFault, answered),
        Stream::Sink => (Status::WriteFault, answered.saturating_add(1)),
    }
}

/// Whether a run in which a call of a stream failed ended so, wrote a front of the whole text, and left what the lines that it served leave.
fn ends_at(alloc: Global, script: &str, whole: &str, stream: Stream, told: &Told) -> bool {
    let text = told.text.as_str();
    let (status, served) = end_of(stream, lines_in(text));
    let outside = outside_of(front_of(script, served), stream, &[]);
    let is_front = whole.starts_with(text) && (text.is_empty() || text.ends_with('\n'));
    match told_by(alloc, outside) {
        Some(wanted) => {
            let lasts = told.lasts.as_str() == wanted.lasts.as_str();
            drop(wanted);
            is_front && lasts && told.status == status
        }
        None => false,
    }
}

/// How many calls a stream may have.
const MOST_CALLS: u64 = 64;

/// Whether a run is right, and whether no call of it was to fail any more.
#[derive(Clone, Copy, PartialEq)]
enum Verdict {
    Right,
    Wrong,
    Over,
}

fn verdict_at(alloc: Global, script: &str, whole: &str, stream: Stream, call: u64) -> Verdict {
    let failing = [call];
    match told_by(alloc, outside_of(script, stream, &failing)) {
        Some(told) => {
            let verdict = match told.faults {
                0 if told.status == Status::Ok && told.text.as_str() == whole => Verdict::Over,
                1 if ends_at(alloc, script, whole, stream, &told) => Verdict::Right,
                _ => Verdict::Wrong,
            };
            drop(told);
            verdict
        }
        None => Verdict::Wrong,
    }
}

/// The first call of a stream at which a run is wrong; 0 where none is reached at which it is over.
fn wrong_call(alloc: Global, script: &str, whole: &str, stream: Stream) -> Option<u64> {
    let mut wrong = Some(0);
    for call in 1..MOST_CALLS {
        if wrong == Some(0) {
            wrong = match verdict_at(alloc, script, whole, stream, call) {
                Verdict::Right => Some(0),
                Verdict::Wrong => Some(call),
                Verdict::Over => None,
            };
        }
    }
    wrong
}

/// The same of a script by its name.
fn wrong_call_of(alloc: Global, script: Script, stream: Stream) -> Option<u64> {
    let Some(lines) = lines_of(alloc, script) else {
        return Some(0);
    };
    let wrong = match told_by(alloc, outside_of(lines.as_str(), stream, &[])) {
        Some(whole) => {
            let wrong = wrong_call(alloc, lines.as_str(), whole.text.as_str(), stream);
            drop(whole);
            wrong
        }
        None => Some(0),
    };
    drop(lines);
    wrong
}

#[test]
fn each_read_and_each_write_may_fail(rt: HostRuntime) {
    for (script, stream) in &FAILING {
        let wrong = wrong_call_of(rt.alloc(), *script, *stream);
        assert_eq!(rt; wrong, None, "{stream:?} under {script:?}");
    }
}
