//! A line is answered before more is read: a source that gives one line a read, and fails when it is read before the reply to
//! its last line was written.

ghost use Rattle.std.specs.Prelude.{◌≡◌, ◌≤◌, ℕ, None, length, IfOk};

use crate::script::{DEMO_SYSTEM, ROOM, run_on, words_of};
use disk_model::MemoryDisk;
use keystore_run::Status;
use ks_outside::{Failed, FaultCount, Sink, Source};
use std::alloc::Global;
use std::cell::Cell;
use tags::Policy;

/// A connect, an import, a begin and a finish, each with its LF.
static LINES: [&str; 4] = [
    concat!(r#"{"t":[0,1000],"do":"connect","uid":10001}"#, "\n"),
    concat!(
        r#"{"t":[0,1000],"c":1,"do":"importKey","key":{"domain":0,"alias":"m"},"params":[["PURPOSE",2],["PURPOSE",3],["ALGORITHM",128],["DIGEST",4],["MIN_MAC_LENGTH",64],["NO_AUTH_REQUIRED",true]],"format":3,"material":"0b0b0b0b0b0b0b0b0b0b0b0b0b0b0b0b0b0b0b0b"}"#,
        "\n"
    ),
    concat!(
        r#"{"t":[0,1000],"c":1,"do":"createOperation","key":{"domain":0,"alias":"m"},"params":[["PURPOSE",2],["MAC_LENGTH",256]]}"#,
        "\n"
    ),
    concat!(
        r#"{"t":[0,1000],"c":1,"do":"finish","op":1,"input":"4869205468657265"}"#,
        "\n"
    ),
];

/// A client that sends a line and waits for its answer.
#[derive(Drop)]
struct Asking<'a> {
    lines: &'a [&'a str],
    asked: usize,
    answered: &'a Cell<usize>,
    faults: FaultCount,
}

/// Where the answers go: it counts their lines.
#[derive(Drop)]
struct Answering<'a> {
    answered: &'a Cell<usize>,
}

impl Asking<'_> {
    /// The next line, at the front of `out`, where the last one was answered.
    fn ask(&mut self, out: &mut [u8]) -> Result<usize, Failed>
        ensures within { IfOk result (λ n. n ≤ length out.new) }
        ensures faults { self.new.faults ≡ self.old.faults }
    {
        if self.answered.get() != self.asked {
            return Err(Failed);
        }
        let Some(line) = self.lines.get(self.asked) else {
            return Ok(0);
        };
        let count = line.len().min(out.len());
        out[..count].copy_from_slice(&line.as_bytes()[..count]);
        self.asked = self.asked.saturating_add(1);
        Ok(count)
    }
}

impl Source for Asking<'_> {
    ghost content = { λ _. None };

    ghost fault_count = { λ s. s.faults.count };

    fn read(&mut self, out: &mut [u8]) -> Result<usize, Failed> {
        let answer = self.ask(out);
        self.faults = self.faults.after(&answer);
        answer
    }
}

impl Sink for Answering<'_> {
    ghost content = { λ _. None };

    ghost fault_count = { λ _. 0 };

    fn write(&mut self, piece: &[u8]) -> Result<usize, Failed> {
        let mut ends = self.answered.get();
        for byte in piece {
            if *byte == b'\n' {
                ends = ends.saturating_add(1);
            }
        }
        self.answered.set(ends);
        Ok(piece.len())
    }
}

/// How a run ends whose client waits for each answer, and how many lines were answered.
fn answered(alloc: Global) -> Option<(Status, usize)> {
    let policy = Policy::demo(alloc).ok()?;
    let mut disk = MemoryDisk::with_room(alloc, ROOM, &[]).ok()?;
    let words = words_of(alloc, "run --fresh");
    let answered = Cell::new(0usize);
    let mut source = Asking {
        lines: &LINES,
        asked: 0,
        answered: &answered,
        faults: FaultCount::new(),
    };
    let mut sink = Answering {
        answered: &answered,
    };
    let status = run_on(
        alloc,
        DEMO_SYSTEM,
        words.as_slice(),
        &policy,
        &mut source,
        &mut sink,
        &mut disk,
        &[],
    );
    drop(policy);
    drop(words);
    drop(disk);
    drop(source);
    Some((status, answered.get()))
}

#[test]
fn each_line_is_answered_before_the_next_read(rt: HostRuntime) {
    assert_eq!(rt; answered(rt.alloc()), Some((Status::Ok, 4)));
}
