//! What stands outside of a run, and scripts by their lines, each with what it is to get.

use disk_model::{DiskRoom, MemoryDisk};
use keystore_run::{Status, run_words};
use ks_outside::{Disk, MemoryEntropy, MemorySink, MemorySource, Sink, Source};
use std::alloc::Global;
use std::process::Abort;
use std::str;
use tags::{DeviceSecrets, Policy};

/// What a disk of a test has room for.
pub const ROOM: DiskRoom = DiskRoom {
    calls: 256,
    bytes: 65_536,
    pages: 20,
};

/// An app connects, imports the key of the first case of RFC 4231, begins a mac with it, and finishes that with the case's text.
pub const CONNECT: &str = r#"{"t":[0,1000],"do":"connect","uid":10001}"#;

pub const IMPORT: &str =
    r#"{"t":[0,1000],"c":1,"do":"importKey","key":{"domain":0,"alias":"m"},"params":[["PURPOSE",2],["PURPOSE",3],["ALGORITHM",128],["DIGEST",4],["MIN_MAC_LENGTH",64],["NO_AUTH_REQUIRED",true]],"format":3,"material":"0b0b0b0b0b0b0b0b0b0b0b0b0b0b0b0b0b0b0b0b"}"#;

pub const BEGIN: &str =
    r#"{"t":[0,1000],"c":1,"do":"createOperation","key":{"domain":0,"alias":"m"},"params":[["PURPOSE",2],["MAC_LENGTH",256]]}"#;

pub const FINISH: &str = r#"{"t":[0,1000],"c":1,"do":"finish","op":1,"input":"4869205468657265"}"#;

/// A client of the system.
pub const SYSTEM: &str = r#"{"t":[0,1000],"do":"connect","uid":1000}"#;

/// A key of AES that has every mode and padding.
pub const IMPORT_AES: &str =
    r#"{"t":[0,1000],"c":1,"do":"importKey","key":{"domain":0,"alias":"a"},"params":[["PURPOSE",0],["PURPOSE",1],["ALGORITHM",32],["BLOCK_MODE",1],["BLOCK_MODE",2],["BLOCK_MODE",3],["BLOCK_MODE",32],["PADDING",1],["PADDING",64],["MIN_MAC_LENGTH",96],["CALLER_NONCE",true],["NO_AUTH_REQUIRED",true]],"format":3,"material":"000102030405060708090a0b0c0d0e0f"}"#;

/// What these are to get.
pub const CONNECTED: &str = r#"{"client":1,"code":0}"#;

pub const SECOND_CONNECTED: &str = r#"{"client":2,"code":0}"#;

pub const IMPORTED: &str = r#"{"code":0,"key":1}"#;

pub const BEGUN: &str = r#"{"code":0,"op":1}"#;

pub const MAC: &str =
    r#"{"code":0,"out":"b0344c61d8db38535ca8afceaf0bf12b881dc200c9833da726e9376c2e32cff7"}"#;

/// What others are to get.
pub const DONE: &str = r#"{"code":0}"#;

pub const NOTHING_OUT: &str = r#"{"code":0,"out":""}"#;

pub const NO_KEY: &str = r#"{"code":7,"rule":"B4"}"#;

pub const NOT_OPEN: &str = r#"{"code":-28,"rule":"S1"}"#;

/// The versions of a device's system: of the operating system, and of its patches.
pub type System = (u32, u32);

/// Those of the demo device.
pub const DEMO_SYSTEM: System = (140_000, 202_406);

/// What stands outside of a run but for its disk: its words, the system of its device, its script, and which reads, writes
/// and draws fail, by their numbers from 1.
#[derive(Clone, Copy)]
pub struct Outside<'a> {
    pub words: &'a str,
    pub system: System,
    pub script: &'a str,
    pub reads: &'a [u64],
    pub writes: &'a [u64],
    pub draws: &'a [u64],
}

/// A run over a fresh store in which nothing fails.
pub const FRESH: Outside<'static> = Outside {
    words: "run --fresh",
    system: DEMO_SYSTEM,
    script: "",
    reads: &[],
    writes: &[],
    draws: &[],
};

/// How a run ended.
#[derive(Drop)]
pub struct Ended<'a> {
    pub status: Status,
    /// what was written
    sink: MemorySink<'a>,
    /// how many bytes of the script were not read
    pub left: usize,
    /// how many reads of the script and writes of its replies failed
    pub faults: u64,
}

impl Ended<'_> {
    /// What was written.
    pub fn text(&self) -> &str {
        str::from_utf8(self.sink.written()).unwrap_or("no text")
    }
}

/// The words of a text, but those for which memory is wanting, which shows in the status.
pub fn words_of(alloc: Global, text: &str) -> Vec<String> {
    let mut words = Vec::new(alloc);
    for word in text.split_whitespace() {
        if let Ok(word) = String::from_str(alloc, word) {
            let _ = words.push(word);
        }
    }
    words
}

/// Runs words over the demo device, with the versions of a system.
pub fn run_on<S: Source, K: Sink, D: Disk>(
    alloc: Global,
    (os, patch): System,
    words: &[String],
    policy: &Policy,
    source: &mut S,
    sink: &mut K,
    disk: &mut D,
    draws: &[u64],
) -> Status {
    let mut entropy = MemoryEntropy::failing(draws);
    let demo = DeviceSecrets::demo();
    run_words(
        alloc,
        words,
        &DeviceSecrets { os, patch, ..demo },
        policy,
        source,
        sink,
        disk,
        &mut entropy,
    )
}

impl<'a> Outside<'a> {
    /// Runs over a disk, with the demo device's secrets and policy, where there is memory for what stands outside.
    pub fn run<D: Disk>(&self, alloc: Global, disk: &mut D) -> Option<Ended<'a>> {
        let room = self.script.len().saturating_add(16_384);
        let policy = Policy::demo(alloc).ok()?;
        let mut sink = MemorySink::with_room(alloc, room, room, self.writes).ok()?;
        let words = words_of(alloc, self.words);
        let mut source = MemorySource::new(self.script.as_bytes(), self.reads);
        let status = run_on(
            alloc,
            self.system,
            words.as_slice(),
            &policy,
            &mut source,
            &mut sink,
            disk,
            self.draws,
        );
        drop(policy);
        drop(words);
        let left = source.left().len();
        let faults = source.faults().saturating_add(sink.faults());
        Some(Ended {
            status,
            sink,
            left,
            faults,
        })
    }

    /// Whether a run over a disk ends with this status and this text; words that are no form read nothing.
    pub fn ends_so(
        &self,
        alloc: Global,
        disk: &mut MemoryDisk,
        status: Status,
        text: &str,
    ) -> bool {
        match self.run(alloc, disk) {
            Some(ended) => {
                let is_untouched = status != Status::Usage || ended.left == self.script.len();
                let right = ended.status == status && ended.text() == text && is_untouched;
                drop(ended);
                right
            }
            None => false,
        }
    }

    /// What is written in a run over a disk that reads the script to its end.
    pub fn text<D: Disk>(&self, alloc: Global, disk: &mut D) -> Option<String> {
        let ended = self.run(alloc, disk)?;
        let text = if ended.status == Status::Ok {
            String::from_str(alloc, ended.text()).ok()
        } else {
            None
        };
        drop(ended);
        text
    }

    /// The same over an empty disk.
    pub fn fresh_text(&self, alloc: Global) -> Option<String> {
        let mut disk = MemoryDisk::with_room(alloc, ROOM, &[]).ok()?;
        let text = self.text(alloc, &mut disk);
        drop(disk);
        text
    }
}

/// A line, and the line that it is to get, or two where a write settles first.
pub type Row = (&'static str, &'static str);

/// The lines of runs in turn over one disk.
pub type Runs = &'static [&'static [Row]];

/// The lines of rows, each with its LF. Where memory is wanting a line is cut, and gets another reply.
fn script_of(alloc: Global, rows: &[Row]) -> String {
    let mut script = String::new(alloc);
    for (line, _) in rows {
        let _ = script.push_str(line);
        let _ = script.push('\n');
    }
    script
}

/// What stands behind a reply and its LF.
fn behind<'a>(text: &'a str, reply: &str) -> Option<&'a str> {
    text.strip_prefix(reply)?.strip_prefix('\n')
}

/// The number of the first line that gets another reply; how many lines there are where more is written, or the run ends otherwise.
fn first_other(ended: &Ended, rows: &[Row]) -> Option<usize> {
    let mut rest = ended.text();
    let mut other = None;
    for (number, (_, reply)) in rows.iter().enumerate() {
        match behind(rest, reply) {
            Some(more) => rest = more,
            None => other = other.or(Some(number)),
        }
    }
    if rest.is_empty() && ended.status == Status::Ok {
        other
    } else {
        other.or(Some(rows.len()))
    }
}

/// The same of a run over a disk.
fn other_on(alloc: Global, outside: Outside, rows: &[Row], disk: &mut MemoryDisk) -> Option<usize> {
    let lines = script_of(alloc, rows);
    let script = lines.as_str();
    let other = match (Outside { script, ..outside }).run(alloc, disk) {
        Some(ended) => {
            let other = first_other(&ended, rows);
            drop(ended);
            other
        }
        None => Some(0),
    };
    drop(lines);
    other
}

/// The same over an empty disk.
fn other_of(alloc: Global, outside: Outside, rows: &[Row]) -> Option<usize> {
    match MemoryDisk::with_room(alloc, ROOM, &[]) {
        Ok(mut disk) => {
            let other = other_on(alloc, outside, rows, &mut disk);
            drop(disk);
            other
        }
        Err(_) => Some(0),
    }
}

/// Runs lines over an empty disk, and compares what each gets.
pub fn check(rt: &impl Abort, alloc: Global, outside: Outside, rows: &[Row]) {
    let other = other_of(alloc, outside, rows);
    assert_eq!(rt; other, None, "a line gets another reply");
}

/// Runs the lines of each case over a fresh store, and compares what each gets.
pub fn check_each(rt: &impl Abort, alloc: Global, cases: &[&[Row]]) {
    for rows in cases {
        check(rt, alloc, FRESH, rows);
    }
}

/// The numbers of the first run and line in which another reply comes, of runs in turn over one disk, whose calls with these numbers fail,
/// the first over a fresh store, each on its system or, where it has none, on the demo device's.
fn other_in(
    alloc: Global,
    failing: &[u64],
    systems: &[System],
    runs: &[&[Row]],
) -> Option<(usize, usize)> {
    let Ok(mut disk) = MemoryDisk::with_room(alloc, ROOM, failing) else {
        return Some((0, 0));
    };
    let mut outside = FRESH;
    let mut other = None;
    for (number, rows) in runs.iter().enumerate() {
        outside.system = systems.get(number).copied().unwrap_or(DEMO_SYSTEM);
        if let Some(row) = other_on(alloc, outside, rows, &mut disk) {
            other = other.or(Some((number, row)));
        }
        outside.words = "run";
    }
    drop(disk);
    other
}

/// Makes such runs, and compares what each line gets.
pub fn check_runs(rt: &impl Abort, alloc: Global, failing: &[u64], runs: &[&[Row]]) {
    let other = other_in(alloc, failing, &[], runs);
    assert_eq!(rt; other, None, "a line gets another reply");
}

/// The same of runs on these systems, over a disk on which no call fails.
pub fn check_systems(rt: &impl Abort, alloc: Global, systems: &[System], runs: &[&[Row]]) {
    let other = other_in(alloc, &[], systems, runs);
    assert_eq!(rt; other, None, "a line gets another reply");
}
