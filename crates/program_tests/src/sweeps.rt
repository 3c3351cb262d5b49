//! Every call of a device stops or fails under a script: what is answered, and what is opened then, is what the script has
//! without the lines that were not made.

use crate::fates::{Fate, Fates, Heard, Line, heard_in, is_told_so, reply_at, script_of};
use crate::images::{Image, LAID, Lasting, SELECTOR, image_of, laid, lasting_on, run_over};
use crate::script::{FRESH, Outside, ROOM, System};
use disk_model::{MemoryDisk, StoppedDisk};
use keystore_run::Status;
use ks_outside::Disk;
use std::alloc::Global;

/// What a sweep goes over.
pub struct Sweep {
    /// the system of the run before, its lines, and one line more, so many times
    pub system: System,
    pub before: &'static [&'static str],
    pub again: (usize, &'static str),
    /// the lines of the run that is swept
    pub script: &'static [Line],
    /// which calls of this run fail besides, counted with those that lay the image, how many, and the first call that is swept
    pub besides: [u64; 2],
    pub met: u64,
    pub first: u64,
    /// the places of the lines that may use up the key whose alias is `o`
    pub last_uses: [usize; 2],
}

/// The place of no line.
pub const NOWHERE: usize = 32;

/// What its second line gets where the key was used up.
const USED_UP: &str = r#"{"code":7,"rule":"B4"}"#;

/// A run over a device, and what lasts then.
#[derive(Drop)]
struct Outcome {
    status: Status,
    text: String,
    /// how many calls failed
    faults: u64,
    lasting: Lasting,
}

fn outcome_of(
    alloc: Global,
    told: Option<(Status, String)>,
    faults: u64,
    disk: &MemoryDisk,
) -> Option<Outcome> {
    let (status, text) = told?;
    Some(Outcome {
        status,
        text,
        faults,
        lasting: lasting_on(alloc, disk)?,
    })
}

/// How a device fails at a call: then alone, or from then on.
#[derive(Clone, Copy)]
enum Failing {
    Once,
    On,
}

/// A run over a device that fails once.
fn failed_once(alloc: Global, image: &Image, failing: &[u64], script: &str) -> Option<Outcome> {
    let mut disk = laid(alloc, image, failing)?;
    let told = run_over(alloc, &mut disk, script);
    let faults = disk.faults();
    let outcome = outcome_of(alloc, told, faults, &disk);
    drop(disk);
    outcome
}

/// A run over a device that stops behind so many calls.
fn stopped(
    alloc: Global,
    image: &Image,
    failing: &[u64],
    script: &str,
    passed: u64,
) -> Option<Outcome> {
    let disk = laid(alloc, image, failing)?;
    let mut stopped = StoppedDisk::new(disk, passed);
    let told = run_over(alloc, &mut stopped, script);
    let faults = stopped.faults();
    let disk = stopped.into_inner();
    let outcome = outcome_of(alloc, told, faults, &disk);
    drop(disk);
    outcome
}

/// A run over a device that fails so at a call, and at others besides.
fn outcome_at(
    alloc: Global,
    image: &Image,
    besides: [u64; 2],
    script: &str,
    (failing, call): (Failing, u64),
) -> Option<Outcome> {
    let [one, other] = besides;
    match failing {
        Failing::Once => {
            let numbers = [LAID.saturating_add(call), one, other];
            failed_once(alloc, image, &numbers, script)
        }
        Failing::On => stopped(alloc, image, &besides, script, call.saturating_sub(1)),
    }
}

/// What the lines that are left of a script get on a disk on which no call fails, and what lasts then.
#[derive(Drop)]
struct Wanted {
    fates: Fates,
    text: String,
    lasts: String,
}

fn wanted_of(alloc: Global, image: &Image, script: &[Line], fates: Fates) -> Option<Wanted> {
    let lines = script_of(alloc, script, &fates);
    let mut disk = laid(alloc, image, &[])?;
    let told = run_over(alloc, &mut disk, lines.as_str());
    let lasting = lasting_on(alloc, &disk);
    drop(disk);
    drop(lines);
    let (_, text) = told?;
    let Lasting { stands, remains } = lasting?;
    drop(stands);
    Some(Wanted {
        fates,
        text,
        lasts: remains,
    })
}

/// What is as it is wanted: the replies, what lasts on the disk, and what remains where the power goes.
#[derive(Clone, Copy)]
struct Fit {
    is_told: bool,
    stands: bool,
    remains: bool,
}

impl Wanted {
    /// How an outcome fits.
    fn fit(&self, script: &[Line], outcome: &Outcome) -> Fit {
        let told = outcome.text.as_str();
        let wanted = self.text.as_str();
        Fit {
            is_told: told.is_empty() || is_told_so(script, &self.fates, told, wanted),
            stands: outcome.lasting.stands.as_str() == self.lasts.as_str(),
            remains: outcome.lasting.remains.as_str() == self.lasts.as_str(),
        }
    }
}

/// What was wanted before.
#[derive(Drop)]
struct Known {
    known: Vec<Wanted>,
}

impl Known {
    /// The place of what is wanted where the lines have these fates.
    fn place(&self, fates: &Fates) -> Option<usize> {
        let mut found = None;
        for (place, wanted) in self.known.iter().enumerate() {
            if wanted.fates == *fates {
                found = Some(place);
            }
        }
        found
    }

    /// How an outcome fits what is wanted where the lines have these fates.
    fn fit(
        &mut self,
        alloc: Global,
        image: &Image,
        script: &[Line],
        fates: Fates,
        outcome: &Outcome,
    ) -> Option<Fit> {
        if self.place(&fates).is_none() {
            let wanted = wanted_of(alloc, image, script, fates)?;
            self.known.push(wanted).ok()?;
        }
        let wanted = self.known.get(self.place(&fates)?)?;
        Some(wanted.fit(script, outcome))
    }
}

/// Whether a run ended as its count of faults says: under each call that failed a line is answered so, or the opening failed.
fn ends_so(outcome: &Outcome, heard: &Heard, script: &[Line]) -> bool {
    match outcome.status {
        Status::Ok => {
            heard.is_right && heard.lines == script.len() && heard.failed == outcome.faults
        }
        Status::DiskFault => outcome.text.is_empty() && outcome.faults > 0,
        _ => false,
    }
}

/// Whether the key is not there where the line at this place was answered as its last use.
fn is_used_up(place: usize, outcome: &Outcome) -> bool {
    let reply = reply_at(outcome.text.as_str(), place);
    let lasts = outcome.lasting.remains.as_str();
    !reply.starts_with(r#"{"code":0,"#) || reply_at(lasts, 1) == USED_UP
}

/// The same of both lines that may use it up.
fn are_used_up([one, other]: [usize; 2], outcome: &Outcome) -> bool {
    is_used_up(one, outcome) && is_used_up(other, outcome)
}

/// What a run shows: it is right or wrong, or it is right and no call of it was to fail any more.
#[derive(Clone, Copy, Debug, PartialEq)]
enum Verdict {
    Right,
    Wrong,
    Over,
}

/// The same of its outcome.
fn judged(
    alloc: Global,
    sweep: &Sweep,
    image: &Image,
    known: &mut Known,
    outcome: &Outcome,
) -> Option<Verdict> {
    let heard = heard_in(sweep.script, outcome.text.as_str());
    let lost = known.fit(alloc, image, sweep.script, heard.taken(Fate::Lost), outcome)?;
    let kept = known.fit(alloc, image, sweep.script, heard.taken(Fate::Kept), outcome)?;
    let stands = lost.stands || kept.stands;
    let remains = lost.remains || kept.remains;
    let is_right = ends_so(outcome, &heard, sweep.script) && are_used_up(sweep.last_uses, outcome);
    if !(is_right && lost.is_told && stands && remains) {
        Some(Verdict::Wrong)
    } else if outcome.faults == sweep.met {
        Some(Verdict::Over)
    } else {
        Some(Verdict::Right)
    }
}

/// How many calls a sweep may have.
const MOST_CALLS: u64 = 256;

/// The first call at which a run is wrong where the device fails so; 0 where the sweep does not end.
fn wrong_call(alloc: Global, sweep: &Sweep, image: &Image, failing: Failing) -> Option<u64> {
    let script = script_of(alloc, sweep.script, &[Fate::Made; 32]);
    let mut known = Known {
        known: Vec::new(alloc),
    };
    let mut verdict = Verdict::Right;
    let mut wrong = Some(0);
    for call in sweep.first..MOST_CALLS {
        if verdict == Verdict::Right {
            let outcome = outcome_at(
                alloc,
                image,
                sweep.besides,
                script.as_str(),
                (failing, call),
            );
            verdict = match &outcome {
                Some(outcome) => judged(alloc, sweep, image, &mut known, outcome).unwrap_or(
                    Verdict::Wrong,
                ),
                None => Verdict::Wrong,
            };
            drop(outcome);
            wrong = match verdict {
                Verdict::Right => Some(0),
                Verdict::Wrong => Some(call),
                Verdict::Over => None,
            };
        }
    }
    drop(known);
    drop(script);
    wrong
}

/// The lines of the run before.
fn lines_before(alloc: Global, sweep: &Sweep) -> String {
    let mut script = String::new(alloc);
    for line in sweep.before {
        let _ = script.push_str(line);
        let _ = script.push('\n');
    }
    let (times, again) = sweep.again;
    for _ in 0..times {
        let _ = script.push_str(again);
        let _ = script.push('\n');
    }
    script
}

/// The store that the run before leaves.
fn made_before(alloc: Global, sweep: &Sweep) -> Option<Image> {
    let script = lines_before(alloc, sweep);
    let mut disk = MemoryDisk::with_room(alloc, ROOM, &[]).ok()?;
    let outside = Outside {
        system: sweep.system,
        script: script.as_str(),
        ..FRESH
    };
    let text = outside.text(alloc, &mut disk);
    let image = image_of(alloc, &mut disk);
    drop(disk);
    drop(script);
    drop(text?);
    image
}

/// The first calls at which a run is wrong, where the device fails once and where it stops.
pub fn wrong_calls(alloc: Global, sweep: &Sweep) -> (Option<u64>, Option<u64>) {
    match made_before(alloc, sweep) {
        Some(image) => {
            let once = wrong_call(alloc, sweep, &image, Failing::Once);
            let on = wrong_call(alloc, sweep, &image, Failing::On);
            drop(image);
            (once, on)
        }
        None => (Some(0), Some(0)),
    }
}

/// Which area a sweep's script selects at last, where no call fails.
pub fn area_behind(alloc: Global, sweep: &Sweep) -> Option<[u8; 1]> {
    let image = made_before(alloc, sweep)?;
    let script = script_of(alloc, sweep.script, &[Fate::Made; 32]);
    let area = match laid(alloc, &image, &[]) {
        Some(mut disk) => {
            let mut selector = [0u8; 1];
            drop(run_over(alloc, &mut disk, script.as_str()));
            let _ = disk.read(SELECTOR, &mut selector);
            drop(disk);
            Some(selector)
        }
        None => None,
    };
    drop(script);
    drop(image);
    area
}
