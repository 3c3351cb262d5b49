//! What a run's text says of the lines of its script: which were made, and what is left of the others.

use std::alloc::Global;

/// A line, and the line that does the same without a record, which is what is left of the first one where its record is lost; none
/// where nothing is left.
pub type Line = (&'static str, &'static str);

const FAILED: &str = r#"{"code":4}"#;

const KEPT: &str = r#"{"settled":"kept"}"#;

const LOST: &str = r#"{"settled":"lost"}"#;

/// What became of a line: it was not made, it was made, its record was kept or lost, or is not settled.
#[derive(Clone, Copy, PartialEq)]
pub enum Fate {
    Unmade,
    Made,
    Kept,
    Lost,
    Waits,
}

/// The fates of the lines of a script.
pub type Fates = [Fate; 32];

/// What a run's text says of its script, line by line.
#[derive(Clone, Copy)]
pub struct Heard {
    pub fates: Fates,
    /// how many lines were answered, and how many of them that a call of the device failed
    pub lines: usize,
    pub failed: u64,
    /// the line whose record is not settled
    waiting: Option<usize>,
    /// no settled line stands where no line waits
    pub is_right: bool,
}

impl Heard {
    /// Of no text.
    fn nothing() -> Heard {
        Heard {
            fates: [Fate::Unmade; 32],
            lines: 0,
            failed: 0,
            waiting: None,
            is_right: true,
        }
    }

    /// Notes what became of a line.
    fn note(&mut self, place: usize, fate: Fate) {
        match self.fates.get_mut(place) {
            Some(noted) => *noted = fate,
            None => self.is_right = false,
        }
    }

    /// The line that waits is settled.
    fn settle(&mut self, fate: Fate) {
        match self.waiting {
            Some(place) => self.note(place, fate),
            None => self.is_right = false,
        }
        self.waiting = None;
    }

    /// A call failed under the next line: a restart has not happened then, nor has a line that could not settle.
    fn fail(&mut self, is_restart: bool) {
        let place = self.lines;
        if !is_restart && self.waiting.is_none() {
            self.waiting = Some(place);
            self.note(place, Fate::Waits);
        }
        self.failed = self.failed.saturating_add(1);
        self.lines = place.saturating_add(1);
    }

    /// The next line was made.
    fn serve(&mut self) {
        let place = self.lines;
        self.note(place, Fate::Made);
        self.lines = place.saturating_add(1);
    }

    /// Reads one line of the text.
    fn hear(&mut self, script: &[Line], text: &str) {
        if text == KEPT {
            self.settle(Fate::Kept);
        } else if text == LOST {
            self.settle(Fate::Lost);
        } else if text == FAILED {
            self.fail(is_restart(script, self.lines));
        } else {
            self.serve();
        }
    }

    /// The fates where the line that waits is taken so.
    pub fn taken(&self, fate: Fate) -> Fates {
        let mut heard = *self;
        if heard.waiting.is_some() {
            heard.settle(fate);
        }
        heard.fates
    }
}

/// Whether the line at a place is a restart.
fn is_restart(script: &[Line], place: usize) -> bool {
    match script.get(place) {
        Some((line, _)) => line.contains(r#""do":"restart""#),
        None => false,
    }
}

/// What a text says of its script.
pub fn heard_in(script: &[Line], text: &str) -> Heard {
    let mut heard = Heard::nothing();
    for line in text.split('\n') {
        if !line.is_empty() {
            heard.hear(script, line);
        }
    }
    heard
}

/// The fate of the line at a place.
pub fn fate_at(fates: &Fates, place: usize) -> Fate {
    fates.get(place).copied().unwrap_or(Fate::Unmade)
}

/// What does what is left of a line by its fate.
fn left_of((line, without): Line, fate: Fate) -> &'static str {
    match fate {
        Fate::Made | Fate::Kept => line,
        Fate::Lost => without,
        Fate::Unmade | Fate::Waits => "",
    }
}

/// The lines that are left of a script. Where memory is wanting one is cut, and gets another reply.
pub fn script_of(alloc: Global, script: &[Line], fates: &Fates) -> String {
    let mut lines = String::new(alloc);
    for (place, line) in script.iter().enumerate() {
        let left = left_of(*line, fate_at(fates, place));
        if !left.is_empty() {
            let _ = lines.push_str(left);
            let _ = lines.push('\n');
        }
    }
    lines
}

/// The next reply of a text, without the settled lines before it, and what stands behind it.
fn next_reply(text: &str) -> Option<(&str, &str)> {
    let (reply, behind) = text.split_once('\n')?;
    if reply == KEPT || reply == LOST {
        behind.split_once('\n')
    } else {
        Some((reply, behind))
    }
}

/// Two texts from a place on, line by line, equal up to here.
#[derive(Clone, Copy)]
struct Beside<'a> {
    told: &'a str,
    wanted: &'a str,
    is_right: bool,
}

impl<'a> Beside<'a> {
    /// Behind the next reply of what was told, which answers a line of this fate.
    fn behind(self, line: Line, fate: Fate) -> Beside<'a> {
        let Some((reply, told)) = next_reply(self.told) else {
            return Beside {
                is_right: false,
                ..self
            };
        };
        if left_of(line, fate).is_empty() {
            return Beside { told, ..self };
        }
        let (other, wanted) = self.wanted.split_once('\n').unwrap_or(("", ""));
        let is_right = self.is_right && (fate != Fate::Made || reply == other);
        Beside {
            told,
            wanted,
            is_right,
        }
    }
}

/// Whether each line that was made is answered as among the lines that are left.
pub fn is_told_so(script: &[Line], fates: &Fates, told: &str, wanted: &str) -> bool {
    let mut beside = Beside {
        told,
        wanted,
        is_right: true,
    };
    for (place, line) in script.iter().enumerate() {
        beside = beside.behind(*line, fate_at(fates, place));
    }
    beside.is_right && beside.told.is_empty() && beside.wanted.is_empty()
}

/// The reply to the line at a place.
pub fn reply_at(text: &str, place: usize) -> &str {
    let mut rest = text;
    let mut found = "";
    for _ in 0..=place {
        (found, rest) = next_reply(rest).unwrap_or(("", ""));
    }
    found
}
