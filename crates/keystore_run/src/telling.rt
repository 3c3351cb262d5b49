//! What is told of the steps of a line: the reply, or the lines of their entries.

ghost use Rattle.std.specs.Prelude.{◌≡◌, ◌++◌, IfOk};
ghost use Rattle.rule_model.specs.declared.entry.Entry.TheVariants.{Acted};
ghost use Rattle.rule_model.specs.declared.event.Event.{Event};
ghost use Rattle.trace_lines.specs.Told.{Tells};
ghost use Rattle.trace_lines.specs.Traces.{entry_line as spec_entry_line};
ghost use Rattle.keystore_run.specs.Written as spec;

use crate::answer::{Answer, answer_of, with_text};
use crate::written::Written;
use rule_model::{Entry, Event, Stepped};
use std::alloc::Global;
use tags::{Bytes, NoMemory};
use trace_lines::{ToldEvent, entry_line};

/// What is told of the steps of a line, made ready before the first of them takes its event.
#[derive(Drop)]
pub enum Telling {
    /// the reply of the last step
    Reply,
    /// the lines of the entries, of which the first has this event
    Entries(ToldEvent),
}

/// Two texts, one behind the other.
fn joined(first: Bytes, second: Bytes) -> Result<Bytes, NoMemory>
    ensures { IfOk result (λ text. text ≡ first ++ second) }
{
    let mut text = first.into_vec();
    text.extend_from_slice(second.as_slice())?;
    Ok(Bytes::of(text))
}

/// The lines of a step's entries.
fn step_lines(alloc: Global, told: ToldEvent, stepped: &Stepped) -> Result<Bytes, NoMemory>
    ensures { (event : Event) → Tells told event → IfOk result (λ lines. lines ≡ spec.step_lines stepped.now.settled event stepped.now.drawn stepped.now.reply) }
{
    let line = told.line(stepped.drawn.as_slice(), &stepped.reply)?;
    match stepped.settled {
        None => Ok(line),
        Some(settled) => {
            let settled = entry_line(alloc, &Entry::Settling { settled })?;
            joined(settled, line)
        }
    }
}

/// The line of a leave's entry.
fn leave_line(alloc: Global, leave: Event, left: &Stepped) -> Result<Bytes, NoMemory>
    ensures { IfOk result (λ line. line ≡ spec_entry_line (Acted leave left.now.drawn left.now.reply)) }
{
    let told = ToldEvent::of(alloc, &leave);
    drop(leave);
    told?.line(left.drawn.as_slice(), &left.reply)
}

/// The lines of a step's entries, and the line of the leave's behind it.
fn lines_of_both(
    alloc: Global,
    told: ToldEvent,
    stepped: &Stepped,
    leave: Event,
    left: &Stepped,
) -> Result<Bytes, NoMemory>
    ensures { (event : Event) → Tells told event → IfOk result (λ lines. lines ≡ spec.step_lines stepped.now.settled event stepped.now.drawn stepped.now.reply ++ spec_entry_line (Acted leave left.now.drawn left.now.reply)) }
{
    let last = leave_line(alloc, leave, left);
    let first = step_lines(alloc, told, stepped)?;
    joined(first, last?)
}

impl Telling {
    ghost use Rattle.keystore_run.specs.Answers.{IsAnswer};
    ghost use Rattle.keystore_run.specs.Telling.{TellsOf};

    /// What is told of an event's steps.
    pub fn of(alloc: Global, written: Written, event: &Event) -> Result<Telling, NoMemory>
        ensures { IfOk result (λ telling. TellsOf written telling event.now) }
    {
        match written {
            Written::Replies => Ok(Telling::Reply),
            Written::Trace => Ok(Telling::Entries(ToldEvent::of(alloc, event)?)),
        }
    }

    /// The answer of a line that makes one step.
    pub fn step(self, alloc: Global, stepped: Stepped) -> Result<Answer, NoMemory>
        ensures text { (written : Written) (event : Event) → TellsOf written self event →
            IfOk result (λ answer. answer.text ≡ spec.step_text written stepped.settled event stepped.drawn stepped.reply) }
        ensures is { (written : Written) (event : Event) → TellsOf written self event → IfOk result (IsAnswer written) }
    {
        match self {
            Telling::Reply => answer_of(alloc, stepped),
            Telling::Entries(told) => {
                let lines = step_lines(alloc, told, &stepped);
                with_text(stepped, lines)
            }
        }
    }

    /// The answer of a line that makes a step and the leave that is due.
    pub fn step_and_leave(
        self,
        alloc: Global,
        stepped: Stepped,
        leave: Event,
        left: Stepped,
    ) -> Result<Answer, NoMemory>
        ensures text { (written : Written) (event : Event) → TellsOf written self event →
            IfOk result (λ answer. answer.text ≡ spec.left_text written stepped.settled event stepped.drawn stepped.reply leave left.drawn left.reply) }
        ensures is { (written : Written) (event : Event) → TellsOf written self event → IfOk result (IsAnswer written) }
    {
        let settled = stepped.settled;
        match self {
            Telling::Reply => {
                drop(leave);
                drop(stepped);
                answer_of(alloc, Stepped { settled, ..left })
            }
            Telling::Entries(told) => {
                let lines = lines_of_both(alloc, told, &stepped, leave, &left);
                drop(stepped);
                with_text(Stepped { settled, ..left }, lines)
            }
        }
    }
}
