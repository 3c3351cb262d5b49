//! The forms of the command line.

ghost use Rattle.std.specs.Prelude.{◌≡◌, IfSome};
ghost use Rattle.keystore_run.specs.Words as spec;
ghost use Rattle.keystore_run.specs.Words.{AreSlots, IsWithin};

use crate::written::Written;
use byte_strings::number_in;
use soak_lines::MOST_LINES;
use tags::MOST_SLOTS;

/// The slots of an engine where the words do not say.
const SLOTS: usize = 16;

/// The slots that a word gives: a number from 1 to `MOST_SLOTS`.
fn slots_in(text: &[u8]) -> Option<usize>
    ensures slots { result ≡ spec.slots_in text.now }
    ensures within { IfSome result AreSlots }
{
    match number_in(1, MOST_SLOTS as u64, text) {
        Some(slots) => Some(slots as usize),
        None => None,
    }
}

/// What the words ask for.
#[derive(Clone, Copy, Debug, PartialEq, Eq)]
pub enum Form {
    /// an empty store
    Init,
    /// a script is served, over an empty store where it is `fresh`, with so many slots for operations
    Run {
        fresh: bool,
        slots: usize,
        written: Written,
    },
    /// the load of a seed, of so many lines behind its opening
    Soak {
        seed: u64,
        lines: u64,
    },
}

/// What is written by the last words of a run: `--trace`, or none.
fn written_in(words: &[String]) -> Option<Written>
    ensures { result ≡ spec.written_in words.now }
{
    match words {
        [] => Some(Written::Replies),
        [word] => {
            if word.as_str() == "--trace" {
                Some(Written::Trace)
            } else {
                None
            }
        }
        _ => None,
    }
}

/// The run of a word that gives its slots, and of what is written.
fn run_with(fresh: bool, slots: Option<usize>, written: Option<Written>) -> Option<Form>
    ensures form { result ≡ spec.run_with fresh slots written }
    ensures within { IfSome slots AreSlots → IfSome result IsWithin }
{
    let slots = slots?;
    let written = written?;
    Some(Form::Run {
        fresh,
        slots,
        written,
    })
}

/// A run behind `--slots`.
fn slots_run(fresh: bool, words: &[String]) -> Option<Form>
    ensures form { result ≡ spec.slots_run fresh words.now }
    ensures within { IfSome result IsWithin }
{
    let (number, rest) = words.split_first()?;
    run_with(fresh, slots_in(number.as_bytes()), written_in(rest))
}

/// A run behind its word and `--fresh`: its slots and what is written.
fn sized_run(fresh: bool, words: &[String]) -> Option<Form>
    ensures form { result ≡ spec.sized_run fresh words.now }
    ensures within { IfSome result IsWithin }
{
    let Some((first, rest)) = words.split_first() else {
        return run_with(fresh, Some(SLOTS), Some(Written::Replies));
    };
    if first.as_str() == "--slots" {
        slots_run(fresh, rest)
    } else {
        run_with(fresh, Some(SLOTS), written_in(words))
    }
}

/// A run behind its word.
fn run_of(words: &[String]) -> Option<Form>
    ensures form { result ≡ spec.run_of words.now }
    ensures within { IfSome result IsWithin }
{
    let Some((first, rest)) = words.split_first() else {
        return sized_run(false, words);
    };
    if first.as_str() == "--fresh" {
        sized_run(true, rest)
    } else {
        sized_run(false, words)
    }
}

/// The load of two words that give its seed and its lines.
fn load_of(seed: &[u8], lines: &[u8]) -> Option<Form>
    ensures form { result ≡ spec.load_of seed.now lines.now }
    ensures within { IfSome result IsWithin }
{
    let seed = number_in(0, u64::MAX, seed)?;
    let lines = number_in(1, MOST_LINES, lines)?;
    Some(Form::Soak { seed, lines })
}

/// A form that is no run.
fn other_form(first: &String, rest: &[String]) -> Option<Form>
    ensures form { result ≡ spec.other_form first.now rest.now }
    ensures within { IfSome result IsWithin }
{
    match rest {
        [] => {
            if first.as_str() == "init" {
                Some(Form::Init)
            } else {
                None
            }
        }
        [second, third] => {
            if first.as_str() == "soak" {
                load_of(second.as_bytes(), third.as_bytes())
            } else {
                None
            }
        }
        _ => None,
    }
}

/// The form of the words: `init`; or `run`, optionally `--fresh`, then optionally `--slots N`, where N is a number from 1 to 1,024, and
/// then optionally `--trace`; or `soak SEED N`, where N is a number from 1 to 100,000.
pub fn form_of(words: &[String]) -> Option<Form>
    ensures form { result ≡ spec.form_of words.now }
    ensures within { IfSome result IsWithin }
{
    let (first, rest) = words.split_first()?;
    if first.as_str() == "run" {
        run_of(rest)
    } else {
        other_form(first, rest)
    }
}
