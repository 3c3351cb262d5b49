//! Which of the words is wrong, where they are no form.

use byte_strings::number_in;
use std::alloc::{AllocError, Global};
use std::fmt;
use std::fmt::{Display, Formatter};
use strsim::levenshtein;
use tags::MOST_SLOTS;

/// A number among the words of a form.
#[derive(Clone, Copy, Debug, PartialEq, Eq)]
pub struct Number {
    name: &'static str,
    most: u64,
    least: u64,
}

/// The greatest number of edits between a word and the one that was meant.
const NEAR: usize = 2;

const INIT: &str = "init";

const RUN: &str = "run [--fresh] [--slots N] [--trace]";

const SOAK: &str = "soak SEED N";

const SERVE: &str = "serve PORT CONNECTIONS WORKERS [--trace]";

static SLOTS: [Number; 1] = [Number {
    name: "N",
    least: 1,
    most: MOST_SLOTS as u64,
}];

static LOAD: [Number; 2] = [
    Number {
        name: "SEED",
        least: 0,
        most: u64::MAX,
    },
    Number {
        name: "N",
        least: 1,
        most: 100_000,
    },
];

static SERVICE: [Number; 3] = [
    Number {
        name: "PORT",
        least: 0,
        most: 65_535,
    },
    Number {
        name: "CONNECTIONS",
        least: 1,
        most: 65_536,
    },
    Number {
        name: "WORKERS",
        least: 1,
        most: 64,
    },
];

/// What is wrong first in words that are no form.
#[derive(Clone, Copy, Debug, PartialEq, Eq)]
pub enum Misuse<'a> {
    /// there is no word
    NoWord,
    /// no form begins with this word; this one is near
    NoForm {
        word: &'a str,
        near: Option<&'static str>,
    },
    /// this word stands in the place of that number
    NoNumber {
        word: &'a str,
        form: &'static str,
        number: Number,
    },
    /// that number is missing
    Missing {
        form: &'static str,
        number: Number,
    },
    /// this word has no place in the form; this one is near
    Extra {
        word: &'a str,
        form: &'static str,
        near: Option<&'static str>,
    },
}

impl Display for Misuse<'_> {
    fn fmt<W: fmt::Write>(&self, f: &mut Formatter<W>) -> fmt::Result {
        match self {
            Misuse::NoWord => f.write_str("no form is given"),
            Misuse::NoForm { word, near } => {
                write!(f, "no form begins with '{word}'")?;
                nearest(f, *near)
            }
            Misuse::NoNumber { word, form, number } => {
                let Number { name, least, most } = number;
                write!(
                    f,
                    "'{form}' wants for {name} a number from {least} to {most}, and not '{word}'"
                )
            }
            Misuse::Missing { form, number } => {
                let Number { name, least, most } = number;
                write!(f, "'{form}' lacks {name}, a number from {least} to {most}")
            }
            Misuse::Extra { word, form, near } => {
                write!(f, "'{word}' has no place there in '{form}'")?;
                nearest(f, *near)
            }
        }
    }
}

/// Writes which word is near, where one is.
fn nearest<W: fmt::Write>(f: &mut Formatter<W>, near: Option<&'static str>) -> fmt::Result {
    match near {
        Some(near) => write!(f, "; '{near}' is near"),
        None => Ok(()),
    }
}

/// The words that forms begin with.
pub static FORMS: [&str; 4] = ["init", "run", "soak", "serve"];

static OPTIONS: [&str; 3] = ["--fresh", "--slots", "--trace"];

/// The first of these words that few edits make of a word.
fn near(
    alloc: Global,
    word: &str,
    words: &'static [&'static str],
) -> Result<Option<&'static str>, AllocError> {
    for it in words {
        let edits = levenshtein(alloc, word, it)?;
        if edits > 0 && edits <= NEAR {
            return Ok(Some(*it));
        }
    }
    Ok(None)
}

/// What is wrong first in the words behind a form's first one, which are to be these numbers.
fn misuse_of_numbers<'a>(
    form: &'static str,
    words: &'a [String],
    numbers: &[Number],
) -> Option<Misuse<'a>> {
    for (place, number) in numbers.iter().enumerate() {
        let number = *number;
        let Some(word) = words.get(place) else {
            return Some(Misuse::Missing { form, number });
        };
        if number_in(number.least, number.most, word.as_bytes()).is_none() {
            return Some(Misuse::NoNumber {
                word: word.as_str(),
                form,
                number,
            });
        }
    }
    let word = words.get(numbers.len())?;
    Some(Misuse::Extra {
        word: word.as_str(),
        form,
        near: None,
    })
}

/// What is wrong first in the last words of a form, where `--trace` may stand.
fn misuse_of_trace<'a>(
    alloc: Global,
    form: &'static str,
    words: &'a [String],
) -> Result<Option<Misuse<'a>>, AllocError> {
    let words = match words {
        [first, rest @ ..] if first.as_str() == "--trace" => rest,
        _ => words,
    };
    let [first, ..] = words else {
        return Ok(None);
    };
    Ok(Some(Misuse::Extra {
        word: first.as_str(),
        form,
        near: near(alloc, first.as_str(), &OPTIONS)?,
    }))
}

/// What is wrong first in words that are to be these numbers, behind which `--trace` may stand.
fn misuse_of_numbers_and_trace<'a>(
    alloc: Global,
    form: &'static str,
    words: &'a [String],
    numbers: &[Number],
) -> Result<Option<Misuse<'a>>, AllocError> {
    let (words, rest) = words.split_at(words.len().min(numbers.len()));
    match misuse_of_numbers(form, words, numbers) {
        Some(misuse) => Ok(Some(misuse)),
        None => misuse_of_trace(alloc, form, rest),
    }
}

/// What is wrong first in the words behind `run`.
fn misuse_of_run(alloc: Global, words: &[String]) -> Result<Option<Misuse<'_>>, AllocError> {
    let words = match words {
        [first, rest @ ..] if first.as_str() == "--fresh" => rest,
        _ => words,
    };
    match words {
        [first, rest @ ..] if first.as_str() == "--slots" => {
            misuse_of_numbers_and_trace(alloc, RUN, rest, &SLOTS)
        }
        _ => misuse_of_trace(alloc, RUN, words),
    }
}

/// What is wrong first in words; `None` where they are a form.
pub fn misuse_of(alloc: Global, words: &[String]) -> Result<Option<Misuse<'_>>, AllocError> {
    let [first, rest @ ..] = words else {
        return Ok(Some(Misuse::NoWord));
    };
    let first = first.as_str();
    if first == "init" {
        Ok(misuse_of_numbers(INIT, rest, &[]))
    } else if first == "run" {
        misuse_of_run(alloc, rest)
    } else if first == "soak" {
        Ok(misuse_of_numbers(SOAK, rest, &LOAD))
    } else if first == "serve" {
        misuse_of_numbers_and_trace(alloc, SERVE, rest, &SERVICE)
    } else {
        Ok(Some(Misuse::NoForm {
            word: first,
            near: near(alloc, first, &FORMS)?,
        }))
    }
}
