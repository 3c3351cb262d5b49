//! Texts that words ask for in place of a form.

ghost use Rattle.std.specs.Prelude.{◌≡◌};
ghost use Rattle.keystore_process.specs.Asked as spec;

/// A text that the words ask for.
#[derive(Clone, Copy, Debug, PartialEq, Eq)]
pub enum TextAsked {
    Help,
    Version,
}

/// Whether a form begins with this word.
fn begins_form(word: &str) -> bool
    ensures { result ≡ spec.begins_form word.now }
{
    word == "init" || word == "run" || word == "soak" || word == "serve"
}

/// The text that a word alone asks for.
fn asked_by(word: &str) -> Option<TextAsked>
    ensures { result ≡ spec.asked_by word.now }
{
    if word == "--help" || word == "-h" || word == "help" {
        Some(TextAsked::Help)
    } else if word == "--version" || word == "-V" {
        Some(TextAsked::Version)
    } else {
        None
    }
}

/// The help, behind a form's first word.
fn help_behind(first: &str, last: &str) -> Option<TextAsked>
    ensures { result ≡ spec.help_behind first.now last.now }
{
    if begins_form(first) && last == "--help" {
        Some(TextAsked::Help)
    } else {
        None
    }
}

/// The text that the words ask for in place of a form: the help, also behind a form's first word, or the version.
pub fn text_asked(words: &[String]) -> Option<TextAsked>
    ensures { result ≡ spec.text_asked words.now }
{
    let (first, rest) = words.split_first()?;
    match rest.last() {
        Some(last) => help_behind(first.as_str(), last.as_str()),
        None => asked_by(first.as_str()),
    }
}

/// Whether the first word is this one.
pub fn begins_with(words: &[String], word: &str) -> bool
    ensures { result ≡ spec.begins_with word.now words.now }
{
    match words {
        [first, ..] => first.as_str() == word,
        _ => false,
    }
}

/// Whether the words are this one alone.
pub(crate) fn is_alone(words: &[String], word: &str) -> bool
    ensures { result ≡ spec.is_alone word.now words.now }
{
    match words {
        [only] => only.as_str() == word,
        _ => false,
    }
}
