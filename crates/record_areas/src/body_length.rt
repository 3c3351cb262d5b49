//! How long a body may be, by the first of its bytes.

ghost use Rattle.std.specs.Prelude.{◌≡◌, ◌<◌, ◌≤◌};
ghost use Rattle.record_areas.specs.BodyLengths as spec;

use byte_strings::u32_at;

/// The kinds whose bodies have texts: a new key, a key of a snapshot, and another blob and list of a key.
const NEW_KEY: u8 = 1;

const HELD_KEY: u8 = 9;

const UPGRADE: u8 = 11;

/// How many bytes the longest body of any other kind has.
const LONGEST_OTHER: u64 = 25;

/// How many bytes a key has up to its alias, behind the kind; and how many its number has.
const NUMBERS: usize = 17;

const NUMBER: usize = 8;

/// Whether so many bytes, of which these are the first, may be counted texts and `behind` bytes that follow them.
fn may_fill(texts: u8, behind: u64, size: u64, front: &[u8]) -> bool
    ensures { result ≡ spec.may_fill texts behind size front.now }
{
    let mut count = texts;
    let mut left = size;
    let mut rest = front;
    'texts: while count > 0 {
        let (length, text) = match u32_at(rest) {
            Ok(told) => told,
            Err(_) => return true,
        };
        let whole = 4 + u64::from(length);
        if whole > left {
            return false;
        }
        left -= whole;
        rest = &text[(length as usize).min(text.len())..];
        count -= 1;
    }
    left == behind
}

/// The same of the fields of a body, where numbers of so many bytes stand between its kind and its texts.
fn may_have(numbers: usize, texts: u8, behind: u64, size: u64, fields: &[u8]) -> bool
    requires { numbers < size }
    ensures { result ≡ spec.may_have numbers texts behind size fields.now }
{
    let front = &fields[numbers.min(fields.len())..];
    may_fill(texts, behind, size - (numbers as u64 + 1), front)
}

/// Whether a body of so many bytes, the kind among them, may begin with these.
pub(crate) fn may_begin(size: u64, front: &[u8]) -> bool
    requires { 18 ≤ size }
    ensures { result ≡ spec.may_begin size front.now }
{
    let [kind, fields @ ..] = front else {
        return true;
    };
    match *kind {
        NEW_KEY => may_have(NUMBERS, 3, 4, size, fields),
        HELD_KEY => may_have(NUMBERS, 3, 8, size, fields),
        UPGRADE => may_have(NUMBER, 2, 0, size, fields),
        _ => size <= LONGEST_OTHER,
    }
}
