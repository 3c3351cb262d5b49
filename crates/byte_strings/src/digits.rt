//! Numbers in words.

ghost use Rattle.std.specs.Prelude.{◌≡◌, ◌≤◌, ◌^◌, IfSome, min};
ghost use Rattle.std.specs.List.{list_all};
ghost use Rattle.byte_strings.specs.Numbers as spec;
ghost use Rattle.byte_strings.specs.Numbers.{IsThreadCount, is_digit as is_decimal, value_on};

/// The most digits of a number.
const DIGITS: usize = 20;

/// The most threads that words may ask for.
const MOST_THREADS: u64 = 64;

fn is_digit(byte: u8) -> bool
    ensures { result ≡ is_decimal byte }
{
    byte >= b'0' && byte <= b'9'
}

fn are_digits(text: &[u8]) -> bool
    ensures { result ≡ list_all is_decimal text.now }
{
    text.iter().all(|byte| is_digit(*byte))
}

/// Whether a text is a number: one to twenty decimal digits.
fn is_number(text: &[u8]) -> bool
    ensures { result ≡ spec.is_number text.now }
{
    1 <= text.len() && text.len() <= DIGITS && are_digits(text)
}

/// The number of decimal digits, or the cap where it is greater.
fn capped_value(digits: &[u8], cap: u128) -> u128
    requires { cap ≤ 2 ^ 64 }
    ensures { result ≡ min (value_on 0 digits.now) cap }
{
    let mut value = 0u128;
    for byte in digits {
        let digit = u128::from(byte.saturating_sub(b'0'));
        value = (value * 10 + digit).min(cap);
    }
    value
}

/// The number that a word gives, where it is one within these bounds.
pub fn number_in(least: u64, most: u64, text: &[u8]) -> Option<u64>
    ensures number { result ≡ spec.number_in least most text.now }
    ensures within { IfSome result (λ n. (least ≤ n) × (n ≤ most)) }
{
    if !is_number(text) {
        return None;
    }
    let value = capped_value(text, u128::from(most) + 1);
    if u128::from(least) <= value && value <= u128::from(most) {
        Some(value as u64)
    } else {
        None
    }
}

/// The number of threads that a word gives, where it is one from 1 to 64.
pub fn threads_in(text: &[u8]) -> Option<u32>
    ensures number { result ≡ spec.threads_in text.now }
    ensures within { IfSome result IsThreadCount }
{
    let count = number_in(1, MOST_THREADS, text)?;
    Some(count as u32)
}
