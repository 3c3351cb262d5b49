//! The codes and rules that a reply line tells.

ghost use Rattle.std.specs.Prelude.{◌≡◌};
ghost use Rattle.trace_lines.specs.ReplyReads.{code_numbered as spec_code_numbered, table_lettered as spec_table_lettered, rule_number as spec_rule_number, rule_named as spec_rule_named};
ghost use Rattle.line_members.specs.Reads.{Gives};
ghost use Rattle.std.specs.Ordering.{int_eq};

use line_members::{LineFault, parsed, u64_of};
use std::alloc::Global;
use tags::{Code, Rule, RuleTable};

/// Every code, in the order of `Code`.
static CODES: [Code; 49] = [
    Code::UnsupportedPurpose,
    Code::IncompatiblePurpose,
    Code::UnsupportedAlgorithm,
    Code::UnsupportedKeySize,
    Code::UnsupportedBlockMode,
    Code::IncompatibleBlockMode,
    Code::UnsupportedMacLength,
    Code::UnsupportedPaddingMode,
    Code::IncompatiblePaddingMode,
    Code::UnsupportedDigest,
    Code::IncompatibleDigest,
    Code::InvalidUserId,
    Code::UnsupportedKeyFormat,
    Code::InvalidInputLength,
    Code::KeyNotYetValid,
    Code::KeyExpired,
    Code::KeyUserNotAuthenticated,
    Code::InvalidOperationHandle,
    Code::VerificationFailed,
    Code::InvalidKeyBlob,
    Code::InvalidKeyArgument,
    Code::UnsupportedTag,
    Code::InvalidTag,
    Code::MemoryAllocationFailed,
    Code::ImportParameterMismatch,
    Code::MissingNonce,
    Code::InvalidNonce,
    Code::MissingMacLength,
    Code::CallerNonceProhibited,
    Code::KeyMaxOpsExceeded,
    Code::InvalidMacLength,
    Code::MissingMinMacLength,
    Code::UnsupportedMinMacLength,
    Code::KeyRequiresUpgrade,
    Code::DeviceLocked,
    Code::EarlyBootEnded,
    Code::SystemError,
    Code::PermissionDenied,
    Code::KeyNotFound,
    Code::ValueCorrupted,
    Code::BackendBusy,
    Code::OperationBusy,
    Code::InvalidArgument,
    Code::TooMuchData,
    Code::RunFull,
    Code::StoreFull,
    Code::TokensFull,
    Code::EntropyFault,
    Code::NoTicket,
];

/// The code of a number; `None` where no code has it.
pub fn code_numbered(number: i64) -> Option<Code>
    ensures { result ≡ spec_code_numbered number }
{
    CODES
        .iter()
        .copied()
        .find(|code| are_equal(i64::from(code.number()), number))
}

/// Whether two signed numbers are the same.
pub fn are_equal(first: i64, second: i64) -> bool
    ensures { result ≡ int_eq first second }
{
    first.eq(&second)
}

/// The rule of a text: the letter of a table, and a number to 255 behind it.
pub fn rule_named(alloc: Global, text: &str) -> Result<Rule, LineFault>
    ensures { Gives result (spec_rule_named text.now) }
{
    let Some((letter, digits)) = text.as_bytes().split_first() else {
        return Err(LineFault::Malformed);
    };
    let Some(table) = table_lettered(*letter) else {
        return Err(LineFault::Malformed);
    };
    let number = rule_number(alloc, digits)?;
    Ok(table.rule(number))
}

fn table_lettered(letter: u8) -> Option<RuleTable>
    ensures { result ≡ spec_table_lettered letter }
{
    match letter {
        b'K' => Some(RuleTable::K),
        b'B' => Some(RuleTable::B),
        b'S' => Some(RuleTable::S),
        b'A' => Some(RuleTable::A),
        b'L' => Some(RuleTable::L),
        _ => None,
    }
}

/// The number of a rule, of 8 bits.
fn rule_number(alloc: Global, digits: &[u8]) -> Result<u8, LineFault>
    ensures { Gives result (spec_rule_number digits.now) }
{
    let value = parsed(alloc, digits)?;
    let number = u64_of(&value)?;
    u8::try_from(number).map_err(|_| LineFault::Malformed)
}
