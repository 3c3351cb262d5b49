//! The rows of a policy, from JSON.

ghost use Rattle.std.specs.Prelude.{◌≡◌, option_map};
ghost use Rattle.serde_json.specs.View.{items_view, view};
ghost use Rattle.device_files.specs.Policy as spec;
ghost use Rattle.device_files.specs.Reads.{GivesView};

use crate::FileFault;
use serde_json::Value;
use std::alloc::Global;
use std::fmt::{Display, Formatter};
use std::{fmt, str};
use tags::{POLICY_ROWS, Policy, PolicyRow};

/// A whole number of at most 64 bits.
fn u64_of(value: &Value) -> Option<u64>
    ensures { result ≡ spec.u64_of (view value.now) }
{
    value.as_u64()
}

/// A whole number of at most 32 bits.
fn u32_of(value: &Value) -> Option<u32>
    ensures { result ≡ spec.u32_of (view value.now) }
{
    let number = u64_of(value)?;
    u32::try_from(number).ok()
}

/// The row of an array of exactly a uid, a namespace and permission bits.
fn row_of(row: &Value) -> Option<PolicyRow>
    ensures { result ≡ spec.row_of (view row.now) }
{
    if row.get(3usize).is_some() {
        return None;
    }
    let uid = u32_of(row.get(0usize)?)?;
    let nspace = u64_of(row.get(1usize)?)?;
    let bits = u32_of(row.get(2usize)?)?;
    Some(PolicyRow { uid, nspace, bits })
}

/// The rows, in the order given.
fn rows_in(alloc: Global, rows: &[Value]) -> Result<Vec<PolicyRow>, FileFault>
    ensures { GivesView (λ out. out.items) result (spec.rows_in (items_view rows.now)) }
{
    let mut out = Vec::new(alloc);
    'rows: for row in rows {
        let Some(row) = row_of(row) else {
            return Err(FileFault::Malformed);
        };
        out.push(row)?;
    }
    Ok(out)
}

/// The JSON value of a text.
fn parsed(alloc: Global, bytes: &[u8]) -> Result<Value, FileFault>
    ensures { GivesView view result (spec.parsed bytes.now) }
{
    let Ok(text) = str::from_utf8(bytes) else {
        return Err(FileFault::Malformed);
    };
    match Value::from_str(alloc, text) {
        Ok(value) => Ok(value),
        Err(error) if error.is_memory() => Err(FileFault::Memory),
        Err(_) => Err(FileFault::Malformed),
    }
}

/// The policy that the bytes of `policy.json` spell: an array of at most `POLICY_ROWS` rows, each an array of exactly three whole
/// numbers, the uid, the namespace and the permission bits. `Malformed` exactly where they spell none.
pub fn policy_in(alloc: Global, bytes: &[u8]) -> Result<Policy, FileFault>
    ensures { GivesView (λ policy. policy) result (spec.policy_in bytes.now) }
{
    let value = parsed(alloc, bytes)?;
    let Some(rows) = value.as_array() else {
        return Err(FileFault::Malformed);
    };
    let rows = rows_in(alloc, rows.as_slice())?;
    Policy::of(rows).ok_or(FileFault::Malformed)
}

/// What is wrong first in a text that spells no policy, for whoever is to mend it.
#[derive(Clone, Copy, Debug, PartialEq, Eq)]
pub enum PolicyFault {
    /// it is no JSON text (RFC 8259) in UTF-8
    NoJson,
    /// it is no array
    NoArray,
    /// the row of this number, counted from 1, is no array of exactly a uid, a namespace and permission bits
    Row { number: u64 },
    /// it has more than `POLICY_ROWS` rows
    TooManyRows,
    /// want of memory, and nothing else
    Memory,
}

impl Display for PolicyFault {
    fn fmt<W: fmt::Write>(&self, f: &mut Formatter<W>) -> fmt::Result {
        match self {
            PolicyFault::NoJson => f.write_str("it is no JSON text"),
            PolicyFault::NoArray => f.write_str("it is no array of rows"),
            PolicyFault::Row { number } => write!(
                f,
                "row {number} is no array of exactly a uid, a namespace and permission bits, as [1000, 100, 509]"
            ),
            PolicyFault::TooManyRows => write!(f, "it has more than {POLICY_ROWS} rows"),
            PolicyFault::Memory => f.write_str("want of memory"),
        }
    }
}

/// What is wrong first in these bytes, of which `policy_in` says that they are malformed.
pub fn policy_fault(alloc: Global, bytes: &[u8]) -> PolicyFault {
    let value = match parsed(alloc, bytes) {
        Ok(value) => value,
        Err(FileFault::Malformed) => return PolicyFault::NoJson,
        Err(FileFault::Memory) => return PolicyFault::Memory,
    };
    let Some(rows) = value.as_array() else {
        return PolicyFault::NoArray;
    };
    match rows.as_slice().iter().position(|row| row_of(row).is_none()) {
        Some(place) => PolicyFault::Row {
            number: place as u64 + 1,
        },
        None => PolicyFault::TooManyRows,
    }
}
