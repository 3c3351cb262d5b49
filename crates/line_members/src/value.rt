//! The JSON value of a line.

ghost use Rattle.serde_json.specs.View.{view};
ghost use Rattle.line_members.specs.Members.{parsed as spec_parsed};
ghost use Rattle.line_members.specs.Reads.{GivesView};

use crate::LineFault;
use serde_json::Value;
use std::alloc::Global;
use std::str;

/// The JSON value of a line.
pub fn parsed(alloc: Global, line: &[u8]) -> Result<Value, LineFault>
    ensures { GivesView view result (spec_parsed line.now) }
{
    let Ok(text) = str::from_utf8(line) else {
        return Err(LineFault::Malformed);
    };
    match Value::from_str(alloc, text) {
        Ok(value) => Ok(value),
        Err(error) if error.is_memory() => Err(LineFault::Memory),
        Err(_) => Err(LineFault::Malformed),
    }
}
