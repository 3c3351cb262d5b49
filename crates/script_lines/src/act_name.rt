//! The act that a line names.

ghost use Rattle.std.specs.Prelude.{◌≡◌};
ghost use Rattle.serde_json.specs.View.{view};
ghost use Rattle.line_members.specs.Reads.{Gives};
ghost use Rattle.script_lines.specs.Acts.{name_of as spec_name_of};

use line_members::LineFault;
use rule_model::ActKind;
use serde_json::Value;

/// The kind of the act that a line names.
pub fn name_of(object: &Value) -> Result<ActKind, LineFault>
    ensures { Gives result (spec_name_of (view object.now)) }
{
    let Some(value) = object.get("do") else {
        return Err(LineFault::Malformed);
    };
    let Some(text) = value.as_str() else {
        return Err(LineFault::Malformed);
    };
    ActKind::of_name(text).ok_or(LineFault::Malformed)
}
