//! The acts on operations.

ghost use Rattle.std.specs.Prelude.{◌≡◌, OnOk};
ghost use Rattle.serde_json.specs.View.{view};
ghost use Rattle.line_members.specs.Reads.{Gives};
ghost use Rattle.rule_model.specs.declared.act_kind.ActKind.TheVariants as names;
ghost use Rattle.script_lines.specs.Acts.{plain_act_of};
ghost use Rattle.rule_model.specs.declared.event.Act.TheVariants as acts;
ghost use Rattle.script_lines.specs.EventLines.{with_act};
ghost use Rattle.line_members.specs.Objects.{members_in};

use line_members::{LineFault, WrittenObject, hex_or_empty, needed_u64, optional_hex};
use rule_model::Act;
use serde_json::Value;
use std::alloc::{AllocError, Global};
use tags::Bytes;

/// An updateAad: its members `op` and `input` (hex), which is empty where it is not there.
pub fn update_aad(alloc: Global, object: &Value) -> Result<Act, LineFault>
    ensures { Gives result (plain_act_of names.UpdateAad (view object.now)) }
{
    let op = needed_u64(object, "op")?;
    let input = hex_or_empty(alloc, object, "input")?;
    Ok(Act::EnterAad { op, input })
}

/// An update: its members `op` and `input` (hex), which is empty where it is not there.
pub fn update(alloc: Global, object: &Value) -> Result<Act, LineFault>
    ensures { Gives result (plain_act_of names.Update (view object.now)) }
{
    let op = needed_u64(object, "op")?;
    let input = hex_or_empty(alloc, object, "input")?;
    Ok(Act::EnterUpdate { op, input })
}

/// The members of an update and of an updateAad.
pub fn put_update(object: &mut WrittenObject, op: u64, input: &Bytes) -> Result<(), AllocError>
    ensures { OnOk result (members_in object.new ≡ with_act (acts.EnterUpdate op input.now) (members_in object.old)) }
{
    object.put_number("op", op)?;
    object.put_hex("input", input.as_slice())
}

/// A finish: its members `op` and `input`, and `signature` (hex), where there is one.
pub fn finish(alloc: Global, object: &Value) -> Result<Act, LineFault>
    ensures { Gives result (plain_act_of names.Finish (view object.now)) }
{
    let op = needed_u64(object, "op")?;
    let input = hex_or_empty(alloc, object, "input")?;
    let signature = optional_hex(alloc, object, "signature")?;
    Ok(Act::EnterFinish {
        op,
        input,
        signature,
    })
}

/// The members of a finish.
pub fn put_finish(
    object: &mut WrittenObject,
    op: u64,
    input: &Bytes,
    signature: &Option<Bytes>,
) -> Result<(), AllocError>
    ensures { OnOk result (members_in object.new ≡ with_act (acts.EnterFinish op input.now signature.now) (members_in object.old)) }
{
    put_update(object, op, input)?;
    object.put_hex_if("signature", signature)
}

/// An abort: its member `op`.
pub fn abort(object: &Value) -> Result<Act, LineFault>
    ensures { Gives result (plain_act_of names.Abort (view object.now)) }
{
    let op = needed_u64(object, "op")?;
    Ok(Act::Abort { op })
}

/// A leave: its member `ticket`.
pub fn leave(object: &Value) -> Result<Act, LineFault>
    ensures { Gives result (plain_act_of names.Leave (view object.now)) }
{
    let ticket = needed_u64(object, "ticket")?;
    Ok(Act::Leave { ticket })
}
