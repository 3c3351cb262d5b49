//! The event that a line spells.

ghost use Rattle.std.specs.Prelude.{◌≡◌, IfOk};
ghost use Rattle.serde_json.specs.View.{view};
ghost use Rattle.line_members.specs.Reads.{Gives};
ghost use Rattle.script_lines.specs.Acts.{act_of as spec_act_of, client_of as spec_client_of, event_in as spec_event_in, hold_of as spec_hold_of, reading_of as spec_reading_of};
ghost use Rattle.script_lines.specs.ToldWhole.{IsToldWhole};
ghost use Rattle.line_members.specs.declared.alias_form.AliasForm.TheVariants.{Text};
ghost use Rattle.script_lines.specs.Lines.{event_of as spec_event_of, line_in as spec_line_in};

use crate::act_name::name_of;
use crate::key_acts::{
    clear_namespace, create_operation, delete_key, generate_key, get_key_entry,
    get_number_of_entries, grant, import_key, import_wrapped_key, list_entries_batched, ungrant,
    upgrade_key,
};
use crate::service_acts::{
    add_auth_token, connect, device_locked, device_unlocked, restart, user_removed,
};
use crate::step_acts::{abort, finish, leave, update, update_aad};
use line_members::{AliasForm, LineFault, flag_or_false, needed_u64, parsed, two_of, u64_of};
use rule_model::{Act, ActKind, Event, Line, Reading};
use serde_json::Value;
use std::alloc::Global;

/// The event that a line spells, without its LF, and whether an enter waits for its leave.
///
/// A line is `Malformed` exactly where it is no JSON object of a script (RFC 8259). The line of each event that is given spells it again.
pub fn event_of(alloc: Global, line: &[u8]) -> Result<Line, LineFault>
    ensures event { Gives result (spec_event_of line.now) }
    ensures whole { IfOk result (λ line. IsToldWhole Text line.event) }
{
    let object = parsed(alloc, line)?;
    line_in(alloc, &object)
}

fn line_in(alloc: Global, object: &Value) -> Result<Line, LineFault>
    ensures { Gives result (spec_line_in (view object.now)) }
{
    let event = event_in(alloc, AliasForm::Text, object)?;
    match hold_of(event.act.kind(), object) {
        Ok(hold) => Ok(Line { event, hold }),
        Err(fault) => {
            drop(event);
            Err(fault)
        }
    }
}

/// The event of an object.
pub fn event_in(alloc: Global, form: AliasForm, object: &Value) -> Result<Event, LineFault>
    ensures { Gives result (spec_event_in form (view object.now)) }
{
    let reading = reading_of(object)?;
    let name = name_of(object)?;
    let client = client_of(name, object)?;
    let act = act_of(alloc, form, name, object)?;
    Ok(Event {
        reading,
        client,
        act,
    })
}

fn reading_of(object: &Value) -> Result<Reading, LineFault>
    ensures { Gives result (spec_reading_of (view object.now)) }
{
    let Some(value) = object.get("t") else {
        return Err(LineFault::Malformed);
    };
    let Some((boot, wall)) = two_of(value) else {
        return Err(LineFault::Malformed);
    };
    let boot = u64_of(boot)?;
    let wall = u64_of(wall)?;
    Ok(Reading { boot, wall })
}

fn client_of(name: ActKind, object: &Value) -> Result<u64, LineFault>
    ensures { Gives result (spec_client_of name (view object.now)) }
{
    if name.row().has_client {
        needed_u64(object, "c")
    } else {
        Ok(0)
    }
}

fn hold_of(name: ActKind, object: &Value) -> Result<bool, LineFault>
    ensures { Gives result (spec_hold_of name (view object.now)) }
{
    if name.row().enters {
        flag_or_false(object, "hold")
    } else {
        Ok(false)
    }
}

/// The act of a name, with its fields from the members of the line.
fn act_of(alloc: Global, form: AliasForm, name: ActKind, object: &Value) -> Result<Act, LineFault>
    ensures { Gives result (spec_act_of form name (view object.now)) }
{
    match name {
        ActKind::Connect => connect(object),
        ActKind::Disconnect => Ok(Act::Disconnect),
        ActKind::GenerateKey => generate_key(alloc, form, object),
        ActKind::ImportKey => import_key(alloc, form, object),
        ActKind::CreateOperation => create_operation(alloc, form, object),
        ActKind::UpdateAad => update_aad(alloc, object),
        ActKind::Update => update(alloc, object),
        ActKind::Finish => finish(alloc, object),
        ActKind::Abort => abort(object),
        ActKind::GetKeyEntry => get_key_entry(alloc, form, object),
        ActKind::DeleteKey => delete_key(alloc, form, object),
        ActKind::Grant => grant(alloc, form, object),
        ActKind::Ungrant => ungrant(alloc, form, object),
        ActKind::GetNumberOfEntries => get_number_of_entries(object),
        ActKind::ListEntriesBatched => list_entries_batched(alloc, form, object),
        ActKind::AddAuthToken => add_auth_token(alloc, object),
        ActKind::DeviceLocked => device_locked(object),
        ActKind::DeviceUnlocked => device_unlocked(object),
        ActKind::EarlyBootEnded => Ok(Act::EarlyBootEnded),
        ActKind::ClearNamespace => clear_namespace(object),
        ActKind::UserRemoved => user_removed(object),
        ActKind::Leave => leave(object),
        ActKind::Restart => restart(alloc, object),
        ActKind::UpgradeKey => upgrade_key(alloc, form, object),
        ActKind::ImportWrappedKey => import_wrapped_key(alloc, form, object),
    }
}
