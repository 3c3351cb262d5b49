//! The line that an event spells.

ghost use Rattle.std.specs.Prelude.{◌≡◌, false, Some, IfOk, OnOk};
ghost use Rattle.line_members.specs.Objects.{members_in};
ghost use Rattle.line_members.specs.declared.alias_form.AliasForm.TheVariants.{Text};
ghost use Rattle.script_lines.specs.EventLines.{event_members, with_client, event_line as spec_event_line};
ghost use Rattle.script_lines.specs.Lines.{event_of};
ghost use Rattle.script_lines.specs.ToldWhole.{IsToldWhole};

use crate::act_line::put_act;
use line_members::WrittenObject;
use rule_model::Event;
use std::alloc::{AllocError, Global};
use tags::{Bytes, NoMemory};

/// The compact JSON object of an event, without LF: `c` where the act has a client, `do`, each field of the act by its
/// name, and `t`, in byte order. What is absent is left out; `params` is hex. Where its aliases are UTF-8, as in each event
/// of a script, it is a line of a script that spells the event, without hold.
pub fn event_line(alloc: Global, event: &Event) -> Result<Bytes, NoMemory>
    ensures text { IfOk result (λ text. text ≡ spec_event_line event.now) }
    ensures reads_back { IfOk result (λ text. IsToldWhole Text event.now → event_of text ≡ Some (record { event = event.now; hold = false })) }
{
    let object = event_object(alloc, event)?;
    let text = object.text()?;
    Ok(Bytes::of(text))
}

/// The object of an event.
pub fn event_object(alloc: Global, event: &Event) -> Result<WrittenObject, AllocError>
    ensures { IfOk result (λ object. members_in object ≡ event_members event.now) }
{
    let mut object = WrittenObject::new(alloc);
    let kind = event.act.kind();
    object.put_pair("t", event.reading.boot, event.reading.wall)?;
    object.put_str("do", kind.text())?;
    put_client(&mut object, event)?;
    put_act(&mut object, &event.act)?;
    Ok(object)
}

/// The member `c`, where the act has a client.
fn put_client(object: &mut WrittenObject, event: &Event) -> Result<(), AllocError>
    ensures { OnOk result (members_in object.new ≡ with_client event.now (members_in object.old)) }
{
    if event.act.kind().row().has_client {
        object.put_number("c", event.client)
    } else {
        Ok(())
    }
}
