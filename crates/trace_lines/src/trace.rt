//! The lines of a trace, written.

ghost use Rattle.std.specs.Prelude.{◌≡◌, codes, Some, IfOk, OnOk};
ghost use Rattle.serde_json.specs.Data.{object as object_data, put};
ghost use Rattle.rule_model.specs.declared.event.Event.{Event};
ghost use Rattle.rule_model.specs.declared.entry.Entry.TheVariants.{Acted};
ghost use Rattle.line_members.specs.LineFeeds.{IsLine};
ghost use Rattle.script_lines.specs.Replies.{reply_members};
ghost use Rattle.trace_lines.specs.ToldWhole.{IsEntryToldWhole};
ghost use Rattle.trace_lines.specs.TraceReads.{entry_of};
ghost use Rattle.trace_lines.specs.Traces.{acted_with, entry_members, entry_text as spec_entry_text, entry_line as spec_entry_line};
ghost use Rattle.script_lines.specs.EventLines.{event_members};
ghost use Rattle.line_members.specs.Objects.{members_in};

use line_members::WrittenObject;
use rule_model::{Entry, Event, Reply};
use script_lines::{event_object, reply_object, settled_object};
use std::alloc::{AllocError, Global};
use tags::{Bytes, NoMemory};

/// The line of an entry, with its LF: an event with the bytes that were drawn and its reply, or how an earlier change was
/// settled. Before its LF it has no other, and it is read back as the entry.
pub fn entry_line(alloc: Global, entry: &Entry) -> Result<Bytes, NoMemory>
    ensures line { IfOk result (λ line. line ≡ spec_entry_line entry.now) }
    ensures one_line { IfOk result (λ line. IsLine (spec_entry_text entry.now)) }
    ensures reads_back { IfOk result (λ line. IsEntryToldWhole entry.now → entry_of (spec_entry_text entry.now) ≡ Some entry.now) }
{
    let mut line = entry_text(alloc, entry)?;
    line.push(b'\n')?;
    Ok(Bytes::of(line))
}

/// The line of an entry without its LF.
pub fn entry_text(alloc: Global, entry: &Entry) -> Result<Vec<u8>, AllocError>
    ensures text { IfOk result (λ text. text.items ≡ spec_entry_text entry.now) }
    ensures reads_back { IfOk result (λ text. IsEntryToldWhole entry.now → entry_of (spec_entry_text entry.now) ≡ Some entry.now) }
{
    let object = entry_object(alloc, entry)?;
    let text = object.text()?;
    Ok(text)
}

fn entry_object(alloc: Global, entry: &Entry) -> Result<WrittenObject, AllocError>
    ensures { IfOk result (λ object. members_in object ≡ entry_members entry.now) }
{
    match entry {
        Entry::Acted {
            event,
            drawn,
            reply,
        } => {
            let told = event_object(alloc, event)?;
            acted_object(told, drawn.as_slice(), reply)
        }
        Entry::Settling { settled } => settled_object(alloc, *settled),
    }
}

/// An event that is written before its step takes it, for the line of its entry.
#[derive(Drop)]
pub struct ToldEvent {
    object: WrittenObject,
}

impl ToldEvent {
    ghost use Rattle.trace_lines.specs.Told.{Tells};

    /// The members of an event; each input is written in hex here, and nowhere again.
    pub fn of(alloc: Global, event: &Event) -> Result<ToldEvent, NoMemory>
        ensures { IfOk result (λ told. Tells told event.now) }
    {
        let object = event_object(alloc, event)?;
        Ok(ToldEvent { object })
    }

    /// The line of the event's entry, with its LF: with the bytes that were drawn for it, and its reply.
    pub fn line(self, drawn: &[u8], reply: &Reply) -> Result<Bytes, NoMemory>
        ensures { (event : Event) → Tells self event → IfOk result (λ line. line ≡ spec_entry_line (Acted event drawn.now reply.now)) }
    {
        let ToldEvent { object } = self;
        let line = acted_object(object, drawn, reply)?.line()?;
        Ok(Bytes::of(line))
    }
}

/// The object of an act's entry, from that of its event.
fn acted_object(
    event: WrittenObject,
    drawn: &[u8],
    reply: &Reply,
) -> Result<WrittenObject, AllocError>
    ensures { IfOk result (λ object. members_in object ≡ acted_with (members_in event) drawn.now reply.now) }
{
    let alloc = event.alloc();
    let mut object = WrittenObject::new(alloc);
    object.put_object("event", event)?;
    object.put_hex("drawn", drawn)?;
    put_reply(&mut object, reply)?;
    Ok(object)
}

fn put_reply(object: &mut WrittenObject, reply: &Reply) -> Result<(), AllocError>
    ensures { OnOk result (members_in object.new ≡ put (codes "reply") (object_data (reply_members reply.now)) (members_in object.old)) }
{
    let told = reply_object(object.alloc(), reply)?;
    object.put_object("reply", told)
}
