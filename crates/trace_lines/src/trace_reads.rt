//! The lines of a trace, read.

ghost use Rattle.std.specs.Prelude.{◌≡◌, codes, IfOk};
ghost use Rattle.std.specs.Str.{bytes_eq};
ghost use Rattle.serde_json.specs.View.{view};
ghost use Rattle.line_members.specs.Members.{needed};
ghost use Rattle.line_members.specs.Reads.{Gives};
ghost use Rattle.trace_lines.specs.ReplyReads.{reply_in as spec_reply_in};
ghost use Rattle.script_lines.specs.Acts.{event_in as spec_event_in};
ghost use Rattle.trace_lines.specs.TraceReads as spec;
ghost use Rattle.trace_lines.specs.Traces.{entry_text as spec_entry_text};
ghost use Rattle.line_members.specs.declared.alias_form.AliasForm.TheVariants.{TextOrHex};

use crate::reply_reads::reply_in;
use crate::trace::entry_text;
use line_members::{AliasForm, LineFault, needed_hex, parsed};
use rule_model::{Entry, Event, Reply};
use script_lines::event_in;
use serde_json::Value;
use std::alloc::{AllocError, Global};
use tags::Settled;

/// The entry of a line of a trace, without its LF.
///
/// An entry is given where its line is this one. A line is `Malformed` exactly where it reads as no entry, or where that entry's line is another.
pub fn entry_of(alloc: Global, line: &[u8]) -> Result<Entry, LineFault>
    ensures entry { Gives result (spec.entry_of line.now) }
    ensures spells { IfOk result (λ entry. spec_entry_text entry ≡ line.now) }
{
    let object = parsed(alloc, line)?;
    let entry = entry_in(alloc, &object)?;
    drop(object);
    unless_other(alloc, line, entry)
}

/// The entry, where its line is this.
fn unless_other(alloc: Global, line: &[u8], entry: Entry) -> Result<Entry, LineFault>
    ensures entry { Gives result (spec.unless_other line.now entry) }
    ensures spells { IfOk result (λ given. spec_entry_text given ≡ line.now) }
{
    match is_line_of(alloc, line, &entry) {
        Ok(true) => Ok(entry),
        Ok(false) => {
            drop(entry);
            Err(LineFault::Malformed)
        }
        Err(_) => {
            drop(entry);
            Err(LineFault::Memory)
        }
    }
}

fn is_line_of(alloc: Global, line: &[u8], entry: &Entry) -> Result<bool, AllocError>
    ensures { IfOk result (λ is_line. is_line ≡ bytes_eq (spec_entry_text entry.now) line.now) }
{
    let text = entry_text(alloc, entry)?;
    Ok(text.as_slice() == line)
}

fn entry_in(alloc: Global, object: &Value) -> Result<Entry, LineFault>
    ensures { Gives result (spec.entry_in (view object.now)) }
{
    match object.get("settled") {
        Some(value) => settling_in(value),
        None => acted_in(alloc, object),
    }
}

fn settling_in(value: &Value) -> Result<Entry, LineFault>
    ensures { Gives result (spec.settling_in (view value.now)) }
{
    let Some(name) = value.as_str() else {
        return Err(LineFault::Malformed);
    };
    let settled = settled_named(name).ok_or(LineFault::Malformed)?;
    Ok(Entry::Settling { settled })
}

fn settled_named(name: &str) -> Option<Settled>
    ensures { result ≡ spec.settled_named name.now }
{
    if name == "kept" {
        Some(Settled::Kept)
    } else if name == "lost" {
        Some(Settled::Lost)
    } else {
        None
    }
}

fn acted_in(alloc: Global, object: &Value) -> Result<Entry, LineFault>
    ensures { Gives result (spec.acted_in (view object.now)) }
{
    let drawn = needed_hex(alloc, object, "drawn")?;
    let reply = match needed_reply(alloc, object) {
        Ok(reply) => reply,
        Err(fault) => {
            drop(drawn);
            return Err(fault);
        }
    };
    match needed_event(alloc, object) {
        Ok(event) => Ok(Entry::Acted {
            event,
            drawn,
            reply,
        }),
        Err(fault) => {
            drop(drawn);
            drop(reply);
            Err(fault)
        }
    }
}

fn needed_reply(alloc: Global, object: &Value) -> Result<Reply, LineFault>
    ensures { Gives result (needed spec_reply_in (codes "reply") (view object.now)) }
{
    let Some(value) = object.get("reply") else {
        return Err(LineFault::Malformed);
    };
    reply_in(alloc, value)
}

fn needed_event(alloc: Global, object: &Value) -> Result<Event, LineFault>
    ensures { Gives result (needed (spec_event_in TextOrHex) (codes "event") (view object.now)) }
{
    let Some(value) = object.get("event") else {
        return Err(LineFault::Malformed);
    };
    event_in(alloc, AliasForm::TextOrHex, value)
}
