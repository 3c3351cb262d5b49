//! The reply that an object tells.

ghost use Rattle.std.specs.Prelude.{◌≡◌};
ghost use Rattle.serde_json.specs.View.{view, items_view};
ghost use Rattle.line_members.specs.Members.{optional};
ghost use Rattle.line_members.specs.Members.{hex_of as spec_hex_of, alias_of as spec_alias_of};
ghost use Rattle.line_members.specs.Reads.{Gives, GivesView, GivesInto};
ghost use Rattle.trace_lines.specs.ReplyReads as spec;
ghost use Rattle.line_members.specs.declared.alias_form.AliasForm.TheVariants.{Text};

use crate::codes::{are_equal, code_numbered, rule_named};
use line_members::{
    AliasForm, LineFault, alias_of, optional_alias, optional_hex, optional_u32, optional_u64,
    two_of, u64_of,
};
use rule_model::{Entries, Fields, Reply};
use serde_json::Value;
use std::alloc::Global;
use tags::{Bytes, Code, Rule};

/// The reply of an object.
pub fn reply_in(alloc: Global, object: &Value) -> Result<Reply, LineFault>
    ensures { Gives result (spec.reply_in (view object.now)) }
{
    let Some(value) = object.get("code") else {
        return Err(LineFault::Malformed);
    };
    let number = signed_of(value)?;
    reply_numbered(alloc, number, object)
}

/// A whole number with a sign.
fn signed_of(value: &Value) -> Result<i64, LineFault>
    ensures { Gives result (spec.signed_of (view value.now)) }
{
    value.as_i64().ok_or(LineFault::Malformed)
}

fn reply_numbered(alloc: Global, number: i64, object: &Value) -> Result<Reply, LineFault>
    ensures { Gives result (spec.reply_numbered number (view object.now)) }
{
    if are_equal(number, 0) {
        let fields = fields_in(alloc, object)?;
        return Ok(Reply::Done(fields));
    }
    let Some(code) = code_numbered(number) else {
        return Err(LineFault::Malformed);
    };
    refused_by(alloc, code, object)
}

/// The reply with a code, and with the rule that is broken where the object names one.
fn refused_by(alloc: Global, code: Code, object: &Value) -> Result<Reply, LineFault>
    ensures { Gives result (spec.refused_by code (spec.rule_member (view object.now))) }
{
    let Some(value) = object.get("rule") else {
        return Ok(Reply::Stopped { code });
    };
    let rule = rule_of_data(alloc, value)?;
    Ok(Reply::Broken { rule, code })
}

fn rule_of_data(alloc: Global, value: &Value) -> Result<Rule, LineFault>
    ensures { Gives result (spec.rule_of_data (view value.now)) }
{
    let Some(text) = value.as_str() else {
        return Err(LineFault::Malformed);
    };
    rule_named(alloc, text)
}

fn fields_in(alloc: Global, object: &Value) -> Result<Fields, LineFault>
    ensures { Gives result (spec.fields_in (view object.now)) }
{
    let mut fields = numbers_in(object)?;
    match read_bytes(alloc, object, &mut fields) {
        Ok(()) => Ok(fields),
        Err(fault) => {
            drop(fields);
            Err(fault)
        }
    }
}

fn numbers_in(object: &Value) -> Result<Fields, LineFault>
    ensures { Gives result (spec.numbers_in (view object.now)) }
{
    let client = optional_u64(object, "client")?;
    let key = optional_u64(object, "key")?;
    let op = optional_u64(object, "op")?;
    let challenge = optional_u64(object, "challenge")?;
    let ticket = optional_u64(object, "ticket")?;
    let pruned = optional_u64(object, "pruned")?;
    let grant = optional_u64(object, "grant")?;
    let count = optional_u64(object, "count")?;
    let uses = optional_u32(object, "uses")?;
    let domain = optional_u32(object, "domain")?;
    let nspace = optional_u64(object, "nspace")?;
    Ok(Fields {
        client,
        key,
        op,
        challenge,
        ticket,
        pruned,
        grant,
        count,
        uses,
        domain,
        nspace,
        alias: None,
        nonce: None,
        out: None,
        blob: None,
        list: None,
        entries: None,
    })
}

fn read_bytes(alloc: Global, object: &Value, fields: &mut Fields) -> Result<(), LineFault>
    ensures { GivesInto result fields.new (spec.bytes_in fields.old (view object.now)) }
{
    read_alias(alloc, object, "alias", &mut fields.alias)?;
    read_hex(alloc, object, "nonce", &mut fields.nonce)?;
    read_hex(alloc, object, "out", &mut fields.out)?;
    read_hex(alloc, object, "blob", &mut fields.blob)?;
    read_hex(alloc, object, "list", &mut fields.list)?;
    read_entries(alloc, object, "entries", &mut fields.entries)?;
    Ok(())
}

/// A field that is an alias.
fn read_alias(
    alloc: Global,
    object: &Value,
    name: &str,
    field: &mut Option<Bytes>,
) -> Result<(), LineFault>
    ensures { GivesInto result field.new (optional (spec_alias_of Text) name.now (view object.now)) }
{
    *field = optional_alias(alloc, AliasForm::Text, object, name)?;
    Ok(())
}

/// A field that is bytes.
fn read_hex(
    alloc: Global,
    object: &Value,
    name: &str,
    field: &mut Option<Bytes>,
) -> Result<(), LineFault>
    ensures { GivesInto result field.new (optional spec_hex_of name.now (view object.now)) }
{
    *field = optional_hex(alloc, object, name)?;
    Ok(())
}

/// A field that is the entries of a listing.
fn read_entries(
    alloc: Global,
    object: &Value,
    name: &str,
    field: &mut Option<Entries>,
) -> Result<(), LineFault>
    ensures { GivesInto result field.new (optional spec.entries_of name.now (view object.now)) }
{
    *field = match object.get(name) {
        None => None,
        Some(value) => Some(entries_of(alloc, value)?),
    };
    Ok(())
}

fn entries_of(alloc: Global, value: &Value) -> Result<Entries, LineFault>
    ensures { Gives result (spec.entries_of (view value.now)) }
{
    let Some(pairs) = value.as_array() else {
        return Err(LineFault::Malformed);
    };
    let entries = entries_in(alloc, pairs.as_slice())?;
    Ok(Entries::of(entries))
}

fn entries_in(alloc: Global, pairs: &[Value]) -> Result<Vec<(Bytes, u64)>, LineFault>
    ensures { GivesView (λ entries. entries.items) result (spec.entries_in (items_view pairs.now)) }
{
    let mut out = Vec::new(alloc);
    'pairs: for pair in pairs {
        let entry = entry_of(alloc, pair)?;
        out.push(entry)?;
    }
    Ok(out)
}

fn entry_of(alloc: Global, pair: &Value) -> Result<(Bytes, u64), LineFault>
    ensures { Gives result (spec.entry_of (view pair.now)) }
{
    let Some((alias, key)) = two_of(pair) else {
        return Err(LineFault::Malformed);
    };
    let alias = alias_of(alloc, AliasForm::Text, alias)?;
    match u64_of(key) {
        Ok(key) => Ok((alias, key)),
        Err(fault) => {
            drop(alias);
            Err(fault)
        }
    }
}
