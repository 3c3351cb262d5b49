//! Writing a reply past a window.

ghost use Rattle.std.specs.Prelude.{◌≡◌, ◌∷◌, [], ◌<◌, ◌^◌, length};
ghost use Rattle.byteorder.specs.Endian.{big_bytes};
ghost use Rattle.wire_frames.specs.Replies as spec;
ghost use Rattle.wire_frames.specs.Spelling.{counted};
ghost use Rattle.wire_frames.specs.Windows.{window_after};

use super::reply_sizes::reply_size;
use crate::window::FrameWindow;
use rule_model::{Entries, Fields, Reply};
use tags::{Bytes, Code, Rule};

/// A byte.
fn put_u8(out: &mut FrameWindow, byte: u8)
    ensures { out.new ≡ window_after out.old (byte ∷ []) }
{
    out.put(&[byte]);
}

/// A number of four bytes.
fn put_u32(out: &mut FrameWindow, number: u32)
    ensures { out.new ≡ window_after out.old (big_bytes 4 number) }
{
    out.put(&number.to_be_bytes());
}

/// A number of eight bytes.
fn put_u64(out: &mut FrameWindow, number: u64)
    ensures { out.new ≡ window_after out.old (big_bytes 8 number) }
{
    out.put(&number.to_be_bytes());
}

/// Bytes behind their length.
fn put_counted(out: &mut FrameWindow, bytes: &[u8])
    requires { length bytes.now < 2 ^ 32 }
    ensures { out.new ≡ window_after out.old (counted bytes.now) }
{
    put_u32(out, bytes.len() as u32);
    out.put(bytes);
}

/// A number of eight bytes, where it is there.
fn put_long_field(out: &mut FrameWindow, number: u8, field: Option<u64>)
    ensures { out.new ≡ window_after out.old (spec.long_field number field) }
{
    match field {
        None => {}
        Some(value) => {
            put_u8(out, number);
            put_u64(out, value);
        }
    }
}

/// A number of four bytes, where it is there.
fn put_short_field(out: &mut FrameWindow, number: u8, field: Option<u32>)
    ensures { out.new ≡ window_after out.old (spec.short_field number field) }
{
    match field {
        None => {}
        Some(value) => {
            put_u8(out, number);
            put_u32(out, value);
        }
    }
}

/// Counted bytes, where they are there.
fn put_bytes_field(out: &mut FrameWindow, number: u8, field: &Option<Bytes>)
    requires { length (spec.bytes_field number field.now) < 2 ^ 32 }
    ensures { out.new ≡ window_after out.old (spec.bytes_field number field.now) }
{
    match field {
        None => {}
        Some(bytes) => {
            put_u8(out, number);
            put_counted(out, bytes.as_slice());
        }
    }
}

/// The code.
fn put_code(out: &mut FrameWindow, code: Code)
    ensures { out.new ≡ window_after out.old (spec.code_bytes code) }
{
    out.put(&code.number().to_be_bytes());
}

/// The letter of a rule's table, and the rule's number.
fn put_rule(out: &mut FrameWindow, rule: Rule)
    ensures { out.new ≡ window_after out.old (spec.rule_bytes rule) }
{
    out.put(rule.table.letter().as_bytes());
    put_u8(out, rule.number);
}

/// What a connect, a new key and a begin answer in numbers.
fn put_begins(out: &mut FrameWindow, fields: &Fields)
    ensures { out.new ≡ window_after out.old (spec.begins_of fields.now) }
{
    put_long_field(out, 1, fields.client);
    put_long_field(out, 2, fields.key);
    put_long_field(out, 3, fields.op);
    put_long_field(out, 4, fields.challenge);
}

/// What the other calls answer in numbers.
fn put_calls(out: &mut FrameWindow, fields: &Fields)
    ensures { out.new ≡ window_after out.old (spec.calls_of fields.now) }
{
    put_long_field(out, 5, fields.ticket);
    put_long_field(out, 6, fields.pruned);
    put_long_field(out, 7, fields.grant);
    put_long_field(out, 8, fields.count);
}

/// What is said of a key in numbers.
fn put_facts(out: &mut FrameWindow, fields: &Fields)
    ensures { out.new ≡ window_after out.old (spec.facts_of fields.now) }
{
    put_short_field(out, 9, fields.uses);
    put_short_field(out, 10, fields.domain);
    put_long_field(out, 11, fields.nspace);
}

/// The fields that are numbers.
fn put_numbers(out: &mut FrameWindow, fields: &Fields)
    ensures { out.new ≡ window_after out.old (spec.numbers_of fields.now) }
{
    put_begins(out, fields);
    put_calls(out, fields);
    put_facts(out, fields);
}

/// The entries of a listing, where it is there.
fn put_entries_field(out: &mut FrameWindow, number: u8, field: &Option<Entries>)
    requires { length (spec.entries_field number field.now) < 2 ^ 32 }
    ensures { out.new ≡ window_after out.old (spec.entries_field number field.now) }
{
    match field {
        None => {}
        Some(entries) => {
            put_u8(out, number);
            put_entries(out, entries.as_slice());
        }
    }
}

/// How many entries there are, and each of them.
fn put_entries(out: &mut FrameWindow, entries: &[(Bytes, u64)])
    requires { length (spec.entries_of entries.now) < 2 ^ 32 }
    ensures { out.new ≡ window_after out.old (spec.entries_of entries.now) }
{
    put_u32(out, entries.len() as u32);
    for (alias, key) in entries {
        put_counted(out, alias.as_slice());
        put_u64(out, *key);
    }
}

/// The fields that are bytes, and the entries.
fn put_texts(out: &mut FrameWindow, fields: &Fields)
    requires { length (spec.texts_of fields.now) < 2 ^ 32 }
    ensures { out.new ≡ window_after out.old (spec.texts_of fields.now) }
{
    put_bytes_field(out, 12, &fields.alias);
    put_bytes_field(out, 13, &fields.nonce);
    put_bytes_field(out, 14, &fields.out);
    put_bytes_field(out, 15, &fields.blob);
    put_bytes_field(out, 16, &fields.list);
    put_entries_field(out, 17, &fields.entries);
}

/// The frame of a reply.
pub(crate) fn put_reply_frame(out: &mut FrameWindow, reply: &Reply)
    requires { length (spec.reply_body reply.now) < 2 ^ 32 }
    ensures { out.new ≡ window_after out.old (spec.reply_of reply.now) }
{
    put_u32(out, reply_size(reply) as u32);
    put_reply(out, reply);
}

/// The body of a reply.
#[tactic(auto, unfolding(crate::specs::Replies::reply_body))]
fn put_reply(out: &mut FrameWindow, reply: &Reply)
    requires { length (spec.reply_body reply.now) < 2 ^ 32 }
    ensures { out.new ≡ window_after out.old (spec.reply_body reply.now) }
{
    match reply {
        Reply::Done(fields) => {
            out.put(&[0; 6]);
            put_numbers(out, fields);
            put_texts(out, fields);
        }
        Reply::Broken { rule, code } => {
            put_code(out, *code);
            put_rule(out, *rule);
        }
        Reply::Stopped { code } => {
            put_code(out, *code);
            out.put(&[0; 2]);
        }
    }
}
