//! How long the bodies of replies are, as far as the four bytes of a length can name it.

ghost use Rattle.std.specs.Prelude.{◌≡◌, ℕ, ◌≤◌, length, flat_map};
ghost use Rattle.wire_frames.specs.Replies as spec;
ghost use Rattle.wire_frames.specs.Sizes.{IsSize};

use super::sizes::{TOO_LONG, counted_size};
use rule_model::{Entries, Fields, Reply};
use tags::Bytes;

/// The size of a number of eight bytes, where it is there.
fn long_size(field: Option<u64>) -> usize
    ensures size { (number : ℕ) → result ≡ length (spec.long_field number field) }
    ensures small { result ≤ 9 }
{
    match field {
        None => 0,
        Some(_) => 9,
    }
}

/// The size of a number of four bytes, where it is there.
fn short_size(field: Option<u32>) -> usize
    ensures size { (number : ℕ) → result ≡ length (spec.short_field number field) }
    ensures small { result ≤ 5 }
{
    match field {
        None => 0,
        Some(_) => 5,
    }
}

/// The size of counted bytes, where they are there.
fn text_size(field: &Option<Bytes>) -> usize
    ensures size { (number : ℕ) → IsSize result (length (spec.bytes_field number field.now)) }
    ensures small { result ≤ 4294967301 }
{
    match field {
        None => 0,
        Some(bytes) => 1 + counted_size(bytes),
    }
}

/// The size of entries.
fn entries_size(entries: &[(Bytes, u64)]) -> usize
    ensures size { IsSize result (length (flat_map spec.entry_of entries.now)) }
    ensures small { result ≤ 4294967296 }
{
    let mut size = 0;
    for (alias, _) in entries {
        size = (size + counted_size(alias) + 8).min(TOO_LONG);
    }
    size
}

/// The size of a listing, where it is there.
fn listing_size(field: &Option<Entries>) -> usize
    ensures size { (number : ℕ) → IsSize result (length (spec.entries_field number field.now)) }
    ensures small { result ≤ 4294967301 }
{
    match field {
        None => 0,
        Some(entries) => 5 + entries_size(entries.as_slice()),
    }
}

/// What a connect, a new key and a begin answer in numbers.
fn begins_size(fields: &Fields) -> usize
    ensures size { result ≡ length (spec.begins_of fields.now) }
    ensures small { result ≤ 36 }
{
    long_size(fields.client)
        + long_size(fields.key)
        + long_size(fields.op)
        + long_size(fields.challenge)
}

/// What the other calls answer in numbers.
fn calls_size(fields: &Fields) -> usize
    ensures size { result ≡ length (spec.calls_of fields.now) }
    ensures small { result ≤ 36 }
{
    long_size(fields.ticket)
        + long_size(fields.pruned)
        + long_size(fields.grant)
        + long_size(fields.count)
}

/// What is said of a key in numbers.
fn facts_size(fields: &Fields) -> usize
    ensures size { result ≡ length (spec.facts_of fields.now) }
    ensures small { result ≤ 19 }
{
    short_size(fields.uses) + short_size(fields.domain) + long_size(fields.nspace)
}

/// The fields that are numbers.
fn numbers_size(fields: &Fields) -> usize
    ensures size { result ≡ length (spec.numbers_of fields.now) }
    ensures small { result ≤ 91 }
{
    begins_size(fields) + calls_size(fields) + facts_size(fields)
}

/// The fields that are bytes, and the entries.
fn texts_size(fields: &Fields) -> usize
    ensures size { IsSize result (length (spec.texts_of fields.now)) }
    ensures small { result ≤ 25769803806 }
{
    text_size(&fields.alias)
        + text_size(&fields.nonce)
        + text_size(&fields.out)
        + text_size(&fields.blob)
        + text_size(&fields.list)
        + listing_size(&fields.entries)
}

/// The size of the body of a reply.
#[tactic(auto, unfolding(crate::specs::Replies::reply_body))]
pub(super) fn reply_size(reply: &Reply) -> usize
    ensures size { IsSize result (length (spec.reply_body reply.now)) }
    ensures small { result ≤ 25769803903 }
{
    match reply {
        Reply::Done(fields) => 6 + numbers_size(fields) + texts_size(fields),
        Reply::Broken { .. } => 6,
        Reply::Stopped { .. } => 6,
    }
}
