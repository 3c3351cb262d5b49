//! Writing records.

ghost use Rattle.std.specs.Prelude.{◌≡◌, ℕ, ◌<◌, ◌≤◌, ◌+◌, ◌^◌, ◌∷◌, [], ◌++◌, length, take, drop, IfOk, OnOk};
ghost use Rattle.journal_records.specs.Spelling.{body_of, framed, closed_of, AreFields, IsShort};
ghost use Rattle.journal_records.specs.Spelling.{record_body, record_framed, record_closed, key_fields, grant_fields, key_of, AreRecordFields, IsShortRecord};
ghost use Rattle.journal_records.specs.declared.change.Change.TheVariants as changes;
ghost use Rattle.journal_records.specs.declared.record.Record.TheVariants as records;
ghost use Rattle.byteorder.specs.Endian.{big_bytes};

use crate::change::Change;
use crate::record::{HeldNumbers, KeyRecord, Record};
use byte_strings::{place_bytes, place_counted_u32, place_u32, place_u64};
use gated_records::{CLOSED, OPEN};
use grants::GrantRow;
use std::alloc::Global;
use tags::{Bytes, NoMemory};

/// How many bytes the row of the next numbers has, with its gate.
pub const NEXT_ROW: usize = 22;
/// How many bytes the row of a key has besides its alias, its blob and its list, with its gate.
pub const KEY_ROW: usize = 43;
/// How many bytes the row of a grant has, with its gate.
pub const GRANT_ROW: usize = 30;

/// How many bytes a body has.
fn body_length(change: &Change) -> usize
    requires { IsShort change.now }
    ensures length { result ≡ length (body_of change.now) }
{
    match change {
        Change::Create {
            alias,
            blob,
            list,
            ..
        } => 34 + alias.len() + blob.len() + list.len(),
        Change::Delete { .. } => 9,
        Change::Use { .. } => 9,
        Change::Grant { .. } => 25,
        Change::Ungrant { .. } => 9,
        Change::Clear { .. } => 10,
        Change::Removed { .. } => 5,
        Change::Upgrade { blob, list, .. } => 17 + blob.len() + list.len(),
    }
}

/// Writes a kind and a key's fields up to its limit behind the first `at` bytes, and answers where they end.
fn put_key(
    out: &mut [u8],
    at: usize,
    kind: u8,
    numbers: HeldNumbers,
    alias: &[u8],
    blob: &[u8],
    list: &[u8],
) -> usize
    requires short { (length alias.now < 2 ^ 32) × (length blob.now < 2 ^ 32) × (length list.now < 2 ^ 32) }
    requires room { at + length (kind ∷ key_fields numbers alias.now blob.now list.now) ≤ length out.old }
    ensures place { result ≡ at + length (kind ∷ key_fields numbers alias.now blob.now list.now) }
    ensures front { take result out.new ≡ take at out.old ++ kind ∷ key_fields numbers alias.now blob.now list.now }
    ensures rest { (n : ℕ) → result ≤ n → drop n out.new ≡ drop n out.old }
    ensures size { length out.new ≡ length out.old }
{
    let at = place_bytes(out, at, &[kind]);
    let at = place_u64(out, at, numbers.id);
    let at = place_bytes(out, at, &[numbers.domain]);
    let at = place_u64(out, at, numbers.nspace);
    let at = place_counted_u32(out, at, alias);
    let at = place_counted_u32(out, at, blob);
    let at = place_counted_u32(out, at, list);
    place_u32(out, at, numbers.limit)
}

/// Writes a kind and a grant's fields behind the first `at` bytes, and answers where they end.
fn put_grant(out: &mut [u8], at: usize, kind: u8, row: &GrantRow) -> usize
    requires room { at + 25 ≤ length out.old }
    ensures place { result ≡ at + 25 }
    ensures front { take result out.new ≡ take at out.old ++ kind ∷ grant_fields row.now }
    ensures fields { AreFields (changes.Grant row.now) }
    ensures rest { (n : ℕ) → result ≤ n → drop n out.new ≡ drop n out.old }
    ensures size { length out.new ≡ length out.old }
{
    let at = place_bytes(out, at, &[kind]);
    let at = place_u64(out, at, row.grant);
    let at = place_u64(out, at, row.key);
    let at = place_u32(out, at, row.uid);
    place_u32(out, at, row.bits.bits())
}

/// Writes a body behind the first `at` bytes, and answers where it ends.
fn put_body(out: &mut [u8], at: usize, change: &Change) -> usize
    requires short { IsShort change.now }
    requires room { at + length (body_of change.now) ≤ length out.old }
    ensures place { result ≡ at + length (body_of change.now) }
    ensures front { take result out.new ≡ take at out.old ++ body_of change.now }
    ensures rest { (n : ℕ) → result ≤ n → drop n out.new ≡ drop n out.old }
    ensures size { length out.new ≡ length out.old }
    ensures fields { AreFields change.now }
{
    match change {
        Change::Create {
            id,
            domain,
            nspace,
            alias,
            blob,
            list,
            limit,
        } => {
            let numbers = HeldNumbers {
                id: *id,
                domain: *domain,
                nspace: *nspace,
                limit: *limit,
                left: *limit,
            };
            put_key(
                out,
                at,
                1,
                numbers,
                alias.as_slice(),
                blob.as_slice(),
                list.as_slice(),
            )
        }
        Change::Delete { id } => {
            let at = place_bytes(out, at, &[2]);
            place_u64(out, at, *id)
        }
        Change::Use { id } => {
            let at = place_bytes(out, at, &[3]);
            place_u64(out, at, *id)
        }
        Change::Grant { row } => put_grant(out, at, 4, row),
        Change::Ungrant { grant } => {
            let at = place_bytes(out, at, &[5]);
            place_u64(out, at, *grant)
        }
        Change::Clear { domain, nspace } => {
            let at = place_bytes(out, at, &[6, *domain]);
            place_u64(out, at, *nspace)
        }
        Change::Removed { user } => {
            let at = place_bytes(out, at, &[7]);
            place_u32(out, at, *user)
        }
        Change::Upgrade { id, blob, list } => {
            let at = place_bytes(out, at, &[11]);
            let at = place_u64(out, at, *id);
            let at = place_counted_u32(out, at, blob.as_slice());
            place_counted_u32(out, at, list.as_slice())
        }
    }
}

/// How many bytes `frame_into` writes: the framed record and its closing byte.
#[tactic(auto, unfolding(crate::specs::Spelling::record_tail))]
pub fn framed_length(change: &Change) -> usize
    requires { IsShort change.now }
    ensures { result ≡ length (closed_of change.now) }
{
    body_length(change) + 6
}

/// Writes an open gate and the length of a body, and answers where the body stands.
fn put_head(out: &mut [u8], size: u32) -> usize
    requires { 5 ≤ length out.old }
    ensures place { result ≡ 5 }
    ensures front { take result out.new ≡ 75 ∷ big_bytes 4 size }
    ensures rest { (n : ℕ) → result ≤ n → drop n out.new ≡ drop n out.old }
    ensures size { length out.new ≡ length out.old }
{
    let at = place_bytes(out, 0, &[OPEN]);
    place_u32(out, at, size)
}

/// Writes a shut gate behind the first `at` bytes, and answers where it ends.
fn close(out: &mut [u8], at: usize) -> usize
    requires { at + 1 ≤ length out.old }
    ensures place { result ≡ at + 1 }
    ensures front { take result out.new ≡ take at out.old ++ 0 ∷ [] }
    ensures rest { (n : ℕ) → result ≤ n → drop n out.new ≡ drop n out.old }
    ensures size { length out.new ≡ length out.old }
{
    place_bytes(out, at, &[CLOSED])
}

/// Writes the record of a change, and a byte 00 behind it, at the front of `out`, and answers how many bytes these are.
/// The bytes behind them stay. It takes no memory.
#[tactic(auto, unfolding(crate::specs::Spelling::record_tail))]
pub fn frame_into(change: &Change, out: &mut [u8]) -> usize
    requires short { IsShort change.now }
    requires room { length (closed_of change.now) ≤ length out.old }
    ensures count { result ≡ length (closed_of change.now) }
    ensures front { take result out.new ≡ closed_of change.now }
    ensures rest { drop result out.new ≡ drop result out.old }
    ensures size { length out.new ≡ length out.old }
    ensures fields { AreFields change.now }
{
    let at = put_head(out, body_length(change) as u32);
    let at = put_body(out, at, change);
    close(out, at)
}

/// Writes the row of the next numbers, as `frame_into` does the record of a change.
#[tactic(auto, unfolding(crate::specs::Spelling::record_tail))]
pub fn frame_next_into(key: u64, grant: u64, out: &mut [u8]) -> usize
    requires { NEXT_ROW + 1 ≤ length out.old }
    ensures count { result ≡ NEXT_ROW + 1 }
    ensures front { take result out.new ≡ record_closed (records.Next key grant) }
    ensures rest { drop result out.new ≡ drop result out.old }
    ensures size { length out.new ≡ length out.old }
{
    let at = put_head(out, 17);
    let at = place_bytes(out, at, &[8]);
    let at = place_u64(out, at, key);
    let at = place_u64(out, at, grant);
    close(out, at)
}

/// Writes the row of a key, as `frame_into` does the record of a change, from where its parts lie.
#[tactic(auto, unfolding(crate::specs::Spelling::record_tail))]
pub fn frame_key_into(
    numbers: HeldNumbers,
    alias: &[u8],
    blob: &[u8],
    list: &[u8],
    out: &mut [u8],
) -> usize
    requires short { 38 + length alias.now + length blob.now + length list.now < 2 ^ 32 }
    requires room { KEY_ROW + length alias.now + length blob.now + length list.now + 1 ≤ length out.old }
    ensures count { result ≡ KEY_ROW + length alias.now + length blob.now + length list.now + 1 }
    ensures front { take result out.new ≡ record_closed (records.Held (key_of numbers alias.now blob.now list.now)) }
    ensures rest { drop result out.new ≡ drop result out.old }
    ensures size { length out.new ≡ length out.old }
{
    let length = 38 + alias.len() + blob.len() + list.len();
    let at = put_head(out, length as u32);
    let at = put_key(out, at, 9, numbers, alias, blob, list);
    let at = place_u32(out, at, numbers.left);
    close(out, at)
}

/// Writes the row of a grant, as `frame_into` does the record of a change.
#[tactic(auto, unfolding(crate::specs::Spelling::record_tail))]
pub fn frame_grant_into(row: &GrantRow, out: &mut [u8]) -> usize
    requires { GRANT_ROW + 1 ≤ length out.old }
    ensures count { result ≡ GRANT_ROW + 1 }
    ensures front { take result out.new ≡ record_closed (records.HeldGrant row.now) }
    ensures rest { drop result out.new ≡ drop result out.old }
    ensures size { length out.new ≡ length out.old }
    ensures fields { AreRecordFields (records.HeldGrant row.now) }
{
    let at = put_head(out, 25);
    let at = put_grant(out, at, 10, row);
    close(out, at)
}

/// How many bytes `frame_record_into` writes.
pub fn record_length(it: &Record) -> usize
    requires { IsShortRecord it.now }
    ensures { result ≡ length (record_closed it.now) }
{
    match it {
        Record::Change { change } => framed_length(change),
        Record::Next { .. } => NEXT_ROW + 1,
        Record::Held { key } => KEY_ROW + key.alias.len() + key.blob.len() + key.list.len() + 1,
        Record::HeldGrant { .. } => GRANT_ROW + 1,
    }
}

/// Writes a record, as `frame_into` does that of a change.
pub fn frame_record_into(it: &Record, out: &mut [u8]) -> usize
    requires short { IsShortRecord it.now }
    requires room { length (record_closed it.now) ≤ length out.old }
    ensures count { result ≡ length (record_closed it.now) }
    ensures front { take result out.new ≡ record_closed it.now }
    ensures rest { drop result out.new ≡ drop result out.old }
    ensures size { length out.new ≡ length out.old }
    ensures fields { AreRecordFields it.now }
{
    match it {
        Record::Change { change } => frame_into(change, out),
        Record::Next { key, grant } => frame_next_into(*key, *grant, out),
        Record::Held { key } => {
            let (alias, blob, list) = (
                key.alias.as_slice(),
                key.blob.as_slice(),
                key.list.as_slice(),
            );
            frame_key_into(key.numbers(), alias, blob, list, out)
        }
        Record::HeldGrant { row } => frame_grant_into(row, out),
    }
}

/// The record of a change, without a closing byte.
pub fn frame(alloc: Global, change: &Change) -> Result<Bytes, NoMemory>
    requires { IsShort change.now }
    ensures record { IfOk result (λ bytes. bytes ≡ framed change.now) }
    ensures fields { OnOk result (AreFields change.now) }
{
    let size = framed_length(change);
    let mut out = vec![in alloc; 0; size]?;
    frame_into(change, &mut out);
    out.truncate(size - 1);
    Ok(Bytes::of(out))
}
