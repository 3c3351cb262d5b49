//! Reading records.

ghost use Rattle.std.specs.Prelude.{◌≡◌, ◌++◌, ℕ, List, Some, IfOk};
ghost use Rattle.journal_records.specs.declared.change.Change.{Change};
ghost use Rattle.journal_records.specs.declared.record.Record.{Record};
ghost use Rattle.byte_strings.specs.Readers as readers;
ghost use Rattle.journal_records.specs.Reading as spec;
ghost use Rattle.journal_records.specs.Reading.{Says};
ghost use Rattle.journal_records.specs.Spelling.{record_tail, tail_of, framed, IsChange, IsRecord};

use crate::change::Change;
use crate::fault::RecordFault;
use crate::record::{AREA_KINDS, KeyRecord, Record};
use byte_strings::{counted_u32_at, u8_at, u32_at, u64_at};
use gated_records::OPEN;
use grants::GrantRow;
use key_domains::Permissions;
use std::alloc::Global;
use tags::Bytes;

/// The first kind that is no change, but a row of a snapshot, and the last one.
const FIRST_ROW: u8 = 8;

const LAST_ROW: u8 = 10;

/// What was read, where nothing stands behind it.
fn ended<T: Drop>(read: T, rest: &[u8]) -> Result<T, RecordFault>
    ensures { Says (λ x. x) result (readers.ended (Some (read, rest.now))) }
{
    if !rest.is_empty() {
        return Err(RecordFault::Bad);
    }
    Ok(read)
}

#[tactic(auto, unfolding(crate::specs::Reading::created_at))]
fn created_at(alloc: Global, bytes: &[u8]) -> Result<(Change, &[u8]), RecordFault>
    ensures { Says (λ x. (x.0, x.1.now)) result (spec.created_at bytes.now) }
{
    let (id, rest) = u64_at(bytes)?;
    let (domain, rest) = u8_at(rest)?;
    let (nspace, rest) = u64_at(rest)?;
    let (alias, rest) = counted_u32_at(rest)?;
    let (blob, rest) = counted_u32_at(rest)?;
    let (list, rest) = counted_u32_at(rest)?;
    let (limit, rest) = u32_at(rest)?;
    let change = Change::Create {
        id,
        domain,
        nspace,
        alias: Bytes::copy_of(alloc, alias)?,
        blob: Bytes::copy_of(alloc, blob)?,
        list: Bytes::copy_of(alloc, list)?,
        limit,
    };
    Ok((change, rest))
}

#[tactic(auto, unfolding(crate::specs::Reading::granted_at))]
fn granted_at(bytes: &[u8]) -> Result<(Change, &[u8]), RecordFault>
    ensures { Says (λ x. (x.0, x.1.now)) result (spec.granted_at bytes.now) }
{
    let (grant, rest) = u64_at(bytes)?;
    let (key, rest) = u64_at(rest)?;
    let (uid, rest) = u32_at(rest)?;
    let (bits, rest) = u32_at(rest)?;
    let bits = Permissions::of_bits(bits);
    let row = GrantRow {
        grant,
        key,
        uid,
        bits,
    };
    Ok((Change::Grant { row }, rest))
}

#[tactic(auto, unfolding(crate::specs::Reading::upgraded_at))]
fn upgraded_at(alloc: Global, bytes: &[u8]) -> Result<(Change, &[u8]), RecordFault>
    ensures { Says (λ x. (x.0, x.1.now)) result (spec.upgraded_at bytes.now) }
{
    let (id, rest) = u64_at(bytes)?;
    let (blob, rest) = counted_u32_at(rest)?;
    let (list, rest) = counted_u32_at(rest)?;
    let change = Change::Upgrade {
        id,
        blob: Bytes::copy_of(alloc, blob)?,
        list: Bytes::copy_of(alloc, list)?,
    };
    Ok((change, rest))
}

/// The fields of a change, by its kind.
fn change_fields(alloc: Global, kind: u8, bytes: &[u8]) -> Result<(Change, &[u8]), RecordFault>
    ensures { Says (λ x. (x.0, x.1.now)) result (readers.row_of kind spec.kinds bytes.now) }
{
    match kind {
        1 => created_at(alloc, bytes),
        2 => {
            let (id, rest) = u64_at(bytes)?;
            Ok((Change::Delete { id }, rest))
        }
        3 => {
            let (id, rest) = u64_at(bytes)?;
            Ok((Change::Use { id }, rest))
        }
        4 => granted_at(bytes),
        5 => {
            let (grant, rest) = u64_at(bytes)?;
            Ok((Change::Ungrant { grant }, rest))
        }
        6 => {
            let (domain, rest) = u8_at(bytes)?;
            let (nspace, rest) = u64_at(rest)?;
            Ok((Change::Clear { domain, nspace }, rest))
        }
        7 => {
            let (user, rest) = u32_at(bytes)?;
            Ok((Change::Removed { user }, rest))
        }
        11 => upgraded_at(alloc, bytes),
        _ => Err(RecordFault::Bad),
    }
}

#[tactic(auto, unfolding(crate::specs::Reading::next_at))]
fn next_at(bytes: &[u8]) -> Result<(Record, &[u8]), RecordFault>
    ensures { Says (λ x. (x.0, x.1.now)) result (spec.next_at bytes.now) }
{
    let (key, rest) = u64_at(bytes)?;
    let (grant, rest) = u64_at(rest)?;
    Ok((Record::Next { key, grant }, rest))
}

#[tactic(auto, unfolding(crate::specs::Reading::held_at))]
fn held_at(alloc: Global, bytes: &[u8]) -> Result<(Record, &[u8]), RecordFault>
    ensures { Says (λ x. (x.0, x.1.now)) result (spec.held_at bytes.now) }
{
    let (id, rest) = u64_at(bytes)?;
    let (domain, rest) = u8_at(rest)?;
    let (nspace, rest) = u64_at(rest)?;
    let (alias, rest) = counted_u32_at(rest)?;
    let (blob, rest) = counted_u32_at(rest)?;
    let (list, rest) = counted_u32_at(rest)?;
    let (limit, rest) = u32_at(rest)?;
    let (left, rest) = u32_at(rest)?;
    let key = KeyRecord {
        id,
        domain,
        nspace,
        alias: Bytes::copy_of(alloc, alias)?,
        blob: Bytes::copy_of(alloc, blob)?,
        list: Bytes::copy_of(alloc, list)?,
        limit,
        left,
    };
    Ok((Record::Held { key }, rest))
}

#[tactic(auto, unfolding(crate::specs::Reading::held_grant_at))]
fn held_grant_at(bytes: &[u8]) -> Result<(Record, &[u8]), RecordFault>
    ensures { Says (λ x. (x.0, x.1.now)) result (spec.held_grant_at bytes.now) }
{
    let (grant, rest) = u64_at(bytes)?;
    let (key, rest) = u64_at(rest)?;
    let (uid, rest) = u32_at(rest)?;
    let (bits, rest) = u32_at(rest)?;
    let bits = Permissions::of_bits(bits);
    let row = GrantRow {
        grant,
        key,
        uid,
        bits,
    };
    Ok((Record::HeldGrant { row }, rest))
}

/// The fields of a row of a snapshot, by its kind.
fn row_at(alloc: Global, kind: u8, bytes: &[u8]) -> Result<(Record, &[u8]), RecordFault>
    ensures { Says (λ x. (x.0, x.1.now)) result (readers.row_of kind spec.rows bytes.now) }
{
    match kind {
        8 => next_at(bytes),
        9 => held_at(alloc, bytes),
        10 => held_grant_at(bytes),
        _ => Err(RecordFault::Bad),
    }
}

/// Whether a kind is that of a row of a snapshot.
fn is_row(kind: u8) -> bool
    ensures { result ≡ spec.is_row kind }
{
    FIRST_ROW <= kind && kind <= LAST_ROW
}

/// The fields of a body, by its kind.
fn fields_of(alloc: Global, kind: u8, bytes: &[u8]) -> Result<(Record, &[u8]), RecordFault>
    ensures { Says (λ x. (x.0, x.1.now)) result (spec.fields_of kind bytes.now) }
{
    if is_row(kind) {
        return row_at(alloc, kind, bytes);
    }
    let (change, rest) = change_fields(alloc, kind, bytes)?;
    Ok((Record::Change { change }, rest))
}

/// What a body spells whose kind is not greater than this.
#[tactic(auto, unfolding(crate::specs::Reading::body_at))]
fn body_in(alloc: Global, kinds: u8, body: &[u8]) -> Result<Record, RecordFault>
    ensures { Says (λ x. x) result (spec.body_in kinds body.now) }
{
    let (kind, fields) = u8_at(body)?;
    if kind > kinds {
        return Err(RecordFault::Bad);
    }
    let (it, rest) = fields_of(alloc, kind, fields)?;
    ended(it, rest)
}

/// The record that stands at the front, behind its gate, and the bytes after it.
#[tactic(auto, unfolding(crate::specs::Reading::record_at))]
fn record_at(alloc: Global, kinds: u8, bytes: &[u8]) -> Result<(Record, &[u8]), RecordFault>
    ensures { Says (λ x. (x.0, x.1.now)) result (spec.record_at kinds bytes.now) }
{
    let (body, rest) = counted_u32_at(bytes)?;
    let it = body_in(alloc, kinds, body)?;
    Ok((it, rest))
}

/// The record that stands at the front, behind its gate, and the bytes after it. `kinds` is the greatest kind that may
/// stand there: 7 in a journal, and `AREA_KINDS` in an area. Bad comes exactly where no record of these
/// kinds stands there.
pub fn read_record(alloc: Global, kinds: u8, bytes: &[u8]) -> Result<(Record, &[u8]), RecordFault>
    ensures exact { Says (λ x. (x.0, x.1.now)) result (spec.record_at kinds bytes.now) }
    ensures found { IfOk result (λ x. (bytes.now ≡ record_tail x.0 ++ x.1.now) × IsRecord kinds x.0) }
    ensures again { (it : Record) (left : List ℕ) → IsRecord kinds it → bytes.now ≡ record_tail it ++ left
        → Says {Y = Record × List ℕ} (λ x. (x.0, x.1.now)) result (Some (it, left)) }
{
    let read = record_at(alloc, kinds, bytes);
    read
}

/// A record that is a change.
fn change_of(it: Record) -> Result<Change, RecordFault>
    ensures { Says (λ x. x) result (spec.change_of it) }
{
    match it {
        Record::Change { change } => Ok(change),
        Record::Next { .. } | Record::Held { .. } | Record::HeldGrant { .. } => Err(
            RecordFault::Bad,
        ),
    }
}

/// The change whose record stands at the front, behind its gate, and the bytes after it.
#[tactic(auto, unfolding(crate::specs::Reading::change_at))]
fn change_at(alloc: Global, bytes: &[u8]) -> Result<(Change, &[u8]), RecordFault>
    ensures { Says (λ x. (x.0, x.1.now)) result (spec.change_at bytes.now) }
{
    let (it, rest) = record_at(alloc, AREA_KINDS, bytes)?;
    let change = change_of(it)?;
    Ok((change, rest))
}

/// The change whose record stands at the front, behind its gate, and the bytes after it. Bad comes exactly where no
/// record of a change stands there.
pub fn read_change(alloc: Global, bytes: &[u8]) -> Result<(Change, &[u8]), RecordFault>
    ensures exact { Says (λ x. (x.0, x.1.now)) result (spec.change_at bytes.now) }
    ensures found { IfOk result (λ x. (bytes.now ≡ tail_of x.0 ++ x.1.now) × IsChange x.0) }
    ensures again { (change : Change) (left : List ℕ) → IsChange change → bytes.now ≡ tail_of change ++ left
        → Says {Y = Change × List ℕ} (λ x. (x.0, x.1.now)) result (Some (change, left)) }
{
    let read = change_at(alloc, bytes);
    read
}

/// The change that these bytes are the record of.
#[tactic(auto, unfolding(crate::specs::Reading::record_in))]
fn record_in(alloc: Global, bytes: &[u8]) -> Result<Change, RecordFault>
    ensures exact { Says (λ x. x) result (spec.record_in bytes.now) }
    ensures found { IfOk result (λ change. (bytes.now ≡ framed change) × IsChange change) }
{
    let (gate, rest) = u8_at(bytes)?;
    if gate != OPEN {
        return Err(RecordFault::Bad);
    }
    let (change, rest) = read_change(alloc, rest)?;
    ended(change, rest)
}

/// The change that these bytes are the record of: the gate byte, the body's length and the body, and nothing more.
/// Bad comes exactly where they are the record of none.
pub fn parse(alloc: Global, bytes: &[u8]) -> Result<Change, RecordFault>
    ensures exact { Says (λ x. x) result (spec.record_in bytes.now) }
    ensures found { IfOk result (λ change. (bytes.now ≡ framed change) × IsChange change) }
    ensures again { (change : Change) → IsChange change → bytes.now ≡ framed change
        → Says (λ x. x) result (Some change) }
{
    let read = record_in(alloc, bytes);
    read
}
