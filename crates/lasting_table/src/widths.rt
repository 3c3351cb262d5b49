//! Each number of a change, a key and a grant has the width of its type.

ghost use Rattle.std.specs.Prelude.{◌≡◌, ◌<◌, ◌^◌, true};
ghost use Rattle.journal_records.specs.declared.record.Record.TheVariants as records;
ghost use Rattle.journal_records.specs.LastingPart.{Lasting};
ghost use Rattle.journal_records.specs.Needs.{is_met};
ghost use Rattle.journal_records.specs.Spelling.{AreFields, AreRecordFields};
ghost use Rattle.journal_records.specs.States.{may_hold};

use grants::GrantRow;
use journal_records::{Change, KeyRecord};

/// A number of 64 bits.
pub(crate) fn is_wide(_number: u64)
    ensures { _number < 2 ^ 64 }
{}

/// A number of 32 bits.
fn is_narrow(_number: u32)
    ensures { _number < 2 ^ 32 }
{}

/// A number of 8 bits.
fn is_byte(_number: u8)
    ensures { _number < 2 ^ 8 }
{}

/// A change whose need is met has fields that a record can hold.
pub(crate) fn change_widths(change: &Change)
    ensures { (part : Lasting) → is_met part change.now ≡ true → AreFields change.now }
{
    match change {
        Change::Create {
            id,
            domain,
            nspace,
            limit,
            ..
        } => {
            is_wide(*id);
            is_byte(*domain);
            is_wide(*nspace);
            is_narrow(*limit);
        }
        Change::Delete { id } => is_wide(*id),
        Change::Use { id } => is_wide(*id),
        Change::Grant { row } => grant_widths(row),
        Change::Ungrant { grant } => is_wide(*grant),
        Change::Clear { domain, nspace } => {
            is_byte(*domain);
            is_wide(*nspace);
        }
        Change::Removed { user } => is_narrow(*user),
        Change::Upgrade { id, .. } => is_wide(*id),
    }
}

/// So has the row of a key that may be held.
pub(crate) fn key_widths(key: &KeyRecord)
    ensures { (part : Lasting) → may_hold part key.now ≡ true → AreRecordFields (records.Held key.now) }
{
    is_wide(key.id);
    is_byte(key.domain);
    is_wide(key.nspace);
    is_narrow(key.limit);
    is_narrow(key.left);
}

/// And that of a grant.
pub(crate) fn grant_widths(row: &GrantRow)
    ensures { AreRecordFields (records.HeldGrant row.now) }
{
    is_wide(row.grant);
    is_wide(row.key);
    is_narrow(row.uid);
    is_narrow(row.bits.bits());
}
