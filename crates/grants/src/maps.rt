//! Rows in two ordered maps, by number and by the key and uid that they join.

ghost use Rattle.std.specs.Prelude.{◌≡◌, List, [], ◌∷◌, ◌++◌, ◌<◌, ◌^◌, length, map, find, filter, not, is_some, IfSome, IfNone, OnOk, OnErr};
ghost use Rattle.std.specs.Option.{option_copied};
ghost use Rattle.std.specs.Ordering.{nat_cmp};
ghost use Rattle.std.specs.BTreeMap.{insert_entry};
ghost use Rattle.grants.specs.Table.{FindsOf};
ghost use Rattle.grants.specs.Maps.{start_of};
ghost use Rattle.grants.specs.Rows.{IsTable, is_past, is_numbered, is_for, with_bits, NoneOf};

use crate::GrantRow;
use key_domains::Permissions;
use std::alloc::Global;
use std::collections::BTreeMap;
use std::marker::Model;
use std::ops::Bound;
use tags::NoMemory;

/// The rows, found by their number and by their key and uid.
#[derive(Drop)]
pub(crate) struct GrantMaps {
    by_number: BTreeMap<u64, GrantRow>,
    by_holder: BTreeMap<(u64, u32), GrantRow>,
}

impl Model for GrantMaps {
    ghost use Rattle.std.specs.Prelude.{List};
    ghost use Rattle.std.specs.BTreeMap.{values};
    ghost use Rattle.grants.specs.declared.row.GrantRow.{GrantRow};

    ghost Value = { List GrantRow };

    ghost use Rattle.grants.specs.Maps.{IsIndexed};

    ghost view = { λ maps. values maps.by_number };

    ghost invariant = { IsIndexed };
}

/// Where the numbers greater than `past` begin.
fn start_of(past: Option<u64>) -> Bound<u64>
    ensures { result ≡ start_of past }
{
    match past {
        Some(past) => Bound::Excluded(past),
        None => Bound::Unbounded,
    }
}

/// Puts a row under its number.
fn put(rows: &mut BTreeMap<u64, GrantRow>, row: &GrantRow) -> Result<(), NoMemory>
    ensures ok { OnOk result (rows.new.entries ≡ insert_entry nat_cmp rows.old.entries row.now.grant row.now) }
    ensures err { OnErr result (rows.new.entries ≡ rows.old.entries) }
{
    rows.insert(row.grant, *row)?;
    Ok(())
}

impl GrantMaps {
    pub(crate) fn new(alloc: Global) -> GrantMaps
        ensures { result ≡ [] }
    {
        GrantMaps {
            by_number: BTreeMap::new(alloc),
            by_holder: BTreeMap::new(alloc),
        }
    }

    pub(crate) fn len(&self) -> usize
        ensures count { result ≡ length self.now }
        ensures small { result < 2 ^ 63 }
    {
        self.by_number.len()
    }

    pub(crate) fn find(&self, number: u64) -> Option<&GrantRow>
        ensures { option_copied result ≡ find (is_numbered number) self.now }
    {
        self.by_number.get(&number)
    }

    pub(crate) fn of_key(&self, key: u64, uid: u32) -> Option<&GrantRow>
        ensures { option_copied result ≡ find (is_for key uid) self.now }
    {
        self.by_holder.get(&(key, uid))
    }

    /// The row of the least number greater than `past`.
    pub(crate) fn next_after(&self, past: Option<u64>) -> Option<&GrantRow>
        ensures { option_copied result ≡ find (is_past past) self.now }
    {
        match self
            .by_number
            .range((start_of(past), Bound::Unbounded))
            .next()
        {
            Some((_, row)) => Some(row),
            None => None,
        }
    }

    /// The number of a row of a key, of the least uid.
    pub(crate) fn first_of(&self, key: u64) -> Option<u64>
        ensures found { IfSome result (λ number. FindsOf key (find (is_numbered number) self.now)) }
        ensures none { IfNone result (NoneOf key self.now) }
    {
        match self.by_holder.range((key, 0)..).next() {
            Some((holder, row)) if holder.0 == key => Some(row.grant),
            _ => None,
        }
    }

    /// Puts a row behind the others, whose numbers are smaller and which are for other keys or uids.
    pub(crate) fn insert(&mut self, row: &GrantRow) -> Result<(), NoMemory>
        requires { IsTable (self.old ++ row.now ∷ []) }
        ensures ok { OnOk result (self.new ≡ self.old ++ row.now ∷ []) }
        ensures err { OnErr result (self.new ≡ self.old) }
    {
        self.by_holder.insert((row.key, row.uid), *row)?;
        let Ok(()) = put(&mut self.by_number, row) else {
            self.by_holder.remove(&(row.key, row.uid));
            return Err(NoMemory);
        };
        Ok(())
    }

    /// Gives the row of a key and uid these bits, and tells whether there is one.
    pub(crate) fn set_bits(&mut self, key: u64, uid: u32, bits: Permissions) -> bool
        ensures held { result ≡ is_some (find (is_for key uid) self.old) }
        ensures rows { self.new ≡ map (with_bits key uid bits) self.old }
    {
        let Some(held) = self.by_holder.get_mut(&(key, uid)) else {
            return false;
        };
        held.bits = bits;
        let number = held.grant;
        let Some(row) = self.by_number.get_mut(&number) else {
            unreachable!()
        };
        row.bits = bits;
        true
    }

    /// Takes out the row of a number, if there is one.
    pub(crate) fn remove(&mut self, number: u64) -> Option<GrantRow>
        ensures found { result ≡ find (is_numbered number) self.old }
        ensures rows { self.new ≡ filter (λ row. not (is_numbered number row)) self.old }
    {
        let row = self.by_number.remove(&number)?;
        self.by_holder.remove(&(row.key, row.uid));
        Some(row)
    }
}
