//! Keys in three ordered maps: by number, by name, and how many each owner has.

ghost use Rattle.std.specs.Prelude.{◌≡◌, List, [], ◌∷◌, ◌++◌, ◌<◌, ◌^◌, length, map, find, filter, not, is_some, IsSome, IfErr, OnOk, OnErr};
ghost use Rattle.std.specs.Option.{option_copied};
ghost use Rattle.journal_records.specs.LastingPart.{has_id, is_owned, is_named};
ghost use Rattle.journal_records.specs.Effects.{with_blob, with_use};
ghost use Rattle.key_maps.specs.First.{IsFirstFrom};
ghost use Rattle.key_maps.specs.Names.{key_name};
ghost use Rattle.key_maps.specs.Rows.{AreRows, is_past};
ghost use Rattle.grants.specs.Maps.{start_of};

use crate::counts::{count_of, lower, raise};
use crate::names::{Name, Owner, name_of};
use journal_records::KeyRecord;
use std::alloc::Global;
use std::collections::BTreeMap;
use std::marker::Model;
use std::ops::Bound;
use tags::{ALIAS_BYTES, Bytes};

/// The keys, found by their number and by their name; seen as the list of them in the order of their numbers.
#[derive(Drop)]
pub(crate) struct KeyMaps {
    by_id: BTreeMap<u64, KeyRecord>,
    by_name: BTreeMap<Name, u64>,
    counts: BTreeMap<Owner, u64>,
}

impl Model for KeyMaps {
    ghost use Rattle.std.specs.Prelude.{List};
    ghost use Rattle.std.specs.BTreeMap.{values};
    ghost use Rattle.journal_records.specs.declared.record.KeyRecord.{KeyRecord};

    ghost Value = { List KeyRecord };

    ghost use Rattle.key_maps.specs.Maps.{IsIndexed};

    ghost view = { λ maps. values maps.by_id };

    ghost invariant = { IsIndexed };
}

/// Where the numbers greater than `past` begin.
fn behind(past: Option<u64>) -> Bound<u64>
    ensures { result ≡ start_of past }
{
    match past {
        Some(past) => Bound::Excluded(past),
        None => Bound::Unbounded,
    }
}

impl KeyMaps {
    pub(crate) fn new(alloc: Global) -> KeyMaps
        ensures { result ≡ [] }
    {
        KeyMaps {
            by_id: BTreeMap::new(alloc),
            by_name: BTreeMap::new(alloc),
            counts: BTreeMap::new(alloc),
        }
    }

    pub(crate) fn len(&self) -> usize
        ensures count { result ≡ length self.now }
        ensures small { result < 2 ^ 63 }
    {
        self.by_id.len()
    }

    /// The key of a number.
    pub(crate) fn numbered(&self, id: u64) -> Option<&KeyRecord>
        ensures { option_copied result ≡ find (has_id id) self.now }
    {
        self.by_id.get(&id)
    }

    /// The key of an owner and an alias.
    pub(crate) fn named(&self, domain: u8, nspace: u64, alias: &[u8]) -> Option<&KeyRecord>
        ensures { option_copied result ≡ find (is_named domain nspace alias.now) self.now }
    {
        let by_name = &self.by_name;
        if alias.len() > ALIAS_BYTES {
            return None;
        }
        let name = name_of(domain, nspace, alias);
        let id = by_name.get(&name)?;
        self.by_id.get(id)
    }

    /// How many keys an owner has.
    pub(crate) fn count(&self, domain: u8, nspace: u64) -> u64
        ensures count { result ≡ length (filter (is_owned domain nspace) self.now) }
        ensures small { result < 2 ^ 63 }
    {
        // there are fewer keys than 2^63, and no owner has more
        let _ = self.by_id.len();
        count_of(&self.counts, (domain, nspace))
    }

    /// The key of the least name from a start on.
    pub(crate) fn first_from(&self, start: Bound<Name>) -> Option<&KeyRecord>
        ensures { IsFirstFrom self.now start (option_copied result) }
    {
        match self.by_name.range((start, Bound::Unbounded)).next() {
            Some((_, id)) => self.by_id.get(id),
            None => None,
        }
    }

    /// The key of the least number greater than `past`.
    pub(crate) fn next_after(&self, past: Option<u64>) -> Option<&KeyRecord>
        ensures { option_copied result ≡ find (is_past past) self.now }
    {
        match self.by_id.range((behind(past), Bound::Unbounded)).next() {
            Some((_, key)) => Some(key),
            None => None,
        }
    }

    /// Puts a key behind the others, whose numbers are smaller and whose names are others. Where memory is wanting the
    /// key is given back.
    pub(crate) fn insert(&mut self, key: KeyRecord) -> Result<(), KeyRecord>
        requires rows { AreRows (self.old ++ key ∷ []) }
        ensures ok { OnOk result (self.new ≡ self.old ++ key ∷ []) }
        ensures back { IfErr result (λ back. back ≡ key) }
        ensures err { OnErr result (self.new ≡ self.old) }
    {
        let id = key.id;
        let owner = (key.domain, key.nspace);
        let name = name_of(key.domain, key.nspace, key.alias.as_slice());
        // its clause bounds each count
        let _ = self.by_id.len();
        let Ok(()) = raise(&mut self.counts, owner) else {
            return Err(key);
        };
        let Ok(_) = self.by_name.insert(name, id) else {
            lower(&mut self.counts, owner);
            return Err(key);
        };
        match self.by_id.insert(id, key) {
            Ok(_) => Ok(()),
            Err(fault) => {
                self.by_name.remove(&name);
                lower(&mut self.counts, owner);
                let (_, key) = fault.value;
                Err(key)
            }
        }
    }

    /// Takes out the key of a number, and tells whether there is one.
    pub(crate) fn remove(&mut self, id: u64) -> bool
        ensures held { result ≡ is_some (find (has_id id) self.old) }
        ensures rows { self.new ≡ filter (λ key. not (has_id id key)) self.old }
    {
        let Some(key) = self.by_id.remove(&id) else {
            return false;
        };
        let name = name_of(key.domain, key.nspace, key.alias.as_slice());
        self.by_name.remove(&name);
        lower(&mut self.counts, (key.domain, key.nspace));
        true
    }

    /// Takes a use from the key of a number, and tells whether there is one.
    pub(crate) fn spend(&mut self, id: u64) -> bool
        ensures held { result ≡ is_some (find (has_id id) self.old) }
        ensures rows { self.new ≡ map (with_use id) self.old }
    {
        let Some(key) = self.by_id.get_mut(&id) else {
            return false;
        };
        key.left = key.left.saturating_sub(1);
        true
    }

    /// Gives a key that is there another blob and another list.
    pub(crate) fn upgrade(&mut self, id: u64, blob: Bytes, list: Bytes)
        requires { IsSome (find (has_id id) self.old) }
        ensures { self.new ≡ map (with_blob id blob list) self.old }
    {
        match self.by_id.get_mut(&id) {
            Some(key) => {
                key.blob = blob;
                key.list = list;
            }
            None => unreachable!(),
        }
    }
}
