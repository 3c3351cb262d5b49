//! The table of keys: the maps, and beside them the newest key.

ghost use Rattle.std.specs.Prelude.{◌≡◌, ◌∷◌, [], ◌++◌, ◌≤◌, ◌<◌, ◌^◌, ℕ, true, false, length, map, find, filter, not, nat_lt, take, OnOk, IfSome, IfNone, IsSomeAnd};
ghost use Rattle.std.specs.List.{list_all, list_any};
ghost use Rattle.std.specs.Option.{option_copied};
ghost use Rattle.std.specs.declared.cmp.Ordering.TheVariants.{Less};
ghost use Rattle.std.specs.BTreeMap.Range.{IsFromStart};
ghost use Rattle.journal_records.specs.LastingPart.{has_id, is_owned, is_named, is_of_user};
ghost use Rattle.journal_records.specs.Lookups.{IsNextName};
ghost use Rattle.journal_records.specs.Effects.{with_blob, with_use};
ghost use Rattle.key_maps.specs.First.{IsFirstFrom, start_of};
ghost use Rattle.key_maps.specs.Names as spec;
ghost use Rattle.key_maps.specs.Names.{name_cmp};
ghost use Rattle.key_maps.specs.Rows.{AreRows, NonePass, is_past};
ghost use Rattle.key_maps.specs.Table.{HasRoom, KeepsRoom};

use crate::maps::KeyMaps;
use crate::names::{Name, name_of};
use journal_records::KeyRecord;
use std::alloc::Global;
use std::cmp::Ordering;
use std::marker::Model;
use std::ops::Bound;
use tags::{ALIAS_BYTES, Bytes, NoMemory, USER_UIDS};

/// The keys by their numbers and names, and in the order of names.
///
/// A key that is added stands apart as the newest, which takes no memory; `reserve` puts it into the maps.
#[derive(Drop)]
pub struct Keys {
    maps: KeyMaps,
    newest: Option<KeyRecord>,
}

impl Model for Keys {
    ghost use Rattle.std.specs.Prelude.{◌++◌};
    ghost use Rattle.key_maps.specs.Rows.{AreRows};
    ghost use Rattle.key_maps.specs.Table.{Table, listed, places};

    ghost Value = { Table };

    ghost view = { λ keys. record { rows = keys.maps ++ listed keys.newest; spare = places keys.newest } };

    ghost invariant = { λ keys. AreRows (keys.maps ++ listed keys.newest) };
}

/// The name of a key.
fn name_of_key(key: &KeyRecord) -> Name
    requires { length key.now.alias ≤ ALIAS_BYTES }
    ensures { result ≡ spec.key_name key.now }
{
    name_of(key.domain, key.nspace, key.alias.as_slice())
}

/// Whether a key is that of an owner with this alias.
fn is_named(key: &KeyRecord, domain: u8, nspace: u64, alias: &[u8]) -> bool
    ensures { result ≡ is_named domain nspace alias.now key.now }
{
    key.domain == domain && key.nspace == nspace && key.alias.as_slice() == alias
}

/// Whether a key's number is greater than `past`; each is greater than none.
fn is_past(key: &KeyRecord, past: Option<u64>) -> bool
    ensures { result ≡ is_past past key.now }
{
    match past {
        Some(past) => past < key.id,
        None => true,
    }
}

/// Whether a key is an owner's.
fn is_owned(key: &KeyRecord, domain: u8, nspace: u64) -> bool
    ensures { result ≡ is_owned domain nspace key.now }
{
    key.domain == domain && key.nspace == nspace
}

/// Whether a key is that of an app of a user.
fn is_of_user(key: &KeyRecord, user: u32) -> bool
    ensures { result ≡ is_of_user user key.now }
{
    key.domain == 0 && key.nspace / USER_UIDS as u64 == user as u64
}

/// Whether the name of a key stands before a name.
fn is_before(key: &KeyRecord, name: &Name) -> bool
    requires { length key.now.alias ≤ ALIAS_BYTES }
    ensures before { result ≡ true → name_cmp (spec.key_name key.now) name.now ≡ Less }
    ensures other { result ≡ false → name_cmp (spec.key_name key.now) name.now ≡ Less → ⊥ }
{
    name_of_key(key).cmp(name) == Ordering::Less
}

/// Whether a name stands from a start on.
fn is_from(start: &Bound<Name>, name: &Name) -> bool
    ensures from { result ≡ true → IsFromStart name_cmp start.now name.now }
    ensures before { result ≡ false → IsFromStart name_cmp start.now name.now → ⊥ }
{
    match start {
        Bound::Included(first) => first.cmp(name) != Ordering::Greater,
        Bound::Excluded(past) => past.cmp(name) == Ordering::Less,
        Bound::Unbounded => true,
    }
}

/// As many of the bytes as an alias has at most.
fn cut(alias: &[u8]) -> &[u8]
    ensures front { result.now ≡ take ALIAS_BYTES alias.now }
    ensures short { length result.now ≤ ALIAS_BYTES }
{
    if alias.len() <= ALIAS_BYTES {
        return alias;
    }
    &alias[..ALIAS_BYTES]
}

/// Where the keys of an owner with an alias greater than `past` begin, in the order of names.
fn start_of(domain: u8, nspace: u64, past: Option<&[u8]>) -> Bound<Name>
    ensures { result ≡ start_of domain nspace (option_copied past.entry) }
{
    match past {
        Some(past) => Bound::Excluded(name_of(domain, nspace, cut(past))),
        None => Bound::Included(name_of(domain, nspace, &[])),
    }
}

impl Keys {
    /// No keys. It takes no memory.
    pub fn new(alloc: Global) -> Keys
        ensures { result.rows ≡ [] }
    {
        Keys {
            maps: KeyMaps::new(alloc),
            newest: None,
        }
    }

    /// Makes room for one more key. No other call takes memory.
    pub fn reserve(&mut self) -> Result<(), NoMemory>
        ensures room { OnOk result (HasRoom self.new) }
        ensures kept { KeepsRoom self.old self.new }
        ensures rows { self.new.rows ≡ self.old.rows }
    {
        let Some(newest) = self.newest.take() else {
            return Ok(());
        };
        if let Err(newest) = self.maps.insert(newest) {
            self.newest = Some(newest);
            return Err(NoMemory);
        }
        Ok(())
    }

    /// Adds a key, whose number is greater than the others and whose name none of them has.
    pub fn push(&mut self, key: KeyRecord)
        requires room { HasRoom self.old }
        requires rows { AreRows (self.old.rows ++ key ∷ []) }
        ensures rows { self.new.rows ≡ self.old.rows ++ key ∷ [] }
    {
        self.newest = Some(key);
    }

    /// Takes out the key of a number, if there is one.
    pub fn end(&mut self, id: u64)
        ensures rows { self.new.rows ≡ filter (λ key. not (has_id id key)) self.old.rows }
        ensures kept { KeepsRoom self.old self.new }
    {
        if self.maps.remove(id) {
            return;
        }
        let Some(newest) = &self.newest else {
            return;
        };
        if newest.id != id {
            return;
        }
        self.newest = None;
    }

    /// Takes a use from the key of a number, if there is one.
    pub fn spend(&mut self, id: u64)
        ensures rows { self.new.rows ≡ map (with_use id) self.old.rows }
        ensures kept { KeepsRoom self.old self.new }
    {
        if self.maps.spend(id) {
            return;
        }
        let Some(newest) = &mut self.newest else {
            return;
        };
        if newest.id != id {
            return;
        }
        newest.left = newest.left.saturating_sub(1);
    }

    /// Gives the key of a number, if there is one, another blob and another list.
    pub fn upgrade(&mut self, id: u64, blob: Bytes, list: Bytes)
        ensures rows { self.new.rows ≡ map (with_blob id blob list) self.old.rows }
        ensures kept { KeepsRoom self.old self.new }
    {
        if self.maps.numbered(id).is_some() {
            self.maps.upgrade(id, blob, list);
            return;
        }
        let Some(newest) = &mut self.newest else {
            return;
        };
        if newest.id != id {
            return;
        }
        newest.blob = blob;
        newest.list = list;
    }

    /// How many keys there are.
    pub fn len(&self) -> usize
        ensures count { result ≡ length self.now.rows }
        ensures orderly { AreRows self.now.rows }
    {
        self.maps.len() + if self.newest.is_some() { 1 } else { 0 }
    }

    /// The key of a number.
    #[tactic(auto, using(crate::proofs::Whole::find_whole))]
    pub fn numbered(&self, id: u64) -> Option<&KeyRecord>
        ensures key { option_copied result ≡ find (has_id id) self.now.rows }
        ensures orderly { AreRows self.now.rows }
    {
        if let Some(key) = self.maps.numbered(id) {
            return Some(key);
        }
        match &self.newest {
            Some(newest) if newest.id == id => Some(newest),
            _ => None,
        }
    }

    /// The key of the least number greater than `past`, or of the least number.
    #[tactic(auto, using(crate::proofs::Whole::find_whole))]
    pub fn next_after(&self, past: Option<u64>) -> Option<&KeyRecord>
        ensures key { option_copied result ≡ find (is_past past) self.now.rows }
        ensures orderly { AreRows self.now.rows }
    {
        if let Some(key) = self.maps.next_after(past) {
            return Some(key);
        }
        match &self.newest {
            Some(newest) if is_past(newest, past) => Some(newest),
            _ => None,
        }
    }

    /// The key of an owner and an alias.
    #[tactic(auto, using(crate::proofs::Whole::find_whole))]
    pub fn named(&self, domain: u8, nspace: u64, alias: &[u8]) -> Option<&KeyRecord>
        ensures key { option_copied result ≡ find (is_named domain nspace alias.now) self.now.rows }
        ensures orderly { AreRows self.now.rows }
    {
        if let Some(key) = self.maps.named(domain, nspace, alias) {
            return Some(key);
        }
        match &self.newest {
            Some(newest) if is_named(newest, domain, nspace, alias) => Some(newest),
            _ => None,
        }
    }

    /// Whether an owner has a key of this alias.
    pub fn has_name(&self, domain: u8, nspace: u64, alias: &[u8]) -> bool
        ensures { result ≡ list_any (is_named domain nspace alias.now) self.now.rows }
    {
        self.named(domain, nspace, alias).is_some()
    }

    /// Whether the numbers of all keys are below one.
    pub fn are_below(&self, id: u64) -> bool
        requires { 1 ≤ id }
        ensures { result ≡ list_all (λ key. nat_lt key.id id) self.now.rows }
    {
        self.next_after(Some(id - 1)).is_none()
    }

    /// The key of an owner and an alias, where the owner's domain may have more than a byte; then it has no key.
    pub fn named_in(&self, domain: u32, nspace: u64, alias: &[u8]) -> Option<&KeyRecord>
        ensures { option_copied result ≡ find (is_named domain nspace alias.now) self.now.rows }
    {
        // by its clause each key's domain has one byte
        let _ = self.len();
        let Ok(domain) = u8::try_from(domain) else {
            return None;
        };
        self.named(domain, nspace, alias)
    }

    /// How many keys an owner has.
    pub fn count(&self, domain: u8, nspace: u64) -> u64
        ensures { result ≡ length (filter (is_owned domain nspace) self.now.rows) }
    {
        let count = self.maps.count(domain, nspace);
        match &self.newest {
            Some(newest) if newest.domain == domain && newest.nspace == nspace => count + 1,
            _ => count,
        }
    }

    /// The key of the least name from a start on.
    pub(crate) fn first_from(&self, start: Bound<Name>) -> Option<&KeyRecord>
        ensures first { IsFirstFrom self.now.rows start (option_copied result) }
        ensures orderly { AreRows self.now.rows }
    {
        let held = self.maps.first_from(start);
        let Some(newest) = &self.newest else {
            return held;
        };
        let name = name_of_key(newest);
        if !is_from(&start, &name) {
            return held;
        }
        let Some(key) = held else {
            return Some(newest);
        };
        if is_before(key, &name) {
            return held;
        }
        Some(newest)
    }

    /// The owner's key of the least alias greater than `past`, by its bytes.
    pub fn next_name(&self, domain: u8, nspace: u64, past: Option<&[u8]>) -> Option<&KeyRecord>
        ensures next { IsNextName self.now.rows domain nspace (option_copied past.entry) (option_copied result) }
        ensures orderly { AreRows self.now.rows }
    {
        let Some(key) = self.first_from(start_of(domain, nspace, past)) else {
            return None;
        };
        if !is_owned(key, domain, nspace) {
            return None;
        }
        Some(key)
    }

    /// The number of some key of an owner.
    pub fn first_of_owner(&self, domain: u8, nspace: u64) -> Option<u64>
        ensures found { IfSome result (λ id. IsSomeAnd (find (has_id id) self.now.rows) (λ key. is_owned domain nspace key ≡ true)) }
        ensures none { IfNone result (NonePass (is_owned domain nspace) self.now.rows) }
        ensures orderly { AreRows self.now.rows }
    {
        let Some(key) = self.next_name(domain, nspace, None) else {
            return None;
        };
        Some(key.id)
    }

    /// The number of some key of a user's apps.
    pub fn first_of_user(&self, user: u32) -> Option<u64>
        ensures found { IfSome result (λ id. IsSomeAnd (find (has_id id) self.now.rows) (λ key. is_of_user user key ≡ true)) }
        ensures none { IfNone result (NonePass (is_of_user user) self.now.rows) }
        ensures orderly { AreRows self.now.rows }
    {
        let start = Bound::Included(name_of(0, user as u64 * USER_UIDS as u64, &[]));
        let Some(key) = self.first_from(start) else {
            return None;
        };
        if !is_of_user(key, user) {
            return None;
        }
        Some(key.id)
    }
}
