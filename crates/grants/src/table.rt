//! The table of grants: two ordered maps, and beside them the newest row.

ghost use Rattle.std.specs.Prelude.{◌≡◌, ◌==◌, ℕ, IfSome, IfNone, OnOk};
ghost use Rattle.std.specs.Option.{option_copied};
ghost use Rattle.grants.specs.Rows.{is_behind, is_numbered, is_of};
ghost use Rattle.grants.specs.Table.{numbered, next_after, shared, grant_count, IsOrderly, IsEmpty, HasRoom, IsNew, IsHeld, IsNext, AreBelow, IsAddedBelow, IsHolderRow, FindsOf, SameGrants, KeepsRoom, AddsGrant, SetsBits, DropsGrant, DropsKey, numbered_after, shared_after, unless, HasNone};

use crate::GrantRow;
use crate::maps::GrantMaps;
use std::alloc::Global;
use std::marker::Model;
use tags::NoMemory;

/// Whether a number stands behind another; each stands behind none.
fn is_behind(past: Option<u64>, number: u64) -> bool
    ensures { result ≡ is_behind past number }
{
    match past {
        Some(past) => past < number,
        None => true,
    }
}

/// The grants by their numbers, and by the key and uid that they join.
///
/// A row that is added stands apart as the newest, which takes no memory; `reserve` puts it into the maps.
#[derive(Drop)]
pub struct Grants {
    maps: GrantMaps,
    newest: Option<GrantRow>,
}

impl Model for Grants {
    ghost use Rattle.std.specs.Prelude.{◌++◌};
    ghost use Rattle.grants.specs.Rows.{IsTable};
    ghost use Rattle.grants.specs.Table.{Table};
    ghost use Rattle.grants.specs.Newest.{listed, places};

    ghost Value = { Table };

    ghost view = { λ grants. record { rows = grants.maps ++ listed grants.newest; spare = places grants.newest } };

    ghost invariant = { λ grants. IsTable (grants.maps ++ listed grants.newest) };
}

impl Grants {
    /// No grants. It takes no memory.
    pub fn new(alloc: Global) -> Grants
        ensures empty { IsEmpty result }
        ensures by_number { (number : ℕ) → numbered result number ≡ None }
        ensures by_key { (key uid : ℕ) → shared result key uid ≡ None }
    {
        Grants {
            maps: GrantMaps::new(alloc),
            newest: None,
        }
    }

    /// Makes room for one more row. No other call takes memory.
    pub fn reserve(&mut self) -> Result<(), NoMemory>
        ensures room { OnOk result (HasRoom self.new) }
        ensures kept { KeepsRoom self.old self.new }
        ensures same { SameGrants self.old self.new }
        ensures by_number { (number : ℕ) → numbered self.new number ≡ numbered self.old number }
        ensures by_key { (key uid : ℕ) → shared self.new key uid ≡ shared self.old key uid }
    {
        if let Some(newest) = self.newest {
            self.maps.insert(&newest)?;
            self.newest = None;
        }
        Ok(())
    }

    /// Shares a key with a uid: the grant that they have takes the row's bits and keeps its number, and where they have
    /// none the row is added. A row that is added needs room, and a number greater than each that is held, as grants are
    /// counted.
    pub fn grant(&mut self, row: GrantRow)
        requires room { IsNew self.old row → HasRoom self.old }
        requires next { IsNew self.old row → IsNext self.old row }
        ensures added { IsNew self.old row → AddsGrant self.old self.new row }
        ensures replaced { IsHeld self.old row → SetsBits self.old self.new row }
        ensures kept { IsHeld self.old row → KeepsRoom self.old self.new }
        ensures by_number { (number : ℕ) → numbered self.new number ≡ numbered_after self.old row number }
        ensures by_key { (key uid : ℕ) → shared self.new key uid ≡ shared_after self.old row key uid }
        ensures below { (number : ℕ) → AreBelow self.old number → IsAddedBelow self.old row number → AreBelow self.new number }
    {
        if self.maps.set_bits(row.key, row.uid, row.bits) {
            return;
        }
        if let Some(newest) = self.newest {
            self.newest = Some(GrantRow {
                bits: row.bits,
                ..newest
            });
            return;
        }
        self.newest = Some(row);
    }

    /// Takes out the grant of a number; `None` exactly where there is none.
    pub fn ungrant(&mut self, grant: u64) -> Option<GrantRow>
        ensures found { result ≡ numbered self.old grant }
        ensures out { DropsGrant self.old self.new grant }
        ensures kept { KeepsRoom self.old self.new }
        ensures by_number { (number : ℕ) → numbered self.new number ≡ unless (is_numbered grant) (numbered self.old number) }
        ensures by_key { (key uid : ℕ) → shared self.new key uid ≡ unless (is_numbered grant) (shared self.old key uid) }
    {
        if let Some(row) = self.maps.remove(grant) {
            return Some(row);
        }
        let Some(newest) = self.newest else {
            return None;
        };
        if newest.grant != grant {
            return None;
        }
        self.newest = None;
        Some(newest)
    }

    /// Takes out every grant of a key, in as many steps as there are.
    pub fn end_key(&mut self, key: u64)
        ensures out { DropsKey self.old self.new key }
        ensures kept { KeepsRoom self.old self.new }
        ensures by_number { (number : ℕ) → numbered self.new number ≡ unless (is_of key) (numbered self.old number) }
        ensures by_key { (other uid : ℕ) → shared self.new other uid ≡ unless (is_of key) (shared self.old other uid) }
    {
        let mut next = self.first_of(key);
        'rows: while let Some(number) = next {
            self.ungrant(number);
            next = self.first_of(key);
        }
    }

    /// The grant of a number; `None` exactly where there is none.
    #[tactic(auto, using(crate::proofs::Whole::find_whole))]
    pub fn find(&self, grant: u64) -> Option<&GrantRow>
        ensures row { option_copied result ≡ numbered self.now grant }
        ensures number { IfSome result (λ row. row.now.grant ≡ grant) }
    {
        if let Some(row) = self.maps.find(grant) {
            return Some(row);
        }
        match &self.newest {
            Some(newest) if newest.grant == grant => Some(newest),
            _ => None,
        }
    }

    /// The grant of a key to a uid; `None` exactly where there is none.
    #[tactic(auto, using(crate::proofs::Whole::find_whole))]
    pub fn of_key(&self, key: u64, uid: u32) -> Option<&GrantRow>
        ensures row { option_copied result ≡ shared self.now key uid }
        ensures holder { IfSome result (λ row. IsHolderRow self.now key uid row.now) }
    {
        if let Some(row) = self.maps.of_key(key, uid) {
            return Some(row);
        }
        match &self.newest {
            Some(newest) if newest.key == key && newest.uid == uid => Some(newest),
            _ => None,
        }
    }

    /// The grant of the least number greater than `past`, or of the least number; `None` exactly where there is none.
    #[tactic(auto, using(crate::proofs::Whole::find_whole))]
    pub fn next_after(&self, past: Option<u64>) -> Option<&GrantRow>
        ensures row { option_copied result ≡ next_after self.now past }
        ensures orderly { IsOrderly self.now }
    {
        if let Some(row) = self.maps.next_after(past) {
            return Some(row);
        }
        match &self.newest {
            Some(newest) if is_behind(past, newest.grant) => Some(newest),
            _ => None,
        }
    }

    /// How many grants there are.
    pub fn len(&self) -> usize
        ensures count { result ≡ grant_count self.now }
        ensures orderly { IsOrderly self.now }
    {
        self.maps.len() + if self.newest.is_some() { 1 } else { 0 }
    }

    /// Whether there is no grant.
    pub fn is_empty(&self) -> bool
        ensures { result ≡ (grant_count self.now == 0) }
    {
        self.len() == 0
    }

    /// The number of some grant of a key.
    #[tactic(auto, using(crate::proofs::Whole::find_whole))]
    fn first_of(&self, key: u64) -> Option<u64>
        ensures found { IfSome result (λ number. FindsOf key (numbered self.now number)) }
        ensures none { IfNone result (HasNone self.now key) }
        ensures orderly { IsOrderly self.now }
    {
        if let Some(number) = self.maps.first_of(key) {
            return Some(number);
        }
        match self.newest {
            Some(newest) if newest.key == key => Some(newest.grant),
            _ => None,
        }
    }
}
