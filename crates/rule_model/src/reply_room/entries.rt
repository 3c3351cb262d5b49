//! Room for the entries of a listing.

ghost use Rattle.std.specs.Prelude.{◌≡◌, ◌<◌, ◌≤◌, ◌++◌, ◌∷◌, [], length, IfOk, vec_capacity};
ghost use Rattle.rule_model.specs.ReplyRooms.{AreWithin, IsListingWithin};
ghost use Rattle.tags.specs.declared.limits.TheConstants.{ALIAS_BYTES};

use super::texts::TextRoom;
use crate::Entries;
use std::alloc::Global;
use tags::{ALIAS_BYTES, Bytes, NoMemory};

/// Room for an alias.
#[derive(Drop)]
struct AliasRoom {
    text: TextRoom,
    ghost whole: { text.most ≡ ALIAS_BYTES },
}

impl AliasRoom {
    fn of(alloc: Global) -> Result<AliasRoom, NoMemory> {
        Ok(AliasRoom {
            text: TextRoom::of(alloc, ALIAS_BYTES)?,
        })
    }

    fn copy(self, alias: &Bytes) -> Bytes
        requires { length alias.now ≤ ALIAS_BYTES }
        ensures { result ≡ alias.now }
    {
        let AliasRoom { text } = self;
        text.copy(alias.as_slice())
    }
}

/// Room for so many aliases.
fn alias_rooms(alloc: Global, count: usize) -> Result<Vec<AliasRoom>, NoMemory>
    ensures { IfOk result (λ rooms. length rooms.items ≡ count) }
{
    let mut rooms = Vec::with_capacity(alloc, count)?;
    for _made in 0..count {
        rooms.push(AliasRoom::of(alloc)?)?;
    }
    Ok(rooms)
}

/// Appends an entry where there is room.
fn put(entries: &mut Vec<(Bytes, u64)>, alias: Bytes, key: u64)
    requires { length entries.old.items < vec_capacity entries.old }
    ensures items { entries.new.items ≡ entries.old.items ++ (alias, key) ∷ [] }
    ensures room { vec_capacity entries.old ≤ vec_capacity entries.new }
{
    match entries.push((alias, key)) {
        Ok(()) => {}
        Err(_) => unreachable!(),
    }
}

/// Room for so many entries at most.
#[derive(Drop)]
pub(super) struct EntriesRoom {
    pub(super) most: usize,
    aliases: Vec<AliasRoom>,
    entries: Vec<(Bytes, u64)>,
    ghost enough: { most ≤ vec_capacity entries },
    ghost empty: { length entries.items ≡ 0 },
    ghost all: { length aliases.items ≡ most },
}

impl EntriesRoom {
    pub(super) fn of(alloc: Global, most: usize) -> Result<EntriesRoom, NoMemory>
        ensures { IfOk result (λ room. room.most ≡ most) }
    {
        let aliases = alias_rooms(alloc, most)?;
        Ok(EntriesRoom {
            most,
            aliases,
            entries: Vec::with_capacity(alloc, most)?,
        })
    }

    /// Room for no entry. It takes no memory.
    pub(super) fn empty(alloc: Global) -> EntriesRoom
        ensures { result.most ≡ 0 }
    {
        EntriesRoom {
            most: 0,
            aliases: Vec::new(alloc),
            entries: Vec::new(alloc),
        }
    }

    /// The same entries. It takes no memory.
    fn copy(self, source: &[(Bytes, u64)]) -> Entries
        requires { AreWithin self.most source.now }
        ensures { result ≡ source.now }
    {
        let EntriesRoom {
            mut aliases,
            mut entries,
            ..
        } = self;
        for (alias, key) in source {
            let Some(room) = aliases.pop() else {
                unreachable!();
            };
            put(&mut entries, room.copy(alias), *key);
        }
        Entries::of(entries)
    }

    /// The same listing. It takes no memory.
    pub(super) fn copy_field(self, field: &Option<Entries>) -> Option<Entries>
        requires { IsListingWithin self.most field.now }
        ensures { result ≡ field.now }
    {
        match field {
            None => None,
            Some(entries) => Some(self.copy(entries.as_slice())),
        }
    }
}
