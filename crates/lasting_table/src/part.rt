//! The lasting part, in memory.

ghost use Rattle.std.specs.Prelude.{◌≡◌, ◌<◌, ◌≤◌, ◌^◌, ◌++◌, ◌∷◌, [], ℕ, List, true, false, length, find, is_some, nat_lt, IsSome, OnOk, OnErr, IfSome, ◌&&◌};
ghost use Rattle.std.specs.Option.{option_copied, option_map};
ghost use Rattle.grants.specs.Table as grant_table;
ghost use Rattle.grants.specs.Rows.{is_for};
ghost use Rattle.grants.specs.declared.row.GrantRow.{GrantRow};
ghost use Rattle.journal_records.specs.declared.change.Change.TheVariants as changes;
ghost use Rattle.journal_records.specs.declared.record.KeyRecord.{KeyRecord};
ghost use Rattle.journal_records.specs.LastingPart.{has_id, is_owned, is_named, is_of_user, without_keys};
ghost use Rattle.journal_records.specs.Needs.{is_met, is_owner, has_place_for, is_grant_numbered, has_uses};
ghost use Rattle.journal_records.specs.Effects.{after, with_key, used, granted, is_last_use, upgraded};
ghost use Rattle.journal_records.specs.States.{has_uses_within, is_given, may_hold, may_hold_grant};
ghost use Rattle.journal_records.specs.Storable.{key_row_length, key_rows_length, snapshot_length};
ghost use Rattle.std.specs.List.{list_all, list_any};
ghost use Rattle.key_maps.specs.Rows.{AreBelow, AreRows, IsFit};
ghost use Rattle.key_maps.specs.Table.{HasRoom, KeepsRoom};
ghost use Rattle.tags.specs.Descriptor as descriptors;

use crate::widths::is_wide;
use grants::{GrantRow, Grants};
use journal_records::{Change, GRANT_ROW, KEY_ROW, KeyRecord, NEXT_ROW};
use key_maps::Keys;
use std::alloc::Global;
use tags::{
    ALIAS_BYTES, BLOB_BYTES, Bytes, KEPT_LIST_BYTES, MOST_GRANTS, MOST_KEYS, MOST_USER,
    NUMBERS_END, NoMemory, is_text,
};

/// Keys, grants and the numbers that the next of each takes; and how many bytes the rows of the keys have in a snapshot.
#[derive(Drop)]
pub(crate) struct Part {
    pub(crate) keys: Keys,
    pub(crate) grants: Grants,
    next_key: u64,
    next_grant: u64,
    key_bytes: u64,
    ghost keys_below: { AreBelow next_key keys.rows },
    ghost grants_below: { grant_table.AreBelow grants next_grant },
    ghost long: { key_bytes ≡ key_rows_length keys.rows },
}

/// Whether bytes may be an alias: 1 to `ALIAS_BYTES` bytes of UTF-8.
fn is_alias(alias: &[u8]) -> bool
    ensures { result ≡ descriptors.is_alias alias.now }
{
    1 <= alias.len() && alias.len() <= ALIAS_BYTES && is_text(alias)
}

/// Whether there may be an owner of this domain and nspace: an app's uid of 32 bits, or a namespace.
fn is_owner(domain: u8, nspace: u64) -> bool
    ensures { result ≡ is_owner domain nspace }
{
    domain == 2 || (domain == 0 && nspace < 1 << 32)
}

/// Whether a number was given before the next one.
fn is_given(number: u64, next: u64) -> bool
    ensures { result ≡ is_given number next }
{
    1 <= number && number < next
}

/// Whether a key that is limited has uses left, up to its limit, and one that is not has none.
fn has_uses_within(key: &KeyRecord) -> bool
    ensures { result ≡ has_uses_within key.now.limit key.now.left }
{
    key.left <= key.limit && (key.limit == 0 || 1 <= key.left)
}

/// How many bytes the row of a key has in a snapshot.
fn row_length(key: &KeyRecord) -> u64
    requires { key_row_length key.now < 2 ^ 64 }
    ensures { result ≡ key_row_length key.now }
{
    (KEY_ROW + key.alias.len() + key.blob.len() + key.list.len()) as u64
}

impl Part {
    ghost use Rattle.lasting_table.specs.TableView.{HasRoomForKey, HasRoomForGrant, HasRoomFor, KeepsRoom as KeepsRooms, CanMake, takes_memory};
    ghost use Rattle.lasting_table.specs.Parts.{part_of, held_of, may_be, parts_bytes, row_bytes};
    ghost use Rattle.journal_records.specs.LastingPart.{empty_lasting};

    /// No keys and no grants. It takes no memory.
    pub(crate) fn empty(alloc: Global) -> Part
        ensures { part_of result ≡ empty_lasting }
    {
        Part {
            keys: Keys::new(alloc),
            grants: Grants::new(alloc),
            next_key: 1,
            next_grant: 1,
            key_bytes: 0,
        }
    }

    /// How many bytes a snapshot has. It walks no key.
    pub(crate) fn snapshot_length(&self) -> u64
        requires { snapshot_length (part_of self.now) < 2 ^ 64 }
        ensures { result ≡ snapshot_length (part_of self.now) }
    {
        NEXT_ROW as u64 + (self.key_bytes + GRANT_ROW as u64 * self.grants.len() as u64)
    }

    /// The numbers of the next key and of the next grant.
    pub(crate) fn next_numbers(&self) -> (u64, u64)
        ensures { result ≡ ((part_of self.now).next_key, (part_of self.now).next_grant) }
    {
        (self.next_key, self.next_grant)
    }

    /// Whether there is place for one more key: the key under its name makes place.
    pub(crate) fn has_place_for(&self, domain: u8, nspace: u64, alias: &[u8]) -> bool
        ensures { result ≡ has_place_for domain nspace alias.now (part_of self.now) }
    {
        let count = self.keys.len();
        if count < MOST_KEYS {
            return true;
        }
        let rebound = self.keys.named(domain, nspace, alias).is_some();
        rebound && count <= MOST_KEYS
    }

    /// Whether a grant has the number that it must have.
    fn is_grant_numbered(&self, row: &GrantRow) -> bool
        ensures { result ≡ is_grant_numbered (grant_table.shared self.now.grants row.now.key row.now.uid) row.now (part_of self.now) }
    {
        match self.grants.of_key(row.key, row.uid) {
            Some(held) => row.grant == held.grant,
            None => {
                row.grant == self.next_grant
                    && (row.grant < NUMBERS_END && self.grants.len() < MOST_GRANTS)
            }
        }
    }

    /// Whether a key of this number is live.
    pub(crate) fn is_live(&self, id: u64) -> bool
        ensures { result ≡ list_any (has_id id) self.now.keys.rows }
    {
        self.keys.numbered(id).is_some()
    }

    /// Whether a live key of this number has uses left.
    fn has_uses(&self, id: u64) -> bool
        ensures { result ≡ list_any (has_uses id) self.now.keys.rows }
    {
        match self.keys.numbered(id) {
            Some(key) => key.left > 0,
            None => false,
        }
    }

    /// Whether there may be one more key of this owner, alias and lengths of blob and list.
    fn may_be(&self, domain: u8, nspace: u64, alias: &[u8], blob: usize, list: usize) -> bool
        ensures { result ≡ may_be domain nspace alias.now blob list (part_of self.now) }
    {
        is_owner(domain, nspace)
            && (is_alias(alias)
                && (blob <= BLOB_BYTES
                    && (list <= KEPT_LIST_BYTES && self.has_place_for(domain, nspace, alias))))
    }

    /// Whether the need of a change is met.
    pub(crate) fn meets(&self, change: &Change) -> bool
        ensures { result ≡ is_met (part_of self.now) change.now }
    {
        match change {
            Change::Create {
                id,
                domain,
                nspace,
                alias,
                blob,
                list,
                ..
            } => {
                (*id == self.next_key && *id < NUMBERS_END)
                    && self.may_be(*domain, *nspace, alias.as_slice(), blob.len(), list.len())
            }
            Change::Delete { id } => self.is_live(*id),
            Change::Use { id } => self.has_uses(*id),
            Change::Grant { row } => self.is_live(row.key) && self.is_grant_numbered(row),
            Change::Ungrant { grant } => self.grants.find(*grant).is_some(),
            Change::Clear { domain, .. } => *domain == 0 || *domain == 2,
            Change::Removed { user } => *user <= MOST_USER,
            Change::Upgrade { id, blob, list } => {
                self.is_live(*id) && (blob.len() <= BLOB_BYTES && list.len() <= KEPT_LIST_BYTES)
            }
        }
    }

    /// Makes room for one more key.
    pub(crate) fn reserve_key(&mut self) -> Result<(), NoMemory>
        ensures room { OnOk result (HasRoomForKey (held_of self.new)) }
        ensures kept { KeepsRooms (held_of self.old) (held_of self.new) }
        ensures same { part_of self.new ≡ part_of self.old }
    {
        self.keys.reserve()
    }

    /// Makes room for one more grant.
    pub(crate) fn reserve_grant(&mut self) -> Result<(), NoMemory>
        ensures room { OnOk result (HasRoomForGrant (held_of self.new)) }
        ensures kept { KeepsRooms (held_of self.old) (held_of self.new) }
        ensures same { part_of self.new ≡ part_of self.old }
    {
        self.grants.reserve()
    }

    /// Makes room for a change. Only those that make a key or a grant take memory.
    pub(crate) fn reserve(&mut self, change: &Change) -> Result<(), NoMemory>
        ensures room { OnOk result (HasRoomFor change.now (held_of self.new)) }
        ensures kept { KeepsRooms (held_of self.old) (held_of self.new) }
        ensures same { part_of self.new ≡ part_of self.old }
        ensures memory { OnErr result (takes_memory change.now ≡ true) }
    {
        match change {
            Change::Create { .. } => self.reserve_key(),
            Change::Grant { .. } => self.reserve_grant(),
            _ => Ok(()),
        }
    }

    /// Whether a key may be held, as the row of a snapshot says it.
    pub(crate) fn may_hold(&self, key: &KeyRecord) -> bool
        ensures { result ≡ may_hold (part_of self.now) key.now }
    {
        is_given(key.id, self.next_key)
            && (self.keys.are_below(key.id)
                && (!self
                    .keys
                    .has_name(key.domain, key.nspace, key.alias.as_slice())
                    && (has_uses_within(key)
                        && (key.id < NUMBERS_END
                            && self.may_be(
                                key.domain,
                                key.nspace,
                                key.alias.as_slice(),
                                key.blob.len(),
                                key.list.len(),
                            )))))
    }

    /// Whether the numbers of all grants are below one.
    fn are_grants_below(&self, number: u64) -> bool
        requires { 1 ≤ number }
        ensures { result ≡ list_all (λ row. nat_lt row.grant number) self.now.grants.rows }
    {
        self.grants.next_after(Some(number - 1)).is_none()
    }

    /// Whether a key is shared with a uid.
    fn is_shared(&self, key: u64, uid: u32) -> bool
        ensures { result ≡ list_any (is_for key uid) self.now.grants.rows }
    {
        self.grants.of_key(key, uid).is_some()
    }

    /// Whether a grant may be held, as the row of a snapshot says it.
    pub(crate) fn may_hold_grant(&self, row: &GrantRow) -> bool
        ensures { result ≡ may_hold_grant (part_of self.now) row.now }
    {
        is_given(row.grant, self.next_grant)
            && (self.are_grants_below(row.grant)
                && (self.is_live(row.key)
                    && (!self.is_shared(row.key, row.uid) && self.grants.len() < MOST_GRANTS)))
    }

    /// How many bytes the row of the key of a number has; 0 where there is none.
    fn row_bytes(&self, id: u64) -> u64
        ensures bytes { result ≡ row_bytes (find (has_id id) self.now.keys.rows) }
        ensures orderly { AreRows self.now.keys.rows }
    {
        is_wide(self.key_bytes);
        match self.keys.numbered(id) {
            Some(key) => row_length(key),
            None => 0,
        }
    }

    /// Ends a live key, and its grants.
    fn end_key(&mut self, id: u64)
        requires { IsSome (find (has_id id) self.old.keys.rows) }
        ensures part { part_of self.new ≡ without_keys (has_id id) (part_of self.old) }
        ensures kept { KeepsRoom self.old.keys self.new.keys }
    {
        let bytes = self.row_bytes(id);
        self.keys.end(id);
        self.grants.end_key(id);
        self.key_bytes -= bytes;
    }

    /// Ends the key of an owner and an alias, if there is one.
    fn end_named(&mut self, domain: u8, nspace: u64, alias: &[u8])
        ensures part { part_of self.new ≡ without_keys (is_named domain nspace alias.now) (part_of self.old) }
        ensures kept { KeepsRoom self.old.keys self.new.keys }
        ensures orderly { AreRows self.old.keys.rows }
    {
        let Some(key) = self.keys.named(domain, nspace, alias) else {
            return;
        };
        let held = key.id;
        self.end_key(held);
    }

    /// Puts a new key behind the others, and ends the key under its name.
    fn create(&mut self, key: KeyRecord)
        requires room { HasRoom self.old.keys }
        requires next { key.id ≡ self.old.next_key }
        requires small { key.id < NUMBERS_END }
        requires fit { IsFit key }
        requires few { key_rows_length (with_key key (part_of self.old)).keys < 2 ^ 64 }
        ensures { part_of self.new ≡ with_key key (part_of self.old) }
    {
        self.end_named(key.domain, key.nspace, key.alias.as_slice());
        self.key_bytes += row_length(&key);
        let id = key.id;
        self.next_key = id + 1;
        self.keys.push(key);
    }

    /// Whether a use of the key of a number would be its last.
    fn is_last_use(&self, id: u64) -> bool
        ensures last { result ≡ list_any (is_last_use id) self.now.keys.rows }
        ensures orderly { AreRows self.now.keys.rows }
    {
        match self.keys.numbered(id) {
            Some(key) => key.left == 1,
            None => false,
        }
    }

    /// Takes a use from a live key, and ends it where that was the last.
    fn spend(&mut self, id: u64)
        requires { list_any (has_uses id) self.old.keys.rows ≡ true }
        ensures { part_of self.new ≡ used id (part_of self.old) }
    {
        if self.is_last_use(id) {
            self.end_key(id);
            return;
        }
        self.keys.spend(id);
    }

    /// Makes a grant, or gives the one that the row's key and uid have the row's bits.
    fn grant(&mut self, row: GrantRow)
        requires room { grant_table.HasRoom self.old.grants }
        requires numbered { is_grant_numbered (grant_table.shared self.old.grants row.key row.uid) row (part_of self.old) ≡ true }
        ensures { part_of self.new ≡ granted (grant_table.shared self.old.grants row.key row.uid) row (part_of self.old) }
    {
        let is_new = self.grants.of_key(row.key, row.uid).is_none();
        let number = row.grant;
        self.grants.grant(row);
        if is_new {
            self.next_grant = number + 1;
        }
    }

    /// Ends all keys of an owner, in as many steps as there are.
    fn clear(&mut self, domain: u8, nspace: u64)
        ensures { part_of self.new ≡ without_keys (is_owned domain nspace) (part_of self.old) }
    {
        'keys: while let Some(id) = self.keys.first_of_owner(domain, nspace) {
            self.end_key(id);
        }
    }

    /// Ends all app keys of a user, in as many steps as there are.
    fn remove_user(&mut self, user: u32)
        ensures { part_of self.new ≡ without_keys (is_of_user user) (part_of self.old) }
    {
        'keys: while let Some(id) = self.keys.first_of_user(user) {
            self.end_key(id);
        }
    }

    /// How many bytes the blob and the list of the key of a number have; 0 where there is none.
    fn parts_bytes(&self, id: u64) -> u64
        ensures bytes { result ≡ parts_bytes (find (has_id id) self.now.keys.rows) }
        ensures orderly { AreRows self.now.keys.rows }
    {
        is_wide(self.key_bytes);
        match self.keys.numbered(id) {
            Some(key) => (key.blob.len() + key.list.len()) as u64,
            None => 0,
        }
    }

    /// Gives a live key another blob and another list.
    fn upgrade(&mut self, id: u64, blob: Bytes, list: Bytes)
        requires live { IsSome (find (has_id id) self.old.keys.rows) }
        requires few { key_rows_length (upgraded id blob list (part_of self.old)).keys < 2 ^ 64 }
        ensures { part_of self.new ≡ upgraded id blob list (part_of self.old) }
    {
        let before = self.parts_bytes(id);
        let bytes = (blob.len() + list.len()) as u64;
        self.keys.upgrade(id, blob, list);
        self.key_bytes = self.key_bytes - before + bytes;
    }

    /// Makes a change whose need is met, and for which there is room. It takes no memory.
    pub(crate) fn make(&mut self, change: Change)
        requires can { CanMake (held_of self.old) change }
        requires few { snapshot_length (after (part_of self.old) change) < 2 ^ 64 }
        ensures { part_of self.new ≡ after (part_of self.old) change }
    {
        match change {
            Change::Create {
                id,
                domain,
                nspace,
                alias,
                blob,
                list,
                limit,
            } => self.create(KeyRecord {
                id,
                domain,
                nspace,
                alias,
                blob,
                list,
                limit,
                left: limit,
            }),
            Change::Delete { id } => self.end_key(id),
            Change::Use { id } => self.spend(id),
            Change::Grant { row } => self.grant(row),
            Change::Ungrant { grant } => {
                self.grants.ungrant(grant);
            }
            Change::Clear { domain, nspace } => self.clear(domain, nspace),
            Change::Removed { user } => self.remove_user(user),
            Change::Upgrade { id, blob, list } => self.upgrade(id, blob, list),
        }
    }

    /// Takes the next numbers of a snapshot, where nothing is held yet.
    pub(crate) fn begin(&mut self, next_key: u64, next_grant: u64)
        requires { part_of self.old ≡ empty_lasting }
        ensures { part_of self.new ≡ record (part_of self.old) { next_key = next_key; next_grant = next_grant } }
    {
        self.next_key = next_key;
        self.next_grant = next_grant;
    }

    /// Puts a key that a snapshot holds behind the others.
    pub(crate) fn hold(&mut self, key: KeyRecord)
        requires room { HasRoomForKey (held_of self.old) }
        requires may { may_hold (part_of self.old) key ≡ true }
        requires few { key_rows_length (self.old.keys.rows ++ key ∷ []) < 2 ^ 64 }
        ensures { part_of self.new ≡ record (part_of self.old) { keys = (part_of self.old).keys ++ key ∷ [] } }
    {
        // by its clause the numbers rise
        let _ = self.keys.len();
        self.key_bytes += row_length(&key);
        self.keys.push(key);
    }

    /// Puts a grant that a snapshot holds behind the others.
    pub(crate) fn hold_grant(&mut self, row: GrantRow)
        requires room { HasRoomForGrant (held_of self.old) }
        requires may { may_hold_grant (part_of self.old) row ≡ true }
        ensures { part_of self.new ≡ record (part_of self.old) { grants = (part_of self.old).grants ++ row ∷ [] } }
    {
        self.grants.grant(row);
    }
}
