//! A begin: the key that it is on, what its rules read, and what they admit.

ghost use Rattle.std.specs.Prelude.{◌≡◌, ℕ, ◌+◌, ◌<◌, ◌^◌, List, [], true, unwrap_or, length, IfOk};
ghost use Rattle.std.specs.Option.{option_copied};
ghost use Rattle.tags.specs.Plan.{Fits};
ghost use Rattle.tag_lists.specs.Lookups.{IsKey};
ghost use Rattle.key_rules.specs.Asked.{asked as asked_in};
ghost use Rattle.use_rules.specs.Table.{key_of};
ghost use Rattle.keymint_ops.specs.Begin.{nonce_used};
ghost use Rattle.lasting_table.specs.TableView.{lasting_in};
ghost use Rattle.rule_model.specs.Access.{access_by, key_in};
ghost use Rattle.rule_model.specs.Access as users;
ghost use Rattle.rule_model.specs.BeginFacts as model;
ghost use Rattle.rule_model.specs.Blobs.{fits_key, list_read};
ghost use Rattle.call_answers.specs.Beginning as spec;

use crate::callers::{row_for, user_of};
use crate::found::{bits_in, find_for};
use cipher_ops::CipherState;
use journal_records::KeyRecord;
use key_domains::Access;
use key_rules::read_asked;
use keymint_ops::{Begin, BeginFault, OpenedKey, open_key, plan_begin};
use lasting_table::LastingTable;
use rule_model::{Caller, Conditions};
use std::alloc::Global;
use tag_lists::AuthList;
use tags::{Bytes, Code, Descriptor, DeviceSecrets, Material, NoMemory, Policy, Tag};
use use_rules::{BeginFacts, challenge_wanted};

/// The key that a begin asks for: what its descriptor finds, with its blob opened for the operation's list.
#[derive(Drop)]
pub struct BeginKey {
    pub key: Descriptor,
    /// the operation's list, or what is wrong with it
    pub asked: Result<AuthList, Code>,
    /// what the descriptor finds, with the caller's bits
    pub access: Access,
    /// whether there is a key
    pub found: bool,
    /// its number, where it is stored
    pub id: Option<u64>,
    /// whether all output comes at the finish
    pub limited: bool,
    /// what its blob gave to the operation's list
    pub opened: OpenedKey,
}

/// What may begin: no rule denies it.
#[derive(Drop)]
pub struct AdmittedBegin {
    /// the number of its key, where that is stored
    pub id: Option<u64>,
    /// whether all output comes at the finish
    pub limited: bool,
    /// what is planned, with the nonce that the caller gave
    pub begin: Begin,
    /// how many bytes of challenge are drawn
    pub challenge: usize,
    /// the list and the material of its key
    pub list: AuthList,
    pub material: Material,
}

/// The blob of the stored key, or the one that is handed in; no bytes, which open nowhere, where there is none.
pub(crate) fn blob_for<'a>(
    access: &Access,
    stored: Option<&'a KeyRecord>,
    key: &'a Descriptor,
) -> &'a [u8]
    ensures { result.now ≡ model.blob_for access.now (option_copied stored.entry) key.now }
{
    match (access, &key.blob, stored) {
        (Access::Blob { bits: _ }, Some(blob), _) => blob.as_slice(),
        (Access::Blob { bits: _ }, None, _) => &[],
        (_, _, Some(stored)) => stored.blob.as_slice(),
        (_, _, None) => &[],
    }
}

/// Whether all output comes at the finish: a stored key is limited by its record, and a blob that is handed in by its list.
fn limited_by(access: &Access, stored: Option<&KeyRecord>, list: &Option<AuthList>) -> bool
    ensures { result ≡ model.limited_by access.now (option_copied stored.entry) list.now }
{
    match (access, list, stored) {
        (Access::Blob { bits: _ }, Some(list), _) => list.stands(Tag::UsageCountLimit),
        (Access::Blob { bits: _ }, None, _) => false,
        (_, _, Some(stored)) => stored.limit != 0,
        (_, _, None) => false,
    }
}

/// Whether there is a key: a blob that is handed in always is one.
pub(crate) fn is_found(access: &Access, stored: Option<&KeyRecord>) -> bool
    ensures { result ≡ model.is_found access.now (option_copied stored.entry) }
{
    match access {
        Access::Blob { bits: _ } => true,
        _ => stored.is_some(),
    }
}

/// The number of the stored key.
pub(crate) fn id_of(stored: Option<&KeyRecord>) -> Option<u64>
    ensures { result ≡ users.id_of (option_copied stored.entry) }
{
    match stored {
        Some(stored) => Some(stored.id),
        None => None,
    }
}

/// The list of the key that a begin is on; no parameters where its blob did not open.
fn list_of(alloc: Global, facts: BeginFacts) -> AuthList
    ensures { result ≡ key_of facts }
{
    facts.opened.unwrap_or(AuthList::empty(alloc))
}

impl BeginKey {
    /// The key that a caller's descriptor finds, with its blob opened for the operation's list.
    pub fn open(
        alloc: Global,
        device: &DeviceSecrets,
        policy: &Policy,
        table: &LastingTable,
        caller: Caller,
        key: Descriptor,
        params: &Bytes,
    ) -> Result<BeginKey, NoMemory>
        ensures opens { IfOk result (λ own. spec.Opens device.now policy.now (lasting_in table.now) caller key params.now own) }
        ensures usable { IfOk result spec.IsUsable }
    {
        let (access, stored) = find_for(policy, table, caller, &key);
        let asked = read_asked(alloc, params.as_slice())?;
        let opened = open_key(alloc, device, blob_for(&access, stored, &key), &asked)?;
        let limited = limited_by(&access, stored, &opened.list);
        let found = is_found(&access, stored);
        let id = id_of(stored);
        Ok(BeginKey {
            key,
            asked,
            access,
            found,
            id,
            limited,
            opened,
        })
    }

    /// What the rules of a begin read, under these conditions, and the key's material.
    fn into_facts(
        self,
        device: &DeviceSecrets,
        policy: &Policy,
        caller: Caller,
        forced: bool,
        conditions: Conditions,
    ) -> (BeginFacts, Material)
        ensures facts { result.0 ≡ spec.facts_of device.now policy.now self caller forced conditions }
        ensures material { result.1 ≡ self.opened.material }
    {
        let BeginKey {
            key,
            asked,
            access,
            found,
            id: _,
            limited: _,
            opened,
        } = self;
        let OpenedKey {
            list,
            fits,
            material,
        } = opened;
        let row = row_for(policy, caller, key.nspace);
        let facts = BeginFacts {
            connected: caller.uid.is_some(),
            descriptor: key,
            row,
            found,
            bits: bits_in(&access),
            forced,
            asked,
            opened: list,
            fits,
            os: device.os,
            patch: device.patch,
            wall: caller.reading.wall,
            user: user_of(caller),
            early_ended: conditions.early_ended,
            unlocked: conditions.unlocked,
            timely: conditions.timely,
            begins: conditions.begins,
            room: conditions.room,
        };
        (facts, material)
    }

    /// What a caller may begin on the key, by the rules, under these conditions.
    pub fn admit(
        self,
        alloc: Global,
        device: &DeviceSecrets,
        policy: &Policy,
        caller: Caller,
        forced: bool,
        conditions: Conditions,
    ) -> Result<AdmittedBegin, BeginFault>
        requires { spec.IsUsable self }
        ensures gives { spec.GivesAdmitted result self (spec.facts_of device.now policy.now self caller forced conditions) }
        ensures room { IfOk result (λ admitted. conditions.room ≡ true) }
        ensures fits { IfOk result (λ admitted. (drawn : List ℕ) → length drawn ≡ admitted.begin.wanted →
            Fits admitted.begin.plan admitted.material (nonce_used admitted.begin.nonce drawn)) }
        ensures few { IfOk result (λ admitted. admitted.begin.wanted + admitted.challenge < 2 ^ 62) }
    {
        let (id, limited) = (self.id, self.limited);
        let (facts, material) = self.into_facts(device, policy, caller, forced, conditions);
        let begin = plan_begin(alloc, &facts, material.as_slice())?;
        let challenge = challenge_wanted(&facts);
        Ok(AdmittedBegin {
            id,
            limited,
            begin,
            challenge,
            list: list_of(alloc, facts),
            material,
        })
    }
}

impl AdmittedBegin {
    /// The state that the operation begins with, where these bytes were drawn for its nonce.
    pub fn start(&self, alloc: Global, drawn: &[u8]) -> Result<CipherState, NoMemory>
        requires { Fits self.now.begin.plan self.now.material (nonce_used self.now.begin.nonce drawn.now) }
        ensures { IfOk result (λ state. spec.IsStart state self.now drawn.now) }
    {
        self.begin
            .start(alloc, self.limited, self.material.as_slice(), drawn)
    }
}
