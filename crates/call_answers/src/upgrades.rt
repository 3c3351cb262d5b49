//! An upgrade: the key that it is on, what its rules read, and what they admit.

ghost use Rattle.std.specs.Prelude.{◌≡◌, ◌+◌, ◌*◌, ◌<◌, ◌≤◌, length, IfOk, IfSome};
ghost use Rattle.std.specs.Option.{option_copied};
ghost use Rattle.tag_lists.specs.Spelling.{spelling};
ghost use Rattle.lasting_table.specs.TableView.{lasting_in};
ghost use Rattle.rule_model.specs.Upgrades as model;
ghost use Rattle.call_answers.specs.Upgrading as spec;
ghost use Rattle.call_answers.specs.declared.upgrades.UpgradeFault.TheVariants as faults;

use crate::begins::{blob_for, id_of, is_found};
use crate::callers::row_for;
use crate::found::{bits_in, find_for};
use call_rules::{KeyCallFacts, UpgradeFacts, check_upgrade_key};
use journal_records::KeyRecord;
use key_domains::Access;
use key_rules::read_asked;
use keymint_ops::{OpenedBlob, UpgradedKey, open_blob};
use lasting_table::LastingTable;
use rule_model::Caller;
use std::alloc::Global;
use tag_lists::AuthList;
use tags::{Bytes, Code, Descriptor, DeviceSecrets, NoMemory, Policy, Rule};

/// The key that an upgrade asks for: what its descriptor finds, with its blob opened for the call's list.
#[derive(Drop)]
pub(crate) struct UpgradeKey {
    key: Descriptor,
    /// the call's list, or what is wrong with it
    asked: Result<AuthList, Code>,
    /// its number, where it is stored
    id: Option<u64>,
    /// what the rules of every call on a key read
    call: KeyCallFacts,
    /// how many bytes its blob has
    given: u64,
    /// what its blob gave to the call's list
    opened: OpenedBlob,
}

/// Where the key of an upgrade lies.
#[derive(Drop)]
pub enum KeyPlace {
    /// It is stored under this number.
    Stored(u64),
    /// It was handed in as this blob.
    Handed(Bytes),
}

/// What may be upgraded: no rule denies it.
#[derive(Drop)]
pub struct AdmittedUpgrade {
    pub place: KeyPlace,
    /// the key with the versions of the device's system, and nothing where it has these
    pub upgraded: Option<UpgradedKey>,
}

/// Why no key is upgraded.
#[derive(Clone, Copy, Debug, PartialEq, Eq)]
pub enum UpgradeFault {
    /// The first rule that is broken, and the code of its first part that is.
    Broken(Rule, Code),
    /// Want of memory.
    Memory,
}

impl From<NoMemory> for UpgradeFault {
    ghost from_gives = { λ _ fault. fault ≡ faults.Memory };

    fn from(_: NoMemory) -> UpgradeFault {
        UpgradeFault::Memory
    }
}

/// What the rules of every call on a key read, where a blob that is handed in is always found.
fn call_facts(
    policy: &Policy,
    access: &Access,
    stored: Option<&KeyRecord>,
    caller: Caller,
    key: &Descriptor,
) -> KeyCallFacts
    ensures { result ≡ model.upgrade_call_facts policy.now access.now (option_copied stored.entry) caller key.now }
{
    KeyCallFacts {
        connected: caller.uid.is_some(),
        row: row_for(policy, caller, key.nspace),
        found: is_found(access, stored),
        bits: bits_in(access),
    }
}

/// That the call's list reads, or what is wrong with it.
fn is_read(asked: &Result<AuthList, Code>) -> Result<(), Code>
    ensures { result ≡ model.is_read asked.now }
{
    match asked {
        Ok(_) => Ok(()),
        Err(code) => Err(*code),
    }
}

/// The greater of two lengths.
fn longer(a: u64, b: u64) -> u64
    ensures { result ≡ model.longer a b }
{
    if a <= b { b } else { a }
}

/// Where a key lies that is found.
fn place_of(alloc: Global, id: Option<u64>, key: Descriptor) -> KeyPlace
    ensures { result ≡ spec.place_of id key }
{
    let Descriptor {
        domain: _,
        nspace: _,
        alias: _,
        blob,
    } = key;
    match id {
        Some(id) => KeyPlace::Stored(id),
        None => KeyPlace::Handed(blob.unwrap_or(Bytes::empty(alloc))),
    }
}

/// The key of a call's list with the versions of the device's system; nothing where its list has these.
fn renewed(
    alloc: Global,
    device: &DeviceSecrets,
    asked: Result<AuthList, Code>,
    opened: OpenedBlob,
) -> Result<Option<UpgradedKey>, NoMemory>
    requires { length opened.list < 65534 }
    ensures sealed { IfOk result (λ upgraded. spec.sealed_in upgraded ≡ spec.sealed_anew device.now asked opened) }
    ensures list { IfOk result (λ upgraded. IfSome upgraded (λ key. key.list ≡ spelling key.sealed.list)) }
{
    if opened.list.is_no_older(device.os, device.patch) {
        return Ok(None);
    }
    Ok(Some(opened.upgrade(alloc, device, &asked)?))
}

impl UpgradeKey {
    /// The key that a caller's descriptor finds, with its blob opened for the call's list.
    fn open(
        alloc: Global,
        device: &DeviceSecrets,
        policy: &Policy,
        table: &LastingTable,
        caller: Caller,
        key: Descriptor,
        params: &Bytes,
    ) -> Result<UpgradeKey, NoMemory>
        ensures opens { IfOk result (λ own. spec.Opens device.now policy.now (lasting_in table.now) caller key params.now own) }
        ensures short { IfOk result (λ own. length own.opened.material ≤ 255) }
    {
        let (access, stored) = find_for(policy, table, caller, &key);
        let asked = read_asked(alloc, params.as_slice())?;
        let blob = blob_for(&access, stored, &key);
        let given = blob.len() as u64;
        let opened = open_blob(alloc, device, blob, &asked)?;
        let call = call_facts(policy, &access, stored, caller, &key);
        let id = id_of(stored);
        Ok(UpgradeKey {
            key,
            asked,
            id,
            call,
            given,
            opened,
        })
    }

    /// What the rules of an upgrade read.
    fn facts(&self, device: &DeviceSecrets) -> UpgradeFacts
        requires { length self.now.opened.material ≤ 255 }
        ensures facts { result ≡ spec.facts_of device.now self.now }
        ensures few { 2 + 5 * length self.now.opened.list ≤ result.list }
    {
        let (key_os, key_patch) = self.opened.numbers();
        let sizes = self.opened.sizes(device, &self.asked);
        UpgradeFacts {
            call: self.call,
            asked: is_read(&self.asked),
            opens: self.opened.opens,
            same: self.opened.same,
            key_os,
            key_patch,
            os: device.os,
            patch: device.patch,
            list: sizes.list,
            blob: longer(self.given, sizes.blob),
        }
    }

    /// What a caller may upgrade of the key, by the rules.
    fn admit(self, alloc: Global, device: &DeviceSecrets) -> Result<AdmittedUpgrade, UpgradeFault>
        requires { length self.opened.material ≤ 255 }
        ensures gives { spec.GivesAdmitted device.now self result }
    {
        let facts = self.facts(device);
        if let Err((rule, code)) = check_upgrade_key(&self.key, &facts) {
            return Err(UpgradeFault::Broken(rule, code));
        }
        let UpgradeKey {
            key,
            asked,
            id,
            call: _,
            given: _,
            opened,
        } = self;
        let upgraded = renewed(alloc, device, asked, opened)?;
        Ok(AdmittedUpgrade {
            place: place_of(alloc, id, key),
            upgraded,
        })
    }
}

/// What a caller may upgrade of the key that its descriptor finds, by the rules.
pub fn admit_upgrade(
    alloc: Global,
    device: &DeviceSecrets,
    policy: &Policy,
    table: &LastingTable,
    caller: Caller,
    key: Descriptor,
    params: &Bytes,
) -> Result<AdmittedUpgrade, UpgradeFault>
    ensures { spec.GivesUpgrade device.now policy.now (lasting_in table.now) caller key params.now result }
{
    let own = UpgradeKey::open(alloc, device, policy, table, caller, key, params)?;
    own.admit(alloc, device)
}
