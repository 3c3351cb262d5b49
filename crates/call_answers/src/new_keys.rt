//! A new key: what its rules read, whether there is a place for it, its blob, and its change.

ghost use Rattle.std.specs.Prelude.{◌≡◌, ℕ, ◌≤◌, ◌<◌, ◌^◌, List, Option, length, IfOk, IfSome};
ghost use Rattle.key_rules.specs.Creation.{IsSmall};
ghost use Rattle.lasting_table.specs.TableView.{lasting_in};
ghost use Rattle.rule_model.specs.Changes.{material_of};
ghost use Rattle.rule_model.specs.NewFacts as model;
ghost use Rattle.rule_model.specs.Places.{has_key_place};
ghost use Rattle.call_answers.specs.Creating as spec;
ghost use Rattle.call_answers.specs.KeySources.{source_by};
ghost use Rattle.call_answers.specs.declared.new_keys.KeyFault.TheVariants as faults;
ghost use Rattle.tags.specs.declared.limits.TheConstants.{BLOB_BYTES};

use crate::callers::{owner_of, row_for};
use crate::descriptors::{alias_bytes, into_alias, owner_for};
use crate::key_sources::{KeySource, ReadSource};
use journal_records::Change;
use key_rules::{ImportFacts, NewFacts, NewFault, WrapFacts};
use keymint_ops::{NewKey, plan_key, seal_key};
use lasting_table::LastingTable;
use rule_model::Caller;
use std::alloc::Global;
use tags::{
    Bytes, Code, DOMAIN_BLOB, Descriptor, DeviceSecrets, Material, NUMBERS_END, NoMemory, Policy,
    Rule,
};

/// The bytes of the nonce that a key is sealed with.
pub const NONCE_BYTES: usize = 12;

/// A key that a call asks for.
#[derive(Drop)]
pub struct AskedKey {
    pub key: Descriptor,
    /// its list, encoded
    pub params: Bytes,
    /// where its material comes from
    pub source: KeySource,
}

/// Why no key is made.
#[derive(Clone, Copy, Debug, PartialEq, Eq)]
pub enum KeyFault {
    /// The first rule of table K that is broken, and the code of its first part that is.
    Broken(Rule, Code),
    /// No rule is broken, and there is no place for one more key.
    Full,
    /// Want of memory.
    Memory,
}

impl From<NoMemory> for KeyFault {
    ghost from_gives = { λ _ fault. fault ≡ faults.Memory };

    fn from(_: NoMemory) -> KeyFault {
        KeyFault::Memory
    }
}

/// A key that no rule denies and for which there is a place, before its bytes are drawn.
#[derive(Drop)]
pub struct AdmittedKey {
    /// the uid that makes it
    pub uid: u32,
    pub key: Descriptor,
    /// its plan, with the list that is kept
    pub new: NewKey,
    /// its material, where that is not drawn
    pub material: Option<Material>,
}

/// A key in its blob, before it is kept or handed out.
#[derive(Drop)]
pub struct SealedKey {
    /// the uid that makes it
    pub uid: u32,
    pub key: Descriptor,
    pub blob: Bytes,
    /// the list that is kept, encoded
    pub list: Bytes,
    /// how many uses it has, or 0 where it has no limit
    pub limit: u32,
}

/// What the rules of a new key read.
fn new_facts(
    device: &DeviceSecrets,
    policy: &Policy,
    caller: Caller,
    key: Descriptor,
    params: Bytes,
    import: Option<ImportFacts>,
    wrapped: Option<WrapFacts>,
    early_ended: bool,
) -> NewFacts
    ensures { (material : Option (List ℕ)) → result ≡ model.new_facts device.now policy.now caller key params (source_by import wrapped material) early_ended }
{
    let row = row_for(policy, caller, key.nspace);
    NewFacts {
        connected: caller.uid.is_some(),
        descriptor: key,
        row,
        params,
        import,
        wrapped,
        early_ended,
        wall: caller.reading.wall,
        os: device.os,
        patch: device.patch,
    }
}

/// The descriptor of a new key.
fn descriptor_of(facts: NewFacts) -> Descriptor
    ensures { result ≡ facts.descriptor }
{
    facts.descriptor
}

/// Whether there is a place for one more key of a uid: the key under its name makes place, and a blob takes none.
fn has_key_place(table: &LastingTable, uid: u32, key: &Descriptor) -> bool
    ensures { result ≡ has_key_place (lasting_in table.now) uid key.now }
{
    if key.domain == DOMAIN_BLOB {
        return true;
    }
    let (domain, nspace) = owner_for(uid, key.domain, key.nspace);
    table.next_numbers().0 < NUMBERS_END && table.has_place_for(domain, nspace, alias_bytes(key))
}

impl AskedKey {
    /// What the rules read of the key, and its material, where that is not drawn.
    fn into_facts(
        self,
        alloc: Global,
        device: &DeviceSecrets,
        policy: &Policy,
        table: &LastingTable,
        caller: Caller,
        early_ended: bool,
    ) -> Result<(NewFacts, Option<Material>), NoMemory>
        ensures facts { IfOk result (λ own. own.0 ≡ spec.facts_of device.now policy.now (lasting_in table.now) caller self early_ended) }
        ensures material { IfOk result (λ own. own.1 ≡ (spec.source_of device.now policy.now (lasting_in table.now) caller self).material) }
    {
        let AskedKey {
            key,
            params,
            source,
        } = self;
        let ReadSource {
            import,
            wrapped,
            material,
        } = source.read(alloc, device, policy, table, caller)?;
        let facts = new_facts(
            device,
            policy,
            caller,
            key,
            params,
            import,
            wrapped,
            early_ended,
        );
        Ok((facts, material))
    }

    /// What a caller may make, by the rules and the places.
    pub fn admit(
        self,
        alloc: Global,
        device: &DeviceSecrets,
        policy: &Policy,
        table: &LastingTable,
        caller: Caller,
        early_ended: bool,
    ) -> Result<AdmittedKey, KeyFault>
        ensures gives { spec.GivesAdmitted device.now policy.now (lasting_in table.now) caller self early_ended result }
        ensures small { IfOk result (λ admitted. admitted.uid < 2 ^ 32) }
        ensures short { IfOk result (λ admitted. IfSome admitted.material (λ material. length material ≤ 64)) }
    {
        let (facts, material) = self.into_facts(alloc, device, policy, table, caller, early_ended)?;
        let new = match plan_key(alloc, &facts) {
            Ok(new) => new,
            Err(NewFault::Broken(rule, code)) => return Err(KeyFault::Broken(rule, code)),
            Err(NewFault::Memory) => return Err(KeyFault::Memory),
        };
        let admitted = AdmittedKey {
            uid: owner_of(caller),
            key: descriptor_of(facts),
            new,
            material,
        };
        if !has_key_place(table, admitted.uid, &admitted.key) {
            drop(admitted);
            return Err(KeyFault::Full);
        }
        Ok(admitted)
    }
}

impl AdmittedKey {
    /// Seals the key in its blob: with the material that came in, or else the one that was generated, and with these bytes as
    /// the nonce, which are drawn anew for each.
    pub fn seal(
        self,
        alloc: Global,
        device: &DeviceSecrets,
        generated: Material,
        nonce: [u8; 12],
    ) -> Result<SealedKey, NoMemory>
        requires small { IsSmall self.new.plan }
        requires short { length (material_of self.material generated) ≤ 64 }
        ensures sealed { IfOk result (λ sealed. spec.IsSealed device.now self generated nonce sealed) }
        ensures few { IfOk result (λ sealed. length sealed.blob ≤ BLOB_BYTES) }
    {
        let AdmittedKey {
            uid,
            key,
            new,
            material,
        } = self;
        let NewKey { plan, list } = new;
        let limit = plan.limit;
        let material = material.unwrap_or(generated);
        let Ok(blob) = seal_key(alloc, device, nonce, plan, material) else {
            drop(key);
            drop(list);
            return Err(NoMemory);
        };
        Ok(SealedKey {
            uid,
            key,
            blob,
            list,
            limit,
        })
    }
}

impl SealedKey {
    /// The record of the key under its number.
    pub fn into_change(self, alloc: Global, id: u64) -> Change
        ensures { result ≡ spec.creates id self.uid self.key self.blob self.list self.limit }
    {
        let SealedKey {
            uid,
            key,
            blob,
            list,
            limit,
        } = self;
        let (domain, nspace) = owner_for(uid, key.domain, key.nspace);
        Change::Create {
            id,
            domain,
            nspace,
            alias: into_alias(alloc, key),
            blob,
            list,
            limit,
        }
    }

    /// Its blob alone.
    pub fn into_blob(self) -> Bytes
        ensures { result ≡ self.blob }
    {
        self.blob
    }
}
