//! The calls on stored keys, on an owner's keys, and of the system: entries, ends, grants, counts and listings.

ghost use Rattle.std.specs.Prelude.{◌≡◌, None, Ok, IfOk};
ghost use Rattle.rule_model.specs.declared.event.Act.TheVariants as acts;
ghost use Rattle.keystore_core.specs.Drawn.{IsUndrawn};
ghost use Rattle.keystore_core.specs.Keys.{AreSettled};
ghost use Rattle.keystore_core.specs.Tables.{IsCaller, ServesAfter, event_by};
ghost use Rattle.keystore_core.specs.Writing.{LeavesStore, StoreGoesAfter, StoreGoesFor};

use crate::answered::Answered;
use crate::tables::Tables;
use crate::writing::write_change;
use call_answers::{
    count_entries, entry_fields, grant_place, grant_to, key_call, list_entries, owner_domain,
    row_for, system_facts,
};
use call_rules::{
    check_clear_namespace, check_delete_key, check_get_key_entry, check_grant, check_listing,
    check_ungrant, check_user_call,
};
use grants::GrantRow;
use journal_records::Change;
use key_domains::Permissions;
use ks_outside::Disk;
use rule_model::{Caller, Fields, NO_FIELDS, Reply};
use std::alloc::Global;
use tags::{Bytes, Code, Descriptor, NoMemory};

impl Tables {
    /// A client reads the entry of a key.
    pub fn get_key_entry(
        &self,
        alloc: Global,
        caller: Caller,
        key: &Descriptor,
    ) -> Result<Answered, NoMemory>
        requires { IsCaller self.now caller }
        ensures serves { ServesAfter self.now self.now (event_by caller (acts.GetKeyEntry key.now)) result }
        ensures job { IfOk result (λ answered. answered.job ≡ None) }
        ensures drew { IfOk result (λ answered. IsUndrawn answered) }
        ensures store { IfOk result (λ answered. LeavesStore self.now self.now answered) }
    {
        let (found, facts) = key_call(&self.policy, self.keys.table(), caller, key);
        if let Err((rule, code)) = check_get_key_entry(key, &facts) {
            return Ok(Answered::refused(alloc, rule, code));
        }
        let Some(found) = found else { unreachable!() };
        let fields = entry_fields(alloc, found)?;
        Ok(Answered::undrawn(alloc, Reply::Done(fields)))
    }

    /// A client ends a key.
    pub fn delete_key<D: Disk>(
        &mut self,
        alloc: Global,
        disk: &mut D,
        caller: Caller,
        key: &Descriptor,
    ) -> Answered
        requires caller { IsCaller self.old caller }
        requires settled { AreSettled self.old }
        ensures serves { ServesAfter self.old self.new (event_by caller (acts.DeleteKey key.now)) (Ok result) }
        ensures job { result.job ≡ None }
        ensures drew { IsUndrawn result }
        ensures store { StoreGoesFor D.Disk self.old self.new disk.old disk.new caller (acts.DeleteKey key.now) result }
    {
        let (found, facts) = key_call(&self.policy, self.keys.table(), caller, key);
        if let Err((rule, code)) = check_delete_key(key, &facts) {
            return Answered::refused(alloc, rule, code);
        }
        let Some(found) = found else { unreachable!() };
        let id = found.id;
        let reply = write_change(&mut self.keys, disk, Change::Delete { id }, NO_FIELDS);
        Answered::undrawn(alloc, reply)
    }

    /// A client shares a key with a uid, or gives its grant other permissions.
    pub fn grant<D: Disk>(
        &mut self,
        alloc: Global,
        disk: &mut D,
        caller: Caller,
        key: &Descriptor,
        uid: u32,
        bits: u32,
    ) -> Result<Answered, NoMemory>
        requires caller { IsCaller self.old caller }
        requires settled { AreSettled self.old }
        ensures serves { ServesAfter self.old self.new (event_by caller (acts.Grant key.now uid bits)) result }
        ensures job { IfOk result (λ answered. answered.job ≡ None) }
        ensures drew { IfOk result (λ answered. IsUndrawn answered) }
        ensures store { StoreGoesAfter D.Disk self.old self.new disk.old disk.new caller (acts.Grant key.now uid bits) result }
    {
        let bits = Permissions::of_bits(bits);
        let (found, facts) = key_call(&self.policy, self.keys.table(), caller, key);
        if let Err((rule, code)) = check_grant(key, bits, &facts) {
            return Ok(Answered::refused(alloc, rule, code));
        }
        let Some(found) = found else { unreachable!() };
        let key = found.id;
        let Some(grant) = grant_place(self.keys.table(), key, uid) else {
            return Ok(Answered::stopped(alloc, Code::StoreFull));
        };
        self.keys.reserve_grant()?;
        let row = GrantRow {
            grant,
            key,
            uid,
            bits,
        };
        let fields = Fields {
            grant: Some(grant),
            ..NO_FIELDS
        };
        let reply = write_change(&mut self.keys, disk, Change::Grant { row }, fields);
        Ok(Answered::undrawn(alloc, reply))
    }

    /// A client takes a grant back.
    pub fn ungrant<D: Disk>(
        &mut self,
        alloc: Global,
        disk: &mut D,
        caller: Caller,
        key: &Descriptor,
        uid: u32,
    ) -> Answered
        requires caller { IsCaller self.old caller }
        requires settled { AreSettled self.old }
        ensures serves { ServesAfter self.old self.new (event_by caller (acts.Ungrant key.now uid)) (Ok result) }
        ensures job { result.job ≡ None }
        ensures drew { IsUndrawn result }
        ensures store { StoreGoesFor D.Disk self.old self.new disk.old disk.new caller (acts.Ungrant key.now uid) result }
    {
        let (found, facts) = key_call(&self.policy, self.keys.table(), caller, key);
        let grant = grant_to(self.keys.table(), found, uid);
        if let Err((rule, code)) = check_ungrant(key, grant.is_some(), &facts) {
            return Answered::refused(alloc, rule, code);
        }
        let Some(grant) = grant else { unreachable!() };
        let reply = write_change(&mut self.keys, disk, Change::Ungrant { grant }, NO_FIELDS);
        Answered::undrawn(alloc, reply)
    }

    /// A client counts its keys, or those of a namespace.
    pub fn get_number_of_entries(
        &self,
        alloc: Global,
        caller: Caller,
        domain: u32,
        nspace: u64,
    ) -> Answered
        requires { IsCaller self.now caller }
        ensures serves { ServesAfter self.now self.now (event_by caller (acts.GetNumberOfEntries domain nspace)) (Ok result) }
        ensures job { result.job ≡ None }
        ensures drew { IsUndrawn result }
        ensures store { LeavesStore self.now self.now result }
    {
        let row = row_for(&self.policy, caller, nspace);
        if let Err((rule, code)) = check_listing(caller.uid.is_some(), domain, row) {
            return Answered::refused(alloc, rule, code);
        }
        let fields = Fields {
            count: Some(count_entries(self.keys.table(), caller, domain, nspace)),
            ..NO_FIELDS
        };
        Answered::undrawn(alloc, Reply::Done(fields))
    }

    /// A client lists its keys, or those of a namespace, behind an alias.
    pub fn list_entries_batched(
        &self,
        alloc: Global,
        caller: Caller,
        domain: u32,
        nspace: u64,
        past: &Option<Bytes>,
    ) -> Result<Answered, NoMemory>
        requires { IsCaller self.now caller }
        ensures serves { ServesAfter self.now self.now (event_by caller (acts.ListEntriesBatched domain nspace past.now)) result }
        ensures job { IfOk result (λ answered. answered.job ≡ None) }
        ensures drew { IfOk result (λ answered. IsUndrawn answered) }
        ensures store { IfOk result (λ answered. LeavesStore self.now self.now answered) }
    {
        let row = row_for(&self.policy, caller, nspace);
        if let Err((rule, code)) = check_listing(caller.uid.is_some(), domain, row) {
            return Ok(Answered::refused(alloc, rule, code));
        }
        let entries = list_entries(alloc, self.keys.table(), caller, domain, nspace, past)?;
        let fields = Fields {
            entries: Some(entries),
            ..NO_FIELDS
        };
        Ok(Answered::undrawn(alloc, Reply::Done(fields)))
    }

    /// The system ends all keys of an owner.
    pub fn clear_namespace<D: Disk>(
        &mut self,
        alloc: Global,
        disk: &mut D,
        caller: Caller,
        domain: u32,
        nspace: u64,
    ) -> Answered
        requires caller { IsCaller self.old caller }
        requires settled { AreSettled self.old }
        ensures serves { ServesAfter self.old self.new (event_by caller (acts.ClearNamespace domain nspace)) (Ok result) }
        ensures job { result.job ≡ None }
        ensures drew { IsUndrawn result }
        ensures store { StoreGoesFor D.Disk self.old self.new disk.old disk.new caller (acts.ClearNamespace domain nspace) result }
    {
        let facts = system_facts(caller);
        if let Err((rule, code)) = check_clear_namespace(domain, nspace, &facts) {
            return Answered::refused(alloc, rule, code);
        }
        let domain = owner_domain(domain);
        let change = Change::Clear { domain, nspace };
        let reply = write_change(&mut self.keys, disk, change, NO_FIELDS);
        Answered::undrawn(alloc, reply)
    }

    /// The system ends all app keys of a user.
    pub fn user_removed<D: Disk>(
        &mut self,
        alloc: Global,
        disk: &mut D,
        caller: Caller,
        user: u32,
    ) -> Answered
        requires caller { IsCaller self.old caller }
        requires settled { AreSettled self.old }
        ensures serves { ServesAfter self.old self.new (event_by caller (acts.UserRemoved user)) (Ok result) }
        ensures job { result.job ≡ None }
        ensures drew { IsUndrawn result }
        ensures store { StoreGoesFor D.Disk self.old self.new disk.old disk.new caller (acts.UserRemoved user) result }
    {
        let facts = system_facts(caller);
        if let Err((rule, code)) = check_user_call(user, &facts) {
            return Answered::refused(alloc, rule, code);
        }
        let reply = write_change(&mut self.keys, disk, Change::Removed { user }, NO_FIELDS);
        Answered::undrawn(alloc, reply)
    }
}
