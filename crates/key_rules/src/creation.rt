//! What becomes of a call that makes a key, and which keys are usable.

ghost use Rattle.std.specs.Prelude.{◌≡◌, ◌≤◌, is_ok, true, IfOk, IfSome, OnOk, Ok, length};
ghost use Rattle.tags.specs.declared.rule.RuleTable.TheVariants.{K};
ghost use Rattle.tags.specs.Table.{first_broken};
ghost use Rattle.tag_lists.specs.Lookups.{IsKey, bytes_of};
ghost use Rattle.tag_lists.specs.Spelling.{spelling};
ghost use Rattle.key_rules.specs.Creation as spec;
ghost use Rattle.key_rules.specs.Creation.{new_key};
ghost use Rattle.key_rules.specs.Gives.{Gives};
ghost use Rattle.key_rules.specs.Rules.{each_short, has_allowed_size, has_short_ids, list_in};
ghost use Rattle.key_rules.specs.Table.{key_rules};
ghost use Rattle.tags.specs.declared.limits.TheConstants.{LIST_BYTES};

use crate::kept::{kept, limit};
use crate::table::{check_facts, check_key};
use crate::{ImportFacts, KeyPlan, NewFacts, NewFault};
use std::alloc::Global;
use tag_lists::AuthList;
use tags::{Bytes, NoMemory, Tag};

/// The bytes of a generated key's material: KEY_SIZE / 8, and none where no size is there.
#[tactic(auto, unfolding(crate::specs::Creation::material_size))]
fn material_size(list: &AuthList) -> usize
    ensures { result ≡ spec.material_size list.now }
{
    (list.number(Tag::KeySize).unwrap_or(0) / 8) as usize
}

/// How many bytes of material are drawn.
fn drawn_size(import: Option<ImportFacts>, list: &AuthList) -> usize
    requires { has_allowed_size import list.now ≡ true }
    ensures size { result ≡ spec.drawn_size import list.now }
    ensures short { result ≤ 64 }
{
    match import {
        None => material_size(list),
        Some(_) => 0,
    }
}

/// A short id of the list, in memory of its own.
fn id_in(alloc: Global, list: &AuthList, tag: Tag) -> Result<Option<Bytes>, NoMemory>
    requires { each_short tag list.now ≡ true }
    ensures id { IfOk result (λ id. id ≡ bytes_of tag list.now) }
    ensures short { IfOk result spec.IsShortId }
{
    match list.bytes(tag) {
        Some(bytes) => Ok(Some(Bytes::copy_of(alloc, bytes)?)),
        None => Ok(None),
    }
}

/// The plan of a key that meets the rules.
fn plan(alloc: Global, list: AuthList, facts: &NewFacts) -> Result<KeyPlan, NewFault>
    requires ids { has_short_ids list ≡ true }
    requires short { IfSome facts.now.import (λ import. import.length ≤ 64) }
    requires size { has_allowed_size facts.now.import list ≡ true }
    requires few { length list ≤ LIST_BYTES }
    requires small { length (spelling list) ≤ LIST_BYTES }
    ensures plan { Gives (λ plan. plan) result (Ok (spec.plan_for facts.now list)) }
    ensures small { IfOk result spec.IsSmall }
{
    let limit = limit(&list);
    let size = drawn_size(facts.import, &list);
    let app_id = id_in(alloc, &list, Tag::ApplicationId)?;
    let app_bytes = id_in(alloc, &list, Tag::ApplicationData)?;
    let list = kept(
        list,
        facts.import,
        facts.wrapped.is_some(),
        facts.wall,
        facts.os,
        facts.patch,
    )?;
    Ok(KeyPlan {
        list,
        app_id,
        app_bytes,
        limit,
        size,
    })
}

/// Whether a key of these facts may be made: the first broken rule of table K and its code, or the plan. Of a rule with
/// several codes the first part that is broken gives it. Where it may be made, its list and its material, imported or to be
/// drawn, are a key of their cipher. `Memory` comes where memory is wanted.
pub fn check_new(alloc: Global, facts: &NewFacts) -> Result<KeyPlan, NewFault>
    ensures plan { Gives (λ plan. plan) result (new_key facts.now) }
    ensures key { OnOk result (IsKey (list_in facts.now.params) (spec.key_size facts.now.import (list_in facts.now.params))) }
    ensures fit { IfOk result (λ plan. spec.IsFit facts.now plan) }
{
    let list = check_facts(alloc, facts)?;
    plan(alloc, list, facts)
}

/// Whether a list and a material of so many bytes are a key's: they meet K5 and K7 to K12 as an import, and then they are a
/// key of their cipher. It takes no memory.
pub fn usable(list: &AuthList, length: usize) -> bool
    ensures rules { result ≡ is_ok (first_broken K (key_rules length list.now)) }
    ensures key { result ≡ true → IsKey list.now length }
{
    check_key(length as u64, list).is_ok()
}
