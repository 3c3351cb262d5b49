//! The list that is kept with a new key, and its use limit.

ghost use Rattle.std.specs.Prelude.{◌≡◌, ◌≤◌, ◌<◌, ◌+◌, length, IfOk, IfSome};
ghost use Rattle.tags.specs.declared.param.ParamValue.TheVariants.{Number};
ghost use Rattle.tag_lists.specs.Order.{Fits, shape_of};
ghost use Rattle.tags.specs.Tag.{type_of};
ghost use Rattle.tag_lists.specs.Spelling.{spelling};
ghost use Rattle.tag_lists.specs.Versions as versions;
ghost use Rattle.key_rules.specs.KeptLists as spec;
ghost use Rattle.tags.specs.declared.limits.TheConstants.{LIST_BYTES};

use crate::ImportFacts;
use tag_lists::AuthList;
use tags::values::{GENERATED, IMPORTED, SECURELY_IMPORTED};
use tags::{NoMemory, Param, ParamValue, Tag};

/// The list with this number as the tag's one parameter.
fn set(list: AuthList, tag: Tag, number: u64) -> Result<AuthList, NoMemory>
    requires fits { Fits (record { tag = tag; value = Number number }) }
    requires room { length list < 65535 }
    ensures set { IfOk result (λ new. new ≡ versions.set tag number list) }
    ensures room { IfOk result (λ new. length new ≤ length list + 1) }
    ensures small { IfOk result (λ new. length (spelling new) ≤ length (spelling list) + spec.most_bytes (shape_of (type_of tag))) }
{
    list.with(Param {
        tag,
        value: ParamValue::Number(number),
    })
}

/// The list with this number where the tag is not there.
fn set_missing(list: AuthList, tag: Tag, number: u64) -> Result<AuthList, NoMemory>
    requires fits { Fits (record { tag = tag; value = Number number }) }
    requires room { length list < 65535 }
    ensures set { IfOk result (λ new. new ≡ spec.set_missing tag number list) }
    ensures room { IfOk result (λ new. length new ≤ length list + 1) }
    ensures small { IfOk result (λ new. length (spelling new) ≤ length (spelling list) + spec.most_bytes (shape_of (type_of tag))) }
{
    if list.stands(tag) {
        Ok(list)
    } else {
        set(list, tag, number)
    }
}

/// An import's size in bits, where the caller gave none.
fn with_size(list: AuthList, import: Option<ImportFacts>) -> Result<AuthList, NoMemory>
    requires short { IfSome import (λ facts. facts.length ≤ 64) }
    requires room { length list < 65535 }
    ensures set { IfOk result (λ new. new ≡ spec.with_size import list) }
    ensures room { IfOk result (λ new. length new ≤ length list + 1) }
    ensures small { IfOk result (λ new. length (spelling new) ≤ length (spelling list) + 8) }
{
    match import {
        None => Ok(list),
        Some(import) => set_missing(list, Tag::KeySize, 8 * import.length),
    }
}

/// The caller's parameters that are kept.
fn own(list: AuthList) -> AuthList
    ensures own { result ≡ spec.own list }
    ensures room { length result ≤ length list }
    ensures small { length (spelling result) ≤ length (spelling list) }
{
    list.without(Tag::ApplicationId)
        .without(Tag::ApplicationData)
        .without(Tag::Nonce)
        .without(Tag::MacLength)
        .without(Tag::Origin)
        .without(Tag::OsVersion)
        .without(Tag::OsPatchlevel)
}

fn origin(import: Option<ImportFacts>, wrapped: bool) -> u64
    ensures origin { result ≡ spec.origin import wrapped }
    ensures small { result ≤ 4 }
{
    match import {
        None => GENERATED,
        Some(_) if wrapped => SECURELY_IMPORTED,
        Some(_) => IMPORTED,
    }
}

/// The list that is kept with a new key.
#[tactic(auto, unfolding(crate::specs::KeptLists::kept))]
pub(crate) fn kept(
    list: AuthList,
    import: Option<ImportFacts>,
    wrapped: bool,
    wall: u64,
    os: u32,
    patch: u32,
) -> Result<AuthList, NoMemory>
    requires short { IfSome import (λ facts. facts.length ≤ 64) }
    requires few { length list ≤ LIST_BYTES }
    ensures kept { IfOk result (λ new. new ≡ spec.kept import wrapped wall os patch list) }
    ensures small { IfOk result (λ new. length (spelling new) ≤ length (spelling list) + 44) }
{
    let dated = set_missing(own(list), Tag::CreationDatetime, wall)?;
    let sized = with_size(dated, import)?;
    let origined = set(sized, Tag::Origin, origin(import, wrapped))?;
    origined.with_versions(os, patch)
}

/// The use limit, or 0.
#[tactic(auto, unfolding(crate::specs::KeptLists::limit))]
pub(crate) fn limit(list: &AuthList) -> u32
    ensures { result ≡ spec.limit list.now }
{
    list.version(Tag::UsageCountLimit)
}
