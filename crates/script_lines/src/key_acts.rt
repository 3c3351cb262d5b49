//! The acts on keys.

ghost use Rattle.std.specs.Prelude.{◌≡◌, IfOk, OnOk};
ghost use Rattle.line_members.specs.Members.{needed};
ghost use Rattle.serde_json.specs.View.{view};
ghost use Rattle.line_members.specs.Reads.{Gives};
ghost use Rattle.rule_model.specs.declared.act_kind.ActKind.TheVariants as names;
ghost use Rattle.script_lines.specs.Acts.{act_of, plain_act_of, descriptor_of as spec_descriptor_of, key_of as spec_key_of};
ghost use Rattle.rule_model.specs.declared.event.Act.TheVariants as acts;
ghost use Rattle.script_lines.specs.EventLines.{key_members, with_act, with_descriptor, with_key, with_owner, with_params};
ghost use Rattle.line_members.specs.Objects.{members_in};

use crate::params::{list_at, params_of};
use line_members::{
    AliasForm, LineFault, WrittenObject, flag_or_false, needed_hex, needed_u32, optional_alias,
    optional_hex, u64_or_zero,
};
use rule_model::Act;
use serde_json::Value;
use std::alloc::{AllocError, Global};
use tags::{Bytes, Descriptor, Material};

fn descriptor_of(alloc: Global, form: AliasForm, object: &Value) -> Result<Descriptor, LineFault>
    ensures { Gives result (spec_descriptor_of form (view object.now)) }
{
    let domain = needed_u32(object, "domain")?;
    let nspace = u64_or_zero(object, "nspace")?;
    let alias = optional_alias(alloc, form, object, "alias")?;
    let blob = optional_hex(alloc, object, "blob")?;
    Ok(Descriptor {
        domain,
        nspace,
        alias,
        blob,
    })
}

/// A member that has to be there, a descriptor.
fn needed_descriptor(
    alloc: Global,
    form: AliasForm,
    object: &Value,
    name: &str,
) -> Result<Descriptor, LineFault>
    ensures { Gives result (needed (spec_descriptor_of form) name.now (view object.now)) }
{
    let Some(value) = object.get(name) else {
        return Err(LineFault::Malformed);
    };
    descriptor_of(alloc, form, value)
}

fn key_of(alloc: Global, form: AliasForm, object: &Value) -> Result<Descriptor, LineFault>
    ensures { Gives result (spec_key_of form (view object.now)) }
{
    needed_descriptor(alloc, form, object, "key")
}

fn key_object(alloc: Global, key: &Descriptor) -> Result<WrittenObject, AllocError>
    ensures { IfOk result (λ object. members_in object ≡ key_members key.now) }
{
    let mut object = WrittenObject::new(alloc);
    object.put_number("domain", u64::from(key.domain))?;
    object.put_number("nspace", key.nspace)?;
    object.put_alias_if("alias", &key.alias)?;
    object.put_hex_if("blob", &key.blob)?;
    Ok(object)
}

fn put_descriptor(
    object: &mut WrittenObject,
    name: &str,
    key: &Descriptor,
) -> Result<(), AllocError>
    ensures { OnOk result (members_in object.new ≡ with_descriptor name.now key.now (members_in object.old)) }
{
    let told = key_object(object.alloc(), key)?;
    object.put_object(name, told)
}

/// The member `key`.
pub fn put_key(object: &mut WrittenObject, key: &Descriptor) -> Result<(), AllocError>
    ensures { OnOk result (members_in object.new ≡ with_key key.now (members_in object.old)) }
{
    put_descriptor(object, "key", key)
}

/// A generateKey: its members `key` and `params`.
pub fn generate_key(alloc: Global, form: AliasForm, object: &Value) -> Result<Act, LineFault>
    ensures { Gives result (act_of form names.GenerateKey (view object.now)) }
{
    let key = key_of(alloc, form, object)?;
    let params = params_of(alloc, object)?;
    Ok(Act::GenerateKey { key, params })
}

/// The members of a generateKey and of an upgradeKey.
pub fn put_key_and_params(
    object: &mut WrittenObject,
    key: &Descriptor,
    params: &Bytes,
) -> Result<(), AllocError>
    ensures { OnOk result (members_in object.new ≡ with_params params.now (with_key key.now (members_in object.old))) }
{
    put_key(object, key)?;
    object.put_hex("params", params.as_slice())
}

/// An importKey: its members `key`, `params`, `format` (32 bits) and `material` (hex).
pub fn import_key(alloc: Global, form: AliasForm, object: &Value) -> Result<Act, LineFault>
    ensures { Gives result (act_of form names.ImportKey (view object.now)) }
{
    let key = key_of(alloc, form, object)?;
    let params = params_of(alloc, object)?;
    let format = needed_u32(object, "format")?;
    let material = Material::of(needed_hex(alloc, object, "material")?);
    Ok(Act::ImportKey {
        key,
        params,
        format,
        material,
    })
}

/// The members of an importKey.
pub fn put_import_key(
    object: &mut WrittenObject,
    key: &Descriptor,
    params: &Bytes,
    format: u32,
    material: &Material,
) -> Result<(), AllocError>
    ensures { OnOk result (members_in object.new ≡ with_act (acts.ImportKey key.now params.now format material.now) (members_in object.old)) }
{
    put_key_and_params(object, key, params)?;
    object.put_number("format", u64::from(format))?;
    object.put_hex("material", material.as_slice())
}

/// An importWrappedKey: its members `key`, `params`, `wrapping` (written as `key` is), `wrapped` (hex), and `unwrapping` (written as
/// `params` is), the empty list where it is not there.
pub fn import_wrapped_key(alloc: Global, form: AliasForm, object: &Value) -> Result<Act, LineFault>
    ensures { Gives result (act_of form names.ImportWrappedKey (view object.now)) }
{
    let key = key_of(alloc, form, object)?;
    let params = params_of(alloc, object)?;
    let wrapping = needed_descriptor(alloc, form, object, "wrapping")?;
    let wrapped = needed_hex(alloc, object, "wrapped")?;
    let unwrapping = list_at(alloc, object, "unwrapping")?;
    Ok(Act::ImportWrappedKey {
        key,
        params,
        wrapping,
        wrapped,
        unwrapping,
    })
}

/// The members of an importWrappedKey.
pub fn put_import_wrapped_key(
    object: &mut WrittenObject,
    key: &Descriptor,
    params: &Bytes,
    wrapping: &Descriptor,
    wrapped: &Bytes,
    unwrapping: &Bytes,
) -> Result<(), AllocError>
    ensures { OnOk result (members_in object.new ≡ with_act (acts.ImportWrappedKey key.now params.now wrapping.now wrapped.now unwrapping.now) (members_in object.old)) }
{
    put_key_and_params(object, key, params)?;
    put_descriptor(object, "wrapping", wrapping)?;
    object.put_hex("wrapped", wrapped.as_slice())?;
    object.put_hex("unwrapping", unwrapping.as_slice())
}

/// A createOperation: its members `key` and `params`, and `forced`, a truth value that is false where it is not there.
pub fn create_operation(alloc: Global, form: AliasForm, object: &Value) -> Result<Act, LineFault>
    ensures { Gives result (act_of form names.CreateOperation (view object.now)) }
{
    let key = key_of(alloc, form, object)?;
    let params = params_of(alloc, object)?;
    let forced = flag_or_false(object, "forced")?;
    Ok(Act::CreateOperation {
        key,
        params,
        forced,
    })
}

/// The members of a createOperation.
pub fn put_create_operation(
    object: &mut WrittenObject,
    key: &Descriptor,
    params: &Bytes,
    forced: bool,
) -> Result<(), AllocError>
    ensures { OnOk result (members_in object.new ≡ with_act (acts.CreateOperation key.now params.now forced) (members_in object.old)) }
{
    put_key_and_params(object, key, params)?;
    object.put_flag("forced", forced)
}

/// An upgradeKey: its members `key` and `params`.
pub fn upgrade_key(alloc: Global, form: AliasForm, object: &Value) -> Result<Act, LineFault>
    ensures { Gives result (act_of form names.UpgradeKey (view object.now)) }
{
    let key = key_of(alloc, form, object)?;
    let params = params_of(alloc, object)?;
    Ok(Act::UpgradeKey { key, params })
}

/// A getKeyEntry: its member `key`.
pub fn get_key_entry(alloc: Global, form: AliasForm, object: &Value) -> Result<Act, LineFault>
    ensures { Gives result (act_of form names.GetKeyEntry (view object.now)) }
{
    let key = key_of(alloc, form, object)?;
    Ok(Act::GetKeyEntry { key })
}

/// A deleteKey: its member `key`.
pub fn delete_key(alloc: Global, form: AliasForm, object: &Value) -> Result<Act, LineFault>
    ensures { Gives result (act_of form names.DeleteKey (view object.now)) }
{
    let key = key_of(alloc, form, object)?;
    Ok(Act::DeleteKey { key })
}

/// A grant: its members `key`, `uid` and `bits` (32 bits each).
pub fn grant(alloc: Global, form: AliasForm, object: &Value) -> Result<Act, LineFault>
    ensures { Gives result (act_of form names.Grant (view object.now)) }
{
    let key = key_of(alloc, form, object)?;
    let uid = needed_u32(object, "uid")?;
    let bits = needed_u32(object, "bits")?;
    Ok(Act::Grant { key, uid, bits })
}

/// The members of a grant.
pub fn put_grant(
    object: &mut WrittenObject,
    key: &Descriptor,
    uid: u32,
    bits: u32,
) -> Result<(), AllocError>
    ensures { OnOk result (members_in object.new ≡ with_act (acts.Grant key.now uid bits) (members_in object.old)) }
{
    put_ungrant(object, key, uid)?;
    object.put_number("bits", u64::from(bits))
}

/// An ungrant: its members `key` and `uid`.
pub fn ungrant(alloc: Global, form: AliasForm, object: &Value) -> Result<Act, LineFault>
    ensures { Gives result (act_of form names.Ungrant (view object.now)) }
{
    let key = key_of(alloc, form, object)?;
    let uid = needed_u32(object, "uid")?;
    Ok(Act::Ungrant { key, uid })
}

/// The members of an ungrant.
pub fn put_ungrant(object: &mut WrittenObject, key: &Descriptor, uid: u32) -> Result<(), AllocError>
    ensures { OnOk result (members_in object.new ≡ with_act (acts.Ungrant key.now uid) (members_in object.old)) }
{
    put_key(object, key)?;
    object.put_number("uid", u64::from(uid))
}

/// A getNumberOfEntries: its members `domain` and `nspace`, which is 0 where it is not there.
pub fn get_number_of_entries(object: &Value) -> Result<Act, LineFault>
    ensures { Gives result (plain_act_of names.GetNumberOfEntries (view object.now)) }
{
    let domain = needed_u32(object, "domain")?;
    let nspace = u64_or_zero(object, "nspace")?;
    Ok(Act::GetNumberOfEntries { domain, nspace })
}

/// The members of a getNumberOfEntries and of a clearNamespace.
pub fn put_owner(object: &mut WrittenObject, domain: u32, nspace: u64) -> Result<(), AllocError>
    ensures { OnOk result (members_in object.new ≡ with_owner domain nspace (members_in object.old)) }
{
    object.put_number("domain", u64::from(domain))?;
    object.put_number("nspace", nspace)
}

/// A listEntriesBatched: its members `domain`, `nspace` and `past`, the alias behind which the page begins, where there is
/// one.
pub fn list_entries_batched(
    alloc: Global,
    form: AliasForm,
    object: &Value,
) -> Result<Act, LineFault>
    ensures { Gives result (act_of form names.ListEntriesBatched (view object.now)) }
{
    let domain = needed_u32(object, "domain")?;
    let nspace = u64_or_zero(object, "nspace")?;
    let past = optional_alias(alloc, form, object, "past")?;
    Ok(Act::ListEntriesBatched {
        domain,
        nspace,
        past,
    })
}

/// The members of a listEntriesBatched.
pub fn put_list_entries_batched(
    object: &mut WrittenObject,
    domain: u32,
    nspace: u64,
    past: &Option<Bytes>,
) -> Result<(), AllocError>
    ensures { OnOk result (members_in object.new ≡ with_act (acts.ListEntriesBatched domain nspace past.now) (members_in object.old)) }
{
    put_owner(object, domain, nspace)?;
    object.put_alias_if("past", past)
}

/// A clearNamespace: its members `domain` and `nspace`.
pub fn clear_namespace(object: &Value) -> Result<Act, LineFault>
    ensures { Gives result (plain_act_of names.ClearNamespace (view object.now)) }
{
    let domain = needed_u32(object, "domain")?;
    let nspace = u64_or_zero(object, "nspace")?;
    Ok(Act::ClearNamespace { domain, nspace })
}
