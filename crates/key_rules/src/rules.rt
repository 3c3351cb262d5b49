//! The parts of the rules of a new key.

ghost use Rattle.std.specs.Prelude.{◌≡◌, ◌≤◌, true, IfSome};
ghost use Rattle.std.specs.List.{list_all};
ghost use Rattle.tags.specs.Param.{as_number};
ghost use Rattle.tags.specs.Values.{passes};
ghost use Rattle.key_rules.specs.Rules as spec;

use crate::ImportFacts;
use crate::values::{each_short, each_whole_bytes};
use key_domains::{Permission, Permissions, is_by_alias};
use tag_lists::{AuthList, ListFault};
use tags::values::{
    DECRYPT, DIGESTS, ENCRYPT, GCM, HMAC_PURPOSES, MODES, PADDINGS, RAW, WRAP_KEY, digest_bits,
    is_whole_bytes, one_in,
};
use tags::{Code, DOMAIN_BLOB, DOMAIN_SELINUX, Descriptor, Param, Tag};

fn names_place(descriptor: &Descriptor) -> bool
    ensures { result ≡ spec.names_place descriptor.now }
{
    is_by_alias(descriptor.domain) && descriptor.has_alias() || descriptor.domain == DOMAIN_BLOB
}

/// The purposes that a key of AES may have: to encipher, to decipher, and to unwrap other keys.
const AES_KEY_PURPOSES: [u64; 3] = [ENCRYPT, DECRYPT, WRAP_KEY];

/// What a key that unwraps others is kept from: limits of when, how often and for whom it works.
const RESTRICTIONS: [Tag; 11] = [
    Tag::EarlyBootOnly,
    Tag::ActiveDatetime,
    Tag::OriginationExpireDatetime,
    Tag::UsageExpireDatetime,
    Tag::MaxUsesPerBoot,
    Tag::UserId,
    Tag::UserSecureId,
    Tag::UserAuthType,
    Tag::AuthTimeout,
    Tag::UnlockedDeviceRequired,
    Tag::UsageCountLimit,
];

/// Whether the descriptor may name a new key.
pub(crate) fn names_new_key(descriptor: &Descriptor) -> bool
    ensures { result ≡ spec.names_new_key descriptor.now }
{
    names_place(descriptor) && descriptor.blob.is_none()
}

fn row_has(permission: Permission, row: Option<u32>) -> bool
    ensures { result ≡ spec.row_has permission row }
{
    match row {
        Some(bits) => Permissions::of_bits(bits).has(permission),
        None => false,
    }
}

/// SELINUX and BLOB: whether the policy lets the caller make keys in the namespace.
pub(crate) fn may_make(descriptor: &Descriptor, row: Option<u32>) -> bool
    ensures { result ≡ spec.may_make descriptor.now row }
{
    let stored = descriptor.domain != DOMAIN_SELINUX || row_has(Permission::Rebind, row);
    let handed = descriptor.domain != DOMAIN_BLOB || row_has(Permission::ManageBlob, row);
    stored && handed
}

/// The code of a list that does not read.
pub(crate) fn list_code(fault: ListFault) -> Code
    ensures { result ≡ spec.list_code fault }
{
    match fault {
        ListFault::Repeated { .. } => Code::InvalidKeyArgument,
        _ => Code::InvalidTag,
    }
}

/// Whether the ids of the list are not too long.
pub(crate) fn has_short_ids(list: &AuthList) -> bool
    ensures { result ≡ spec.has_short_ids list.now }
{
    each_short(list, Tag::ApplicationId) && each_short(list, Tag::ApplicationData)
}

/// Whether the algorithm is known.
pub(crate) fn names_algorithm(list: &AuthList) -> bool
    ensures { result ≡ spec.names_algorithm list.now }
{
    list.is_aes() || list.is_hmac()
}

/// Import: whether the format is RAW.
pub(crate) fn takes_format(import: Option<ImportFacts>) -> bool
    ensures { result ≡ spec.takes_format import }
{
    match import {
        None => true,
        Some(import) => import.format == RAW,
    }
}

fn is_allowed_size(list: &AuthList, bits: u64) -> bool
    ensures { result ≡ spec.is_allowed_size list.now bits }
{
    if list.is_aes() {
        one_in(&[128, 192, 256], bits)
    } else {
        list.is_hmac() && is_whole_bytes(64, 512, bits)
    }
}

/// Whether there is a number, and it is an allowed size.
fn is_number_allowed(list: &AuthList, number: Option<u64>) -> bool
    ensures { result ≡ passes (spec.is_allowed_size list.now) number }
{
    match number {
        Some(bits) => is_allowed_size(list, bits),
        None => false,
    }
}

fn are_allowed(list: &AuthList, params: &[Param]) -> bool
    ensures { result ≡ list_all (λ p. passes (spec.is_allowed_size list.now) (as_number p.value)) params.now }
{
    params
        .iter()
        .all(|param| is_number_allowed(list, param.value.as_number()))
}

/// Generate: whether the list names a size that is one of the algorithm's; import: whether the material has such a size.
pub(crate) fn has_allowed_size(import: Option<ImportFacts>, list: &AuthList) -> bool
    ensures size { result ≡ spec.has_allowed_size import list.now }
    ensures short { result ≡ true → IfSome import (λ facts. facts.length ≤ 64) }
{
    match import {
        None => list.stands(Tag::KeySize) && are_allowed(list, list.all(Tag::KeySize)),
        Some(import) => import.length <= 64 && is_allowed_size(list, 8 * import.length),
    }
}

/// Import: whether the size is the one that the list names, where it names one.
pub(crate) fn has_own_size(import: Option<ImportFacts>, list: &AuthList) -> bool
    requires { IfSome import (λ facts. facts.length ≤ 64) }
    ensures { result ≡ spec.has_own_size import list.now }
{
    match import {
        None => true,
        Some(import) => list.each_in(Tag::KeySize, &[8 * import.length]),
    }
}

/// Whether the purposes are the algorithm's.
pub(crate) fn has_own_purposes(list: &AuthList) -> bool
    ensures { result ≡ spec.has_own_purposes list.now }
{
    let aes = !list.is_aes() || list.each_in(Tag::Purpose, &AES_KEY_PURPOSES);
    let hmac = !list.is_hmac() || list.each_in(Tag::Purpose, &HMAC_PURPOSES);
    aes && hmac
}

/// AES: whether the modes are known.
pub(crate) fn has_known_modes(list: &AuthList) -> bool
    ensures { result ≡ spec.has_known_modes list.now }
{
    !list.is_aes() || list.each_in(Tag::BlockMode, &MODES)
}

/// AES: whether the paddings are known.
pub(crate) fn has_known_paddings(list: &AuthList) -> bool
    ensures { result ≡ spec.has_known_paddings list.now }
{
    !list.is_aes() || list.each_in(Tag::Padding, &PADDINGS)
}

fn has_known_digest(list: &AuthList) -> bool
    ensures { result ≡ spec.has_known_digest list.now }
{
    list.all(Tag::Digest).len() == 1 && list.each_in(Tag::Digest, &DIGESTS)
}

/// HMAC: whether there is one digest.
pub(crate) fn has_one_digest(list: &AuthList) -> bool
    ensures { result ≡ spec.has_one_digest list.now }
{
    !list.is_hmac() || has_known_digest(list)
}

fn is_gcm(list: &AuthList) -> bool
    ensures { result ≡ spec.is_gcm list.now }
{
    list.is_aes() && list.has(Tag::BlockMode, GCM)
}

/// HMAC and GCM: whether there is a least length of the mac or tag.
pub(crate) fn has_least_length(list: &AuthList) -> bool
    ensures { result ≡ spec.has_least_length list.now }
{
    !(list.is_hmac() || is_gcm(list)) || list.stands(Tag::MinMacLength)
}

/// The bits of the list's digest.
fn own_digest_bits(list: &AuthList) -> u64
    ensures { result ≡ spec.own_digest_bits list.now }
{
    digest_bits(list.number(Tag::Digest).unwrap_or(0))
}

fn has_fit_mac(list: &AuthList) -> bool
    ensures { result ≡ spec.has_fit_mac list.now }
{
    !list.is_hmac() || each_whole_bytes(list, Tag::MinMacLength, 64, own_digest_bits(list))
}

fn has_fit_tag(list: &AuthList) -> bool
    ensures { result ≡ spec.has_fit_tag list.now }
{
    !is_gcm(list) || each_whole_bytes(list, Tag::MinMacLength, 96, 128)
}

/// HMAC and GCM: whether that length is of whole bytes and one that the digest or GCM has.
pub(crate) fn has_fit_length(list: &AuthList) -> bool
    ensures { result ≡ spec.has_fit_length list.now }
{
    has_fit_mac(list) && has_fit_tag(list)
}

/// Whether no authentication is not asked for beside one.
pub(crate) fn has_one_authority(list: &AuthList) -> bool
    ensures { result ≡ spec.has_one_authority list.now }
{
    !(list.stands(Tag::NoAuthRequired) && list.stands(Tag::UserSecureId))
}

/// Whether a use limit allows a use.
pub(crate) fn has_some_uses(list: &AuthList) -> bool
    ensures { result ≡ spec.has_some_uses list.now }
{
    !list.has(Tag::UsageCountLimit, 0)
}

fn counts_uses(list: &AuthList) -> bool
    ensures { result ≡ spec.counts_uses list.now }
{
    list.stands(Tag::UsageCountLimit) || list.stands(Tag::MaxUsesPerBoot)
}

/// BLOB: whether the list asks for no count of uses, which is kept for stored keys alone.
pub(crate) fn has_own_counts(domain: u32, list: &AuthList) -> bool
    ensures { result ≡ spec.has_own_counts domain list.now }
{
    domain != DOMAIN_BLOB || !counts_uses(list)
}

/// EARLY_BOOT_ONLY: whether early boot has not ended.
pub(crate) fn is_early(list: &AuthList, early_ended: bool) -> bool
    ensures { result ≡ spec.is_early list.now early_ended }
{
    !list.stands(Tag::EarlyBootOnly) || !early_ended
}

/// Whether a key unwraps other keys.
pub(crate) fn wraps_keys(list: &AuthList) -> bool
    ensures { result ≡ spec.wraps_keys list.now }
{
    list.has(Tag::Purpose, WRAP_KEY)
}

/// Whether none of the tags is in the list.
fn has_none(list: &AuthList, tags: &[Tag]) -> bool
    ensures { result ≡ spec.has_none list.now tags.now }
{
    tags.iter().all(|tag| !list.stands(*tag))
}

fn wraps_alone(list: &AuthList) -> bool
    ensures { result ≡ spec.wraps_alone list.now }
{
    list.each_in(Tag::Purpose, &[WRAP_KEY]) && has_none(list, &RESTRICTIONS)
}

/// WRAP_KEY: whether it is the one purpose, and no limit of when, how often and for whom the key works is there.
pub(crate) fn has_lone_wrapping(list: &AuthList) -> bool
    ensures { result ≡ spec.has_lone_wrapping list.now }
{
    !wraps_keys(list) || wraps_alone(list)
}
