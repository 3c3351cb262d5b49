//! The parts of the rules of a begin.

ghost use Rattle.std.specs.Prelude.{◌≡◌};
ghost use Rattle.use_rules.specs.Rules as spec;

use key_domains::{Permission, Permissions, is_in_policy};
use tag_lists::AuthList;
use tags::values::{
    AES_PURPOSES, CBC, CTR, DECRYPT, DIGESTS, ENCRYPT, GCM, HMAC_PURPOSES, MODES, PADDINGS, SIGN,
    UNPADDED, digest_bits, is_whole_bytes, one_in,
};
use tags::{DOMAIN_BLOB, Descriptor, Tag};

fn has_manage_blob(row: Option<u32>) -> bool
    ensures { result ≡ spec.has_manage_blob row }
{
    match row {
        Some(bits) => Permissions::of_bits(bits).has(Permission::ManageBlob),
        None => false,
    }
}

/// SELINUX: whether the policy has a row of the caller and the namespace; BLOB: whether that row lets it hand in blobs.
pub fn may_enter(descriptor: &Descriptor, row: Option<u32>) -> bool
    ensures { result ≡ spec.may_enter descriptor.now row }
{
    let stored = is_in_policy(descriptor.domain, row);
    let handed = descriptor.domain != DOMAIN_BLOB || has_manage_blob(row);
    stored && handed
}

/// Whether the caller may use the key, and force where the begin forces.
pub fn may_begin(bits: Permissions, forced: bool) -> bool
    ensures { result ≡ spec.may_begin bits forced }
{
    bits.has(Permission::Use) && (!forced || bits.has(Permission::ReqForcedOp))
}

fn serves(key: &AuthList, purpose: u64) -> bool
    ensures { result ≡ spec.serves key.now purpose }
{
    if key.is_aes() {
        one_in(&AES_PURPOSES, purpose)
    } else {
        key.is_hmac() && one_in(&HMAC_PURPOSES, purpose)
    }
}

fn key_has(tag: Tag, asked: &AuthList, key: &AuthList) -> bool
    ensures { result ≡ spec.key_has tag asked.now key.now }
{
    match asked.only_number(tag) {
        Some(value) => key.has(tag, value),
        None => false,
    }
}

/// Whether there is one purpose, of the key's algorithm.
pub fn names_purpose(asked: &AuthList, key: &AuthList) -> bool
    ensures { result ≡ spec.names_purpose asked.now key.now }
{
    match asked.only_number(Tag::Purpose) {
        Some(purpose) => serves(key, purpose),
        None => false,
    }
}

/// Whether the key has the purpose.
pub fn key_has_purpose(asked: &AuthList, key: &AuthList) -> bool
    ensures { result ≡ spec.key_has_purpose asked.now key.now }
{
    key_has(Tag::Purpose, asked, key)
}

/// Whether the key is active at the wall reading.
pub fn is_active(key: &AuthList, wall: u64) -> bool
    ensures { result ≡ spec.is_active key.now wall }
{
    match key.number(Tag::ActiveDatetime) {
        Some(date) => date <= wall,
        None => true,
    }
}

/// The date behind which the key has no such operation: it makes no more cipher texts and macs, or reads none.
fn expiry_of(asked: &AuthList) -> Tag
    ensures { result ≡ spec.expiry_of asked.now }
{
    if asked.is_only(Tag::Purpose, ENCRYPT) || asked.is_only(Tag::Purpose, SIGN) {
        Tag::OriginationExpireDatetime
    } else {
        Tag::UsageExpireDatetime
    }
}

/// Whether the key has not expired for the operation's purpose at the wall reading.
pub fn is_unexpired(asked: &AuthList, key: &AuthList, wall: u64) -> bool
    ensures { result ≡ spec.is_unexpired asked.now key.now wall }
{
    match key.number(expiry_of(asked)) {
        Some(date) => wall <= date,
        None => true,
    }
}

/// Whether the key is for the user, or for every user.
pub fn is_of_user(key: &AuthList, user: u32) -> bool
    ensures { result ≡ spec.is_of_user key.now user }
{
    match key.number(Tag::UserId) {
        Some(own) => own == user as u64,
        None => true,
    }
}

/// EARLY_BOOT_ONLY: whether early boot has not ended.
pub fn is_early(key: &AuthList, early_ended: bool) -> bool
    ensures { result ≡ spec.is_early key.now early_ended }
{
    !key.stands(Tag::EarlyBootOnly) || !early_ended
}

/// UNLOCKED_DEVICE_REQUIRED: whether the caller's user is unlocked.
pub fn is_unlocked(key: &AuthList, unlocked: bool) -> bool
    ensures { result ≡ spec.is_unlocked key.now unlocked }
{
    !key.stands(Tag::UnlockedDeviceRequired) || unlocked
}

/// Whether a token opens the key for some time.
fn is_for_a_time(key: &AuthList) -> bool
    ensures { result ≡ spec.is_for_a_time key.now }
{
    key.stands(Tag::UserSecureId) && key.stands(Tag::AuthTimeout)
}

/// A key that a token opens for some time: whether one opens it now.
pub fn is_authenticated(key: &AuthList, timely: bool) -> bool
    ensures { result ≡ spec.is_authenticated key.now timely }
{
    !is_for_a_time(key) || timely
}

/// Whether the key has begins left since the last restart.
pub fn has_begins_left(key: &AuthList, begins: u64) -> bool
    ensures { result ≡ spec.has_begins_left key.now begins }
{
    match key.number(Tag::MaxUsesPerBoot) {
        Some(most) => begins < most,
        None => true,
    }
}

fn names_known_mode(asked: &AuthList) -> bool
    ensures { result ≡ spec.names_known_mode asked.now }
{
    match asked.only_number(Tag::BlockMode) {
        Some(mode) => one_in(&MODES, mode),
        None => false,
    }
}

/// AES: whether there is one mode.
pub fn names_mode(asked: &AuthList, key: &AuthList) -> bool
    ensures { result ≡ spec.names_mode asked.now key.now }
{
    !key.is_aes() || names_known_mode(asked)
}

/// AES: whether the key has the mode.
pub fn key_has_mode(asked: &AuthList, key: &AuthList) -> bool
    ensures { result ≡ spec.key_has_mode asked.now key.now }
{
    !key.is_aes() || key_has(Tag::BlockMode, asked, key)
}

fn names_known_padding(asked: &AuthList) -> bool
    ensures { result ≡ spec.names_known_padding asked.now }
{
    match asked.only_number(Tag::Padding) {
        Some(padding) => one_in(&PADDINGS, padding),
        None => false,
    }
}

/// AES: whether there is one padding.
pub fn names_padding(asked: &AuthList, key: &AuthList) -> bool
    ensures { result ≡ spec.names_padding asked.now key.now }
{
    !key.is_aes() || names_known_padding(asked)
}

fn is_stream(asked: &AuthList) -> bool
    ensures { result ≡ spec.is_stream asked.now }
{
    asked.is_only(Tag::BlockMode, CTR) || asked.is_only(Tag::BlockMode, GCM)
}

/// AES: whether the key and the mode have the padding.
pub fn takes_padding(asked: &AuthList, key: &AuthList) -> bool
    ensures { result ≡ spec.takes_padding asked.now key.now }
{
    !key.is_aes()
        || key_has(Tag::Padding, asked, key)
            && (!is_stream(asked) || asked.is_only(Tag::Padding, UNPADDED))
}

fn names_known_digest(asked: &AuthList) -> bool
    ensures { result ≡ spec.names_known_digest asked.now }
{
    match asked.only_number(Tag::Digest) {
        Some(digest) => one_in(&DIGESTS, digest),
        None => false,
    }
}

/// HMAC: whether there is at most one digest.
pub fn names_digest(asked: &AuthList, key: &AuthList) -> bool
    ensures { result ≡ spec.names_digest asked.now key.now }
{
    !key.is_hmac() || !asked.stands(Tag::Digest) || names_known_digest(asked)
}

/// HMAC: whether the digest is the key's.
pub fn key_has_digest(asked: &AuthList, key: &AuthList) -> bool
    ensures { result ≡ spec.key_has_digest asked.now key.now }
{
    !key.is_hmac() || !asked.stands(Tag::Digest) || key_has(Tag::Digest, asked, key)
}

/// Whether the purpose is SIGN.
pub fn is_sign(asked: &AuthList) -> bool
    ensures { result ≡ spec.is_sign asked.now }
{
    asked.is_only(Tag::Purpose, SIGN)
}

fn is_gcm(asked: &AuthList, key: &AuthList) -> bool
    ensures { result ≡ spec.is_gcm asked.now key.now }
{
    key.is_aes() && asked.is_only(Tag::BlockMode, GCM)
}

fn needs_length(asked: &AuthList, key: &AuthList) -> bool
    ensures { result ≡ spec.needs_length asked.now key.now }
{
    is_sign(asked) || is_gcm(asked, key)
}

/// SIGN and GCM: whether a length of the mac or tag is asked for.
pub fn gives_length(asked: &AuthList, key: &AuthList) -> bool
    ensures { result ≡ spec.gives_length asked.now key.now }
{
    !needs_length(asked, key) || asked.number(Tag::MacLength).is_some()
}

/// The digest of a mac: the operation's, or the key's where the operation names none.
pub fn digest_of(asked: &AuthList, key: &AuthList) -> u64
    ensures { result ≡ spec.digest_of asked.now key.now }
{
    match asked.number(Tag::Digest) {
        Some(digest) => digest,
        None => key.number(Tag::Digest).unwrap_or(0),
    }
}

fn is_length(asked: &AuthList, key: &AuthList, bits: u64) -> bool
    ensures { result ≡ spec.is_length asked.now key.now bits }
{
    if is_gcm(asked, key) {
        is_whole_bytes(96, 128, bits)
    } else {
        is_whole_bytes(0, digest_bits(digest_of(asked, key)), bits)
    }
}

fn gives_such_length(asked: &AuthList, key: &AuthList) -> bool
    ensures { result ≡ spec.gives_such_length asked.now key.now }
{
    match asked.number(Tag::MacLength) {
        Some(bits) => is_length(asked, key, bits),
        None => false,
    }
}

/// SIGN and GCM: whether the length is of whole bytes and one that the digest or GCM has.
pub fn takes_length(asked: &AuthList, key: &AuthList) -> bool
    ensures { result ≡ spec.takes_length asked.now key.now }
{
    !needs_length(asked, key) || gives_such_length(asked, key)
}

/// The least bits of a mac or tag that the key allows.
pub fn least_bits(key: &AuthList) -> u64
    ensures { result ≡ spec.least_bits key.now }
{
    key.number(Tag::MinMacLength).unwrap_or(0)
}

fn gives_least_length(asked: &AuthList, key: &AuthList) -> bool
    ensures { result ≡ spec.gives_least_length asked.now key.now }
{
    match asked.number(Tag::MacLength) {
        Some(bits) => least_bits(key) <= bits,
        None => false,
    }
}

/// SIGN and GCM: whether the length is no shorter than the key allows.
pub fn reaches_least(asked: &AuthList, key: &AuthList) -> bool
    ensures { result ≡ spec.reaches_least asked.now key.now }
{
    !needs_length(asked, key) || gives_least_length(asked, key)
}

/// Whether the mode starts from a nonce.
pub fn takes_nonce(asked: &AuthList, key: &AuthList) -> bool
    ensures { result ≡ spec.takes_nonce asked.now key.now }
{
    key.is_aes() && (asked.is_only(Tag::BlockMode, CBC) || is_stream(asked))
}

/// Whether a nonce is given.
pub fn gives_nonce(asked: &AuthList) -> bool
    ensures { result ≡ spec.gives_nonce asked.now }
{
    asked.bytes(Tag::Nonce).is_some()
}

/// ENCRYPT: whether a nonce is given only where the key allows it.
pub fn may_give_nonce(asked: &AuthList, key: &AuthList) -> bool
    ensures { result ≡ spec.may_give_nonce asked.now key.now }
{
    !takes_nonce(asked, key)
        || !asked.is_only(Tag::Purpose, ENCRYPT)
        || !gives_nonce(asked)
        || key.stands(Tag::CallerNonce)
}

/// DECRYPT: whether a nonce is given.
pub fn has_nonce(asked: &AuthList, key: &AuthList) -> bool
    ensures { result ≡ spec.has_nonce asked.now key.now }
{
    !takes_nonce(asked, key) || !asked.is_only(Tag::Purpose, DECRYPT) || gives_nonce(asked)
}

/// The bytes of a nonce: 12 for GCM (SP 800-38D section 5.2.1.1), and a block for CBC and CTR (SP 800-38A section 5.3).
pub fn nonce_size(asked: &AuthList, key: &AuthList) -> usize
    ensures { result ≡ spec.nonce_size asked.now key.now }
{
    if is_gcm(asked, key) { 12 } else { 16 }
}

fn gives_sized_nonce(size: usize, asked: &AuthList) -> bool
    ensures { result ≡ spec.gives_sized_nonce size asked.now }
{
    match asked.bytes(Tag::Nonce) {
        Some(nonce) => nonce.len() == size,
        None => true,
    }
}

/// Whether a given nonce has the mode's length.
pub fn fits_nonce(asked: &AuthList, key: &AuthList) -> bool
    ensures { result ≡ spec.fits_nonce asked.now key.now }
{
    !takes_nonce(asked, key) || gives_sized_nonce(nonce_size(asked, key), asked)
}
