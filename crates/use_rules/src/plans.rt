//! What the work of an operation is, and its nonce.

ghost use Rattle.std.specs.Prelude.{◌≡◌};
ghost use Rattle.std.specs.Option.{option_copied};
ghost use Rattle.use_rules.specs.Plans as spec;
ghost use Rattle.use_rules.specs.Table.{asked_of, key_of};

use crate::BeginFacts;
use crate::rules::{digest_of, gives_nonce, is_sign, least_bits, nonce_size, takes_nonce};
use tag_lists::AuthList;
use tags::values::{CBC, CTR, ECB, ENCRYPT, PKCS7};
use tags::{Plan, Tag};

/// A number of a plan has one byte; a list that the rules let through has no greater one.
fn byte(n: u64) -> u8
    ensures { result ≡ spec.byte n }
{
    if n <= 255 { n as u8 } else { 255 }
}

fn length_bytes(asked: &AuthList) -> u8
    ensures { result ≡ spec.length_bytes asked.now }
{
    byte(asked.number(Tag::MacLength).unwrap_or(0) / 8)
}

fn cipher_plan(asked: &AuthList) -> Plan
    ensures { result ≡ spec.cipher_plan asked.now }
{
    let seal = asked.is_only(Tag::Purpose, ENCRYPT);
    let padded = asked.is_only(Tag::Padding, PKCS7);
    if asked.is_only(Tag::BlockMode, ECB) {
        Plan::Ecb { seal, padded }
    } else if asked.is_only(Tag::BlockMode, CBC) {
        Plan::Cbc { seal, padded }
    } else if asked.is_only(Tag::BlockMode, CTR) {
        Plan::Ctr
    } else {
        Plan::Gcm {
            seal,
            tag: length_bytes(asked),
        }
    }
}

fn mac_plan(asked: &AuthList, key: &AuthList) -> Plan
    ensures { result ≡ spec.mac_plan asked.now key.now }
{
    let digest = byte(digest_of(asked, key));
    if is_sign(asked) {
        Plan::HmacSign {
            digest,
            size: length_bytes(asked),
        }
    } else {
        Plan::HmacVerify {
            digest,
            least: byte(least_bits(key) / 8),
        }
    }
}

/// The plan of an operation on the key.
#[tactic(auto, unfolding(crate::specs::Plans::plan_of))]
pub fn plan_of(asked: &AuthList, key: &AuthList) -> Plan
    ensures { result ≡ spec.plan_of asked.now key.now }
{
    if key.is_aes() {
        cipher_plan(asked)
    } else {
        mac_plan(asked, key)
    }
}

#[tactic(auto, unfolding(crate::specs::Plans::nonce_given))]
fn given<'a>(asked: &'a AuthList, key: &AuthList) -> Option<&'a [u8]>
    ensures { option_copied result ≡ spec.nonce_given asked.now key.now }
{
    if takes_nonce(asked, key) {
        asked.bytes(Tag::Nonce)
    } else {
        None
    }
}

#[tactic(auto, unfolding(crate::specs::Plans::nonce_wanted))]
fn wanted(asked: &AuthList, key: &AuthList) -> usize
    ensures { result ≡ spec.nonce_wanted asked.now key.now }
{
    if takes_nonce(asked, key) && asked.is_only(Tag::Purpose, ENCRYPT) && !gives_nonce(asked) {
        nonce_size(asked, key)
    } else {
        0
    }
}

/// The nonce that the caller gives: 16 bytes for CBC and CTR and 12 for GCM, where the rules let the begin through. Other
/// plans look at none. It takes no memory.
#[tactic(auto, unfolding(crate::specs::Plans::nonce_given))]
pub fn nonce_given(facts: &BeginFacts) -> Option<&[u8]>
    ensures { option_copied result ≡ spec.nonce_given (asked_of facts.now) (key_of facts.now) }
{
    match (&facts.asked, &facts.opened) {
        (Ok(asked), Some(key)) => given(asked, key),
        _ => None,
    }
}

/// How many bytes of nonce are drawn: 16 for CBC and CTR and 12 for GCM in an encryption without a given nonce, and else
/// none. It takes no memory.
#[tactic(auto, unfolding(crate::specs::Plans::nonce_wanted))]
pub fn nonce_wanted(facts: &BeginFacts) -> usize
    ensures { result ≡ spec.nonce_wanted (asked_of facts.now) (key_of facts.now) }
{
    match (&facts.asked, &facts.opened) {
        (Ok(asked), Some(key)) => wanted(asked, key),
        _ => 0,
    }
}

/// Whether each operation of the key is to be shown a token of its own.
fn is_per_operation(key: &AuthList) -> bool
    ensures { result ≡ spec.is_per_operation key.now }
{
    key.stands(Tag::UserSecureId) && !key.stands(Tag::AuthTimeout)
}

/// How many bytes of challenge are drawn behind the nonce: 8 where each operation of the key is to be shown a token that
/// names its challenge, and else none. It takes no memory.
pub fn challenge_wanted(facts: &BeginFacts) -> usize
    ensures { result ≡ spec.challenge_wanted (key_of facts.now) }
{
    match &facts.opened {
        Some(key) if is_per_operation(key) => 8,
        _ => 0,
    }
}
