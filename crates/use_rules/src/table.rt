//! Table B, walked in its order.

ghost use Rattle.std.specs.Prelude.{◌≡◌, ◌++◌, ℕ, List, Err, IfErr, IfOk, OnOk, is_ok, is_some, true};
ghost use Rattle.tags.specs.declared.rule.RuleTable.TheVariants.{B};
ghost use Rattle.tags.specs.Plan.{IsWorkable, takes_key};
ghost use Rattle.tags.specs.Table.{Check, first_broken, rule_of, where_all_hold};
ghost use Rattle.tag_lists.specs.Lookups.{IsKey};
ghost use Rattle.tag_lists.specs.Versions.{is_no_newer, is_no_older};
ghost use Rattle.use_rules.specs.Plans.{NonceFits, plan_of as plan_by};
ghost use Rattle.use_rules.specs.Rules.{key_has_purpose as has_purpose, names_purpose as names_purpose_of};
ghost use Rattle.use_rules.specs.Table as spec;

use crate::BeginFacts;
use crate::plans::plan_of;
use crate::rules::{
    fits_nonce, gives_length, has_begins_left, has_nonce, is_active, is_authenticated, is_early,
    is_of_user, is_unexpired, is_unlocked, key_has_digest, key_has_mode, key_has_purpose,
    may_begin, may_enter, may_give_nonce, names_digest, names_mode, names_padding, names_purpose,
    reaches_least, takes_length, takes_padding,
};
use key_domains::names_any_key;
use tag_lists::AuthList;
use tags::{Code, Plan, Rule, RuleTable, Ruling, check};

/// A rule of the table by its number.
fn rule(number: u8) -> Rule
    ensures { result ≡ rule_of B number }
{
    RuleTable::B.rule(number)
}

/// The rules of the system that the key is of, and of what it is for, when, and for whom.
#[tactic(auto, unfolding(crate::specs::Table::key_rules))]
fn check_conditions(facts: &BeginFacts, asked: &AuthList, key: &AuthList) -> Ruling
    ensures stops { IfErr result (λ broken. (later : List Check) → first_broken B (spec.key_rules facts.now asked.now key.now ++ later) ≡ Err broken) }
    ensures goes_on { OnOk result ((later : List Check) → first_broken B (spec.key_rules facts.now asked.now key.now ++ later) ≡ first_broken B later) }
    ensures newer { OnOk result (is_no_newer facts.now.os facts.now.patch key.now ≡ true) }
    ensures older { OnOk result (is_no_older facts.now.os facts.now.patch key.now ≡ true) }
    ensures purpose { OnOk result (names_purpose_of asked.now key.now ≡ true) }
    ensures own_purpose { OnOk result (has_purpose asked.now key.now ≡ true) }
{
    check(
        rule(23),
        Code::InvalidKeyBlob,
        key.is_no_newer(facts.os, facts.patch),
    )?;
    check(
        rule(23),
        Code::KeyRequiresUpgrade,
        key.is_no_older(facts.os, facts.patch),
    )?;
    check(rule(9), Code::UnsupportedPurpose, names_purpose(asked, key))?;
    check(
        rule(9),
        Code::IncompatiblePurpose,
        key_has_purpose(asked, key),
    )?;
    check(rule(10), Code::KeyNotYetValid, is_active(key, facts.wall))?;
    check(
        rule(11),
        Code::KeyExpired,
        is_unexpired(asked, key, facts.wall),
    )?;
    check(rule(12), Code::InvalidUserId, is_of_user(key, facts.user))?;
    check(
        rule(13),
        Code::EarlyBootEnded,
        is_early(key, facts.early_ended),
    )?;
    check(
        rule(14),
        Code::DeviceLocked,
        is_unlocked(key, facts.unlocked),
    )?;
    check(
        rule(15),
        Code::KeyUserNotAuthenticated,
        is_authenticated(key, facts.timely),
    )?;
    check(
        rule(16),
        Code::KeyMaxOpsExceeded,
        has_begins_left(key, facts.begins),
    )?;
    Ok(())
}

/// The rules of what the operation's list asks of the key, and of the slot that the operation takes.
#[tactic(auto, unfolding(crate::specs::Table::list_rules))]
fn check_lists(asked: &AuthList, key: &AuthList, room: bool) -> Ruling
    ensures first { result ≡ first_broken B (spec.list_rules asked.now key.now room) }
    ensures agree { OnOk result (names_purpose_of asked.now key.now ≡ true → has_purpose asked.now key.now ≡ true → spec.Agree asked.now key.now) }
    ensures room { OnOk result (room ≡ true) }
{
    check(rule(17), Code::UnsupportedBlockMode, names_mode(asked, key))?;
    check(
        rule(17),
        Code::IncompatibleBlockMode,
        key_has_mode(asked, key),
    )?;
    check(
        rule(18),
        Code::UnsupportedPaddingMode,
        names_padding(asked, key),
    )?;
    check(
        rule(18),
        Code::IncompatiblePaddingMode,
        takes_padding(asked, key),
    )?;
    check(rule(19), Code::UnsupportedDigest, names_digest(asked, key))?;
    check(
        rule(19),
        Code::IncompatibleDigest,
        key_has_digest(asked, key),
    )?;
    check(rule(20), Code::MissingMacLength, gives_length(asked, key))?;
    check(
        rule(20),
        Code::UnsupportedMacLength,
        takes_length(asked, key),
    )?;
    check(rule(20), Code::InvalidMacLength, reaches_least(asked, key))?;
    check(
        rule(21),
        Code::CallerNonceProhibited,
        may_give_nonce(asked, key),
    )?;
    check(rule(21), Code::MissingNonce, has_nonce(asked, key))?;
    check(rule(21), Code::InvalidNonce, fits_nonce(asked, key))?;
    check(rule(22), Code::BackendBusy, room)?;
    Ok(())
}

/// The plan, where no rule of the lists and of the slot is broken.
#[tactic(auto, using(crate::proofs::Begun::workable, crate::proofs::Begun::takes, crate::proofs::Begun::nonce_fits))]
fn begun(facts: &BeginFacts, asked: &AuthList, key: &AuthList) -> Result<Plan, (Rule, Code)>
    ensures first { result ≡ where_all_hold (first_broken B (spec.key_rules facts.now asked.now key.now ++ spec.list_rules asked.now key.now facts.now.room)) (plan_by asked.now key.now) }
    ensures newer { OnOk result (is_no_newer facts.now.os facts.now.patch key.now ≡ true) }
    ensures older { OnOk result (is_no_older facts.now.os facts.now.patch key.now ≡ true) }
    ensures room { OnOk result (facts.now.room ≡ true) }
    ensures plan { IfOk result (λ plan. plan ≡ plan_by asked.now key.now) }
    ensures agree { OnOk result (spec.Agree asked.now key.now) }
    ensures workable { IfOk result (λ plan. (size : ℕ) → IsKey key.now size → IsWorkable plan) }
    ensures takes { IfOk result (λ plan. (size : ℕ) → IsKey key.now size → takes_key plan size ≡ true) }
    ensures nonce { IfOk result (λ plan. NonceFits asked.now key.now plan) }
{
    check_conditions(facts, asked, key)?;
    check_lists(asked, key, facts.room)?;
    Ok(plan_of(asked, key))
}

/// The first rule of the table that the begin breaks, with its code, or else the operation's plan, which is that of the two
/// lists. Then the key was found, both lists are there and agree, the key is usable and of the device's system, and there is a
/// slot; the nonce that is
/// given or drawn has the plan's bytes; and where list and material make a key of their cipher, the plan's numbers are those of the
/// standards and it takes the material. It takes no memory.
#[tactic(auto, unfolding(crate::specs::Table::answer))]
pub fn check_begin(facts: &BeginFacts) -> Result<Plan, (Rule, Code)>
    ensures first { result ≡ spec.answer facts.now }
    ensures found { OnOk result (facts.now.found ≡ true) }
    ensures asked { OnOk result (is_ok facts.now.asked ≡ true) }
    ensures opened { OnOk result (is_some facts.now.opened ≡ true) }
    ensures fits { OnOk result (facts.now.fits ≡ true) }
    ensures newer { OnOk result (is_no_newer facts.now.os facts.now.patch (spec.key_of facts.now) ≡ true) }
    ensures older { OnOk result (is_no_older facts.now.os facts.now.patch (spec.key_of facts.now) ≡ true) }
    ensures room { OnOk result (facts.now.room ≡ true) }
    ensures agree { OnOk result (spec.Agree (spec.asked_of facts.now) (spec.key_of facts.now)) }
    ensures plan { IfOk result (λ plan. plan ≡ plan_by (spec.asked_of facts.now) (spec.key_of facts.now)) }
    ensures workable { IfOk result (λ plan. (size : ℕ) → IsKey (spec.key_of facts.now) size → IsWorkable plan) }
    ensures takes { IfOk result (λ plan. (size : ℕ) → IsKey (spec.key_of facts.now) size → takes_key plan size ≡ true) }
    ensures nonce { IfOk result (λ plan. NonceFits (spec.asked_of facts.now) (spec.key_of facts.now) plan) }
{
    check(rule(1), Code::InvalidArgument, facts.connected)?;
    check(
        rule(2),
        Code::InvalidArgument,
        names_any_key(&facts.descriptor),
    )?;
    check(
        rule(3),
        Code::PermissionDenied,
        may_enter(&facts.descriptor, facts.row),
    )?;
    check(rule(4), Code::KeyNotFound, facts.found)?;
    check(
        rule(5),
        Code::PermissionDenied,
        may_begin(facts.bits, facts.forced),
    )?;
    let asked = match &facts.asked {
        Ok(list) => list,
        Err(code) => return Err((rule(6), *code)),
    };
    let Some(key) = &facts.opened else {
        return Err((rule(7), Code::InvalidKeyBlob));
    };
    check(rule(8), Code::InvalidKeyBlob, facts.fits)?;
    begun(facts, asked, key)
}
