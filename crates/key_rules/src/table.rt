//! Table K, walked in its order.

ghost use Rattle.std.specs.Prelude.{◌≡◌, ℕ, ◌*◌, ◌≤◌, ◌∷◌, [], ◌++◌, true, List, Err, length, IfErr, IfOk, IfSome, OnOk, is_ok};
ghost use Rattle.tags.specs.declared.rule.RuleTable.TheVariants.{K};
ghost use Rattle.tags.specs.Table.{Check, check as row, first_broken, rule_of, where_all_hold};
ghost use Rattle.tag_lists.specs.Reading.{listed};
ghost use Rattle.tag_lists.specs.Spelling.{spelling};
ghost use Rattle.key_rules.specs.Asked.{read_by_rules};
ghost use Rattle.key_rules.specs.Gives.{Gives};
ghost use Rattle.key_rules.specs.Rules as rules;
ghost use Rattle.key_rules.specs.Table as spec;

use crate::rules::{
    has_allowed_size, has_fit_length, has_known_modes, has_known_paddings, has_least_length,
    has_lone_wrapping, has_one_authority, has_one_digest, has_own_counts, has_own_purposes,
    has_own_size, has_short_ids, has_some_uses, is_early, list_code, may_make, names_algorithm,
    names_new_key, takes_format, wraps_keys,
};
use crate::{ImportFacts, NewFacts, NewFault, WrapFacts};
use key_domains::{Permission, is_in_policy, names_key};
use key_wrap::is_wrapped_length;
use std::alloc::Global;
use tag_lists::{AuthList, ListFault};
use tags::values::RAW;
use tags::{Code, LIST_BYTES, Rule, RuleTable, Ruling, check};

/// A rule of the table by its number.
fn rule(number: u8) -> Rule
    ensures { result ≡ rule_of K number }
{
    RuleTable::K.rule(number)
}

/// The list that the bytes spell.
#[tactic(auto, unfolding(crate::specs::Rules::list_in))]
fn read(alloc: Global, params: &[u8]) -> Result<AuthList, NewFault>
    ensures list { Gives (λ list. list) result (where_all_hold (first_broken K (row 4 (rules.reading_code (listed params.now)) (is_ok (listed params.now)) ∷ [])) (rules.list_in params.now)) }
    ensures is { IfOk result (λ list. list ≡ rules.list_in params.now) }
    ensures reads { OnOk result (is_ok (listed params.now) ≡ true) }
    ensures few { IfOk result (λ list. length list ≤ length params.now) }
    ensures small { IfOk result (λ list. length (spelling list) ≤ length params.now) }
{
    match AuthList::read(alloc, params) {
        Ok(list) => Ok(list),
        Err(ListFault::Memory) => Err(NewFault::Memory),
        Err(fault) => Err(NewFault::Broken(rule(4), list_code(fault))),
    }
}

/// The rule of an encoded list, and the list that is read.
#[tactic(auto, unfolding(crate::specs::Asked::read_by_rules))]
pub(crate) fn read_by_rule(alloc: Global, params: &[u8]) -> Result<AuthList, NewFault>
    ensures list { Gives (λ list. list) result (read_by_rules params.now) }
    ensures is { IfOk result (λ list. list ≡ rules.list_in params.now) }
    ensures goes_on { OnOk result ((later : List Check) → first_broken K (spec.bytes_rules params.now ++ later) ≡ first_broken K later) }
    ensures ids { IfOk result (λ list. rules.has_short_ids list ≡ true) }
    ensures few { IfOk result (λ list. length list ≤ LIST_BYTES) }
    ensures small { IfOk result (λ list. length (spelling list) ≤ LIST_BYTES) }
{
    check(
        rule(4),
        Code::InvalidInputLength,
        params.len() <= LIST_BYTES,
    )?;
    let list = read(alloc, params)?;
    check(rule(4), Code::InvalidInputLength, has_short_ids(&list))?;
    Ok(list)
}

/// The rules that make a list and a material a key of their cipher, in the table's order.
fn check_cipher(import: Option<ImportFacts>, list: &AuthList) -> Ruling
    ensures first { result ≡ first_broken K (spec.cipher_rules import list.now) }
    ensures size { OnOk result (rules.has_allowed_size import list.now ≡ true) }
    ensures digest { OnOk result (rules.has_one_digest list.now ≡ true) }
    ensures short { OnOk result (IfSome import (λ facts. facts.length ≤ 64)) }
{
    check(
        rule(7),
        Code::UnsupportedKeySize,
        has_allowed_size(import, list),
    )?;
    check(
        rule(7),
        Code::ImportParameterMismatch,
        has_own_size(import, list),
    )?;
    check(rule(8), Code::UnsupportedPurpose, has_own_purposes(list))?;
    check(rule(9), Code::UnsupportedBlockMode, has_known_modes(list))?;
    check(
        rule(10),
        Code::UnsupportedPaddingMode,
        has_known_paddings(list),
    )?;
    check(rule(11), Code::UnsupportedDigest, has_one_digest(list))?;
    check(rule(12), Code::MissingMinMacLength, has_least_length(list))?;
    check(
        rule(12),
        Code::UnsupportedMinMacLength,
        has_fit_length(list),
    )?;
    Ok(())
}

/// The rules behind those of the cipher, in the table's order.
fn check_last(domain: u32, early_ended: bool, list: &AuthList) -> Ruling
    ensures { result ≡ first_broken K (spec.last_rules domain early_ended list.now) }
{
    check(rule(13), Code::InvalidKeyArgument, has_one_authority(list))?;
    check(rule(14), Code::InvalidKeyArgument, has_some_uses(list))?;
    check(rule(14), Code::UnsupportedTag, has_own_counts(domain, list))?;
    check(rule(15), Code::EarlyBootEnded, is_early(list, early_ended))?;
    check(rule(17), Code::UnsupportedTag, has_lone_wrapping(list))
}

/// The rules of the cipher and those behind them.
fn check_cipher_and_last(
    import: Option<ImportFacts>,
    domain: u32,
    early_ended: bool,
    list: &AuthList,
) -> Ruling
    ensures first { result ≡ first_broken K (spec.cipher_rules import list.now ++ spec.last_rules domain early_ended list.now) }
    ensures size { OnOk result (rules.has_allowed_size import list.now ≡ true) }
    ensures digest { OnOk result (rules.has_one_digest list.now ≡ true) }
    ensures short { OnOk result (IfSome import (λ facts. facts.length ≤ 64)) }
{
    match check_cipher(import, list) {
        Ok(()) => check_last(domain, early_ended, list),
        Err(broken) => Err(broken),
    }
}

/// The rules that read the list, in the table's order.
#[tactic(auto, unfolding(crate::specs::Table::list_rules))]
fn check_list(
    import: Option<ImportFacts>,
    domain: u32,
    early_ended: bool,
    list: &AuthList,
) -> Ruling
    ensures first { result ≡ first_broken K (spec.list_rules import domain early_ended list.now) }
    ensures size { OnOk result (rules.has_allowed_size import list.now ≡ true) }
    ensures digest { OnOk result (rules.has_one_digest list.now ≡ true) }
    ensures short { OnOk result (IfSome import (λ facts. facts.length ≤ 64)) }
{
    check(rule(5), Code::UnsupportedAlgorithm, names_algorithm(list))?;
    check(rule(6), Code::UnsupportedKeyFormat, takes_format(import))?;
    check_cipher_and_last(import, domain, early_ended, list)
}

/// The rules of an encoded list and of what it spells.
fn check_params(
    alloc: Global,
    params: &[u8],
    import: Option<ImportFacts>,
    domain: u32,
    early_ended: bool,
) -> Result<AuthList, NewFault>
    ensures list { Gives (λ list. list) result (where_all_hold (first_broken K (spec.bytes_rules params.now ++ spec.list_rules import domain early_ended (rules.list_in params.now))) (rules.list_in params.now)) }
    ensures is { IfOk result (λ list. list ≡ rules.list_in params.now) }
    ensures size { IfOk result (λ list. rules.has_allowed_size import list ≡ true) }
    ensures digest { IfOk result (λ list. rules.has_one_digest list ≡ true) }
    ensures ids { IfOk result (λ list. rules.has_short_ids list ≡ true) }
    ensures few { IfOk result (λ list. length list ≤ LIST_BYTES) }
    ensures small { IfOk result (λ list. length (spelling list) ≤ LIST_BYTES) }
    ensures short { OnOk result (IfSome import (λ facts. facts.length ≤ 64)) }
{
    match read_by_rule(alloc, params) {
        Ok(list) => {
            check_list(import, domain, early_ended, &list)?;
            Ok(list)
        }
        Err(fault) => Err(fault),
    }
}

/// The rules of the key under which an import comes wrapped, in the table's order.
#[tactic(auto, unfolding(crate::specs::Table::wrapping_rules))]
fn check_wrapping(os: u32, patch: u32, facts: &WrapFacts) -> Ruling
    ensures stops { IfErr result (λ broken. (later : List Check) → first_broken K (spec.wrapping_rules os patch facts.now ++ later) ≡ Err broken) }
    ensures goes_on { OnOk result ((later : List Check) → first_broken K (spec.wrapping_rules os patch facts.now ++ later) ≡ first_broken K later) }
{
    check(
        rule(18),
        Code::InvalidArgument,
        names_key(&facts.descriptor),
    )?;
    check(
        rule(18),
        Code::PermissionDenied,
        is_in_policy(facts.descriptor.domain, facts.row),
    )?;
    check(rule(19), Code::KeyNotFound, facts.found)?;
    check(
        rule(20),
        Code::PermissionDenied,
        facts.bits.has(Permission::Use),
    )?;
    if let Err(code) = &facts.asked {
        return Err((rule(21), *code));
    }
    let Some(list) = &facts.opened else {
        return Err((rule(21), Code::InvalidKeyBlob));
    };
    check(rule(21), Code::InvalidKeyBlob, facts.fits)?;
    check(rule(21), Code::InvalidKeyBlob, list.is_no_newer(os, patch))?;
    check(
        rule(21),
        Code::KeyRequiresUpgrade,
        list.is_no_older(os, patch),
    )?;
    check(rule(22), Code::IncompatiblePurpose, wraps_keys(list))?;
    check(
        rule(23),
        Code::InvalidInputLength,
        is_wrapped_length(facts.length as usize),
    )?;
    check(rule(23), Code::VerificationFailed, facts.opens)
}

/// And none where nothing comes wrapped.
fn check_wrapping_if(os: u32, patch: u32, facts: &Option<WrapFacts>) -> Ruling
    ensures stops { IfErr result (λ broken. (later : List Check) → first_broken K (spec.wrapping_rules_if os patch facts.now ++ later) ≡ Err broken) }
    ensures goes_on { OnOk result ((later : List Check) → first_broken K (spec.wrapping_rules_if os patch facts.now ++ later) ≡ first_broken K later) }
{
    match facts {
        Some(facts) => check_wrapping(os, patch, facts),
        None => Ok(()),
    }
}

/// The table's rules, in its order, and the list that is read.
pub(crate) fn check_facts(alloc: Global, facts: &NewFacts) -> Result<AuthList, NewFault>
    ensures list { Gives (λ list. list) result (where_all_hold (first_broken K (spec.rules_of facts.now)) (rules.list_in facts.now.params)) }
    ensures is { IfOk result (λ list. list ≡ rules.list_in facts.now.params) }
    ensures size { IfOk result (λ list. rules.has_allowed_size facts.now.import list ≡ true) }
    ensures digest { IfOk result (λ list. rules.has_one_digest list ≡ true) }
    ensures ids { IfOk result (λ list. rules.has_short_ids list ≡ true) }
    ensures few { IfOk result (λ list. length list ≤ LIST_BYTES) }
    ensures small { IfOk result (λ list. length (spelling list) ≤ LIST_BYTES) }
    ensures short { OnOk result (IfSome facts.now.import (λ import. import.length ≤ 64)) }
    ensures named { OnOk result (rules.names_new_key facts.now.descriptor ≡ true) }
{
    check(rule(1), Code::InvalidArgument, facts.connected)?;
    check(
        rule(2),
        Code::InvalidArgument,
        names_new_key(&facts.descriptor),
    )?;
    check(
        rule(3),
        Code::PermissionDenied,
        may_make(&facts.descriptor, facts.row),
    )?;
    check_wrapping_if(facts.os, facts.patch, &facts.wrapped)?;
    check_params(
        alloc,
        facts.params.as_slice(),
        facts.import,
        facts.descriptor.domain,
        facts.early_ended,
    )
}

/// The rules of a key that was made, in the table's order.
#[tactic(auto, unfolding(crate::specs::Table::key_rules))]
pub(crate) fn check_key(length: u64, list: &AuthList) -> Ruling
    ensures first { result ≡ first_broken K (spec.key_rules length list.now) }
    ensures size { OnOk result (rules.is_allowed_size list.now (8 * length) ≡ true) }
    ensures digest { OnOk result (rules.has_one_digest list.now ≡ true) }
{
    let import = Some(ImportFacts {
        format: RAW,
        length,
    });
    check(rule(5), Code::UnsupportedAlgorithm, names_algorithm(list))?;
    check_cipher(import, list)
}
