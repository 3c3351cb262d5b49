//! Keys that are not made: a material that no line spells, rows of a policy that the scripts have not, and lists and lengths
//! that are no key's. What a script shows is in `new-keys`, `new-key-lists`, `kept-lists` and `domain-rights` of `checks/`.

use crate::spelled::{AES_KEY, GCM_KEY, MAC_KEY, Pairs, key_list, new_facts};
use key_rules::{NewFacts, NewFault, check_new, read_asked, usable};
use keymint_ops::plan_key;
use std::alloc::Global;
use tags::{Code, Rule, RuleTable, Tag};

/// An alias, a list, the length of an import, and the rule that is broken with its code.
type Refused = (&'static [u8], Pairs, Option<u64>, u8, Code);

static REFUSED: [Refused; 6] = [
    (b"a", AES_KEY, None, 7, Code::UnsupportedKeySize),
    (b"a", GCM_KEY, Some(16), 7, Code::ImportParameterMismatch),
    (b"a", &[], None, 5, Code::UnsupportedAlgorithm),
    // eight times a length is counted without a wrap
    (
        b"k",
        AES_KEY,
        Some(2305843009213693968),
        7,
        Code::UnsupportedKeySize,
    ),
    (b"k", AES_KEY, Some(u64::MAX), 7, Code::UnsupportedKeySize),
    // an alias is UTF-8
    (b"\xc3", MAC_KEY, Some(20), 2, Code::InvalidArgument),
];

/// The rule that a fault tells, with its code.
fn rule_of(fault: NewFault) -> Option<(Rule, Code)> {
    match fault {
        NewFault::Broken(rule, code) => Some((rule, code)),
        NewFault::Memory => None,
    }
}

/// The rule that a new key breaks, by the rules alone, and where its list is spelled.
fn broken(alloc: Global, facts: &NewFacts) -> [Option<(Rule, Code)>; 2] {
    let checked = match check_new(alloc, facts) {
        Ok(_) => None,
        Err(fault) => rule_of(fault),
    };
    let planned = match plan_key(alloc, facts) {
        Ok(_) => None,
        Err(fault) => rule_of(fault),
    };
    [checked, planned]
}

#[test]
fn a_key_that_breaks_a_rule_is_not_made(rt: HostRuntime) {
    let alloc = rt.alloc();
    let table = RuleTable::K;
    for (row, (alias, list, length, number, code)) in REFUSED.iter().enumerate() {
        let facts = new_facts(alloc, alias, list, *length, 1000);
        let told = broken(alloc, &facts);
        drop(facts);
        let number = *number;
        let rule = Some((Rule { table, number }, *code));
        assert!(rt; told == [rule, rule], "in row {row}");
    }
}

/// Where a key is to stand: the domain, whether an alias is given, the bits of the policy's row, and the rule that is broken.
type Placed = (u32, bool, Option<u32>, Option<(u8, Code)>);

/// Bits that no row of the policy of the scripts has; the others are in `checks/domain-rights.jsonl`.
static PLACED: [Placed; 5] = [
    (2, true, Some(32), None),
    (2, true, Some(16), Some((3, Code::PermissionDenied))),
    // a blob is made whatever the alias, by MANAGE_BLOB alone
    (3, false, Some(16), None),
    (3, true, Some(16), None),
    (3, false, Some(493), Some((3, Code::PermissionDenied))),
];

/// The facts of an import of 20 bytes to such a place.
fn placed(alloc: Global, row: &Placed) -> NewFacts {
    let mut facts = new_facts(alloc, b"k", MAC_KEY, Some(20), 1000);
    facts.descriptor.domain = row.0;
    if !row.1 {
        facts.descriptor.alias = None;
    }
    facts.row = row.2;
    facts
}

/// Whether such a key is made, or breaks its rule.
fn is_placed(alloc: Global, row: &Placed) -> bool {
    let facts = placed(alloc, row);
    let checked = check_new(alloc, &facts);
    drop(facts);
    let placed = match (&checked, row.3) {
        (Ok(_), None) => true,
        (Err(NewFault::Broken(rule, code)), Some(wanted)) => (rule.number, *code) == wanted,
        _ => false,
    };
    drop(checked);
    placed
}

#[test]
fn keys_are_made_where_the_policy_lets_them(rt: HostRuntime) {
    for (number, row) in PLACED.iter().enumerate() {
        let right = is_placed(rt.alloc(), row);
        assert!(rt; right, "in row {number}");
    }
}

/// A list, the tags that are taken out of it, the material's length, and whether that is a key's.
type Use = (Pairs, &'static [Tag], usize, bool);

static USED: [Use; 9] = [
    (MAC_KEY, &[], 20, true),
    (MAC_KEY, &[], 7, false),
    (
        &[
            (Tag::Purpose, 2),
            (Tag::Purpose, 3),
            (Tag::Algorithm, 128),
            (Tag::Digest, 4),
            (Tag::MinMacLength, 64),
            (Tag::NoAuthRequired, 1),
            (Tag::KeySize, 160),
        ],
        &[],
        20,
        true,
    ),
    (
        &[
            (Tag::Purpose, 2),
            (Tag::Purpose, 3),
            (Tag::Algorithm, 128),
            (Tag::Digest, 4),
            (Tag::MinMacLength, 64),
            (Tag::NoAuthRequired, 1),
            (Tag::KeySize, 168),
        ],
        &[],
        20,
        false,
    ),
    (MAC_KEY, &[Tag::Digest], 20, false),
    (
        &[
            (Tag::Purpose, 2),
            (Tag::Purpose, 3),
            (Tag::Algorithm, 128),
            (Tag::Digest, 4),
            (Tag::MinMacLength, 64),
            (Tag::NoAuthRequired, 1),
            (Tag::UserSecureId, 7),
            (Tag::UsageCountLimit, 0),
        ],
        &[],
        20,
        true,
    ),
    (AES_KEY, &[], 32, true),
    (AES_KEY, &[Tag::MinMacLength], 32, false),
    (AES_KEY, &[], 64, false),
];

/// Whether a list and a length are a key's; each of the lists here is of AES or verifies.
fn is_key(alloc: Global, row: &Use) -> Option<bool> {
    let (params, dropped, length, _) = row;
    let list = key_list(alloc, params, dropped)?;
    let told = if list.has(Tag::Purpose, 3) || list.is_aes() {
        Some(usable(&list, *length))
    } else {
        None
    };
    drop(list);
    told
}

#[test]
fn a_list_and_a_length_are_a_keys_or_not(rt: HostRuntime) {
    for (number, row) in USED.iter().enumerate() {
        let told = is_key(rt.alloc(), row);
        assert_eq!(rt; told, Some(row.3), "in row {number}");
    }
    let cut = matches!(read_asked(rt.alloc(), b"\x00"), Ok(Err(Code::InvalidTag)));
    assert!(rt; cut);
}
