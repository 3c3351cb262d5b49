//! What no script of the gate shows of a begin: a blob that does not open, a key that is not usable, an alias that is no
//! UTF-8, rows of a policy that the scripts have not, and lists that no key has. The other rules are in the scripts `begins`,
//! `begin-lists`, `domain-rights`, `dates` and `bound-keys` of `checks/`, the plans with their nonces in `beginnings.rt`.

use crate::spelled::{MAC_KEY, Pairs, app_key, asked_list, begin_facts, key_list};
use key_domains::Permissions;
use std::alloc::Global;
use tags::{Bytes, Code, Descriptor, Plan, Rule, RuleTable, Tag};
use use_rules::{BeginFacts, challenge_wanted, check_begin, nonce_given, nonce_wanted};

/// Facts whose lists are these.
fn begin(alloc: Global, asked: Pairs, key: Pairs) -> BeginFacts {
    let asked = asked_list(alloc, asked, None);
    begin_facts(alloc, asked, key_list(alloc, key, &[]), true)
}

/// Whether the begin breaks this rule first, with this code.
fn breaks(facts: &BeginFacts, number: u8, code: Code) -> bool {
    let table = RuleTable::B;
    check_begin(facts) == Err((Rule { table, number }, code))
}

/// What the facts break once a key has no slot, does not fit and does not open, and then where their list does not read.
fn lists_break(mut facts: BeginFacts) -> [bool; 7] {
    facts.room = false;
    let slots = breaks(&facts, 22, Code::BackendBusy);
    facts.fits = false;
    let fits = breaks(&facts, 8, Code::InvalidKeyBlob);
    facts.opened = None;
    let opens = breaks(&facts, 7, Code::InvalidKeyBlob);
    let nonce = nonce_given(&facts).is_none() && nonce_wanted(&facts) == 0;
    facts.asked = Err(Code::InvalidInputLength);
    let length = breaks(&facts, 6, Code::InvalidInputLength);
    facts.asked = Err(Code::InvalidTag);
    let tag = breaks(&facts, 6, Code::InvalidTag);
    facts.asked = Err(Code::InvalidKeyArgument);
    let argument = breaks(&facts, 6, Code::InvalidKeyArgument);
    drop(facts);
    [slots, fits, opens, nonce, length, tag, argument]
}

/// What they break where the caller may not force, where no key is found, where its domain is no app's, where its alias is no UTF-8,
/// and where the client is not connected.
fn access_breaks(mut facts: BeginFacts, byte: Descriptor, surrogate: Descriptor) -> [bool; 6] {
    facts.asked = Err(Code::InvalidTag);
    facts.forced = true;
    let forced = breaks(&facts, 5, Code::PermissionDenied);
    facts.found = false;
    let found = breaks(&facts, 4, Code::KeyNotFound);
    facts.descriptor.domain = 2;
    let owner = breaks(&facts, 3, Code::PermissionDenied);
    facts.descriptor = byte;
    let alias = breaks(&facts, 2, Code::InvalidArgument);
    facts.descriptor = surrogate;
    let other = breaks(&facts, 2, Code::InvalidArgument);
    facts.connected = false;
    let client = breaks(&facts, 1, Code::InvalidArgument);
    drop(facts);
    [forced, found, owner, alias, other, client]
}

#[test]
fn a_call_breaks_the_rules_before_its_lists(rt: HostRuntime) {
    let alloc = rt.alloc();
    let facts = begin(alloc, SIGN, MAC_KEY);
    let plan = check_begin(&facts);
    let lists = lists_break(facts);
    let byte = app_key(alloc, b"\xff");
    let surrogate = app_key(alloc, b"\xed\xa0\x80");
    let access = access_breaks(begin(alloc, SIGN, MAC_KEY), byte, surrogate);
    let sign = Plan::HmacSign {
        digest: 4,
        size: 32,
    };
    assert!(rt; (plan, lists, access) == (Ok(sign), [true; 7], [true; 6]));
}

/// A domain, whether there is a blob, the bits of the policy's row, the caller's bits, whether the begin forces, and the rule
/// that is broken with its code.
type Access = (u32, bool, Option<u32>, u32, bool, Broken);

/// Bits that no row of the policy of the scripts has; the others are in `checks/domain-rights.jsonl`.
static ACCESSES: [Access; 6] = [
    (0, false, None, 64, true, Some((5, Code::PermissionDenied))),
    (2, false, Some(0), 256, false, None),
    // a blob is handed in where the policy lets it
    (3, true, Some(16), 272, false, None),
    (
        3,
        true,
        Some(493),
        493,
        false,
        Some((3, Code::PermissionDenied)),
    ),
    (
        3,
        true,
        Some(0),
        272,
        false,
        Some((3, Code::PermissionDenied)),
    ),
    (
        3,
        true,
        Some(16),
        16,
        false,
        Some((5, Code::PermissionDenied)),
    ),
];

/// The facts of a begin where one of the caller's keys is found.
fn at_access(mut facts: BeginFacts, alloc: Global, access: &Access) -> BeginFacts {
    let (domain, given, row, bits, forced, _) = access;
    facts.descriptor.domain = *domain;
    facts.descriptor.nspace = 100;
    if *given {
        facts.descriptor.blob = Some(Bytes::empty(alloc));
    }
    facts.row = *row;
    facts.bits = Permissions::of_bits(*bits);
    facts.forced = *forced;
    facts
}

/// Whether facts break this rule first, or none.
fn breaks_so(facts: &BeginFacts, broken: Broken) -> bool {
    match broken {
        None => check_begin(facts).is_ok(),
        Some((number, code)) => breaks(facts, number, code),
    }
}

#[test]
fn each_right_is_asked_of_its_bits(rt: HostRuntime) {
    let alloc = rt.alloc();
    for (row, access) in ACCESSES.iter().enumerate() {
        let facts = at_access(begin(alloc, SIGN, MAC_KEY), alloc, access);
        let right = breaks_so(&facts, access.5);
        drop(facts);
        assert!(rt; right, "in row {row}");
    }
}

const SIGN: Pairs = &[(Tag::Purpose, 2), (Tag::MacLength, 256)];

const ENCRYPT: Pairs = &[(Tag::Purpose, 0), (Tag::BlockMode, 1), (Tag::Padding, 1)];

/// A key of macs of the user 1, in early boot, on the unlocked device, with a token of the last ten seconds, once a boot.
const BOUND: Pairs = &[
    (Tag::Purpose, 2),
    (Tag::Algorithm, 128),
    (Tag::Digest, 4),
    (Tag::MinMacLength, 64),
    (Tag::EarlyBootOnly, 1),
    (Tag::MaxUsesPerBoot, 1),
    (Tag::UserId, 1),
    (Tag::UserSecureId, 7),
    (Tag::AuthTimeout, 10),
    (Tag::UnlockedDeviceRequired, 1),
];

const NO_PURPOSE: Broken = Some((9, Code::UnsupportedPurpose));

const NONE_LEFT: Broken = Some((16, Code::KeyMaxOpsExceeded));

type Broken = Option<(u8, Code)>;

/// The operation's list and the key's; the wall reading, the caller's user and the begins since the restart; whether early
/// boot has ended, the user is unlocked, and a token is timely; and the rule that is broken first.
type Condition = (Pairs, Pairs, (u64, u32, u64), (bool, bool, bool), Broken);

/// What no run comes to; the others are in `checks/dates.jsonl` and `checks/bound-keys.jsonl`.
static CONDITIONS: [Condition; 3] = [
    // more begins than the key has
    (SIGN, BOUND, (0, 1, 2), (false, true, true), NONE_LEFT),
    // a key without an algorithm, and one without a purpose
    (
        ENCRYPT,
        &[(Tag::Purpose, 0)],
        (1000, 0, 0),
        (false, false, false),
        NO_PURPOSE,
    ),
    (
        &[],
        &[(Tag::Algorithm, 128)],
        (1000, 0, 0),
        (false, false, false),
        NO_PURPOSE,
    ),
];

/// Whether facts under these conditions break this rule first, or none, and whether they want a challenge.
fn meets(
    facts: BeginFacts,
    readings: (u64, u32, u64),
    states: (bool, bool, bool),
    broken: Broken,
) -> (bool, bool) {
    let facts = BeginFacts {
        wall: readings.0,
        user: readings.1,
        begins: readings.2,
        early_ended: states.0,
        unlocked: states.1,
        timely: states.2,
        ..facts
    };
    let met = (breaks_so(&facts, broken), challenge_wanted(&facts) == 8);
    drop(facts);
    met
}

#[test]
fn a_key_works_when_and_for_whom_it_is_made(rt: HostRuntime) {
    for (row, (asked, key, readings, states, broken)) in CONDITIONS.iter().enumerate() {
        let facts = begin(rt.alloc(), asked, key);
        let met = meets(facts, *readings, *states, *broken);
        assert_eq!(rt; met, (true, false), "in row {row}");
    }
}

/// A key of macs of the system 140000 with the patches 202406, and one of a system of which it has no patches.
const VERSIONED: Pairs = &[
    (Tag::Purpose, 2),
    (Tag::Algorithm, 128),
    (Tag::Digest, 4),
    (Tag::MinMacLength, 64),
    (Tag::OsVersion, 140000),
    (Tag::OsPatchlevel, 202406),
];

const UNPATCHED: Pairs = &[
    (Tag::Purpose, 2),
    (Tag::Algorithm, 128),
    (Tag::Digest, 4),
    (Tag::MinMacLength, 64),
    (Tag::OsVersion, 140000),
];

const ROLLED_BACK: Broken = Some((23, Code::InvalidKeyBlob));

const TO_UPGRADE: Broken = Some((23, Code::KeyRequiresUpgrade));

/// The operation's list and the key's, whether the key fits, the versions of the device, and the rule that is broken first.
type System = (Pairs, Pairs, bool, (u32, u32), Broken);

static SYSTEMS: [System; 15] = [
    (SIGN, VERSIONED, true, (140000, 202406), None),
    (SIGN, MAC_KEY, true, (0, 0), None),
    // one number or both are less than the device's, or are not there
    (SIGN, VERSIONED, true, (140000, 202407), TO_UPGRADE),
    (SIGN, VERSIONED, true, (140001, 202406), TO_UPGRADE),
    (SIGN, VERSIONED, true, (u32::MAX, u32::MAX), TO_UPGRADE),
    (SIGN, UNPATCHED, true, (140000, 202406), TO_UPGRADE),
    (SIGN, MAC_KEY, true, (0, 1), TO_UPGRADE),
    (SIGN, MAC_KEY, true, (1, 0), TO_UPGRADE),
    // one number is greater, whatever the other is
    (SIGN, VERSIONED, true, (140000, 202405), ROLLED_BACK),
    (SIGN, VERSIONED, true, (139999, 202406), ROLLED_BACK),
    (SIGN, VERSIONED, true, (140001, 202405), ROLLED_BACK),
    (SIGN, VERSIONED, true, (139999, 202407), ROLLED_BACK),
    (SIGN, UNPATCHED, true, (0, 202406), ROLLED_BACK),
    // the rule before it, and the one behind it
    (
        SIGN,
        VERSIONED,
        false,
        (140000, 202407),
        Some((8, Code::InvalidKeyBlob)),
    ),
    (&[], VERSIONED, true, (140000, 202407), TO_UPGRADE),
];

/// Whether a begin on a device of these versions breaks this rule first, or none.
fn meets_system(alloc: Global, system: &System) -> bool {
    let (asked, key, fits, (os, patch), broken) = system;
    let facts = BeginFacts {
        fits: *fits,
        os: *os,
        patch: *patch,
        ..begin(alloc, asked, key)
    };
    let met = breaks_so(&facts, *broken);
    drop(facts);
    met
}

#[test]
fn a_key_is_of_the_devices_system_alone(rt: HostRuntime) {
    for (row, system) in SYSTEMS.iter().enumerate() {
        let met = meets_system(rt.alloc(), system);
        assert!(rt; met, "in row {row}");
    }
}
