//! What begins: the plan and its nonce.

ghost use Rattle.std.specs.Prelude.{◌≡◌, true};
ghost use Rattle.tag_lists.specs.Lookups.{IsKey};
ghost use Rattle.use_rules.specs.Table.{key_of};

use crate::spelled::{AES_KEY, GCM_KEY, MAC_KEY, Pairs, asked_list, begin_facts, key_list};
use key_rules::usable;
use keymint_ops::{Begin, BeginFault, plan_begin};
use std::alloc::Global;
use tag_lists::AuthList;
use tags::Tag::{Algorithm, BlockMode, Digest, MacLength, MinMacLength, Padding, Purpose};
use tags::{Code, Plan, RuleTable};
use use_rules::BeginFacts;

/// The facts of a begin on a key whose list is this and whose material has so many bytes.
fn facts_of(alloc: Global, asked: Result<AuthList, Code>, key: Pairs, size: usize) -> BeginFacts
    ensures { result.fits ≡ true → IsKey (key_of result) size }
{
    match key_list(alloc, key, &[]) {
        Some(key) => {
            let fits = usable(&key, size);
            begin_facts(alloc, asked, Some(key), fits)
        }
        None => begin_facts(alloc, asked, None, false),
    }
}

/// The operation's list, the nonce in it, the key's list and its bytes; and the plan with the bytes that are drawn, or the
/// rule and its code.
type Row = (
    Pairs,
    Option<&'static [u8]>,
    Pairs,
    usize,
    Result<(Plan, usize), (u8, Code)>,
);

const BLOCK: Option<&[u8]> = Some(
    b"\x00\x01\x02\x03\x04\x05\x06\x07\x08\x09\x0a\x0b\x0c\x0d\x0e\x0f",
);

const TWELVE: Option<&[u8]> = Some(b"\x00\x01\x02\x03\x04\x05\x06\x07\x08\x09\x0a\x0b");

const THREE: Option<&[u8]> = Some(b"\x00\x01\x02");

/// An AES key for encryption in GCM alone, with tags of 120 bits and drawn nonces, and an HMAC-SHA512 key that verifies.
const SHORT_TAG_KEY: Pairs = &[
    (Purpose, 0),
    (Algorithm, 32),
    (BlockMode, 32),
    (Padding, 1),
    (MinMacLength, 120),
];

const VERIFYING_KEY: Pairs = &[
    (Purpose, 3),
    (Algorithm, 128),
    (Digest, 6),
    (MinMacLength, 512),
];

static ROWS: [Row; 28] = [
    (
        &[(Purpose, 0), (BlockMode, 1), (Padding, 64)],
        BLOCK,
        AES_KEY,
        16,
        Ok((
            Plan::Ecb {
                seal: true,
                padded: true,
            },
            0,
        )),
    ),
    (
        &[(Purpose, 0), (BlockMode, 2), (Padding, 1)],
        None,
        AES_KEY,
        24,
        Ok((
            Plan::Cbc {
                seal: true,
                padded: false,
            },
            16,
        )),
    ),
    (
        &[(Purpose, 1), (BlockMode, 2), (Padding, 64)],
        BLOCK,
        AES_KEY,
        32,
        Ok((
            Plan::Cbc {
                seal: false,
                padded: true,
            },
            0,
        )),
    ),
    (
        &[(Purpose, 0), (BlockMode, 3), (Padding, 1)],
        None,
        AES_KEY,
        16,
        Ok((Plan::Ctr, 16)),
    ),
    (
        &[(Purpose, 1), (BlockMode, 3), (Padding, 1)],
        BLOCK,
        AES_KEY,
        16,
        Ok((Plan::Ctr, 0)),
    ),
    (
        &[
            (Purpose, 0),
            (BlockMode, 32),
            (Padding, 1),
            (MacLength, 128),
        ],
        None,
        GCM_KEY,
        32,
        Ok((
            Plan::Gcm {
                seal: true,
                tag: 16,
            },
            12,
        )),
    ),
    (
        &[(Purpose, 0), (BlockMode, 32), (Padding, 1), (MacLength, 96)],
        TWELVE,
        AES_KEY,
        16,
        Ok((
            Plan::Gcm {
                seal: true,
                tag: 12,
            },
            0,
        )),
    ),
    (
        &[
            (Purpose, 1),
            (BlockMode, 32),
            (Padding, 1),
            (MacLength, 128),
        ],
        TWELVE,
        GCM_KEY,
        32,
        Ok((
            Plan::Gcm {
                seal: false,
                tag: 16,
            },
            0,
        )),
    ),
    (
        &[(Purpose, 2), (MacLength, 128)],
        None,
        MAC_KEY,
        20,
        Ok((
            Plan::HmacSign {
                digest: 4,
                size: 16,
            },
            0,
        )),
    ),
    (
        &[(Purpose, 3)],
        None,
        MAC_KEY,
        8,
        Ok((
            Plan::HmacVerify {
                digest: 4,
                least: 8,
            },
            0,
        )),
    ),
    // numbers that the lists ask for, and nonces that are given
    (
        &[
            (Purpose, 0),
            (BlockMode, 32),
            (Padding, 1),
            (MacLength, 120),
        ],
        None,
        SHORT_TAG_KEY,
        16,
        Ok((
            Plan::Gcm {
                seal: true,
                tag: 15,
            },
            12,
        )),
    ),
    (
        &[
            (Purpose, 0),
            (BlockMode, 32),
            (Padding, 1),
            (MacLength, 120),
        ],
        TWELVE,
        AES_KEY,
        16,
        Ok((
            Plan::Gcm {
                seal: true,
                tag: 15,
            },
            0,
        )),
    ),
    (
        &[
            (Purpose, 1),
            (BlockMode, 32),
            (Padding, 1),
            (MacLength, 128),
        ],
        TWELVE,
        AES_KEY,
        16,
        Ok((
            Plan::Gcm {
                seal: false,
                tag: 16,
            },
            0,
        )),
    ),
    (
        &[(Purpose, 0), (BlockMode, 2), (Padding, 64)],
        None,
        AES_KEY,
        16,
        Ok((
            Plan::Cbc {
                seal: true,
                padded: true,
            },
            16,
        )),
    ),
    (
        &[(Purpose, 0), (BlockMode, 2), (Padding, 64)],
        BLOCK,
        AES_KEY,
        16,
        Ok((
            Plan::Cbc {
                seal: true,
                padded: true,
            },
            0,
        )),
    ),
    (
        &[(Purpose, 1), (BlockMode, 1), (Padding, 1)],
        None,
        AES_KEY,
        16,
        Ok((
            Plan::Ecb {
                seal: false,
                padded: false,
            },
            0,
        )),
    ),
    (
        &[(Purpose, 3)],
        None,
        VERIFYING_KEY,
        8,
        Ok((
            Plan::HmacVerify {
                digest: 6,
                least: 64,
            },
            0,
        )),
    ),
    // what no rule looks at
    (
        &[(Purpose, 0), (BlockMode, 1), (Padding, 64)],
        THREE,
        AES_KEY,
        16,
        Ok((
            Plan::Ecb {
                seal: true,
                padded: true,
            },
            0,
        )),
    ),
    (
        &[(Purpose, 0), (BlockMode, 1), (Padding, 1), (Digest, 9)],
        None,
        AES_KEY,
        16,
        Ok((
            Plan::Ecb {
                seal: true,
                padded: false,
            },
            0,
        )),
    ),
    (
        &[(Purpose, 2), (BlockMode, 32), (MacLength, 256)],
        THREE,
        MAC_KEY,
        20,
        Ok((
            Plan::HmacSign {
                digest: 4,
                size: 32,
            },
            0,
        )),
    ),
    (
        &[(Purpose, 2), (MacLength, 128)],
        BLOCK,
        MAC_KEY,
        20,
        Ok((
            Plan::HmacSign {
                digest: 4,
                size: 16,
            },
            0,
        )),
    ),
    (
        &[(Purpose, 3), (MacLength, 3), (Padding, 9)],
        None,
        MAC_KEY,
        20,
        Ok((
            Plan::HmacVerify {
                digest: 4,
                least: 8,
            },
            0,
        )),
    ),
    // repeated parameters are one, and the key's digest may be named
    (
        &[(Purpose, 2), (Purpose, 2), (MacLength, 64)],
        None,
        MAC_KEY,
        20,
        Ok((Plan::HmacSign { digest: 4, size: 8 }, 0)),
    ),
    (
        &[(Purpose, 2), (Digest, 4), (MacLength, 256)],
        None,
        MAC_KEY,
        20,
        Ok((
            Plan::HmacSign {
                digest: 4,
                size: 32,
            },
            0,
        )),
    ),
    // a material of another length than the key's, and of none
    (
        &[
            (Purpose, 0),
            (BlockMode, 32),
            (Padding, 1),
            (MacLength, 128),
        ],
        None,
        GCM_KEY,
        16,
        Err((8, Code::InvalidKeyBlob)),
    ),
    (
        &[(Purpose, 3)],
        None,
        MAC_KEY,
        7,
        Err((8, Code::InvalidKeyBlob)),
    ),
    // a list that does not read, and a nonce of the other mode's length
    (
        &[(Purpose, 2), (MacLength, 128), (MacLength, 64)],
        None,
        MAC_KEY,
        20,
        Err((6, Code::InvalidKeyArgument)),
    ),
    (
        &[(Purpose, 0), (BlockMode, 2), (Padding, 1)],
        TWELVE,
        AES_KEY,
        16,
        Err((21, Code::InvalidNonce)),
    ),
];

/// Whether the plan is this one, with the nonce that the list has where its mode takes one.
fn is_begun(begin: &Begin, plan: Plan, wanted: usize, nonce: Option<&[u8]>) -> bool {
    let takes = matches!(plan, Plan::Cbc { .. } | Plan::Ctr | Plan::Gcm { .. });
    let same = match (&begin.nonce, nonce) {
        (Some(own), Some(given)) => takes && own.as_slice() == given,
        (Some(_), None) => false,
        (None, given) => !takes || given.is_none(),
    };
    same && begin.plan == plan && begin.wanted == wanted
}

/// Whether a begin is answered as its row says.
fn is_answered(
    answer: &Result<Begin, BeginFault>,
    nonce: Option<&[u8]>,
    expected: Result<(Plan, usize), (u8, Code)>,
) -> bool {
    match (answer, expected) {
        (Ok(begin), Ok((plan, wanted))) => is_begun(begin, plan, wanted, nonce),
        (Err(BeginFault::Broken(rule, own)), Err((number, code))) => {
            rule.table == RuleTable::B && rule.number == number && *own == code
        }
        _ => false,
    }
}

/// Bytes of a material.
static MATERIAL: [u8; 32] = [1; 32];

/// Whether the begin of a row is answered as it says.
fn begins_so(alloc: Global, row: &Row) -> bool {
    let (asked, nonce, key, size, expected) = row;
    let Some(material) = MATERIAL.get(..*size) else {
        return false;
    };
    let asked = asked_list(alloc, asked, *nonce);
    let facts = facts_of(alloc, asked, key, material.len());
    let answer = plan_begin(alloc, &facts, material);
    drop(facts);
    let answered = is_answered(&answer, *nonce, *expected);
    drop(answer);
    answered
}

#[test]
fn an_operation_begins_with_the_nonce_of_its_mode(rt: HostRuntime) {
    for (number, row) in ROWS.iter().enumerate() {
        let right = begins_so(rt.alloc(), row);
        assert!(rt; right, "in row {number}");
    }
}
