//! What the descriptors of each domain find, and what a grant passes on.

ghost use Rattle.std.specs.Prelude.{◌≡◌, ℕ, Option, None, Some, ◌==◌, ◌&&◌, ◌||◌, length, if◌then◌else◌};

use key_domains::{Access, GrantedRow, KeyLookups, KeyRow, Permission, Permissions, find_key};
use std::alloc::Global;
use std::test::Fail;
use tags::{Bytes, Descriptor, Policy, PolicyRow};

/// Keys 1 and 2 of the app 10001, with aliases of 1 and of 256 bytes; key 3 of the namespace 100 and key 4 of the app
/// 1000, with aliases of 1 byte. Grants 1 and 3 of key 1 and grants 2 and 4 of key 3; the key of grant 9 has ended.
struct FewKeys;

impl KeyLookups for FewKeys {
    ghost named = { λ _ domain nspace alias.
        if (domain == 0) && (nspace == 10001) && (length alias == 1) then Some (record { id = 1; domain = 0; nspace = 10001 })
        else (if (domain == 0) && (nspace == 10001) && (length alias == 256) then Some (record { id = 2; domain = 0; nspace = 10001 })
        else (if (domain == 2) && (nspace == 100) && (length alias == 1) then Some (record { id = 3; domain = 2; nspace = 100 })
        else (if (domain == 0) && (nspace == 1000) && (length alias == 1) then Some (record { id = 4; domain = 0; nspace = 1000 })
        else None))) };

    ghost numbered = { λ _ id.
        if id == 1 then Some (record { id = 1; domain = 0; nspace = 10001 })
        else (if id == 3 then Some (record { id = 3; domain = 2; nspace = 100 })
        else (if id == 4 then Some (record { id = 4; domain = 0; nspace = 1000 })
        else None)) };

    ghost granted = { λ _ grant.
        if grant == 1 then Some (record { key = record { id = 1; domain = 0; nspace = 10001 }; uid = 10002; bits = 260 })
        else (if grant == 2 then Some (record { key = record { id = 3; domain = 2; nspace = 100 }; uid = 10002; bits = 256 })
        else None) };

    ghost shared = { λ _ key uid.
        if (key == 1) && (uid == 10002) then Some 260
        else (if (key == 1) && (uid == 1000) then Some 1
        else (if (key == 3) && ((uid == 10002) || (uid == 10003)) then Some 256
        else None)) };

    fn by_name(&self, domain: u32, nspace: u64, alias: &[u8]) -> Option<KeyRow> {
        if domain == 0 && nspace == 10001 && alias.len() == 1 {
            Some(APP_KEY)
        } else if domain == 0 && nspace == 10001 && alias.len() == 256 {
            Some(KeyRow { id: 2, ..APP_KEY })
        } else if domain == 2 && nspace == 100 && alias.len() == 1 {
            Some(SHARED_KEY)
        } else if domain == 0 && nspace == 1000 && alias.len() == 1 {
            Some(SYSTEM_KEY)
        } else {
            None
        }
    }

    fn by_id(&self, id: u64) -> Option<KeyRow> {
        match id {
            1 => Some(APP_KEY),
            3 => Some(SHARED_KEY),
            4 => Some(SYSTEM_KEY),
            _ => None,
        }
    }

    fn by_grant(&self, grant: u64) -> Option<GrantedRow> {
        match grant {
            1 => Some(GrantedRow {
                key: APP_KEY,
                uid: 10002,
                bits: Permissions::of_bits(260),
            }),
            2 => Some(GrantedRow {
                key: SHARED_KEY,
                uid: 10002,
                bits: Permissions::of_bits(256),
            }),
            _ => None,
        }
    }

    fn shared_with(&self, key: u64, uid: u32) -> Option<Permissions> {
        match (key, uid) {
            (1, 10002) => Some(Permissions::of_bits(260)),
            (1, 1000) => Some(Permissions::of_bits(1)),
            (3, 10002 | 10003) => Some(Permissions::of_bits(256)),
            _ => None,
        }
    }
}

const APP_KEY: KeyRow = KeyRow {
    id: 1,
    domain: 0,
    nspace: 10001,
};

const SHARED_KEY: KeyRow = KeyRow {
    id: 3,
    domain: 2,
    nspace: 100,
};

const SYSTEM_KEY: KeyRow = KeyRow {
    id: 4,
    domain: 0,
    nspace: 1000,
};

/// What stands for the number of a blob.
const BLOB: u64 = 1000;

/// A descriptor (domain, nspace, and how often which byte its alias has), a caller, and what it finds: the key's number
/// or 0, and the bits.
type Case = (u32, u64, Option<(usize, u8)>, u32, u64, u32);

static CASES: [Case; 46] = [
    // an app's keys are its own, whatever the nspace says
    (0, 5, Some((1, 97)), 10001, 1, 429),
    (0, 0, Some((1, 97)), 10001, 1, 429),
    (0, 18_446_744_073_709_551_615, Some((1, 97)), 10001, 1, 429),
    (0, 10001, Some((1, 97)), 10002, 0, 0),
    (0, 0, Some((256, 97)), 10001, 2, 429),
    (0, 0, Some((257, 97)), 10001, 0, 0),
    (0, 0, Some((0, 97)), 10001, 0, 0),
    (0, 0, Some((2, 255)), 10001, 0, 0),
    (0, 0, None, 10001, 0, 0),
    // REQ_FORCED_OP by the policy's row of namespace 0
    (0, 0, Some((1, 97)), 1000, 4, 493),
    // a grant is its grantee's
    (1, 1, None, 10002, 1, 260),
    (1, 1, Some((1, 97)), 10002, 1, 260),
    (1, 2, None, 10002, 3, 256),
    (1, 1, None, 10001, 0, 0),
    (1, 1, None, 1000, 0, 0),
    (1, 9, None, 10002, 0, 0),
    (1, 0, None, 10002, 0, 0),
    (1, 18_446_744_073_709_551_615, None, 10002, 0, 0),
    // a namespace's key, with the bits of the first row that has both
    (2, 100, Some((1, 97)), 1000, 3, 509),
    (2, 100, Some((1, 97)), 10003, 3, 4),
    (2, 100, Some((1, 97)), 10001, 3, 0),
    (2, 101, Some((1, 97)), 1000, 0, 0),
    (2, 0, Some((1, 97)), 1000, 0, 0),
    (2, 18_446_744_073_709_551_615, Some((1, 97)), 1000, 0, 0),
    (2, 100, Some((257, 97)), 1000, 0, 0),
    (2, 100, Some((0, 97)), 1000, 0, 0),
    (2, 100, Some((2, 255)), 1000, 0, 0),
    (2, 100, None, 1000, 0, 0),
    // a key's number finds it for anyone, with the bits of owner and grantee
    (4, 1, None, 10001, 1, 429),
    (4, 1, None, 10002, 1, 260),
    (4, 1, None, 1000, 1, 1),
    (4, 1, None, 10009, 1, 0),
    (4, 3, None, 1000, 3, 509),
    (4, 3, None, 10002, 3, 256),
    (4, 3, None, 10003, 3, 260),
    (4, 3, None, 10009, 3, 0),
    (4, 4, None, 1000, 4, 493),
    (4, 0, None, 1000, 0, 0),
    (4, 18_446_744_073_709_551_615, None, 1000, 0, 0),
    // a blob is always found, with the bits of the row of its namespace
    (3, 100, None, 1000, BLOB, 509),
    (3, 100, Some((1, 97)), 1000, BLOB, 509),
    (3, 0, None, 1000, BLOB, 64),
    (3, 101, None, 1000, BLOB, 0),
    (3, 100, None, 10001, BLOB, 0),
    (3, 1, None, 10001, BLOB, 0),
    // nothing is found in other domains
    (5, 1, Some((1, 97)), 1000, 0, 0),
];

fn policy(alloc: Global) -> Option<Policy> {
    let row = |uid: u32, nspace: u64, bits: u32| PolicyRow { uid, nspace, bits };
    let rows = vec![in alloc;
        row(1000, 100, 509),
        row(1000, 0, 64),
        row(1000, 100, 1),
        row(10003, 100, 4),
        row(10003, 100, 256),
    ];
    Policy::of(rows.ok()?)
}

/// An alias of so many such bytes.
fn alias(alloc: Global, of: Option<(usize, u8)>) -> Option<Bytes> {
    let (length, byte) = of?;
    let bytes = vec![in alloc; byte; length].ok()?;
    Some(Bytes::of(bytes))
}

fn finds(alloc: Global, case: &Case, policy: &Policy) -> bool {
    let descriptor = Descriptor {
        domain: case.0,
        nspace: case.1,
        alias: alias(alloc, case.2),
        blob: None,
    };
    let access = find_key(&descriptor, case.3, policy, &FewKeys);
    drop(descriptor);
    match access {
        Access::Found { key, bits } => (key.id, bits.bits()) == (case.4, case.5),
        Access::Blob { bits } => (BLOB, bits.bits()) == (case.4, case.5),
        Access::Nothing => case.4 == 0,
    }
}

/// The number of the last case that finds otherwise.
fn last_other(alloc: Global, policy: &Policy) -> Option<usize> {
    let mut other = None;
    for (number, case) in CASES.iter().enumerate() {
        if !finds(alloc, case, policy) {
            other = Some(number);
        }
    }
    other
}

#[test]
fn each_domain_finds_its_keys(rt: HostRuntime) -> Result<(), Fail> {
    let policy = policy(rt.alloc()).ok_or("five rows are a policy")?;
    let other = last_other(rt.alloc(), &policy);
    drop(policy);
    assert_eq!(rt; other, None);
    Ok(())
}

#[test]
fn a_grant_passes_on_what_its_giver_has_but_for_the_right_to_grant(rt: HostRuntime) {
    let owner = Permissions::of_bits(429);
    let told = [
        owner.has(Permission::Rebind),
        owner.has(Permission::ManageBlob),
        owner.can_share(Permissions::of_bits(260)),
        owner.can_share(Permissions::of_bits(0)),
        owner.can_share(Permissions::of_bits(264)),
        owner.can_share(Permissions::of_bits(320)),
    ];
    assert_eq!(rt; told, [true, false, true, true, false, false]);
}
