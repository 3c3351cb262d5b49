//! Grants that are made again, taken back and ended with their key, and look-ups among very many.

ghost use Rattle.std.specs.Prelude.{◌+◌, OnOk};
ghost use Rattle.grants.specs.Table.{AreBelow};

use grants::{GrantRow, Grants};
use key_domains::Permissions;
use std::alloc::Global;
use std::test::Fail;
use tags::NoMemory;

/// Shares a key with a uid, under the next number where it is new.
fn share(grants: &mut Grants, number: u64, key: u64, uid: u32, bits: u32) -> Result<(), NoMemory>
    requires { AreBelow grants.old number }
    ensures { OnOk result (AreBelow grants.new (number + 1)) }
{
    grants.reserve()?;
    grants.grant(GrantRow {
        grant: number,
        key,
        uid,
        bits: Permissions::of_bits(bits),
    });
    Ok(())
}

/// Whether the grant of a key to a uid has this number and these bits, or there is none (number 0).
fn stands(grants: &Grants, key: u64, uid: u32, number: u64, bits: u32) -> bool {
    match grants.of_key(key, uid) {
        Some(row) => {
            let same = match grants.find(row.grant) {
                Some(other) => *other == *row,
                None => false,
            };
            same && row.key == key
                && row.uid == uid
                && row.grant == number
                && row.bits.bits() == bits
        }
        None => number == 0,
    }
}

/// Each grant that is made: a key, a uid and bits. The fourth is the second again.
static SHARED: [(u64, u32, u32); 5] = [
    (7, 10002, 260),
    (7, 10001, 1),
    (8, 10002, 4),
    (7, 10001, 256),
    (9, 10002, 0),
];

/// What stands then: a key, a uid, the grant's number (0 for none) and its bits.
static STANDING: [(u64, u32, u64, u32); 7] = [
    (7, 10002, 1, 260),
    (7, 10001, 2, 256),
    (8, 10002, 3, 4),
    (9, 10002, 5, 0),
    (8, 10001, 0, 0),
    (7, 10003, 0, 0),
    (6, 10002, 0, 0),
];

/// What stands once grant 1 is out, and once key 7 has ended.
static ENDED: [(u64, u32, u64, u32); 4] = [
    (7, 10002, 0, 0),
    (7, 10001, 0, 0),
    (8, 10002, 3, 4),
    (9, 10002, 5, 0),
];

fn five(alloc: Global) -> Result<Grants, NoMemory> {
    let mut grants = Grants::new(alloc);
    for index in 0..5usize {
        let (key, uid, bits) = SHARED[index];
        share(&mut grants, index as u64 + 1, key, uid, bits)?;
    }
    Ok(grants)
}

/// One grant to 10001 of each key from 1 to 65,536.
fn many(alloc: Global) -> Result<Grants, NoMemory> {
    let mut grants = Grants::new(alloc);
    for index in 0..65_536u64 {
        share(&mut grants, index + 1, index + 1, 10001, 256)?;
    }
    Ok(grants)
}

/// Looks up sixteen million times by each of both, and ends as many keys that have no grant. A walk of the rows in one
/// of these would meet more than 10^11 of them.
fn finds_each(grants: &mut Grants) -> bool {
    let mut found = true;
    for round in 0..16_000_000u64 {
        let number = round % 65_536 + 1;
        found &= grants.find(number).is_some();
        found &= grants.of_key(number, 10001).is_some();
        grants.end_key(100_000 + round);
    }
    found
}

/// Whether each is found, and none went.
fn finds_all(mut grants: Grants) -> (bool, usize) {
    let found = finds_each(&mut grants);
    let count = grants.len();
    drop(grants);
    (found, count)
}

#[test]
fn no_call_goes_through_the_rows(rt: HostRuntime) -> Result<(), Fail> {
    let told = finds_all(many(rt.alloc())?);
    assert_eq!(rt; told, (true, 65_536));
    Ok(())
}

/// Whether each of these stands, and how many grants there are.
fn standing(grants: &Grants, rows: &[(u64, u32, u64, u32)]) -> (bool, usize) {
    let mut same = true;
    for (key, uid, number, bits) in rows {
        same &= stands(grants, *key, *uid, *number, *bits);
    }
    (same, grants.len())
}

/// What stands of five that are made; whether grants are found and taken back that are not there, are, and were; what stands once key 7
/// has ended; and whether none does once all have.
fn told_in_turn(mut grants: Grants) -> ((bool, usize), [bool; 5], (bool, usize), bool) {
    let made = standing(&grants, &STANDING);
    let calls = [
        grants.find(4).is_some(),
        grants.find(0).is_some(),
        grants.ungrant(4).is_some(),
        grants.ungrant(1).is_some(),
        grants.ungrant(1).is_some(),
    ];
    grants.end_key(7);
    let ended = standing(&grants, &ENDED);
    grants.end_key(8);
    grants.end_key(9);
    let none = grants.is_empty();
    drop(grants);
    (made, calls, ended, none)
}

#[test]
fn a_second_grant_keeps_its_number_and_a_key_takes_its_grants_along(
    rt: HostRuntime,
) -> Result<(), Fail> {
    let told = told_in_turn(five(rt.alloc())?);
    let calls = [false, false, false, true, false];
    assert_eq!(rt; told, ((true, 4), calls, (true, 2), true));
    Ok(())
}
