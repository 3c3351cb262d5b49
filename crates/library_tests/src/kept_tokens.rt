//! Which keys a token fits and opens in time, and a store that is full.

use crate::spelled::{Pairs, key_list};
use auth_tokens::AuthToken;
use std::alloc::Global;
use std::test::Fail;
use tag_lists::AuthList;
use tags::Tag;
use token_store::{TokenStore, fits};

/// A token of this user, authenticator, kind and time.
fn token(fields: (u64, u64, u32, u64)) -> AuthToken {
    let (user, authenticator, kind, time) = fields;
    AuthToken {
        challenge: 0,
        user,
        authenticator,
        kind,
        time,
        mac: [0; 32],
    }
}

/// A key's list, and for each token the reading, whether the token fits the key and whether it is timely where it is the only one.
struct Key {
    list: Pairs,
    rows: &'static [((u64, u64, u32, u64), u64, bool, bool)],
}

/// A key of the first user, for a second.
const FIRST: Pairs = &[
    (Tag::UserSecureId, 1),
    (Tag::UserAuthType, 1),
    (Tag::AuthTimeout, 1),
];

/// One of the 257th user.
const LAST: Pairs = &[
    (Tag::UserSecureId, 257),
    (Tag::UserAuthType, 3),
    (Tag::AuthTimeout, 1),
];

static KEYS: [Key; 7] = [
    Key {
        list: &[
            (Tag::UserSecureId, 7),
            (Tag::UserAuthType, 1),
            (Tag::AuthTimeout, 10),
        ],
        rows: &[
            // from the token's very time on for ten seconds
            ((7, 0, 1, 5000), 4999, true, false),
            ((7, 0, 1, 5000), 5000, true, true),
            ((7, 0, 1, 5000), 15_000, true, true),
            ((7, 0, 1, 5000), 15_001, true, false),
            // at the greatest readings
            ((7, 0, 1, u64::MAX), u64::MAX, true, true),
            ((7, 0, 1, u64::MAX), u64::MAX - 1, true, false),
            ((7, 0, 1, u64::MAX), 0, true, false),
            ((7, 0, 1, u64::MAX - 10_000), u64::MAX, true, true),
            ((7, 0, 1, u64::MAX - 10_001), u64::MAX, true, false),
            ((7, 0, 1, 0), u64::MAX, true, false),
            // the authenticator in place of the user, and neither
            ((8, 7, 1, 5000), 5000, true, true),
            ((8, 9, 1, 5000), 5000, false, false),
            ((0, 0, 1, 5000), 5000, false, false),
            // another kind, several kinds, no kind
            ((7, 0, 2, 5000), 5000, false, false),
            ((7, 0, 3, 5000), 5000, true, true),
            ((7, 0, 0, 5000), 5000, false, false),
        ],
    },
    Key {
        list: &[
            (Tag::UserSecureId, 5),
            (Tag::UserSecureId, 7),
            (Tag::UserAuthType, 0x8000_0006),
            (Tag::AuthTimeout, 0),
        ],
        rows: &[
            ((5, 0, 2, 9), 9, true, true),
            ((7, 0, 4, 9), 9, true, true),
            ((6, 7, 0x8000_0000, 9), 9, true, true),
            ((7, 0, 2, 9), 10, true, false),
            ((7, 5, 9, 9), 9, false, false),
            ((6, 0, 2, 9), 9, false, false),
        ],
    },
    Key {
        list: &[
            (Tag::UserSecureId, 7),
            (Tag::UserAuthType, 1),
            (Tag::AuthTimeout, 4_294_967_295),
        ],
        rows: &[
            ((7, 0, 1, 5), 4_294_967_295_005, true, true),
            ((7, 0, 1, 5), 4_294_967_295_006, true, false),
        ],
    },
    // a key that asks for no user, takes every kind or none, or asks for a token of each operation
    Key {
        list: &[(Tag::UserAuthType, 1), (Tag::AuthTimeout, 10)],
        rows: &[
            ((7, 0, 1, 9), 9, false, false),
            ((0, 0, 1, 9), 9, false, false),
        ],
    },
    Key {
        list: &[(Tag::UserSecureId, 7), (Tag::AuthTimeout, 10)],
        rows: &[
            ((7, 0, 1, 9), 9, true, true),
            ((7, 0, 0x8000_0000, 9), 9, true, true),
            ((7, 0, 0, 9), 9, false, false),
            ((8, 9, 1, 9), 9, false, false),
        ],
    },
    Key {
        list: &[
            (Tag::UserSecureId, 7),
            (Tag::UserAuthType, 0),
            (Tag::AuthTimeout, 10),
        ],
        rows: &[((7, 0, 1, 9), 9, false, false)],
    },
    Key {
        list: &[(Tag::UserSecureId, 7), (Tag::UserAuthType, 1)],
        rows: &[((7, 0, 1, 9), 9, true, false)],
    },
];

/// Whether a token is timely for a key at a reading: in a store without it, with it alone, and in one that is cleared.
fn timely(store: &mut TokenStore, list: &AuthList, token: AuthToken, boot: u64) -> [bool; 3] {
    let before = store.timely(list, boot);
    let added = store.add(token).is_ok();
    let with = added && store.timely(list, boot);
    store.clear();
    [before, with, store.timely(list, boot)]
}

/// The number of the first row of a key that is told otherwise.
fn first_other(store: &mut TokenStore, list: &AuthList, key: &Key) -> Option<usize> {
    let mut other = None;
    for (number, (fields, boot, fitting, is_timely)) in key.rows.iter().enumerate() {
        let token = token(*fields);
        let told = (fits(&token, list), timely(store, list, token, *boot));
        let same = told == (*fitting, [false, *is_timely, false]);
        if other.is_none() && !same {
            other = Some(number);
        }
    }
    other
}

/// The same of a key by itself; of one without a list, its number of rows.
fn first_other_of(alloc: Global, store: &mut TokenStore, key: &Key) -> Option<usize> {
    match key_list(alloc, key.list, &[]) {
        Some(list) => {
            let other = first_other(store, &list, key);
            drop(list);
            other
        }
        None => Some(key.rows.len()),
    }
}

#[test]
fn a_token_is_timely_for_the_keys_that_it_fits(rt: HostRuntime) -> Result<(), Fail> {
    for (number, key) in KEYS.iter().enumerate() {
        let mut store = TokenStore::with_room(rt.alloc())?;
        let other = first_other_of(rt.alloc(), &mut store, key);
        drop(store);
        assert_eq!(rt; other, None, "of key {number}");
    }
    Ok(())
}

/// Adds a token of each user from 1 to 256, and tells whether each was taken.
fn add_users(store: &mut TokenStore) -> bool {
    let mut taken = true;
    for user in 1..257u64 {
        taken &= store.add(token((user, 0, 1, 1000))).is_ok();
    }
    taken
}

/// Tokens for a store with one of each user from 1 to 256, whether each is taken, and which of the readings 1000, 1500, 2000, 2500 and
/// 3000 it then opens for a key of the first user with a timeout of a second. Another user, authenticator or kind has no room; the
/// last token of a triple counts, be its time later or earlier.
static MORE: [((u64, u64, u32, u64), bool, [bool; 5]); 6] = [
    ((257, 0, 1, 1000), false, [true, true, true, false, false]),
    ((256, 257, 1, 1000), false, [true, true, true, false, false]),
    ((1, 0, 3, 1000), false, [true, true, true, false, false]),
    ((1, 0, 1, 2000), true, [false, false, true, true, true]),
    ((1, 0, 1, 500), true, [true, true, false, false, false]),
    ((257, 0, 1, 1000), false, [true, true, false, false, false]),
];

/// Whether a full store takes these tokens so, and one that is cleared takes the last.
fn takes_more(store: &mut TokenStore, list: &AuthList, last: &AuthList) -> bool {
    let mut same = add_users(store);
    same &= !store.timely(last, 2000);
    for (fields, taken, opens) in &MORE {
        same &= store.add(token(*fields)).is_ok() == *taken;
        let told = [
            store.timely(list, 1000),
            store.timely(list, 1500),
            store.timely(list, 2000),
            store.timely(list, 2500),
            store.timely(list, 3000),
        ];
        same &= told == *opens;
    }
    same &= !store.timely(last, 2000);
    store.clear();
    same &= !store.timely(list, 1500);
    same &= store.add(token((257, 0, 1, 1000))).is_ok();
    same && store.timely(last, 2000)
}

/// Whether a new store does, for keys of the first and of the last user.
fn a_store_takes_more(alloc: Global, first: &AuthList, last: &AuthList) -> bool {
    match TokenStore::with_room(alloc) {
        Ok(mut store) => {
            let same = takes_more(&mut store, first, last);
            drop(store);
            same
        }
        Err(_) => false,
    }
}

#[test]
fn a_known_triple_is_replaced_and_a_257th_refused(rt: HostRuntime) -> Result<(), Fail> {
    let alloc = rt.alloc();
    let first = key_list(alloc, FIRST, &[]).ok_or("a list")?;
    let last = key_list(alloc, LAST, &[]).ok_or("a list")?;
    let same = a_store_takes_more(alloc, &first, &last);
    drop((first, last));
    assert!(rt; same);
    Ok(())
}
