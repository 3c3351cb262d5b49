//! A new key's blob, and what a begin reads of it.

use crate::spelled::{Pairs, asked_list, new_facts};
use keymint_ops::{open_key, plan_key, seal_key};
use std::alloc::Global;
use std::test::Fail;
use tag_lists::AuthList;
use tags::{Bytes, Code, DeviceSecrets, Material, Tag};

/// An HMAC key of an application with an id and data, one whose id has no bytes, and one of no application.
const OWNED: Pairs = &[
    (Tag::Purpose, 2),
    (Tag::Algorithm, 128),
    (Tag::Digest, 4),
    (Tag::MinMacLength, 64),
    (Tag::ApplicationId, 2),
    (Tag::ApplicationData, 3),
];

const EMPTY_ID: Pairs = &[
    (Tag::Purpose, 2),
    (Tag::Algorithm, 128),
    (Tag::Digest, 4),
    (Tag::MinMacLength, 64),
    (Tag::ApplicationId, 0),
];

const FREE: Pairs = &[
    (Tag::Purpose, 2),
    (Tag::Algorithm, 128),
    (Tag::Digest, 4),
    (Tag::MinMacLength, 64),
];

/// A key's list, an operation's list, and whether the key's blob is the caller's.
type Row = (Pairs, Pairs, bool);

static ROWS: [Row; 10] = [
    (
        OWNED,
        &[(Tag::ApplicationId, 2), (Tag::ApplicationData, 3)],
        true,
    ),
    (OWNED, &[(Tag::ApplicationId, 2)], false),
    (OWNED, &[(Tag::ApplicationData, 3)], false),
    (
        OWNED,
        &[(Tag::ApplicationId, 3), (Tag::ApplicationData, 2)],
        false,
    ),
    (OWNED, &[], false),
    (EMPTY_ID, &[(Tag::ApplicationId, 0)], true),
    (EMPTY_ID, &[], false),
    (FREE, &[], true),
    (FREE, &[(Tag::ApplicationId, 0)], false),
    (FREE, &[(Tag::ApplicationData, 0)], false),
];

/// The blob of an imported key with this list, for the demo device.
fn blob_of(alloc: Global, list: Pairs) -> Option<Bytes> {
    let material = Material::of(Bytes::copy_of(alloc, &[7; 32]).ok()?);
    let facts = new_facts(alloc, b"k", list, Some(32), 1000);
    let planned = plan_key(alloc, &facts);
    drop(facts);
    match planned {
        Ok(key) => seal_key(alloc, &DeviceSecrets::demo(), [9; 12], key.plan, material).ok(),
        Err(_) => None,
    }
}

/// Whether a blob opens, and whether it is for this device and caller; where it is, its material and its list are there, and else neither.
fn opens(
    alloc: Global,
    device: &DeviceSecrets,
    blob: &[u8],
    asked: &Result<AuthList, Code>,
) -> Option<(bool, bool)> {
    let Ok(key) = open_key(alloc, device, blob, asked) else {
        return None;
    };
    let own: &[u8] = if key.fits { &[7; 32] } else { &[] };
    let material = key.material.as_slice() == own;
    let (opens, named) = match &key.list {
        Some(list) => (true, list.has(Tag::Origin, 2)),
        None => (false, false),
    };
    let fits = key.fits;
    drop(key);
    if material && named == fits {
        Some((opens, fits))
    } else {
        None
    }
}

/// What comes of the blob of a key with this list, under an operation's list.
fn told(alloc: Global, list: Pairs, asked: Pairs) -> Option<(bool, bool)> {
    let blob = blob_of(alloc, list)?;
    let asked = asked_list(alloc, asked, None);
    let told = opens(alloc, &DeviceSecrets::demo(), blob.as_slice(), &asked);
    drop(asked);
    drop(blob);
    told
}

#[test]
fn a_blob_is_for_its_application_alone(rt: HostRuntime) {
    for (row, (list, asked, own)) in ROWS.iter().enumerate() {
        let told = told(rt.alloc(), list, asked);
        assert_eq!(rt; told, Some((true, *own)), "in row {row}");
    }
}

/// What comes of a blob for the demo device on that device, on devices with another secret each, and of no bytes.
fn on_devices(alloc: Global, blob: &[u8]) -> [Option<(bool, bool)>; 5] {
    let asked = Ok(AuthList::empty(alloc));
    let demo = DeviceSecrets::demo();
    let token = DeviceSecrets {
        token: [0; 32],
        ..demo
    };
    let root = DeviceSecrets {
        root: [2; 32],
        ..token
    };
    let seal = DeviceSecrets {
        seal: [3; 32],
        ..root
    };
    [
        opens(alloc, &demo, blob, &asked),
        opens(alloc, &token, blob, &asked),
        opens(alloc, &root, blob, &asked),
        opens(alloc, &seal, blob, &asked),
        opens(alloc, &demo, &[], &asked),
    ]
}

#[test]
fn a_blob_is_for_its_device_and_root_of_trust_alone(rt: HostRuntime) -> Result<(), Fail> {
    let blob = blob_of(rt.alloc(), FREE).ok_or("a blob")?;
    let told = on_devices(rt.alloc(), blob.as_slice());
    drop(blob);
    let (own, other, none) = ((true, true), (true, false), (false, false));
    assert_eq!(rt;
        told,
        [Some(own), Some(own), Some(other), Some(none), Some(none)]
    );
    Ok(())
}
