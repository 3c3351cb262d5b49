//! Upgrades of keys' blobs: how long list and blob become, and which blob that is. The blobs were made by another tool, with
//! Python's `cryptography` package, under the demonstration's secrets.

ghost use Rattle.std.specs.Prelude.{◌≤◌, length};

use crate::spelled::{Pairs, asked_list};
use keymint_ops::{OpenedBlob, UpgradeSizes, UpgradedKey, open_blob, seal_upgraded};
use std::alloc::Global;
use tag_lists::AuthList;
use tags::{BLOB_BYTES, Bytes, Code, DeviceSecrets, KEPT_LIST_BYTES, Tag};

/// The list of the call; the blob, and the versions in its list; and the list and the blob with the device's versions.
type Row = (
    Pairs,
    &'static [u8],
    (u32, u32),
    &'static [u8],
    &'static [u8],
);

const NONCE: [u8; 12] = *b"\xa0\xa1\xa2\xa3\xa4\xa5\xa6\xa7\xa8\xa9\xaa\xab";

static ROWS: [Row; 3] = [
    // no parameters, no ids and no material
    (
        &[],
        b"\x4b\x53\x42\x31\x10\x11\x12\x13\x14\x15\x16\x17\x18\x19\x1a\x1b\x54\x19\xda\x88\x3b\xf6\x6b\x23\x67\xac\xdd\x25\x86\x51\xf9\x74\xe3\x43\xb5\xec\xbe\x5c\x0b\x41\xe8\x38\x97\x7f\x23\x02\x46\x7d\xfa\x9e\x19\xbe\x0a\xad\x0d\x78\x99\x1b\x62\x23\x84\xe4\x59\xed\xff\xb7\x0d\x6b\xe2\xc4\x96\x19\x1e",
        (0, 0),
        b"\x00\x02\x30\x00\x02\xc1\x00\x02\x22\xe0\x30\x00\x02\xc2\x00\x03\x16\xa6",
        b"\x4b\x53\x42\x31\xa0\xa1\xa2\xa3\xa4\xa5\xa6\xa7\xa8\xa9\xaa\xab\xdb\xaa\x21\xd3\x9f\x39\x69\x48\xe1\x68\x8a\x54\xfb\x82\xb2\xce\x5e\x56\xf5\x8d\x54\x80\xa8\xf0\xb2\x5c\xb8\x24\xd3\x6a\x41\x30\xd5\x8d\xab\xa2\xc3\x71\x43\xd1\x1c\x18\x10\x14\x56\x3d\xe3\x65\xad\x5f\x9b\x3f\x2d\xdf\xc0\x76\x45\xc5\x5d\xf7\xa4\xdf\x76\x83\xd2\x61\x9e\x0e\x8c\x42\x68\x07\xdc",
    ),
    // data of no bytes, and a list that has neither version
    (
        &[(Tag::ApplicationData, 0)],
        b"\x4b\x53\x42\x31\x40\x41\x42\x43\x44\x45\x46\x47\x48\x49\x4a\x4b\xb6\x86\x91\xa9\x5f\xbc\x50\xbb\x38\xf5\x7a\x9a\x50\x51\xae\x52\xd2\x20\x0d\xe5\x9f\x60\x98\x57\x10\x13\x36\x11\x18\x1d\xc4\x06\x45\xc3\x1e\xa3\x9a\x50\x5e\x2f\x97\x6c\x5f\xbf\x45\xfa\xe8\xb4\xca\x29\x2a\xf3\x4f\xda\x92\xf7\x46\x9e\xa7\x14\xd0\x43\xe4\x8f\x50\x96\xd1\xd1\x34\x73\x7e\x64",
        (0, 0),
        b"\x00\x03\x10\x00\x00\x02\x00\x00\x00\x20\x30\x00\x02\xc1\x00\x02\x22\xe0\x30\x00\x02\xc2\x00\x03\x16\xa6",
        b"\x4b\x53\x42\x31\xa0\xa1\xa2\xa3\xa4\xa5\xa6\xa7\xa8\xa9\xaa\xab\xdb\xaa\x21\xd3\x9f\x39\x69\x48\xe1\x68\x8a\x54\xfb\x82\xb2\xce\x5e\x56\xf5\x8d\x54\x80\xa8\xf0\xb2\x5c\xb8\x24\xd3\x6a\x41\x30\xd5\x8c\xab\xa2\xc3\x63\x43\xc9\x2c\x1b\x02\xd5\x56\x3d\xc1\x85\x9d\x7f\xa9\xfd\x2f\x1d\xd6\xd2\x67\xf2\x12\x92\x2c\x16\xbd\x72\x21\xd8\xf2\x60\x26\x2d\x89\x71\x4a\xc1\x36\xec\xa5\x7f\x89\x3c\x7f\xbb\x4e\x25\xdc\x02\x22\x84",
    ),
    // an id and data, and a list of an older system whose patches have no number
    (
        &[(Tag::ApplicationId, 2), (Tag::ApplicationData, 3)],
        b"\x4b\x53\x42\x31\x50\x51\x52\x53\x54\x55\x56\x57\x58\x59\x5a\x5b\x6c\x0b\x6d\x4f\x4d\x6c\xbf\x8a\x2e\xbc\xa0\x19\xdf\xa5\x19\xb0\xb1\xa4\xa0\xef\x20\x91\xbe\xa8\x4b\xf3\x5c\x13\x69\xb7\xdc\x5f\x1a\xf1\xfc\xea\x4c\xff\x47\x02\xb3\x1c\xff\x22\x9e\x93\x7b\x27\x07\x6a\x44\xd6\x97\x7e\x2a\x7b\xb2\xd4\x10\xab\xae\x06\x52\x4c\x86\x1e\x15\x96\xe4\xd6\x2f\x5e\x39\x26\x77\xfa\xe1\xbc\x1c\x17\x3a\xcb\xa8\xe0\xa2\x33\x9b\x45\xeb\xcb\x0a\x3d\x9f\x10\x34\x3c\x9a\xd1\xe5\x78\xb4\x7a\x03\x2a\x07\xcc\x69\x82\x40\x55\x5a\x32\xd9\x8c",
        (130000, 0),
        b"\x00\x03\x10\x00\x00\x02\x00\x00\x00\x20\x30\x00\x02\xc1\x00\x02\x22\xe0\x30\x00\x02\xc2\x00\x03\x16\xa6",
        b"\x4b\x53\x42\x31\xa0\xa1\xa2\xa3\xa4\xa5\xa6\xa7\xa8\xa9\xaa\xab\xdb\xaa\x21\xd3\x9f\x39\x69\x48\xe1\x68\x8a\x54\xfb\x82\xb2\xce\x5e\x56\xf5\x8d\x54\x80\xa8\xf0\xb2\x5c\xb8\x24\xd3\x6a\x41\x30\xd4\x8d\xa9\xa2\xc3\x62\x43\xd0\x2c\x18\x12\xd5\x56\x3f\xdb\x85\x9e\x4f\x99\xfd\x2f\xdc\xd6\xd0\x65\x22\x22\x90\xef\xd4\xbf\x53\xd7\x4e\xf7\x9d\x1b\xd2\x75\x98\x47\x21\xdf\x0d\xd7\x5c\xef\x1c\x42\x8a\xf3\xf5\xff\x7d\x61\xdf\x82\x82\x45\x4c\x0b\x61\x53\x72\xea\xaf\xc6\xe3\x15\x6a\x23\xac\x86\xe3\xc1\x89\x84\x26\x8c\xbd\xca\x3b\x04\x5c\x0a\x6e\xc2\xb8\x5a\x8e",
    ),
];

/// The list and the blob of a key that is upgraded, where they are no longer than a key's may be.
fn sealed_anew(
    alloc: Global,
    device: &DeviceSecrets,
    asked: &Result<AuthList, Code>,
    own: OpenedBlob,
) -> Option<(UpgradeSizes, Bytes, Bytes)>
    requires { length own.material ≤ 255 }
{
    let sizes = own.sizes(device, asked);
    if sizes.list > KEPT_LIST_BYTES as u64 || sizes.blob > BLOB_BYTES as u64 {
        drop(own);
        return None;
    }
    let UpgradedKey { sealed, list } = own.upgrade(alloc, device, asked).ok()?;
    let blob = seal_upgraded(alloc, device, NONCE, sealed).ok()?;
    Some((sizes, list, blob))
}

/// Whether a blob becomes the row's, upgraded for the demo device.
fn is_upgraded(alloc: Global, row: &Row) -> bool {
    let (asked, blob, numbers, list, new) = row;
    let asked = asked_list(alloc, asked, None);
    let device = DeviceSecrets::demo();
    let Ok(own) = open_blob(alloc, &device, blob, &asked) else {
        return false;
    };
    let opens = own.opens && own.same && own.numbers() == *numbers;
    let upgraded = sealed_anew(alloc, &device, &asked, own);
    drop(asked);
    let right = match &upgraded {
        Some((sizes, own_list, own_blob)) => {
            let lengths = (own_list.len() as u64, own_blob.len() as u64);
            let told = (sizes.list, sizes.blob) == lengths;
            told && own_list.as_slice() == *list && own_blob.as_slice() == *new
        }
        None => false,
    };
    drop(upgraded);
    opens && right
}

/// The row of the first blob that becomes another.
fn first_other(alloc: Global) -> Option<usize> {
    let mut first = None;
    for (number, row) in ROWS.iter().enumerate() {
        if first.is_none() && !is_upgraded(alloc, row) {
            first = Some(number);
        }
    }
    first
}

#[test]
fn an_upgraded_key_has_the_devices_versions_in_its_list_and_blob(rt: HostRuntime) {
    let other = first_other(rt.alloc());
    assert_eq!(rt; other, None);
}

/// What a blob gives to a device and to ids that are not its own: it opens or not, and nothing is told.
fn told(alloc: Global, device: &DeviceSecrets, blob: &[u8], asked: Pairs) -> Option<(bool, bool)> {
    let asked = asked_list(alloc, asked, None);
    let own = open_blob(alloc, device, blob, &asked);
    drop(asked);
    let told = match &own {
        Ok(own) => {
            let nothing = own.numbers() == (0, 0) && own.material.as_slice().is_empty();
            (own.opens, nothing && !own.same)
        }
        Err(_) => return None,
    };
    drop(own);
    Some(told)
}

#[test]
fn a_blob_of_others_gives_nothing_to_upgrade(rt: HostRuntime) {
    let alloc = rt.alloc();
    let demo = DeviceSecrets::demo();
    let root = DeviceSecrets {
        root: [2; 32],
        ..demo
    };
    let seal = DeviceSecrets {
        seal: [3; 32],
        ..demo
    };
    let (asked, blob, _, _, _) = ROWS[2];
    let told = [
        told(alloc, &demo, blob, &[(Tag::ApplicationId, 2)]),
        told(alloc, &root, blob, asked),
        told(alloc, &seal, blob, asked),
        told(alloc, &demo, &[], asked),
    ];
    let (other, none) = (Some((true, true)), Some((false, true)));
    assert_eq!(rt; told, [other, other, none, none]);
}
