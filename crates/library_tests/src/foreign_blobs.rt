//! Blobs of another tool, both ways, and what does not open.

ghost use Rattle.std.specs.Prelude.{◌≡◌, ◌<◌, ◌≤◌, ◌^◌, length, true};
ghost use Rattle.key_blobs.specs.Text.{IsSealable, IsShort};
ghost use Rattle.tag_lists.specs.Spelling.{spelling};

use crate::made_blobs::{KNOWN, Known, REFUSED};
use key_blobs::{BlobFault, Opened, Sealed, seal, unseal};
use std::alloc::Global;
use tags::{Bytes, DeviceSecrets};

/// What a caller with an id and without data is answered.
fn answer(alloc: Global, blob: &[u8]) -> Result<Opened, BlobFault> {
    unseal(alloc, &DeviceSecrets::demo(), blob, Some(b"ab"), None)
}

/// The fault, or none.
fn fault(alloc: Global, blob: &[u8]) -> Option<BlobFault> {
    answer(alloc, blob).err()
}

/// A copy of bytes that may be absent, of at most 65,535.
fn copied(alloc: Global, bytes: Option<&[u8]>) -> Option<Bytes>
    ensures { IsShort result }
{
    let bytes = bytes?;
    if bytes.len() > 65535 {
        return None;
    }
    Bytes::copy_of(alloc, bytes).ok()
}

/// Whether this seals to the blob, for the demo device.
fn seals_to(alloc: Global, nonce: [u8; 12], sealed: Sealed, blob: &[u8]) -> bool
    requires { IsSealable sealed }
{
    let made = seal(alloc, &DeviceSecrets::demo(), nonce, &sealed);
    drop(sealed);
    match made {
        Ok(made) => made.as_slice() == blob,
        Err(_) => false,
    }
}

/// Whether what opened seals to the blob again.
fn is_made(alloc: Global, known: &Known, opened: Opened) -> bool
    requires list { length (spelling opened.list) < 2 ^ 32 }
    requires material { length opened.material ≤ 255 }
{
    let app_id = copied(alloc, known.app_id);
    let app_bytes = copied(alloc, known.app_bytes);
    let Opened { list, material } = opened;
    let root = DeviceSecrets::demo().root;
    let sealed = Sealed {
        root,
        app_id,
        app_bytes,
        list,
        material,
    };
    seals_to(alloc, known.nonce, sealed, known.blob)
}

/// Whether what opened is the list and the material, which are no longer than they may be.
fn is_opened(alloc: Global, known: &Known, opened: &Opened) -> bool
    ensures list { result ≡ true → length (spelling opened.now.list) < 2 ^ 32 }
    ensures material { result ≡ true → length opened.now.material ≤ 255 }
{
    let Ok(list) = opened.list.write(alloc) else {
        return false;
    };
    if list.len() > 65535 || opened.material.len() > 255 {
        return false;
    }
    list.as_slice() == known.list && opened.material.as_slice() == known.material
}

/// Opens to the list and the material, and sealing these gives the blob.
fn is_known(alloc: Global, known: &Known) -> bool {
    let device = DeviceSecrets::demo();
    match unseal(alloc, &device, known.blob, known.app_id, known.app_bytes) {
        Ok(opened) => is_opened(alloc, known, &opened) && is_made(alloc, known, opened),
        Err(_) => false,
    }
}

/// The row of the first blob that is not so.
fn first_other(alloc: Global) -> Option<usize> {
    let mut first = None;
    for (row, known) in KNOWN.iter().enumerate() {
        if first.is_none() && !is_known(alloc, known) {
            first = Some(row);
        }
    }
    first
}

#[test]
fn blobs_of_another_tool_open_and_are_made_again(rt: HostRuntime) {
    let other = first_other(rt.alloc());
    assert_eq!(rt; other, None);
}

/// What is wrong with a blob that is changed at a place.
fn fault_at(alloc: Global, blob: &[u8], place: usize) -> Option<BlobFault> {
    let Ok(mut changed) = Vec::from_slice(alloc, blob) else {
        return None;
    };
    for byte in changed.iter_mut().skip(place).take(1) {
        *byte ^= 1;
    }
    fault(alloc, &changed)
}

/// What is told of a place where one fault ends and the other begins.
fn told_before(place: usize, end: usize) -> Option<BlobFault> {
    Some(if place < end {
        BlobFault::Format
    } else {
        BlobFault::Tag
    })
}

/// Whether a blob has the faults of each place, changed there and cut there.
fn are_right(alloc: Global, blob: &[u8]) -> bool {
    let mut right = true;
    for place in 0..blob.len() {
        right &= fault_at(alloc, blob, place) == told_before(place, 4);
        right &= fault(alloc, blob.get(..place).unwrap_or(&[])) == told_before(place, 32);
    }
    right
}

/// What the first blob is that is told otherwise.
fn first_otherwise(alloc: Global) -> Option<&'static str> {
    let mut first = None;
    for (what, told, blob) in &REFUSED {
        if first.is_none() && fault(alloc, blob) != Some(*told) {
            first = Some(*what);
        }
    }
    first
}

#[test]
fn what_is_wrong_is_told_in_its_order(rt: HostRuntime) {
    let otherwise = first_otherwise(rt.alloc());
    assert_eq!(rt; otherwise, None);
    let right = are_right(rt.alloc(), KNOWN[1].blob);
    assert!(rt; right);
}
