//! The blob of a key that is stored or handed in, opened for a call.

ghost use Rattle.std.specs.Prelude.{◌≡◌, ◌≤◌, [], IfOk, IfSome, length, true, unwrap_or};
ghost use Rattle.std.specs.Option.{option_copied};
ghost use Rattle.tag_lists.specs.Lookups.{IsKey, bytes_of};
ghost use Rattle.use_rules.specs.Table.{list_or_none};
ghost use Rattle.keymint_ops.specs.Opening as spec;

use key_blobs::{BlobFault, unseal};
use key_rules::usable;
use std::alloc::Global;
use tag_lists::AuthList;
use tags::{Bytes, Code, DeviceSecrets, Material, NoMemory, Tag};

/// What a key's blob gave to a device and to the ids of a call's list.
#[derive(Debug, Drop)]
pub struct OpenedBlob {
    /// the blob opens
    pub opens: bool,
    /// it was sealed for the device's root of trust and for these ids
    pub same: bool,
    /// its list, and no parameters where it does not open for this device and these ids
    pub list: AuthList,
    /// its material of at most 255 bytes, and no bytes where it does not open for them
    pub material: Material,
}

/// What the rules of a begin read of a key's blob, and its material.
#[derive(Debug, Drop)]
pub struct OpenedKey {
    /// the list in the blob: `None` where the blob does not open, and no parameters where it opens but was sealed for another
    /// root of trust or for other ids
    pub list: Option<AuthList>,
    /// it opens for this device and these ids, and its list and material are a key of their cipher
    pub fits: bool,
    /// the material, and no bytes where it does not open for this device and these ids
    pub material: Material,
}

/// An id of the call's list.
pub(crate) fn id_in(asked: &Result<AuthList, Code>, tag: Tag) -> Option<&[u8]>
    ensures id { option_copied result ≡ bytes_of tag (list_or_none asked.now) }
    ensures short { IfSome (option_copied result) (λ bytes. length bytes ≤ 65535) }
{
    match asked {
        Ok(list) => list.bytes(tag),
        Err(_) => None,
    }
}

/// A blob that gives nothing, whether or not it opens for another device or for other ids.
fn closed(alloc: Global, opens: bool) -> OpenedBlob
    ensures { result ≡ spec.closed opens }
{
    OpenedBlob {
        opens,
        same: false,
        list: AuthList::empty(alloc),
        material: Material::of(Bytes::empty(alloc)),
    }
}

/// A key's blob, opened once, for a device with its root of trust and for the application id and data of the call's list, of
/// which an absent one is equal to an absent one alone. Where it opens for them, list and material are those that were sealed.
pub fn open_blob(
    alloc: Global,
    device: &DeviceSecrets,
    blob: &[u8],
    asked: &Result<AuthList, Code>,
) -> Result<OpenedBlob, NoMemory>
    ensures opened { IfOk result (λ own. own ≡ spec.opened_blob device.now asked.now blob.now) }
    ensures short { IfOk result (λ own. length own.material ≤ 255) }
{
    let app_id = id_in(asked, Tag::ApplicationId);
    let app_bytes = id_in(asked, Tag::ApplicationData);
    match unseal(alloc, device, blob, app_id, app_bytes) {
        Ok(opened) => Ok(OpenedBlob {
            opens: true,
            same: true,
            list: opened.list,
            material: opened.material,
        }),
        Err(BlobFault::Memory) => Err(NoMemory),
        Err(BlobFault::Format | BlobFault::Tag) => Ok(closed(alloc, false)),
        Err(BlobFault::Root | BlobFault::App) => Ok(closed(alloc, true)),
    }
}

/// What the rules of a begin read of a blob that was opened.
fn key_of(own: OpenedBlob) -> OpenedKey
    ensures key { result ≡ spec.key_of own }
    ensures is { result.fits ≡ true → IsKey (unwrap_or result.list []) (length result.material) }
{
    let OpenedBlob {
        opens,
        same,
        list,
        material,
    } = own;
    let fits = same && usable(&list, material.len());
    OpenedKey {
        list: opens.then_some(list),
        fits,
        material,
    }
}

/// What the rules of a begin read of a key's blob, opened once as `open_blob` opens it. Where list and material fit, they are a
/// key of their cipher.
pub fn open_key(
    alloc: Global,
    device: &DeviceSecrets,
    blob: &[u8],
    asked: &Result<AuthList, Code>,
) -> Result<OpenedKey, NoMemory>
    ensures opened { IfOk result (λ key. key ≡ spec.opened_key device.now asked.now blob.now) }
    ensures key { IfOk result (λ key. key.fits ≡ true → IsKey (unwrap_or key.list []) (length key.material)) }
{
    Ok(key_of(open_blob(alloc, device, blob, asked)?))
}
