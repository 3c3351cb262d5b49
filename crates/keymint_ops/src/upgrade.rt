//! The upgrade of a key's blob to the versions of the device's system.

ghost use Rattle.std.specs.Prelude.{◌≡◌, ◌+◌, ◌*◌, ◌<◌, ◌≤◌, IfOk, Ok, length};
ghost use Rattle.tags.specs.declared.limits.TheConstants.{BLOB_BYTES};
ghost use Rattle.tag_lists.specs.Lookups.{bytes_of};
ghost use Rattle.tag_lists.specs.Spelling.{spelling};
ghost use Rattle.tag_lists.specs.Versions.{version_of, with_versions};
ghost use Rattle.tags.specs.declared.tag.Tag.TheVariants.{OsPatchlevel, OsVersion};
ghost use Rattle.key_blobs.specs.Blobs.{blob_of, opened, sealed_for};
ghost use Rattle.key_blobs.specs.Text.{blob_size, id_size};
ghost use Rattle.use_rules.specs.Table.{list_or_none};

use crate::opening::{OpenedBlob, id_in};
use key_blobs::{Sealed, seal};
use std::alloc::Global;
use tag_lists::AuthList;
use tags::{Bytes, Code, DeviceSecrets, NoMemory, Tag};

/// How long an upgraded key is.
#[derive(Clone, Copy, Debug, PartialEq, Eq)]
pub struct UpgradeSizes {
    /// how many bytes its list has, encoded
    pub list: u64,
    /// how many bytes its blob has
    pub blob: u64,
}

/// A key that is upgraded, before it is sealed anew.
#[derive(Drop)]
pub struct UpgradedKey {
    /// what is sealed: for the device's root of trust and the ids of the call's list, the opened list with the device's versions,
    /// and the opened material
    pub sealed: Sealed,
    /// that list, encoded
    pub list: Bytes,
}

/// How many bytes an id of the call's list takes in a blob.
fn id_bytes(asked: &Result<AuthList, Code>, tag: Tag) -> u64
    ensures size { result ≡ id_size (bytes_of tag (list_or_none asked.now)) }
    ensures few { result ≤ 65538 }
{
    match id_in(asked, tag) {
        Some(bytes) => 3 + bytes.len() as u64,
        None => 1,
    }
}

/// An id of the call's list, in memory of its own.
fn copied(
    alloc: Global,
    asked: &Result<AuthList, Code>,
    tag: Tag,
) -> Result<Option<Bytes>, NoMemory>
    ensures { IfOk result (λ id. id ≡ bytes_of tag (list_or_none asked.now)) }
{
    match id_in(asked, tag) {
        Some(bytes) => Ok(Some(Bytes::copy_of(alloc, bytes)?)),
        None => Ok(None),
    }
}

impl OpenedBlob {
    /// The versions of the list, of the operating system and of its patches, and 0 for one that it does not have. It takes no
    /// memory.
    pub fn numbers(&self) -> (u32, u32)
        ensures os { result.0 ≡ version_of OsVersion self.now.list }
        ensures patch { result.1 ≡ version_of OsPatchlevel self.now.list }
    {
        (
            self.list.version(Tag::OsVersion),
            self.list.version(Tag::OsPatchlevel),
        )
    }

    /// How long the list is with the device's versions, and the blob that is sealed over it for the ids of the call's list. It
    /// takes no memory.
    pub fn sizes(&self, device: &DeviceSecrets, asked: &Result<AuthList, Code>) -> UpgradeSizes
        requires short { length self.now.material ≤ 255 }
        ensures list { result.list ≡ length (spelling (with_versions device.now.os device.now.patch self.now.list)) }
        ensures blob { result.blob ≡ blob_size (sealed_for device.now (list_or_none asked.now) (with_versions device.now.os device.now.patch self.now.list) self.now.material) }
        ensures few { 2 + 5 * length self.now.list ≤ result.list }
    {
        let list = self.list.size_with_versions(device.os, device.patch);
        let ids = id_bytes(asked, Tag::ApplicationId) + id_bytes(asked, Tag::ApplicationData);
        UpgradeSizes {
            list,
            blob: 69 + ids + list + self.material.len() as u64,
        }
    }

    /// The key with the device's versions in its list, and with the ids of the call's list, which are its own where it opened
    /// for them. Its list must not be too long for two parameters more, as `sizes` tells. `NoMemory` comes where memory is wanted.
    pub fn upgrade(
        self,
        alloc: Global,
        device: &DeviceSecrets,
        asked: &Result<AuthList, Code>,
    ) -> Result<UpgradedKey, NoMemory>
        requires room { length self.list < 65534 }
        ensures sealed { IfOk result (λ key. key.sealed ≡ sealed_for device.now (list_or_none asked.now) (with_versions device.now.os device.now.patch self.list) self.material) }
        ensures list { IfOk result (λ key. key.list ≡ spelling key.sealed.list) }
    {
        let app_id = copied(alloc, asked, Tag::ApplicationId)?;
        let app_bytes = copied(alloc, asked, Tag::ApplicationData)?;
        let OpenedBlob {
            opens: _,
            same: _,
            list,
            material,
        } = self;
        let list = list.with_versions(device.os, device.patch)?;
        let spelled = list.write(alloc)?;
        let sealed = Sealed {
            root: device.root,
            app_id,
            app_bytes,
            list,
            material,
        };
        Ok(UpgradedKey {
            sealed,
            list: spelled,
        })
    }
}

/// The blob of an upgraded key, sealed under the device's key with these 12 bytes as the nonce, which must be drawn anew for
/// each. What is sealed is no longer than a blob may hold, and its material has at most 255 bytes. The material is given back
/// before the call ends. `NoMemory` comes where memory is wanted.
pub fn seal_upgraded(
    alloc: Global,
    device: &DeviceSecrets,
    nonce: [u8; 12],
    sealed: Sealed,
) -> Result<Bytes, NoMemory>
    requires small { blob_size sealed ≤ BLOB_BYTES }
    requires short { length sealed.material ≤ 255 }
    ensures blob { IfOk result (λ blob. blob ≡ blob_of device.now.seal nonce sealed) }
    ensures opens { IfOk result (λ blob. opened device.now.seal blob ≡ Ok sealed) }
    ensures few { IfOk result (λ blob. length blob ≤ BLOB_BYTES) }
{
    seal(alloc, device, nonce, &sealed)
}
