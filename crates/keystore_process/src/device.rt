//! The device that a process runs as.

ghost use Rattle.keystore_process.specs.Processes.{FindsDevice, FindsPolicy, FindsSecrets, ReadsSecrets};

use crate::system::System;
use device_files::{DEVICE_BYTES, FileTrouble, POLICY_BYTES, device_of, policy_of};
use std::alloc::Global;
use tags::{DeviceSecrets, Policy};

/// The file of the device's secrets.
pub const DEVICE: &str = "device.key";

/// The file of the policy.
pub const POLICY: &str = "policy.json";

/// The device that a process runs as.
#[derive(Drop)]
pub struct Device {
    pub secrets: DeviceSecrets,
    pub policy: Policy,
    /// whether the secrets are those of the demo device
    pub is_demo: bool,
}

/// A file of the device that is there, and was not taken.
#[derive(Drop)]
pub(crate) struct RefusedFile {
    pub(crate) name: &'static str,
    pub(crate) trouble: FileTrouble,
}

/// The secrets of the bytes of their file, which are not those of the demo device.
fn secrets_of(bytes: &[u8]) -> Result<(DeviceSecrets, bool), FileTrouble>
    ensures { ReadsSecrets bytes.now result }
{
    match device_of(bytes) {
        Ok(secrets) => Ok((secrets, false)),
        Err(trouble) => Err(trouble),
    }
}

/// The secrets of the file's bytes, or of the demo device where the file is not there.
fn secrets_in<P: System>(system: &P) -> Result<(DeviceSecrets, bool), FileTrouble>
    ensures { FindsSecrets P.System system.now result }
{
    match system.file(DEVICE, DEVICE_BYTES)? {
        Some(bytes) => secrets_of(bytes.as_slice()),
        None => Ok((DeviceSecrets::demo(), true)),
    }
}

/// The policy of the file's bytes, or of the demo device where the file is not there.
fn policy_in<P: System>(system: &P, alloc: Global) -> Result<Policy, FileTrouble>
    ensures { FindsPolicy P.System system.now result }
{
    match system.file(POLICY, POLICY_BYTES)? {
        Some(bytes) => policy_of(alloc, bytes.as_slice()),
        None => match Policy::demo(alloc) {
            Ok(policy) => Ok(policy),
            Err(_) => Err(FileTrouble::Memory),
        },
    }
}

/// The device of the process's files, or the demo device and policy where these are not there.
pub(crate) fn device_here<P: System>(system: &P, alloc: Global) -> Result<Device, RefusedFile>
    ensures { FindsDevice P.System system.now result }
{
    let (secrets, is_demo) = match secrets_in(system) {
        Ok(found) => found,
        Err(trouble) => {
            return Err(RefusedFile {
                name: DEVICE,
                trouble,
            });
        }
    };
    match policy_in(system, alloc) {
        Ok(policy) => Ok(Device {
            secrets,
            policy,
            is_demo,
        }),
        Err(trouble) => Err(RefusedFile {
            name: POLICY,
            trouble,
        }),
    }
}
