//! The secrets of a device, and the versions of its system.

ghost use Rattle.std.specs.Prelude.{◌≡◌, ◌+◌, ◌≤◌, drop, length, take};
ghost use Rattle.byteorder.specs.Endian.{big_number};
ghost use Rattle.device_files.specs.Device as spec;

use byteorder::{BigEndian, ByteOrder};
use tags::DeviceSecrets;

/// The 32 bytes at a place.
fn secret_at(bytes: &[u8], at: usize) -> [u8; 32]
    requires { at + 32 ≤ length bytes.now }
    ensures { result ≡ take 32 (drop at bytes.now) }
{
    let mut secret = [0; 32];
    secret.copy_from_slice(&bytes[at..at + 32]);
    secret
}

/// The big-endian number of the four bytes at a place.
fn number_at(bytes: &[u8], at: usize) -> u32
    requires { at + 4 ≤ length bytes.now }
    ensures { result ≡ big_number 4 (drop at bytes.now) }
{
    BigEndian::read_u32(&bytes[at..])
}

/// A device of the secrets that the bytes begin with, and of these versions.
fn device_of_system(bytes: &[u8], os: u32, patch: u32) -> DeviceSecrets
    requires { 96 ≤ length bytes.now }
    ensures { result ≡ spec.device_of_system os patch bytes.now }
{
    DeviceSecrets {
        seal: secret_at(bytes, 0),
        token: secret_at(bytes, 32),
        root: secret_at(bytes, 64),
        os,
        patch,
    }
}

/// The device that the bytes of `device.key` spell: 32 bytes of the key that seals blobs, 32 of the key of the tokens, and 32
/// of the root of trust; and perhaps the versions of its system, the operating system's and its patches', in four bytes each,
/// big-endian. Both are 0 where they are not there. `None` exactly where there are neither 96 bytes nor 104. It takes no memory.
pub fn device_in(bytes: &[u8]) -> Option<DeviceSecrets>
    ensures { result ≡ spec.device_in bytes.now }
{
    if bytes.len() == 96 {
        return Some(device_of_system(bytes, 0, 0));
    }
    if bytes.len() != 104 {
        return None;
    }
    let os = number_at(bytes, 96);
    let patch = number_at(bytes, 100);
    Some(device_of_system(bytes, os, patch))
}
