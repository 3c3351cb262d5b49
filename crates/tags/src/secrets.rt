//! The secrets of a device, and the versions of its system.

ghost use Rattle.std.specs.Prelude.{◌≡◌};
ghost use Rattle.tags.specs.Secrets.{demo_device};

use std::fmt;
use std::fmt::{Debug, Formatter};

/// The three secrets of a device, 32 bytes each, and the two numbers of the system that it runs.
#[derive(Clone, Copy, PartialEq, Eq)]
pub struct DeviceSecrets {
    /// the AES-256 key that seals blobs
    pub seal: [u8; 32],
    /// the HMAC-SHA256 key of the authenticators' tokens
    pub token: [u8; 32],
    /// the root of trust at the start
    pub root: [u8; 32],
    /// the version of the operating system, as in OS_VERSION: 140000 is 14.0.0
    pub os: u32,
    /// the month of its patches, as in OS_PATCHLEVEL: 202406 is June 2024
    pub patch: u32,
}

impl DeviceSecrets {
    /// A device for demonstrations: 32 bytes 01, 32 bytes 02 and 32 bytes 03, with version 14 of the operating system and the
    /// patches of June 2024.
    pub fn demo() -> DeviceSecrets
        ensures { result ≡ demo_device }
    {
        DeviceSecrets {
            seal: [1; 32],
            token: [2; 32],
            root: [3; 32],
            os: 140_000,
            patch: 202_406,
        }
    }
}

/// The name of the type, and no secret.
impl Debug for DeviceSecrets {
    fn fmt<W: fmt::Write>(&self, f: &mut Formatter<W>) -> fmt::Result {
        f.write_str("DeviceSecrets")
    }
}
