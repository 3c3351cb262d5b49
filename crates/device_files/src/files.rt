//! The two files of a device, and the edge: the bytes of a file. What a real file holds no clause says.

ghost use Rattle.device_files.specs.Files.{ReadsDevice, ReadsPolicy};

use crate::policy::{PolicyFault, policy_fault};
use crate::{FileFault, device_in, policy_in};
use std::alloc::Global;
use std::fmt::{Display, Formatter};
use std::io::{Error, ErrorKind, Read};
use std::rt::Files;
use std::{fmt, fs, io};
use tags::{DeviceSecrets, Policy};

/// The most bytes of a device file.
pub const DEVICE_BYTES: u64 = 104;

/// The most bytes of a policy file: 256 rows take some eleven thousand, and the rest is for blanks.
pub const POLICY_BYTES: u64 = 1 << 20;

/// Why a file that is there was not taken.
#[derive(Debug, Drop)]
pub enum FileTrouble {
    /// it was not read, for this
    Unread(Error),
    /// it has more bytes than the file can have
    TooLong { most: u64 },
    /// a device file has so many bytes, and neither 96 nor 104
    WrongLength { bytes: u64 },
    /// this is wrong in a policy
    Policy(PolicyFault),
    /// want of memory, and nothing else
    Memory,
}

impl From<Error> for FileTrouble {
    fn from(error: Error) -> FileTrouble {
        if error.kind() == ErrorKind::OutOfMemory {
            FileTrouble::Memory
        } else {
            FileTrouble::Unread(error)
        }
    }
}

impl Display for FileTrouble {
    fn fmt<W: fmt::Write>(&self, f: &mut Formatter<W>) -> fmt::Result {
        match self {
            FileTrouble::Unread(error) => Display::fmt(error, f),
            FileTrouble::TooLong { most } => write!(f, "it has more than {most} bytes"),
            FileTrouble::WrongLength { bytes } => {
                write!(f, "it has {bytes} bytes, and must have 96 or 104")
            }
            FileTrouble::Policy(fault) => Display::fmt(fault, f),
            FileTrouble::Memory => f.write_str("want of memory"),
        }
    }
}

/// The bytes of a file, of which it may have `most`; `None` where it is not there. No more than one byte beyond the most is read.
pub fn read_file<R: Files + AllocGlobal>(
    rt: &R,
    path: &str,
    most: u64,
) -> Result<Option<Vec<u8>>, FileTrouble> {
    let file = match fs::open(rt, path) {
        Ok(file) => file,
        Err(error) if error.kind() == ErrorKind::NotFound => return Ok(None),
        Err(error) => return Err(FileTrouble::from(error)),
    };
    let mut bytes = Vec::new(rt.alloc());
    let count = file.take(most.saturating_add(1)).read_to_end(&mut bytes)?;
    if count as u64 > most {
        return Err(FileTrouble::TooLong { most });
    }
    Ok(Some(bytes))
}

/// The device of the bytes of its file.
pub fn device_of(bytes: &[u8]) -> Result<DeviceSecrets, FileTrouble>
    ensures { ReadsDevice bytes.now result }
{
    match device_in(bytes) {
        Some(device) => Ok(device),
        None => Err(FileTrouble::WrongLength {
            bytes: bytes.len() as u64,
        }),
    }
}

/// The policy of the bytes of its file.
pub fn policy_of(alloc: Global, bytes: &[u8]) -> Result<Policy, FileTrouble>
    ensures { ReadsPolicy bytes.now result }
{
    match policy_in(alloc, bytes) {
        Ok(policy) => Ok(policy),
        Err(FileFault::Memory) => Err(FileTrouble::Memory),
        Err(FileFault::Malformed) => Err(FileTrouble::Policy(policy_fault(alloc, bytes))),
    }
}
