//! All bytes of a disk.

ghost use Rattle.std.specs.Prelude.{◌≡◌, List, ℕ, Some, IfOk};
ghost use Rattle.ks_outside.specs.Images.{AllImages, Reads};
ghost use Rattle.disk_calls.specs.WholeReads.{read_failed};

use ks_outside::Disk;
use std::alloc::Global;
use std::fmt;

/// Why the bytes of a disk were not read.
#[derive(Clone, Copy, Debug, PartialEq, Eq)]
pub enum ReadFault {
    /// A call of the disk failed.
    Device,
    /// Memory was wanting.
    Memory,
}

impl fmt::Display for ReadFault {
    fn fmt<W: fmt::Write>(&self, f: &mut fmt::Formatter<W>) -> fmt::Result {
        f.write_str(match self {
            ReadFault::Device => "a call of the disk failed",
            ReadFault::Memory => "memory was wanting",
        })
    }
}

/// Syncs, and reads all bytes. Each image then is these bytes; and where the disk tells what a read gives, it is these bytes.
pub fn read_synced<D: Disk>(alloc: Global, disk: &mut D) -> Result<Vec<u8>, ReadFault>
    ensures bytes { IfOk result (λ bytes. AllImages D.Disk disk.new (λ c. c ≡ bytes.items)) }
    ensures told { (c : List ℕ) → D.content disk.old ≡ Some c → IfOk result (λ bytes. bytes.items ≡ c) }
    ensures content { D.content disk.new ≡ D.content disk.old }
    ensures goes { Reads D.Disk disk.old disk.new (read_failed result) }
{
    let Ok(()) = disk.sync() else {
        return Err(ReadFault::Device);
    };
    let Ok(length) = disk.len() else {
        return Err(ReadFault::Device);
    };
    let mut bytes: Vec<u8> = Vec::new(alloc);
    let mut buffer = [0u8; 512];
    'pieces: while (bytes.len() as u64) < length {
        let Ok(count) = disk.read(bytes.len() as u64, &mut buffer) else {
            return Err(ReadFault::Device);
        };
        if count == 0 {
            return Ok(bytes);
        }
        let Ok(()) = bytes.extend_from_slice(&buffer[..count]) else {
            return Err(ReadFault::Memory);
        };
    }
    Ok(bytes)
}
