//! A disk in memory that is sure.

ghost use Rattle.std.specs.Prelude.{◌≡◌, ◌∷◌, ℕ, List, Some, IfOk, OnOk, OnErr, IsOk, length, ⊤};
ghost use Rattle.ks_outside.specs.Faults.{HasCause};
ghost use Rattle.ks_outside.specs.Ranges.{Holds, Torn, Gives, Becomes};
ghost use Rattle.ks_outside.specs.Moments.{Follows, Elapses};

use disk_model::{DiskRoom, MemoryDisk};
use ks_outside::{Disk, Failed, FailingCalls, FaultCount};
use std::alloc::{AllocError, Global};

/// A disk in memory, empty at first, that loses nothing: a write that fails writes nothing, no sync fails, and a crash leaves what a read
/// gives. The writes with the numbers `to_fail`, counted from 1, fail.
#[derive(Drop)]
pub(crate) struct SureDisk<'a> {
    disk: MemoryDisk<'static>,
    plan: FailingCalls<'a>,
    faults: FaultCount,
}

impl<'a> SureDisk<'a> {
    /// An empty disk with this room.
    pub(crate) fn with_room(
        alloc: Global,
        room: DiskRoom,
        to_fail: &'a [u64],
    ) -> Result<SureDisk<'a>, AllocError> {
        Ok(SureDisk {
            disk: MemoryDisk::with_room(alloc, room, &[])?,
            plan: FailingCalls::new(to_fail),
            faults: FaultCount::new(),
        })
    }
}

impl Disk for SureDisk<'_> {
    ghost use Rattle.disk_model.specs.Words.{made_by, count_of, reads};
    ghost use Rattle.store_tests.specs.Contents.{WasContent, counts_now, only_now, told_content};

    ghost content = { λ d. Some (reads d.disk) };

    ghost images = { λ d c. c ≡ reads d.disk };

    ghost moment = { λ d. count_of d.disk };

    ghost images_since = { λ d. WasContent (made_by d.disk) };

    ghost fault_count = { λ d. d.faults.count };

    ghost is_sure = { λ _. ⊤ };

    ghost content_is_image = { λ d c told. told_content (reads d.disk) c told };

    ghost counts_now = { λ d t c before now. counts_now d.disk.calls.made t c before now };

    ghost only_now = { λ d c was. only_now d.disk.calls.made c was };

    fn read(&mut self, at: u64, out: &mut [u8]) -> Result<usize, Failed> {
        let read = self.disk.read(at, out);
        self.faults = self.faults.after(&read);
        read
    }

    fn write_at(&mut self, at: u64, piece: &[u8]) -> Result<(), Failed> {
        if self.plan.next_fails() {
            self.faults.rise();
            return Err(Failed);
        }
        let written = self.disk.write_at(at, piece);
        self.faults = self.faults.after(&written);
        written
    }

    fn len(&mut self) -> Result<u64, Failed> {
        let length = self.disk.len();
        self.faults = self.faults.after(&length);
        length
    }

    fn sync(&mut self) -> Result<(), Failed> {
        Ok(())
    }

    fn faults(&self) -> u64 {
        self.faults.count()
    }
}
