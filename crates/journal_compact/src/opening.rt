//! Finding the marks of a store of areas.

ghost use Rattle.std.specs.Prelude.{◌≡◌, ◌≢◌, List, ◌∷◌, [], slice_get, IfOk, IfErr, OnOk};
ghost use Rattle.ks_outside.specs.Images.{AllImages, Reads};
ghost use Rattle.disk_calls.specs.Still.{IsStill};
ghost use Rattle.gated_records.specs.Areas.{HoldsAt};
ghost use Rattle.journal_records.specs.Commits.{open_failed};
ghost use Rattle.record_areas.specs.Frames.{IsMarked};
ghost use Rattle.journal_compact.specs.Missing.{MissesFront, MissesMarks, MissesSelector, MissesVersion};
ghost use Rattle.journal_compact.specs.Stores.{frame_of, front, selected_by};

use crate::places::{JOURNAL, MAGIC, MAGIC_BYTES, SELECTOR};
use disk_calls::{read_still, sync_still};
use journal_records::StoreFault;
use ks_outside::Disk;

/// The bytes of a store's marks that may differ from one store to another.
#[derive(Clone, Copy)]
pub(crate) struct Marks {
    pub(crate) version: u8,
    pub(crate) selector: u8,
}

/// Syncs, and finds the front of a store; answers its version.
pub(crate) fn find_front<D: Disk>(disk: &mut D) -> Result<u8, StoreFault>
    ensures still { OnOk result (IsStill D.Disk disk.new) }
    ensures front { IfOk result (λ version. AllImages D.Disk disk.new (HoldsAt 0 (front version))) }
    ensures missing { IfErr result (λ fault. AllImages D.Disk disk.new (λ image. MissesFront image fault)) }
    ensures goes { Reads D.Disk disk.old disk.new (open_failed result) }
{
    let Ok(()) = sync_still(disk) else {
        return Err(StoreFault::Device);
    };
    let mut bytes = [0; MAGIC_BYTES + 1];
    let Ok(count) = read_still(disk, 0, &mut bytes) else {
        return Err(StoreFault::Device);
    };
    if &bytes[..count.min(MAGIC_BYTES)] != MAGIC.as_slice() {
        return Err(StoreFault::Corrupted { offset: 0 });
    }
    if count == MAGIC_BYTES {
        return Err(StoreFault::Corrupted {
            offset: MAGIC_BYTES as u64,
        });
    }
    Ok(bytes[MAGIC_BYTES])
}

/// Syncs, and finds the front of a store of areas; answers its version.
fn find_version<D: Disk>(disk: &mut D) -> Result<u8, StoreFault>
    ensures still { OnOk result (IsStill D.Disk disk.new) }
    ensures newer { IfOk result (λ version. version ≢ JOURNAL) }
    ensures front { IfOk result (λ version. AllImages D.Disk disk.new (HoldsAt 0 (front version))) }
    ensures missing { IfErr result (λ fault. AllImages D.Disk disk.new (λ image. MissesVersion image fault)) }
    ensures goes { Reads D.Disk disk.old disk.new (open_failed result) }
{
    let version = find_front(disk)?;
    if version == JOURNAL {
        return Err(StoreFault::Corrupted {
            offset: MAGIC_BYTES as u64,
        });
    }
    Ok(version)
}

/// Finds the selector of a still disk.
pub(crate) fn find_selector<D: Disk>(disk: &mut D) -> Result<u8, StoreFault>
    requires still { IsStill D.Disk disk.old }
    ensures still { IsStill D.Disk disk.new }
    ensures selector { IfOk result (λ selector. AllImages D.Disk disk.new (HoldsAt SELECTOR (selector ∷ []))) }
    ensures missing { IfErr result (λ fault. AllImages D.Disk disk.new (λ image. MissesSelector image fault)) }
    ensures goes { Reads D.Disk disk.old disk.new (open_failed result) }
{
    let mut byte = [0];
    let Ok(count) = read_still(disk, SELECTOR, &mut byte) else {
        return Err(StoreFault::Device);
    };
    if count == 0 {
        return Err(StoreFault::Corrupted { offset: SELECTOR });
    }
    Ok(byte[0])
}

/// Syncs, and finds the marks of a store of areas. Corrupted has the place of what is wrong first: 0 where the store begins with other bytes,
/// 7 where its version is that of a journal or not there, and the selector's place where no byte stands there.
pub(crate) fn find_marks<D: Disk>(disk: &mut D) -> Result<Marks, StoreFault>
    ensures still { OnOk result (IsStill D.Disk disk.new) }
    ensures newer { IfOk result (λ marks. marks.version ≢ JOURNAL) }
    ensures marked { IfOk result (λ marks. AllImages D.Disk disk.new (IsMarked (frame_of (selected_by marks.selector) marks.version marks.selector))) }
    ensures missing { IfErr result (λ fault. AllImages D.Disk disk.new (λ image. MissesMarks image fault)) }
    ensures goes { Reads D.Disk disk.old disk.new (open_failed result) }
{
    let version = find_version(disk)?;
    let selector = find_selector(disk)?;
    Ok(Marks { version, selector })
}
