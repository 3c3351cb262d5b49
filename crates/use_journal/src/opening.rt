//! Finding the header of a journal.

ghost use Rattle.std.specs.Prelude.{◌≡◌, OnOk, IfErr};
ghost use Rattle.ks_outside.specs.Images.{AllImages, Reads};
ghost use Rattle.disk_calls.specs.Still.{IsStill};
ghost use Rattle.journal_records.specs.Commits.{open_failed};
ghost use Rattle.record_areas.specs.Frames.{IsMarked};
ghost use Rattle.use_journal.specs.Holding.{MissesHeader};
ghost use Rattle.use_journal.specs.Journal.{journal_frame};

use crate::journal::{FRESH, HEADER_BYTES};
use disk_calls::{read_still, sync_still};
use journal_records::StoreFault;
use ks_outside::Disk;

/// Syncs, and finds the header of a journal on the disk.
pub(crate) fn find_header<D: Disk>(disk: &mut D) -> Result<(), StoreFault>
    ensures still { OnOk result (IsStill D.Disk disk.new) }
    ensures marked { OnOk result (AllImages D.Disk disk.new (IsMarked journal_frame)) }
    ensures missing { IfErr result (λ fault. AllImages D.Disk disk.new (λ image. MissesHeader image fault)) }
    ensures goes { Reads D.Disk disk.old disk.new (open_failed result) }
{
    let Ok(()) = sync_still(disk) else {
        return Err(StoreFault::Device);
    };
    let mut front = [0; HEADER_BYTES];
    let Ok(count) = read_still(disk, 0, &mut front) else {
        return Err(StoreFault::Device);
    };
    if &front[..count] != &FRESH[..HEADER_BYTES] {
        return Err(StoreFault::Corrupted { offset: 0 });
    }
    Ok(())
}
