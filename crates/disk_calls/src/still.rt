//! Many reads behind one sync. A disk is still while nothing waits for a sync: what is read of it is then said of each image.

ghost use Rattle.std.specs.Prelude.{◌+◌, ◌≤◌, ◌^◌, length, is_err, IsOk, IfOk, OnOk};
ghost use Rattle.disk_calls.specs.Still.{IsStill, Fills};
ghost use Rattle.ks_outside.specs.Images.{AllImages, Reads};

use ks_outside::{Disk, Failed};

/// Syncs; one call of the disk. After Ok the disk is still. Whatever it answers, no image came.
pub fn sync_still<D: Disk>(disk: &mut D) -> Result<(), Failed>
    ensures still { OnOk result (IsStill D.Disk disk.new) }
    ensures never { D.is_sure disk.old → IsOk result }
    ensures goes { Reads D.Disk disk.old disk.new (is_err result) }
{
    disk.sync()
}

/// Reads a still disk, which stays so: puts the bytes from the place on at the front of `out`, and answers how many, as many as there are and
/// fit. It joins short reads, and so calls the disk until `out` is full or a read gives nothing. Behind the bytes that it answers, and after a
/// failure everywhere, `out` may hold any bytes.
pub fn read_still<D: Disk>(disk: &mut D, at: u64, out: &mut [u8]) -> Result<usize, Failed>
    requires still { IsStill D.Disk disk.old }
    requires fits { at + length out.old ≤ 2 ^ 64 }
    ensures within { IfOk result (λ n. n ≤ length out.new) }
    ensures bytes { IfOk result (λ n. AllImages D.Disk disk.new (Fills at n out.new)) }
    ensures still { IsStill D.Disk disk.new }
    ensures goes { Reads D.Disk disk.old disk.new (is_err result) }
{
    let mut done = 0;
    'pieces: while done < out.len() {
        let Ok(count) = disk.read(at + done as u64, &mut out[done..]) else {
            return Err(Failed);
        };
        if count == 0 {
            return Ok(done);
        }
        done += count;
    }
    Ok(done)
}
