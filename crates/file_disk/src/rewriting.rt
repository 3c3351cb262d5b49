//! Writing again what a failed sync may have lost. Where the system still shows it, it is to be written once more; where it shows the old
//! bytes, they stand. So what a read gave before, it gives behind it.

ghost use Rattle.std.specs.Prelude.{◌≡◌, ◌≤◌, ◌<◌, ◌^◌, length, is_some, IfSome};
ghost use Rattle.file_disk.specs.Rewriting.{Again, WroteAgain, Syncs};

use crate::real_file::RealFile;
use crate::unsynced::Unsynced;

/// How many bytes are read and written again at once.
const PIECE: usize = 65536;

/// Reads a piece of at most as many bytes as `out` has, and writes it where it stands; how many bytes it has.
fn again<F: RealFile>(file: &mut F, at: u64, out: &mut [u8]) -> Option<usize>
    ensures within { IfSome result (λ n. n ≤ length out.new) }
    ensures again { Again F.RealFile at result file.old file.new }
{
    let count = file.read_at(at, out)?;
    if count > 0 {
        file.write_all_at(at, &out[..count])?;
    }
    Some(count)
}

/// Reads the bytes from one place up to another, or to the file's end, and writes each where it stands.
fn write_again<F: RealFile>(file: &mut F, from: u64, end: u64) -> Option<()>
    ensures { WroteAgain F.RealFile from end file.old file.new (is_some result) }
{
    let mut piece = [0; PIECE];
    let mut at = from;
    'pieces: while at < end {
        let room = (end - at).min(PIECE as u64) as usize;
        let count = again(file, at, &mut piece[..room])?;
        if count == 0 {
            return Some(());
        }
        at += count as u64;
    }
    Some(())
}

/// Makes the range last: behind a sync that failed it is written again first.
pub(crate) fn make_last<F: RealFile>(file: &mut F, range: Unsynced) -> Option<()>
    ensures { Syncs F.RealFile range file.old file.new (is_some result) }
{
    if range.is_lost {
        write_again(file, range.from, range.end)?;
    }
    file.sync()
}
