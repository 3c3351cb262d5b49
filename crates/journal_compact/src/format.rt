//! Finding a store of either format: a journal, or two areas.

ghost use Rattle.std.specs.Prelude.{◌≡◌, ℕ, List, [], IfOk, IfErr, OnOk};
ghost use Rattle.ks_outside.specs.Images.{AllImages, Reads};
ghost use Rattle.disk_calls.specs.Still.{IsStill};
ghost use Rattle.journal_records.specs.Commits.{open_failed};
ghost use Rattle.record_areas.specs.Readings.{HasRead, IsBehind, IsOver, IsWhole, place_of};
ghost use Rattle.journal_compact.specs.Formats.{HasFormat, MissesFormat, kinds_in, limit_in, start_in};

use crate::opening::{find_front, find_selector};
use crate::places::{JOURNAL, Selected};
use journal_records::{AREA_KINDS, StoreFault};
use ks_outside::Disk;
use record_areas::Reading;
use std::alloc::Global;
use use_journal::Journal;

/// What a store was found to be.
#[derive(Clone, Copy, Debug, PartialEq, Eq)]
pub enum Format {
    /// A journal, which is the older format.
    Journal,
    /// Two areas, of which this one is selected.
    Areas(Selected),
}

/// Syncs, and finds the marks of a store.
fn find_format<D: Disk>(disk: &mut D) -> Result<Format, StoreFault>
    ensures still { OnOk result (IsStill D.Disk disk.new) }
    ensures marked { IfOk result (HasFormat D.Disk disk.new) }
    ensures missing { IfErr result (λ fault. AllImages D.Disk disk.new (λ image. MissesFormat image fault)) }
    ensures goes { Reads D.Disk disk.old disk.new (open_failed result) }
{
    let version = find_front(disk)?;
    if version == JOURNAL {
        return Ok(Format::Journal);
    }
    let selector = find_selector(disk)?;
    Ok(Format::Areas(Selected::by(selector)))
}

/// The reading of the records of a store of a format, none of which was read yet.
fn reading_of(alloc: Global, format: Format) -> Reading
    ensures whole { IsWhole result }
    ensures over { IsOver result (start_in format) (limit_in format) (kinds_in format) }
    ensures place { place_of result ≡ start_in format }
    ensures begins { (image : List ℕ) → HasRead result (start_in format) (limit_in format) [] image }
{
    match format {
        Format::Journal => Journal::reading(alloc),
        Format::Areas(selected) => Reading::at(
            alloc,
            selected.start(),
            selected.limit(),
            AREA_KINDS,
        ),
    }
}

/// Syncs, and finds the store that the disk holds: its format, and the reading of its records, none of which was read yet. Corrupted has the
/// place of what is wrong with the marks first: 0 where the store begins with other bytes, 7 where it has no version, and the selector's place
/// where one of areas has none. It takes no memory.
pub fn find_store<D: Disk>(alloc: Global, disk: &mut D) -> Result<(Format, Reading), StoreFault>
    ensures whole { IfOk result (λ found. IsWhole found.1) }
    ensures still { OnOk result (IsStill D.Disk disk.new) }
    ensures begins { IfOk result (λ found. IsBehind D.Disk found.1 disk.new (start_in found.0) (limit_in found.0) (kinds_in found.0) []) }
    ensures marked { IfOk result (λ found. HasFormat D.Disk disk.new found.0) }
    ensures missing { IfErr result (λ fault. AllImages D.Disk disk.new (λ image. MissesFormat image fault)) }
    ensures goes { Reads D.Disk disk.old disk.new (open_failed result) }
{
    let format = find_format(disk)?;
    Ok((format, reading_of(alloc, format)))
}
