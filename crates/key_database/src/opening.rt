//! Reading a store: its records one by one, each with its need tested, and made in a table.

ghost use Rattle.std.specs.Prelude.{◌≡◌, ◌≤◌, ◌<◌, ℕ, List, [], IfOk};
ghost use Rattle.ks_outside.specs.Images.{Reads};
ghost use Rattle.disk_calls.specs.Still.{IsStill};
ghost use Rattle.journal_records.specs.declared.record.Record.{Record};
ghost use Rattle.journal_records.specs.Commits.{open_failed};
ghost use Rattle.record_areas.specs.Readings.{IsBehind, IsWhole, limit_of, place_of, start_of};
ghost use Rattle.journal_compact.specs.Formats.{limit_in, start_in};
ghost use Rattle.key_database.specs.Stands.{FindsRest, IsFoundAt, IsIdle, ReadsKept, Replays};

use journal_compact::{Areas, Format, find_store};
use journal_records::StoreFault;
use ks_outside::Disk;
use lasting_table::{LastingTable, TableReplay};
use record_areas::Reading;
use std::alloc::Global;

/// Reads on to the gate that is shut.
fn read_rest<D: Disk>(alloc: Global, disk: &mut D, reading: &mut Reading) -> Result<(), StoreFault>
    requires whole { IsWhole reading.old }
    requires still { IsStill D.Disk disk.old }
    ensures rest { (start limit kinds : ℕ) (past : List Record) → IsBehind D.Disk reading.old disk.old start limit kinds past
        → FindsRest D.Disk reading.new disk.new start limit kinds past result }
    ensures goes { Reads D.Disk disk.old disk.new (open_failed result) }
{
    'rest: while let Some(it) = reading.next(alloc, disk)? {
        drop(it);
    }
    Ok(())
}

/// Reads the records, and puts them into a table in turn. Where the need of one is not met the others are read too: that they are broken
/// off is told before it.
fn replay<D: Disk>(
    alloc: Global,
    disk: &mut D,
    reading: &mut Reading,
) -> Result<LastingTable, StoreFault>
    requires whole { IsWhole reading.old }
    requires still { IsStill D.Disk disk.old }
    ensures replays { (start limit kinds : ℕ) → IsBehind D.Disk reading.old disk.old start limit kinds []
        → Replays D.Disk reading.new disk.new start limit kinds result }
    ensures goes { Reads D.Disk disk.old disk.new (open_failed result) }
{
    let mut table = TableReplay::new(alloc);
    let mut at = reading.place();
    'records: while let Some(it) = reading.next(alloc, disk)? {
        if !table.meets(&it) {
            drop(it);
            drop(table);
            read_rest(alloc, disk, reading)?;
            return Err(StoreFault::Corrupted { offset: at });
        }
        let Ok(()) = table.put(it) else {
            return Err(StoreFault::Memory);
        };
        at = reading.place();
    }
    Ok(table.into_table())
}

/// What a store was found to be, behind its records.
#[derive(Drop)]
pub(crate) enum Found {
    /// A journal, which is the older format.
    Journal,
    /// Two areas.
    Areas(Areas),
}

/// The store of a format whose records a reading has come to the end of.
fn found_at(format: Format, reading: Reading) -> Found
    requires start { start_of reading ≡ start_in format }
    requires limit { limit_of reading ≡ limit_in format }
    requires begins { start_of reading ≤ place_of reading }
    requires within { place_of reading < limit_of reading }
    ensures { IsFoundAt format reading result }
{
    match format {
        Format::Journal => {
            drop(reading);
            Found::Journal
        }
        Format::Areas(selected) => Found::Areas(Areas::of(selected, reading)),
    }
}

/// Syncs, and reads the store that the disk holds, of either format, and the table that its records leave. It holds one record and a piece of
/// the disk beside that table, and it writes nothing.
pub(crate) fn read_store<D: Disk>(
    alloc: Global,
    disk: &mut D,
) -> Result<(Found, LastingTable), StoreFault>
    ensures reads { ReadsKept D.Disk disk.new result }
    ensures idle { IfOk result (λ opened. IsIdle opened.0) }
    ensures goes { Reads D.Disk disk.old disk.new (open_failed result) }
{
    let (format, mut reading) = find_store(alloc, disk)?;
    let table = replay(alloc, disk, &mut reading)?;
    Ok((found_at(format, reading), table))
}
