//! The trace of a service's book.

ghost use Rattle.ks_outside.specs.Faults.{CountsFaults};
ghost use Rattle.trace_lines.specs.Traces.{entry_line as spec_entry_line};
ghost use Rattle.book_traces.specs.Books.{Writes, book_trace, is_write_fault};

use keystore_run::write_all;
use ks_outside::Sink;
use rule_model::Entry;
use service_book::Book;
use std::alloc::Global;
use trace_lines::entry_line;

/// Why a book was not written to its end.
#[derive(Clone, Copy, Debug, PartialEq, Eq)]
pub enum BookFault {
    /// memory was wanting
    Memory,
    /// the sink failed
    Write,
}

/// Writes the line of an entry.
fn write_entry<K: Sink>(alloc: Global, entry: &Entry, sink: &mut K) -> Result<(), BookFault>
    ensures writes { Writes K.Sink (spec_entry_line entry.now) sink.old sink.new result }
    ensures sink_faults { CountsFaults (K.fault_count sink.old) (K.fault_count sink.new) (is_write_fault result) }
{
    let Ok(line) = entry_line(alloc, entry) else {
        return Err(BookFault::Memory);
    };
    match write_all(sink, line.as_slice()) {
        Ok(()) => Ok(()),
        Err(_) => Err(BookFault::Write),
    }
}

/// Writes the trace of a book, the line of one entry after another, the oldest first. It has key material in the clear. After `Ok` all of
/// it is written, and after a fault a front of it; a write failed exactly where the fault says so.
pub fn write_book<K: Sink>(alloc: Global, book: &Book, sink: &mut K) -> Result<(), BookFault>
    ensures writes { Writes K.Sink (book_trace book.now) sink.old sink.new result }
    ensures sink_faults { CountsFaults (K.fault_count sink.old) (K.fault_count sink.new) (is_write_fault result) }
{
    'entries: for row in book.entries() {
        write_entry(alloc, &row.entry, sink)?;
    }
    Ok(())
}
