//! The journal of a store: the changes of the lasting part, each published by the gate before its record.
//!
//! It is the frame of `record_areas` with a header at place 0 and records of changes behind it (`specs/Journal.antt`).
//! Its contract: at each moment of `Journal::append` each image of the disk stands for the records before, or for those
//! with the new one; after a failed call the journal is unsettled, and `Journal::settle` answers `Kept` exactly where
//! the change is in the bytes that the disk then has on all images. `Journal::read` finds the header, for a reading of
//! the records one by one (`Journal::of` is the journal behind them); `Journal::open` gives them as a list, or where the
//! bytes are no journal; bytes are a journal of one list of records at most (`one_reading`). The needs of the changes
//! are not tested here. The format is the service's own.
//!
//! ```rust
//! use journal_records::{frame_into, framed_length};
//! use use_journal::Journal;
//!
//! let (mut journal, records) = Journal::open(alloc, &mut disk)?;
//! let mut closed = [0u8; 64];
//! if journal.is_settled() && framed_length(&change) <= 64 {
//!     let size = frame_into(&change, &mut closed);
//!     journal.append(&mut disk, &closed[..size])?;
//! }
//! ```
#![tactic(auto)]

mod journal;
mod law;
mod opening;

pub use journal::Journal;
pub use law::one_reading;
