//! A store of two areas of records, of which one is selected: a store that never fills up.
//!
//! Each area is one of `record_areas`; marks at the front of the store and a byte between them say which is selected (`specs/Stores.antt`).
//! Changes are appended to the selected area. Now and then the store is written anew: the snapshot of what lasts goes into the other area, that
//! one is selected, and the one that is left is sealed, with a sync behind each step. So what the store takes is bounded by what lives.
//!
//! Its contract: at each moment of `Areas::append` each image has the records before, or those with the new one; at each moment of
//! `Areas::compact` each image has the records before, or the snapshot; after a failed call the areas are unsettled, and `Areas::settle`
//! answers `Kept` exactly where a record is in the bytes that the disk then has on all images, and `Lost` of each compaction.
//! `Areas::open` gives the records of the selected area, or the place of what is wrong first; bytes stand for one thing (`one_reading`),
//! whatever stands elsewhere (`quiet_law`). `find_store` finds a store of areas, or a journal, which is the older format (`one_format`);
//! `Areas::adopt` brings a journal to areas, which at each moment is the journal or a store of areas with its snapshot (`older_law`). The needs
//! of the records are not tested here. Over a sure disk what failed left nothing (`HoldsSurely` of `specs/Holding.antt`), and `Areas::place`
//! tells where the store is. The formats are the service's own.
//!
//! ```rust
//! use journal_compact::Areas;
//!
//! let (mut areas, records) = Areas::open(alloc, &mut disk)?;
//! if areas.record_bytes() > 65_536 && areas.is_settled() {
//!     areas.compact(&mut disk, &table)?;
//! }
//! ```
#![tactic(auto)]

mod areas;
mod format;
mod gathering;
mod law;
mod older;
mod opening;
mod places;
mod snapshot;
mod store_place;
mod turning;

pub use areas::Areas;
pub use format::{Format, find_store};
pub use law::{older_law, one_format, one_reading, quiet_law};
pub use places::{AREA_BYTES, Selected};
pub use snapshot::write_snapshot;
pub use store_place::StorePlace;
