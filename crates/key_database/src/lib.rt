//! The keys, grants and next numbers that last, over a store of two areas.
//!
//! Its contract: `KeyDatabase` is a table of what lasts (`table`, and `lasting` of `specs/Stands.antt`) and the areas that
//! it lies in. `open` reads the one that the bytes stand for, record by record, or tells the place of the first thing
//! wrong; which frames a store may have is in `specs/Frames.antt`. A store of the older format, a journal, is then brought
//! to areas, and each image stands for the same at each moment. At each moment of `apply` each image stands for the
//! lasting part before the change or with it; before a change the store is written anew exactly where that is due
//! (`specs/Compacting.antt`), so what it takes is bounded by what lives; and `settle` makes of an unsettled database what the
//! disk has. What is known of the disk goes on by `after_commit` and `after_settle` (`journal_records/specs/Holding.antt`).
//! An image stands for one lasting part at most (`one_store`), whatever stands where nothing counts (`quiet_law`).
//!
//! ```rust
//! use key_database::KeyDatabase;
//!
//! KeyDatabase::format(&mut disk)?;
//! let mut database = KeyDatabase::open(alloc, &mut disk)?;
//! if database.is_settled() && database.table().meets(&change) {
//!     let applied = database.apply(&mut disk, change);
//! }
//! ```
#![tactic(auto)]

mod adopting;
mod appending;
mod compacting;
mod database;
mod law;
mod opening;

pub use database::KeyDatabase;
pub use law::{one_store, quiet_law};
