//! The calls of a disk for the layers above it.
//!
//! Its contract: each call says what it makes of the images, that is, of what a crash may leave, and what is ahead of the disk, that is, what
//! the next sync makes of it. So no layer above names what a read gives.
//!
//! - `write_ahead` and `write_pieces` write, and `sync_ahead` makes what they wrote last: many writes before one sync.
//! - `sync_still` and `read_still` read what is synced: many reads behind one sync.
//! - `write_synced`, `read_synced_byte` and `read_synced` are a sync with one of these beside it.
//!
//! ```rust
//! use disk_calls::{sync_ahead, write_pieces};
//!
//! // two texts, and one sync: after Ok each image has both
//! write_pieces(&mut disk, 8, header)?;
//! write_pieces(&mut disk, 4096, text)?;
//! sync_ahead(&mut disk)?;
//! ```
#![tactic(auto)]

mod ahead;
mod still;
mod synced;
mod whole;

pub use ahead::{PIECE, sync_ahead, write_ahead, write_pieces};
pub use still::{read_still, sync_still};
pub use synced::{read_synced_byte, write_synced};
pub use whole::{ReadFault, read_synced};
