//! A real file as the disk of a store.
//!
//! Its one contract is that of a disk of `ks_outside`, kept over what a file of the system does: it tells nothing of its content; each call that fails is one
//! fault; and behind a sync that failed what was written since the last good one is written again before the next one, so that after a
//! sync which answers Ok what a read gives lasts. What the calls of the system do no clause says; the tests over a file, and the
//! tools over the program, show it.
#![tactic(auto)]

mod disk;
mod real_file;
mod rewriting;
mod store;
mod trouble;
mod unsynced;

pub use disk::FileDisk;
pub use real_file::RealFile;
pub use store::{LAST_STREAM, StoreFile, open_store};
pub use trouble::Trouble;
pub use unsynced::Unsynced;
