//! Disks in memory for tests, of which it is known what a crash leaves at each moment.
//!
//! The one contract is that of `ks_outside::Disk`: `MemoryDisk` tells what a read gives and what a crash at any
//! moment leaves, from the list of its calls; and `image_after` takes one such image, which can be opened again.
//! Beyond the trait, a write of theirs that fails writes nothing.
#![tactic(auto)]

mod calls;
mod image;
mod memory;
mod pages;
mod stopped;

pub use image::Choice;
pub use memory::{DiskRoom, MemoryDisk};
pub use stopped::StoppedDisk;
