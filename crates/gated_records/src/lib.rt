//! Records that count from the moment when the gate before them opens.
//!
//! A gate is one byte: 4b is open, any other is shut. New bytes are written behind a shut gate and synced, and then the
//! gate is opened and synced. One byte on a disk is the old one, the new one or any other, and every other one is shut:
//! so at each moment each image has the records from before or those with the new ones, whole.
//!
//! Its contract: `publish` does so at any place of a disk, and `is_published` settles whether it was done. A journal,
//! an area of a larger store, and several records at once are cases of it.
//!
//! ```rust
//! use gated_records::publish;
//!
//! // an open gate, the record "use", and the shut gate of the next one
//! publish(&mut disk, at, b"\x4buse\x00")?;
//! ```
#![tactic(auto)]

mod gate;

pub use gate::{CLOSED, OPEN, is_published, publish};
