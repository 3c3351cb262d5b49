//! Records in an area of a disk, at any place.
//!
//! An area begins at one place and ends before another; its records stand one behind the other, each published by the gate before it, and
//! behind them stands a gate that is shut. What marks a store as one stands outside of its areas, and stays whatever is added.
//!
//! Its contract: `Reading::next` reads an area record by record, and `Area::read` all of it, or they tell the place where it is broken off
//! (`specs/Frames.antt`); `append` adds a record, so that at each moment each image has the records from before or those with the new one;
//! `settle` finds out what became of one whose writing failed; and bytes are read in one way (`one_reading`). The needs of the records are
//! not tested here.
#![tactic(auto)]

mod area;
mod body_length;
mod law;
mod opening;
mod reading;
mod records;
mod window;

pub use area::Area;
pub use law::one_reading;
pub use reading::Reading;
pub use records::Records;
