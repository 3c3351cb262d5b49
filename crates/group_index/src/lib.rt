//! Numbers in groups, found by their group: the operations of a client, say.
//!
//! Its one contract: `GroupIndex` is seen as the numbers of each group, which rise (`specs/Grouped.antt`). The pairs stand in the
//! order of group and number, so that a group's numbers are one range, which is found by halving. `with_room` alone takes memory.
//! Groups and numbers are the caller's, and of no standard.
#![tactic(auto)]

mod index;

pub use index::{GroupIndex, Grouped};
