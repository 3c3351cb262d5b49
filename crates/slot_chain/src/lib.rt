//! Places in lists, one for each uid, linked by index through one array.
//!
//! Its one contract: `Chains` is seen as one list of places for each uid, the oldest last use first, and the uids whose list
//! is not empty (`specs/Table.antt`). A call looks for a uid's list by halving, and walks none. `with_places` alone takes
//! memory, and looking for the oldest place of a uid is one step of `Steps`. Places are the caller's numbers, and of no
//! standard.
#![tactic(auto)]

mod chains;
mod heads;
mod links;
mod steps;

pub use chains::Chains;
pub use steps::Steps;
