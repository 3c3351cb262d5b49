//! The service for threads: an engine, its disk and its entropy behind a turn lock, with the book of all that was made.
//!
//! Its one contract is that of `Shared::call` and `Shared::close` (`specs/Calls.antt`): the steps of all callers make one
//! book, which is legal and caused; each caller's pass has seen a front of it that has all of its own; and the reply to a
//! call is that of the last entry that the call added. The work of a cipher and the gate stand between the two turns of a
//! call, while the lock is free.
#![tactic(auto)]

mod desk;
mod name;
mod pass;
mod prepared;
mod record;
mod served;
mod shared;
mod stamp;
mod step;

pub use desk::Desk;
pub use name::ServiceId;
pub use pass::Pass;
pub use served::Served;
pub use shared::Shared;
