//! Workers that serve the connections of a listener, each with its own `Answerer`.
//!
//! Its one contract is that of `serve_all`: how it ended is told with the listener's numbers. It was served where as many connections
//! came as were wanted, or the listener said that no more come; it failed where a call of the listener did; and no more connections came
//! than were wanted. Each link that the listener gave was served once, from its first byte on, by the worker that took it, and hung up
//! then; each answerer has gone on by these connections alone (`AreServed` of `specs/Workers.antt`), and no client is left connected.
//! The listener stands behind a turn lock, which is named by what it was at the beginning (`specs/Intakes.antt`), and whose history are
//! the links that were taken, each with the number of the worker that took it (`specs/Arrivals.antt`): a worker's own entries are what
//! it has to serve. That several are served at once no clause says.
#![tactic(auto)]

mod intake;
mod serving;
mod worker;

pub use intake::{Arrival, Arrivals, Intake, IntakeLock, IntakePass, Start};
pub use serving::{Attendance, serve_all};
pub use worker::Worker;
