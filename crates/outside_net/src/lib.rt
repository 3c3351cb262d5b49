//! The edge to the network: a listener on a port of this machine, whose connections are links.
//!
//! Its contract is that of a listener of `ks_outside`: what it answers, with its three counts; and what is left of a connection that was
//! ended (`leaves`). What the system does with a connection no clause says; its tests over loopback show it.
#![tactic(auto)]

mod closing;
mod hang_up;
mod listener;
mod passing;
mod patience;

pub use hang_up::HangsUp;
pub use listener::{PortListener, listen};
pub use patience::Patience;
