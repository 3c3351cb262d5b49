//! What holds over all runs of the service on one store, whenever crashes come.
//!
//! A run begins with what the bytes of its store stand for (`StandsFor` of `key_database`), and an image that it leaves stands for
//! what may be kept of a front of its history (`MayHold`). A run over a script says so of its end and, where each image stood for
//! its start when it began, of each moment before; the service over a listener says it of its end. Here these words become the
//! law of uses.
#![tactic(auto)]

mod law;

pub use law::stored_uses_law;
