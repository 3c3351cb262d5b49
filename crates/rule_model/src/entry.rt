//! The entries of a history, and what a step gives back.

use crate::{Event, Reply};
use cipher_ops::Job;
use tags::{Bytes, Settled};

/// One entry of the history of a service.
#[derive(Debug, Drop)]
pub enum Entry {
    /// an event, the bytes that were drawn for it, and its answer
    Acted {
        event: Event,
        drawn: Bytes,
        reply: Reply,
    },
    /// how the change of an earlier event was settled
    Settling {
        settled: Settled,
    },
}

/// What a step of the engine gives back.
#[derive(Drop)]
pub struct Stepped {
    /// how the change of an earlier event was settled, where that was due
    pub settled: Option<Settled>,
    pub reply: Reply,
    /// the work of an admitted enter, which is run apart from the service and comes back by a leave
    pub job: Option<Job>,
    /// the bytes that were drawn
    pub drawn: Bytes,
}
