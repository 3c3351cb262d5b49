//! What a service began with.

use keystore_core::Engine;
use std::snapshot::Snapshot;

/// The engine and the entropy as a service took them, which clauses alone see, and how many calls of the disk and draws of the
/// entropy had failed by then. By it a pass knows its service.
#[derive(Drop)]
pub struct ServiceId<N> {
    pub(crate) engine: Snapshot<Engine>,
    pub(crate) drawn_from: Snapshot<N>,
    pub(crate) disk: u64,
    pub(crate) entropy: u64,
}
