//! The service.

use crate::desk::Desk;
use crate::name::ServiceId;
use ks_outside::{Disk, Entropy};
use service_book::BookEntry;
use std::alloc::Global;
use turn_lock::TurnLock;

mod away;
mod calls;
mod closing;
mod making;
mod turns;

/// An engine with its disk and entropy, which threads share.
#[derive(Drop)]
pub struct Shared<D: Disk, N: Entropy> {
    alloc: Global,
    lock: TurnLock<Desk<D, N>, BookEntry, ServiceId<N>>,
    passes: u32,
}
