//! A caller of the service.

ghost use Rattle.std.specs.Prelude.{◌≡◌};
ghost use Rattle.atomic_table.specs.Seated.{TableId};
ghost use Rattle.turn_lock.specs.Resting.{IsRestingPassAt, resting_front, resting_number};
ghost use Rattle.shared_service.specs.Desks.{HasSeen};
ghost use Rattle.shared_service.specs.declared.name.ServiceId.{ServiceId};

use crate::name::ServiceId;
use ks_outside::Entropy;
use service_book::BookEntry;
use turn_lock::{RestingMaker, RestingPass};

mod numbers;

/// The right to make calls, one after another, for one client at a time. What it has seen of the book is legal and caused,
/// was drawn from the entropy of its service, and has all that it made itself.
#[derive(Drop)]
pub struct Pass<N: Entropy> {
    pub(crate) seat: RestingPass<BookEntry, ServiceId<N>>,
    pub(crate) kept: Kept<N>,
    ghost seen: { (lock : TableId) (name : ServiceId N) → IsRestingPassAt lock name seat → ∥ HasSeen N.Entropy name (resting_number seat) (resting_front seat) kept.client kept.connected ∥₁ },
}

/// What a pass keeps beside its place at the lock: its client.
#[derive(Drop)]
pub(crate) struct Kept<N> {
    /// the number of its client, and 0 where it has none
    pub(crate) client: u64,
    pub(crate) connected: bool,
    /// the right to make passes, which one pass of a service has
    pub(crate) maker: Option<RestingMaker<BookEntry, ServiceId<N>>>,
}
