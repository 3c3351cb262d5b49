//! A new desk, and what is left of one.

ghost use Rattle.std.specs.Prelude.{◌≡◌, [], ℕ};
ghost use Rattle.rule_model.specs.Setup.{Setup};
ghost use Rattle.keystore_core.specs.Engine.{Stands, StandsAtFirst, StoreStands};
ghost use Rattle.shared_service.specs.DeskWords.{desk_book, desk_disk, desk_engine, desk_entropy, desk_name};
ghost use Rattle.shared_service.specs.Making.{IsNameOf};

use super::Desk;
use crate::name::ServiceId;
use crate::record::Record;
use keystore_core::Engine;
use ks_outside::{Disk, Entropy};
use service_book::Book;
use std::alloc::Global;
use std::snapshot::Snapshot;

impl<D: Disk, N: Entropy> Desk<D, N> {
    /// The name of a service that begins with these.
    pub(crate) fn name_of(engine: &Engine, disk: &D, entropy: &N) -> ServiceId<N>
        ensures { IsNameOf engine.now (D.fault_count disk.now) (N.fault_count entropy.now) entropy.now result }
    {
        ServiceId {
            engine: Snapshot::of(engine),
            drawn_from: Snapshot::of(entropy),
            disk: disk.faults(),
            entropy: entropy.faults(),
        }
    }

    /// A desk with the empty book.
    pub(crate) fn new(alloc: Global, engine: Engine, disk: D, entropy: N) -> Desk<D, N>
        requires stands { ∥ StandsAtFirst engine ∥₁ }
        requires store { (setup : Setup) → Stands setup engine [] → StoreStands D.Disk setup engine disk [] }
        ensures book { desk_book result ≡ [] }
        ensures parts { (desk_engine result ≡ engine) × (desk_disk result ≡ disk) × (desk_entropy result ≡ entropy) }
        ensures name { IsNameOf engine (D.fault_count disk) (N.fault_count entropy) entropy (desk_name result) }
    {
        Desk {
            alloc,
            name: Desk::name_of(&engine, &disk, &entropy),
            engine,
            disk,
            entropy,
            book: Record::new(alloc),
        }
    }

    /// The engine, the devices and the book.
    pub(crate) fn into_parts(self) -> (Engine, D, N, Book)
        ensures parts { (result.0 ≡ desk_engine self) × (result.1 ≡ desk_disk self) × (result.2 ≡ desk_entropy self) }
        ensures book { result.3 ≡ desk_book self }
    {
        let Desk {
            engine,
            disk,
            entropy,
            book,
            ..
        } = self;
        (engine, disk, entropy, book.into_book())
    }
}
