//! A service over an empty store in memory.

ghost use Rattle.std.specs.Prelude.{◌≡◌, ◌<◌, ◌^◌, [], true, All, length, IfSome};
ghost use Rattle.ks_outside.specs.Images.{tells};
ghost use Rattle.rule_model.specs.Setup.{Setup};
ghost use Rattle.wire_frames.specs.Spelling.{body_of};
ghost use Rattle.keystore_core.specs.Engine.{Stands, StoreStands};
ghost use Rattle.service_book.specs.Book.{own};
ghost use Rattle.shared_service.specs.Passes.{AreNumbered, front_of, number_of};
ghost use Rattle.service_load.specs.Services.{BeganNew, IsBookOf, IsNewEngine, IsPassOf, count_of};

use crate::board::Board;
use disk_model::{DiskRoom, MemoryDisk};
use keystore_core::Engine;
use ks_outside::{Disk, Reading, SteadyEntropy};
use rule_model::Request;
use service_book::Book;
use shared_service::{Pass, Served, Shared};
use std::alloc::Global;
use std::sync::Wait;
use tags::{DeviceSecrets, MOST_SLOTS, Policy};

/// The service, without the types of its devices: what goes to threads names no lifetime.
#[derive(Drop)]
pub struct Service {
    shared: Shared<MemoryDisk<'static>, SteadyEntropy>,
}

/// A pass of the service.
pub type LoadPass = Pass<SteadyEntropy>;

/// The reading of each call.
const NOW: Reading = Reading {
    boot: 0,
    wall: 1000,
};

/// What the disk has room for.
const ROOM: DiskRoom = DiskRoom {
    calls: 4096,
    bytes: 1_048_576,
    pages: 260,
};

/// An engine over an empty store, which is made on a disk, where there is memory for it.
fn engine_over<D: Disk>(alloc: Global, disk: &mut D) -> Option<Engine>
    requires telling { tells D.Disk disk.old ≡ true }
    ensures new { IfSome result IsNewEngine }
    ensures store { IfSome result (λ engine. (setup : Setup) → Stands setup engine [] → StoreStands D.Disk setup engine disk.new []) }
{
    let device = DeviceSecrets::demo();
    let Ok(policy) = Policy::demo(alloc) else {
        return None;
    };
    let Ok(()) = Engine::format(disk) else {
        return None;
    };
    match Engine::open(alloc, &device, &policy, MOST_SLOTS, disk) {
        Ok(engine) => Some(engine),
        Err(_) => None,
    }
}

impl Service {
    /// A service with so many passes, where there is memory for it.
    pub fn open(alloc: Global, passes: u32) -> Option<(Service, Vec<LoadPass>)>
        requires some { 0 < passes }
        ensures ours { IfSome result (λ r. All (IsPassOf r.0) r.1.items) }
        ensures numbers { IfSome result (λ r. AreNumbered r.1.items) }
        ensures count { IfSome result (λ r. (count_of r.0 ≡ passes) × (length r.1.items ≡ passes)) }
        ensures new { IfSome result (λ r. BeganNew r.0) }
    {
        let Ok(mut disk) = MemoryDisk::with_room(alloc, ROOM, &[]) else {
            return None;
        };
        let engine = engine_over(alloc, &mut disk)?;
        match Shared::new(alloc, engine, disk, SteadyEntropy::counting(), passes) {
            Ok((shared, made)) => Some((Service { shared }, made)),
            Err(back) => {
                drop(back);
                None
            }
        }
    }

    /// Makes a call of a pass.
    pub fn call<R: Wait>(
        &self,
        rt: &R,
        pass: LoadPass,
        request: Request,
        board: &Board,
    ) -> (LoadPass, Served)
        requires ours { IsPassOf self.now pass }
        requires short { length (body_of request) < 2 ^ 32 }
        ensures ours { IsPassOf self.now result.0 }
        ensures number { number_of result.0 ≡ number_of pass }
    {
        self.shared.call(rt, pass, NOW, request, board)
    }

    /// The book of a service that ends with all its passes, in their order. It has all that they made.
    pub fn close<R: Wait>(self, rt: &R, passes: Vec<LoadPass>) -> Book
        requires some { 0 < count_of self }
        requires ours { All (IsPassOf self) passes.items }
        requires numbers { AreNumbered passes.items }
        requires count { length passes.items ≡ count_of self }
        ensures book { IsBookOf self result }
        ensures own { All (λ p. own (number_of p) result ≡ own (number_of p) (front_of p)) passes.items }
    {
        let (engine, disk, entropy, book) = self.shared.close(rt, passes);
        drop(engine);
        drop(disk);
        drop(entropy);
        book
    }
}
