//! Making a service with its passes.

ghost use Rattle.std.specs.Prelude.{◌≡◌, ◌+◌, ◌≤◌, ◌<◌, ◌++◌, ◌∷◌, ℕ, [], All, length, IfErr, IfOk, get_or, vec_capacity};
ghost use Rattle.atomic_table.specs.Seated.{TableId};
ghost use Rattle.turn_lock.specs.Passes.{IsMakerOf, lock_id, made_of, name_of};
ghost use Rattle.turn_lock.specs.Resting.{IsRestingPassAt, resting_front, resting_number};
ghost use Rattle.rule_model.specs.Setup.{Setup};
ghost use Rattle.keystore_core.specs.Engine.{Stands, StandsAtFirst, StoreStands};
ghost use Rattle.shared_service.specs.declared.name.ServiceId.{ServiceId};
ghost use Rattle.shared_service.specs.declared.pass.Pass.{Pass};
ghost use Rattle.shared_service.specs.Passes.{AreNumbered, HasAll, HoldsMaker, IsNew, IsNewPass, IsOurs, engine_of, entropy_of, passes_of, start_of};

use super::Shared;
use crate::desk::Desk;
use crate::name::ServiceId;
use crate::pass::{Kept, Pass};
use keystore_core::Engine;
use ks_outside::{Disk, Entropy};
use service_book::BookEntry;
use std::alloc::Global;
use tags::NoMemory;
use turn_lock::{Maker, RestingMaker, RestingPass, TurnLock};

/// A pass that has seen nothing and has no client.
fn new_pass<N: Entropy>(
    pass: RestingPass<BookEntry, ServiceId<N>>,
    maker: Option<RestingMaker<BookEntry, ServiceId<N>>>,
) -> Pass<N>
    requires new { resting_front pass ≡ [] }
    ensures { (lock : TableId) (name : ServiceId N) (count : ℕ) → IsRestingPassAt lock name pass → HoldsMaker lock name count (resting_number pass) maker
        → IsNewPass lock name count (resting_number pass) result }
{
    Pass {
        seat: pass,
        kept: Kept {
            client: 0,
            connected: false,
            maker,
        },
    }
}

/// Adds a pass at a place that there is.
fn add_pass<N: Entropy>(passes: &mut Vec<Pass<N>>, pass: Pass<N>)
    requires place { length passes.old.items < vec_capacity passes.old }
    ensures added { passes.new.items ≡ passes.old.items ++ pass ∷ [] }
    ensures places { vec_capacity passes.old ≤ vec_capacity passes.new }
{
    match passes.push(pass) {
        Ok(()) => {}
        Err(_) => unreachable!(),
    }
}

/// Adds so many new passes, numbered from 0, where there were none and are places for them. The last has the right to make
/// passes.
fn add_passes<D: Disk, N: Entropy>(
    lock: &TurnLock<Desk<D, N>, BookEntry, ServiceId<N>>,
    maker: Maker<Desk<D, N>, BookEntry, ServiceId<N>>,
    passes: &mut Vec<Pass<N>>,
    count: u32,
)
    requires some { 0 < count }
    requires maker { IsMakerOf lock.now maker }
    requires first { made_of maker ≡ 0 }
    requires none { length passes.old.items ≡ 0 }
    requires places { count ≤ vec_capacity passes.old }
    ensures count { length passes.new.items ≡ count }
    ensures each { (k : ℕ) (d : Pass N N.Entropy) → k < count → IsNewPass (lock_id lock.now) (name_of lock.now) count k (get_or passes.new.items k d) }
{
    let mut maker = maker;
    for _made in 1..count {
        let pass = lock.rest(lock.another(&mut maker));
        add_pass(passes, new_pass(pass, None));
    }
    let pass = lock.rest(lock.another(&mut maker));
    let maker = lock.rest_maker(maker);
    add_pass(passes, new_pass(pass, Some(maker)));
}

impl<D: Disk, N: Entropy> Shared<D, N> {
    /// A service over an engine as it was opened, with so many passes, numbered from 0. The disk has the engine's store. Where
    /// memory is wanting all that was handed in comes back.
    pub fn new(
        alloc: Global,
        engine: Engine,
        disk: D,
        entropy: N,
        passes: u32,
    ) -> Result<(Shared<D, N>, Vec<Pass<N>>), (NoMemory, Engine, D, N)>
        requires some { 0 < passes }
        requires stands { ∥ StandsAtFirst engine ∥₁ }
        requires store { (setup : Setup) → Stands setup engine [] → StoreStands D.Disk setup engine disk [] }
        ensures engine { IfOk result (λ r. engine_of r.0 ≡ engine) }
        ensures entropy { IfOk result (λ r. entropy_of r.0 ≡ entropy) }
        ensures counts { IfOk result (λ r. start_of r.0 ≡ record { disk = D.fault_count disk; entropy = N.fault_count entropy }) }
        ensures count { IfOk result (λ r. (passes_of r.0 ≡ passes) × (length r.1.items ≡ passes)) }
        ensures ours { IfOk result (λ r. All (IsOurs r.0) r.1.items) }
        ensures new { IfOk result (λ r. All IsNew r.1.items) }
        ensures numbers { IfOk result (λ r. AreNumbered r.1.items) }
        ensures all { IfOk result (λ r. HasAll passes r.1.items) }
        ensures back { IfErr result (λ back. (back.1 ≡ engine) × (back.2 ≡ disk) × (back.3 ≡ entropy)) }
    {
        let Ok(mut made) = Vec::with_capacity(alloc, passes as usize) else {
            return Err((NoMemory, engine, disk, entropy));
        };
        let name = Desk::name_of(&engine, &disk, &entropy);
        let desk = Desk::new(alloc, engine, disk, entropy);
        match TurnLock::open(alloc, desk, name) {
            Ok((lock, maker)) => {
                add_passes(&lock, maker, &mut made, passes);
                let shared = Shared {
                    alloc,
                    lock,
                    passes,
                };
                Ok((shared, made))
            }
            Err(desk) => {
                let (engine, disk, entropy, _book) = desk.into_parts();
                Err((NoMemory, engine, disk, entropy))
            }
        }
    }
}
