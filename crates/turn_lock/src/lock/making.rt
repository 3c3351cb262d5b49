//! Making a lock with its passes.
ghost use Rattle.std.specs.Prelude.{◌≡◌, ◌+◌, ◌^◌, ◌<◌, [], IfOk, IfErr};
ghost use Rattle.turn_lock.specs.Passes.{front, number_of, made_of, name_of, IsPassOf, IsMakerOf};

use super::{LockPass, Locked, Maker, TurnLock};
use crate::history::History;
use crate::plays::{DrawNumber, Heir};
use atomic_table::{Refused, Table};
use std::alloc::{AllocFailed, Global};
use std::mem;
use std::sync::atomic::AtomicU64;

impl<T: History<E, K>, E, K: Drop> TurnLock<T, E, K> {
    /// A lock over a value with no entry yet, and what makes its passes. Where memory is wanting the value comes back.
    pub fn open(alloc: Global, value: T, name: K) -> Result<(TurnLock<T, E, K>, Maker<T, E, K>), T>
        requires empty { T.entries value ≡ [] }
        requires fits { T.fits name value }
        ensures lock { IfOk result (λ r. name_of r.0 ≡ name) }
        ensures maker { IfOk result (λ r. IsMakerOf r.0 r.1 × (made_of r.1 ≡ 0)) }
        ensures back { IfErr result (λ x. x ≡ value) }
    {
        let mut slots = Vec::new(alloc);
        if let Err(failed) = slots.push(Some(value)) {
            let AllocFailed { value: back } = failed;
            let Some(value) = back else { unreachable!() };
            slots.destroy_empty();
            return Err(value);
        }
        match Table::new(alloc, &[0, 0, 0, 0, 0], slots, &name) {
            Ok((table, seat)) => {
                let asleep = AtomicU64::new(0);
                Ok((
                    Locked {
                        table,
                        name,
                        asleep,
                    },
                    Maker { seat, made: 0 },
                ))
            }
            Err(refused) => {
                let Refused { mut slots } = refused;
                let last = slots.pop();
                let Some(Some(value)) = last else {
                    unreachable!()
                };
                slots.destroy_empty();
                Err(value)
            }
        }
    }
}

impl<T: History<E, K>, E, K> TurnLock<T, E, K> {
    /// A pass with the next number. The first has 0.
    pub fn another(&self, maker: &mut Maker<T, E, K>) -> LockPass<T, E, K>
        requires ours { IsMakerOf self.now maker.old }
        requires room { made_of maker.old + 1 < 2 ^ 64 }
        ensures pass { IsPassOf self.now result }
        ensures number { number_of result ≡ made_of maker.old }
        ensures front { front result ≡ [] }
        ensures maker { IsMakerOf self.now maker.new × (made_of maker.new ≡ made_of maker.old + 1) }
    {
        let number = self
            .table
            .shared
            .fetch_add::<DrawNumber>(&mut maker.seat, 0, 1);
        let heir = self.table.shared.split_seat::<Heir>(&mut maker.seat);
        let seat = mem::replace(&mut maker.seat, heir);
        maker.made = number + 1;
        LockPass { seat, number }
    }
}

impl<T, E, K> Maker<T, E, K> {
    /// How many passes were made.
    pub fn made(&self) -> u64
        ensures { result ≡ made_of self.now }
    {
        self.made
    }
}
