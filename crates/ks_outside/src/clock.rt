//! What the time is.

ghost use Rattle.std.specs.Prelude.{◌≡◌, ⊤};
ghost use Rattle.ks_outside.specs.Clocks.{milliseconds};

use std::time::Duration;
use std::{io, time};

/// What the clocks said: milliseconds since the start, and since 1970.
#[derive(Clone, Copy, Debug, PartialEq, Eq)]
pub struct Reading {
    pub boot: u64,
    pub wall: u64,
}

/// The clocks. A reading cannot fail, and later readings need not be greater.
pub trait Clock {
    ghost use Rattle.ks_outside.specs.declared.clock.Reading.{Reading};

    /// The readings that the clocks may show.
    ghost shows: { Self → Reading → Type 0 };

    /// What the clocks say now.
    fn now(&self) -> Reading
        ensures shown { shows self.now result };
}

/// Clocks that stand.
#[derive(Clone, Copy, Debug)]
pub struct FixedClock {
    reading: Reading,
}

impl FixedClock {
    /// Clocks that always say this.
    pub fn at(reading: Reading) -> FixedClock
        ensures { result.reading ≡ reading }
    {
        FixedClock { reading }
    }
}

impl Clock for FixedClock {
    ghost shows = { λ clock reading. reading ≡ clock.reading };

    fn now(&self) -> Reading
        ensures shown { result ≡ self.now.reading }
    {
        self.reading
    }
}

/// The machine's clocks: the one that never goes back, and the wall's. One that cannot be read, as a wall clock that is set
/// before 1970, says 0.
#[derive(Clone, Copy)]
pub struct MachineClock<'a, R> {
    rt: &'a R,
}

impl<'a, R> MachineClock<'a, R> {
    /// The clocks of this machine.
    pub fn new(rt: &'a R) -> MachineClock<'a, R> {
        MachineClock { rt }
    }
}

/// Whole milliseconds, at most 2^64 - 1, and 0 where the clock could not be read.
fn milliseconds_of(read: io::Result<Duration>) -> u64
    ensures { result ≡ milliseconds read }
{
    match read {
        Ok(time) => u64::try_from(time.as_millis()).unwrap_or(u64::MAX),
        Err(_) => 0,
    }
}

impl<R: time::Clock> Clock for MachineClock<'_, R> {
    ghost shows = { λ _ _. ⊤ };

    fn now(&self) -> Reading {
        Reading {
            boot: milliseconds_of(self.rt.monotonic()),
            wall: milliseconds_of(self.rt.since_1970()),
        }
    }
}
