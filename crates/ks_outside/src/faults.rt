//! The answer of a call that failed, and the count that it raises.

ghost use Rattle.std.specs.Prelude.{◌≡◌};
ghost use Rattle.ks_outside.specs.Faults.{HasCause, Rises, count_after, one_more};

use std::fmt;

/// A call on the outside failed. It says nothing more: the object's count of faults rose.
#[derive(Clone, Copy, Debug, PartialEq, Eq)]
pub struct Failed;

impl fmt::Display for Failed {
    fn fmt<W: fmt::Write>(&self, f: &mut fmt::Formatter<W>) -> fmt::Result {
        f.write_str("a call of a device failed")
    }
}

/// A count of faults. It never falls, and stands still at 2^64 - 1.
#[derive(Clone, Copy, Debug, PartialEq, Eq)]
pub struct FaultCount {
    count: u64,
}

impl FaultCount {
    /// No fault so far.
    pub fn new() -> FaultCount
        ensures { result.count ≡ 0 }
    {
        FaultCount { count: 0 }
    }

    /// How many faults there were.
    pub fn count(&self) -> u64
        ensures { result ≡ self.now.count }
    {
        self.count
    }

    /// Counts one more fault.
    pub fn rise(&mut self)
        ensures counts { self.new.count ≡ one_more self.old.count }
        ensures rises { Rises self.old.count self.new.count }
    {
        self.count = self.count.saturating_add(1);
    }
    /// The count after a call that answered so.
    pub fn after<T, E>(self, answer: &Result<T, E>) -> FaultCount
        ensures counts { result.count ≡ count_after answer.now self.count }
        ensures cause { HasCause self.count result.count answer.now }
    {
        let mut faults = self;
        if answer.is_err() {
            faults.rise();
        }
        faults
    }
}
