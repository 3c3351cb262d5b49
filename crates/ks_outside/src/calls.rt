//! Which calls of a form in memory are to fail.

ghost use Rattle.std.specs.Prelude.{◌≡◌, ◌↔◌, IsTrue, Contains};
ghost use Rattle.ks_outside.specs.Faults.{one_more};

/// The numbers of the calls that are to fail, counted from 1.
#[derive(Clone, Copy, Debug)]
pub struct FailingCalls<'a> {
    numbers: &'a [u64],
    calls: u64,
}

impl<'a> FailingCalls<'a> {
    ghost use Rattle.ks_outside.specs.Plans.{failing_in, asked_in};

    /// Before the first call.
    pub fn new(numbers: &'a [u64]) -> FailingCalls<'a>
        ensures failing { failing_in result ≡ numbers.now }
        ensures none { asked_in result ≡ 0 }
    {
        FailingCalls { numbers, calls: 0 }
    }

    /// Counts one more call, and says whether it is to fail.
    pub fn next_fails(&mut self) -> bool
        ensures failing { failing_in self.new ≡ failing_in self.old }
        ensures asked { asked_in self.new ≡ one_more (asked_in self.old) }
        ensures fails { IsTrue result ↔ Contains (failing_in self.old) (asked_in self.new) }
    {
        self.calls = self.calls.saturating_add(1);
        self.numbers.contains(&self.calls)
    }
}
