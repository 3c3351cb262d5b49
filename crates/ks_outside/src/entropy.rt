//! Where random bytes come from.

ghost use Rattle.std.specs.Prelude.{◌≡◌, ℕ, Option};
ghost use Rattle.ks_outside.specs.Draws.{DrawGives};
ghost use Rattle.ks_outside.specs.Faults.{HasCause};

use crate::faults::Failed;

/// Where random bytes come from. Its content, where it is told, is the bytes to come: the byte at each place, the
/// next one at place 0.
pub trait Entropy {
    ghost content: { Self → Option (ℕ → ℕ) };

    ghost fault_count: { Self → ℕ };

    /// Fills `out` with the next bytes, and takes as many from those to come. Where it fails, `out` may hold any bytes
    /// and none of those to come is taken.
    fn draw(&mut self, out: &mut [u8]) -> Result<(), Failed>
        ensures bytes { DrawGives (content self.old) (content self.new) result out.new }
        ensures cause { HasCause (fault_count self.old) (fault_count self.new) result };

    /// How many draws failed so far, up to 2^64 - 1.
    fn faults(&self) -> u64
        ensures { result ≡ fault_count self.now };
}
