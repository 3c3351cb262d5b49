//! The number of a pass, and whether it has a client.

ghost use Rattle.std.specs.Prelude.{◌≡◌};
ghost use Rattle.shared_service.specs.Passes.{connected_of, number_of};

use super::Pass;
use ks_outside::Entropy;

impl<N: Entropy> Pass<N> {
    /// No other pass of its service has the same.
    pub fn number(&self) -> u64
        ensures { result ≡ number_of self.now }
    {
        self.seat.number()
    }

    /// Whether a client has come by it that was not disconnected.
    pub fn is_connected(&self) -> bool
        ensures { result ≡ connected_of self.now }
    {
        self.kept.connected
    }
}
