//! A listener that says where it listens, once it is asked for the first connection: the store is open by then.

ghost use Rattle.std.specs.Prelude.{◌≡◌, is_some};
ghost use Rattle.ks_outside.specs.Faults.{HasCause};
ghost use Rattle.ks_outside.specs.Listening.{given_after, ended_after};

use crate::notices::tell_device;
use ks_outside::{Failed, Listener};
use outside_net::HangsUp;

/// A listener, and what it says at its first connection.
#[derive(Drop)]
pub struct Announced<'a, B> {
    listener: B,
    rt: &'a HostRuntime,
    asked: u16,
    found: Option<u16>,
    is_demo: bool,
    is_said: bool,
}

impl<'a, B> Announced<'a, B> {
    /// Takes the listener with the number of its port as it was asked for and as it was found, and whether the device is the demo device.
    /// Nothing is said yet.
    pub fn new(
        listener: B,
        rt: &'a HostRuntime,
        asked: u16,
        found: Option<u16>,
        is_demo: bool,
    ) -> Announced<'a, B> {
        Announced {
            listener,
            rt,
            asked,
            found,
            is_demo,
            is_said: false,
        }
    }

    /// The number of the port as it was asked for.
    pub fn asked(&self) -> u16 {
        self.asked
    }

    /// Whether the port could be had.
    pub fn is_open(&self) -> bool
        ensures { result ≡ is_some self.now.found }
    {
        self.found.is_some()
    }

    /// The listener.
    pub fn listener(&self) -> &B
        ensures { result.now ≡ self.now.listener }
    {
        &self.listener
    }

    fn say(&self) {
        tell_device(self.rt, self.is_demo);
        if let Some(port) = self.found {
            let _ = eprintln!(self.rt; "keystore2: listening on 127.0.0.1:{port}");
        }
    }
}

impl<B: Listener> Listener for Announced<'_, B> {
    type L = B::L;

    ghost given = { λ s. B.given s.listener };

    ghost ended = { λ s. B.ended s.listener };

    ghost fault_count = { λ s. B.fault_count s.listener };

    fn next(&mut self) -> Result<Option<B::L>, Failed>
        ensures gives { B.given self.new.listener ≡ given_after result (B.given self.old.listener) }
        ensures ends { B.ended self.new.listener ≡ ended_after result (B.ended self.old.listener) }
        ensures cause { HasCause (B.fault_count self.old.listener) (B.fault_count self.new.listener) result }
    {
        if !self.is_said {
            self.say();
            self.is_said = true;
        }
        self.listener.next()
    }

    fn done(&mut self, link: B::L)
        ensures gives { B.given self.new.listener ≡ B.given self.old.listener }
        ensures ends { B.ended self.new.listener ≡ B.ended self.old.listener }
        ensures faults { B.fault_count self.new.listener ≡ B.fault_count self.old.listener }
    {
        self.listener.done(link);
    }
}

impl<B: HangsUp> HangsUp for Announced<'_, B> {
    ghost leaves = { λ link left. B.leaves link left };

    fn hang_up(link: B::L) -> Option<B::L>
        ensures leaves { B.leaves link result }
    {
        B::hang_up(link)
    }
}
