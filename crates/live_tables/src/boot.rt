//! What lasts until the next restart.

ghost use Rattle.std.specs.Prelude.{◌≡◌, IfOk};
ghost use Rattle.rule_model.specs.Setup.{Setup};
ghost use Rattle.live_tables.specs.Boot.{IsStartOf, Restarts};

use crate::begins::Begins;
use crate::device::DeviceState;
use crate::tokens::Tokens;
use std::alloc::Global;
use tags::NoMemory;

/// What lasts until the next restart: the device's state, the last tokens, and the begins on each key.
#[derive(Drop)]
pub struct Boot {
    pub device: DeviceState,
    pub tokens: Tokens,
    pub begins: Begins,
}

impl Boot {
    /// The start of a device with this key for the macs of tokens. It takes the room of all users and tokens.
    pub fn new(alloc: Global, token_key: [u8; 32]) -> Result<Boot, NoMemory>
        ensures { IfOk result (λ boot. IsStartOf token_key boot) }
    {
        Ok(Boot {
            device: DeviceState::new(alloc)?,
            tokens: Tokens::with_room(alloc, token_key)?,
            begins: Begins::new(alloc),
        })
    }

    /// The device starts again: all users are locked, early boot begins, and tokens and begins are forgotten.
    pub fn restart(&mut self)
        ensures { Restarts self.old self.new }
    {
        self.device.restart();
        self.tokens.clear();
        self.begins.clear();
    }
}
