//! Room that is taken before anything is drawn, so that what is drawn can be kept without memory.

ghost use Rattle.std.specs.Prelude.{◌≡◌, ◌+◌, ◌++◌, length, IfOk};
ghost use Rattle.keystore_core.specs.Room.{room_in};

use std::alloc::Global;
use tags::{Bytes, NoMemory};

/// Room for a copy of so many bytes.
#[derive(Drop)]
pub struct Room {
    bytes: Vec<u8>,
}

impl Room {
    /// Room for `size` bytes.
    pub fn of(alloc: Global, size: usize) -> Result<Room, NoMemory>
        ensures { IfOk result (λ room. room_in room ≡ size) }
    {
        Ok(Room {
            bytes: vec![in alloc; 0; size]?,
        })
    }

    /// A copy of these bytes, for which the room is just large enough.
    pub fn filled(self, source: &[u8]) -> Bytes
        requires { room_in self ≡ length source.now }
        ensures { result ≡ source.now }
    {
        let Room { mut bytes } = self;
        bytes.copy_from_slice(source);
        Bytes::of(bytes)
    }

    /// These bytes and those behind them, for which the room is just large enough.
    pub fn joined(self, front: &[u8], back: &[u8]) -> Bytes
        requires { room_in self ≡ length front.now + length back.now }
        ensures { result ≡ front.now ++ back.now }
    {
        let Room { mut bytes } = self;
        let (first, second) = bytes.split_at_mut(front.len());
        first.copy_from_slice(front);
        second.copy_from_slice(back);
        Bytes::of(bytes)
    }
}
