//! Room for bytes.

ghost use Rattle.std.specs.Prelude.{◌≡◌, ◌≤◌, [], length, IfOk, vec_capacity};
ghost use Rattle.rule_model.specs.ReplyRooms.{IsWithin};

use std::alloc::Global;
use tags::{Bytes, NoMemory};

/// Room for so many bytes at most.
#[derive(Drop)]
pub(super) struct TextRoom {
    pub(super) most: usize,
    room: Vec<u8>,
    ghost enough: { most ≤ vec_capacity room },
    ghost empty: { room.items ≡ [] },
}

impl TextRoom {
    pub(super) fn of(alloc: Global, most: usize) -> Result<TextRoom, NoMemory>
        ensures { IfOk result (λ room. room.most ≡ most) }
    {
        Ok(TextRoom {
            most,
            room: Vec::with_capacity(alloc, most)?,
        })
    }

    /// Room for no byte. It takes no memory.
    pub(super) fn empty(alloc: Global) -> TextRoom
        ensures { result.most ≡ 0 }
    {
        TextRoom {
            most: 0,
            room: Vec::new(alloc),
        }
    }

    /// The same bytes. It takes no memory.
    pub(super) fn copy(self, bytes: &[u8]) -> Bytes
        requires { length bytes.now ≤ self.most }
        ensures { result ≡ bytes.now }
    {
        let TextRoom { mut room, .. } = self;
        match room.extend_from_slice(bytes) {
            Ok(()) => Bytes::of(room),
            Err(_) => unreachable!(),
        }
    }

    /// The same field. It takes no memory.
    pub(super) fn copy_field(self, field: &Option<Bytes>) -> Option<Bytes>
        requires { IsWithin self.most field.now }
        ensures { result ≡ field.now }
    {
        match field {
            None => None,
            Some(bytes) => Some(self.copy(bytes.as_slice())),
        }
    }
}
