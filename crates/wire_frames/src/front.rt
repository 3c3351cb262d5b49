//! What stands at the front of a stream.

ghost use Rattle.std.specs.Prelude.{◌≡◌, ◌-◌, ◌^◌, ◌<◌, ◌≤◌, length, IfOk};
ghost use Rattle.wire_frames.specs.Streams as spec;

use crate::fault::BodyFault;
use crate::reading::act_in;
use byteorder::{BigEndian, ByteOrder};
use rule_model::Request;
use std::alloc::Global;
use tags::{FRAME_BYTES, NoMemory};

/// What stands at the front.
#[derive(Debug, Drop)]
pub enum Front {
    /// A part of a frame, which lacks so many bytes, or so many until its length is there.
    Part(usize),
    /// A bad frame.
    Bad,
    /// A request whose frame has so many bytes.
    Whole(Request, usize),
}

/// How many bytes the frame at the front has, as far as that is known: four until its length is there.
pub(crate) fn needed(bytes: &[u8]) -> usize
    ensures { result ≡ spec.needed bytes.now }
{
    if bytes.len() < 4 {
        return 4;
    }
    let size = BigEndian::read_u32(bytes) as usize;
    if 1 <= size && size <= FRAME_BYTES {
        4 + size
    } else {
        4
    }
}

/// What stands at the front of bytes.
#[tactic(auto, unfolding(crate::specs::Streams::front_of))]
pub(crate) fn front_at(alloc: Global, bytes: &[u8]) -> Result<Front, NoMemory>
    ensures { IfOk result (λ found. found ≡ spec.front_of bytes.now) }
{
    let size = needed(bytes);
    if bytes.len() < size {
        return Ok(Front::Part(size - bytes.len()));
    }
    if size == 4 {
        return Ok(Front::Bad);
    }
    match act_in(alloc, &bytes[4..size]) {
        Ok(act) => {
            let Some(request) = Request::of(act) else {
                unreachable!()
            };
            Ok(Front::Whole(request, size))
        }
        Err(BodyFault::Bad) => Ok(Front::Bad),
        Err(BodyFault::Memory) => Err(NoMemory),
    }
}
