//! The frames that are whole in a text.

ghost use Rattle.std.specs.Prelude.{◌≡◌, IfOk};
ghost use Rattle.wire_frames.specs.Outcomes.{IsRead};
ghost use Rattle.wire_frames.specs.Streams.{IsPart};
ghost use Rattle.wire_frames.specs.PartialFrames.{bytes_in};

use crate::front::{Front, front_at};
use crate::held::PartialFrame;
use crate::outcome::FrameOutcome;
use std::alloc::Global;
use tags::NoMemory;

/// The part of a frame, in room for what it lacks.
fn held_of(alloc: Global, part: &[u8]) -> Result<PartialFrame, NoMemory>
    requires { IsPart part.now }
    ensures { IfOk result (λ held. bytes_in held ≡ part.now) }
{
    let mut held = PartialFrame::new(alloc);
    let _all = held.complete(part)?;
    Ok(held)
}

/// Reads a text.
pub(crate) fn read_on(alloc: Global, bytes: &[u8]) -> Result<FrameOutcome, NoMemory>
    ensures { IfOk result (IsRead bytes.now) }
{
    let mut requests = Vec::new(alloc);
    let mut used = 0;
    while used < bytes.len() {
        let rest = &bytes[used..];
        match front_at(alloc, rest)? {
            Front::Whole(request, size) => {
                requests.push(request)?;
                used += size;
            }
            Front::Part(_) => {
                let tail = held_of(alloc, rest)?;
                return Ok(FrameOutcome {
                    requests,
                    used,
                    tail,
                    shut: false,
                });
            }
            Front::Bad => {
                return Ok(FrameOutcome {
                    requests,
                    used,
                    tail: PartialFrame::new(alloc),
                    shut: true,
                });
            }
        }
    }
    Ok(FrameOutcome {
        requests,
        used,
        tail: PartialFrame::new(alloc),
        shut: false,
    })
}
