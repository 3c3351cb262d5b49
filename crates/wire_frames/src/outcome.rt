//! What was read of a text.

use crate::held::PartialFrame;
use rule_model::Request;
use std::alloc::Global;

/// What was read of a text: its requests, how many bytes their frames had, and behind them the part of a frame, or a bad
/// frame that shuts the stream.
#[derive(Drop)]
pub struct FrameOutcome {
    pub requests: Vec<Request>,
    pub used: usize,
    pub tail: PartialFrame,
    pub shut: bool,
}

impl FrameOutcome {
    ghost use Rattle.std.specs.Prelude.{◌≡◌, true, []};
    ghost use Rattle.wire_frames.specs.PartialFrames.{bytes_in};

    /// A bad frame, before all others.
    pub(crate) fn bad(alloc: Global) -> FrameOutcome
        ensures requests { result.requests.items ≡ [] }
        ensures used { result.used ≡ 0 }
        ensures tail { bytes_in result.tail ≡ [] }
        ensures shut { result.shut ≡ true }
    {
        FrameOutcome {
            requests: Vec::new(alloc),
            used: 0,
            tail: PartialFrame::new(alloc),
            shut: true,
        }
    }
}
