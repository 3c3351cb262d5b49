//! Requests from a stream that comes in pieces.

ghost use Rattle.std.specs.Prelude.{◌<◌, length};
ghost use Rattle.wire_frames.specs.Streams.{needed};
ghost use Rattle.wire_frames.specs.PartialFrames.{bytes_in};

mod feeding;

use crate::held::PartialFrame;

/// Gives the requests of a stream of frames, whose bytes come in pieces of any size. It holds back what has come of one
/// frame, at most 262,148 bytes, and nothing else. Once the frame's length and its act have come, the room for all of it is
/// taken, so that no byte of an input moves again until its request has it.
#[derive(Drop)]
pub struct Frames {
    /// the place in the stream of what is held, or of the bad frame
    start: u64,
    held: PartialFrame,
    /// it has come to a bad frame
    shut: bool,
    ghost part: { length (bytes_in held) < needed (bytes_in held) },
}
