//! How long the frame of a request is.

ghost use Rattle.std.specs.Prelude.{◌≡◌, ◌<◌, ◌^◌, length};
ghost use Rattle.wire_frames.specs.Spelling.{body_of};
ghost use Rattle.wire_frames.specs.Sizes as spec;

use crate::writing::sizes::body_size;
use rule_model::Request;

/// The length in bytes of the whole frame of a request, and 0 for a disconnect, which has none. Its body has fewer than 2^32
/// bytes. It takes no memory.
#[tactic(auto, unfolding(crate::specs::Spelling::frame_of))]
pub fn frame_length(request: &Request) -> u64
    requires short { length (body_of request.now) < 2 ^ 32 }
    ensures length { result ≡ spec.frame_length request.now }
    ensures small { result < 2 ^ 33 }
{
    let size = body_size(request.act());
    if size == 0 { 0 } else { 4 + size as u64 }
}
