//! The bytes that are held back until their frame is whole.

ghost use Rattle.wire_frames.specs.Apart.{IsApart};

pub(crate) mod filling;
pub(crate) mod giving;

/// The part of a frame. Where the act has an input, what comes behind the input's length lies apart, in
/// room for all of it: so the request takes the input as it lies.
#[derive(Drop)]
pub struct PartialFrame {
    head: Vec<u8>,
    input: Vec<u8>,
    ghost apart: { IsApart head.items input.items },
}
