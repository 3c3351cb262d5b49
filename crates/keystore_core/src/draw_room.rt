//! Room for what an event draws.

ghost use Rattle.std.specs.Prelude.{◌≤◌, length};

/// Room for what is drawn: for two pieces, each by one draw.
#[derive(Drop)]
pub struct DrawRoom {
    pub(crate) first: usize,
    pub(crate) bytes: Vec<u8>,
    ghost within: { first ≤ length bytes.items },
}
