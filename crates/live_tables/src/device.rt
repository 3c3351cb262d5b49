//! What is kept of the state of the device.

ghost use Rattle.std.specs.Prelude.{◌≡◌, length};

/// The state of the device since it started: a user that was not unlocked is locked.
#[derive(Drop)]
pub struct DeviceState {
    /// whether each user is unlocked
    pub(crate) unlocked: Vec<bool>,
    pub(crate) early_ended: bool,
    ghost users: { length unlocked.items ≡ 42950 },
}
