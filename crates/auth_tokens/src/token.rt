//! An authentication token.

/// What an authenticator says of one time that it saw a user (Android's `HardwareAuthToken`).
#[derive(Clone, Copy, Debug, PartialEq, Eq)]
pub struct AuthToken {
    /// the challenge of the operation that it is for, or any number
    pub challenge: u64,
    /// the secure id of the user
    pub user: u64,
    /// the secure id of the authenticator
    pub authenticator: u64,
    /// how the user was seen, one bit for each kind of authenticator: 1 a password, 2 a fingerprint
    pub kind: u32,
    /// when, in milliseconds since the device started
    pub time: u64,
    /// HMAC-SHA256 of the other fields
    pub mac: [u8; 32],
}
