//! The tokens by which an authenticator tells that it has seen a user, and the mac that makes one true.
//!
//! Its one contract: `check` holds exactly where the token's mac is the HMAC-SHA256 (FIPS 198-1) of the token's fields
//! under the key that the authenticators share with the service. The fields are those of Android's `HardwareAuthToken`.
//! No call takes memory.
#![tactic(auto)]

mod mac;
mod token;

pub use mac::{MAC_INPUT_BYTES, check, mac_input};
pub use token::AuthToken;
