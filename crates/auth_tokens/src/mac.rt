//! The mac of a token.

ghost use Rattle.std.specs.Prelude.{◌≡◌, ◌↔◌, IsTrue};
ghost use Rattle.auth_tokens.specs.Mac as spec;

use crate::AuthToken;
use byte_strings::same_bytes;
use hmac_core::Hmac;

/// The length of the text under a token's mac, in bytes.
pub const MAC_INPUT_BYTES: usize = 37;

/// The digest number of SHA-256 (FIPS 180-4).
const SHA_256: u8 = 4;

/// The text under a token's mac: the version 00; challenge, user and authenticator as eight bytes each, the lowest first;
/// kind as four bytes and time as eight, the highest first (Android's `HardwareAuthToken`).
pub fn mac_input(token: &AuthToken) -> [u8; 37]
    ensures text { result ≡ spec.mac_text token.now }
    ensures fields { spec.HasFields result token.now }
{
    let AuthToken {
        challenge,
        user,
        authenticator,
        kind,
        time,
        mac: _,
    } = *token;
    let mut text = [0u8; MAC_INPUT_BYTES];
    text[1..9].copy_from_slice(&challenge.to_le_bytes());
    text[9..17].copy_from_slice(&user.to_le_bytes());
    text[17..25].copy_from_slice(&authenticator.to_le_bytes());
    text[25..29].copy_from_slice(&kind.to_be_bytes());
    text[29..37].copy_from_slice(&time.to_be_bytes());
    text
}

/// Whether the token's mac is right under the key that the authenticators share with the service: all 32 bytes of it are
/// compared, by `byte_strings::same_bytes`.
pub fn check(token: &AuthToken, key: &[u8; 32]) -> bool
    ensures { IsTrue result ↔ (token.now.mac ≡ spec.token_mac key.now token.now) }
{
    let mut mac = Hmac::new(SHA_256, key);
    mac.update(&mac_input(token));
    let mut right = [0u8; 64];
    let size = mac.finish(&mut right);
    same_bytes(&token.mac, &right[..size])
}
