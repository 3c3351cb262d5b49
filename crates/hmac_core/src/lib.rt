//! The keyed-hash message authentication code HMAC (FIPS 198-1) over the SHA-2 hash functions
//! (FIPS 180-4).
//!
//! Its one contract: for every cutting of the input into pieces, what `finish` writes is the HMAC of
//! the joined input under the key. No call takes memory.
//!
//! ```rust
//! use hmac_core::Hmac;
//!
//! let mut mac = Hmac::new(4, b"key");
//! mac.update(b"The quick brown fox ");
//! mac.update(b"jumps over the lazy dog");
//! let mut out = [0u8; 64];
//! let size = mac.finish(&mut out);
//! ```
#![tactic(auto)]

mod hash;
mod keyed;
mod mac;

pub use mac::{Hmac, digest_size};
