//! GCM over any block cipher of 16-byte blocks, with nonces of 12 bytes and tags of 12 to 16 (SP 800-38D).
//!
//! The one contract: for every cutting of additional data and text into pieces, what a [`GcmSeal`] gave with its tag
//! behind it is `gcm_seal` of the joined pieces, and a [`GcmOpen`] gave the text of `gcm_open`, or `TagWrong` where
//! there is none. An opening never gives bytes that may be the tag. No memory is taken.
//!
//! ```rust
//! use aes_core::AesKey;
//! use gcm_mode::GcmSeal;
//!
//! let Some(aes) = AesKey::new(b"0123456789abcdef") else { return false; };
//! let mut seal = GcmSeal::new(aes, [5; 12], 16);
//! seal.aad(b"what is bound to the text");
//! let mut out = [0u8; 36];
//! let (front, tag) = out.split_at_mut(20);
//! seal.update(b"twenty bytes of text", front);
//! seal.finish(tag);
//! ```
#![tactic(auto)]

mod authenticator;
mod bytes;
mod feed;
mod held;
mod open;
mod seal;
mod stream;
mod tag_size;

pub use open::{GcmOpen, TagWrong};
pub use seal::GcmSeal;
