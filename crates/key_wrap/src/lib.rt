//! KW, the key wrap of SP 800-38F section 6.2 and RFC 3394, over any block cipher of 16-byte blocks, for texts of 16 to 64 bytes.
//!
//! The one contract: [`wrap`] makes `kw_wrap` of its text, and [`unwrap`] gives the text whose `kw_wrap` was handed in, or nothing
//! exactly where there is none (`specs/Wrapping.antt`). No memory is taken.
//!
//! What the mode does not promise:
//!
//! - A wrong key, or a changed byte, is told by the eight bytes of the initial value and by nothing else. For each key there are as
//!   many strings that open as there are texts, one in 2^64 of all.
//! - There is no nonce. A text that is wrapped twice under one key gives the same bytes, so who sees both knows that the keys are the
//!   same; and bytes that were wrapped once open for as long as the wrapping key lasts.
//! - Nothing else is bound to the text: no name, owner or purpose of a key, and not its length but for that of the wrapped bytes.
//!
//! How long a call takes depends on the length of the text, on the cipher, and on whether the wrapped bytes open, and not on where
//! they differ; no clause says so. Copies of the value and of a block that the calls leave on the stack are not cleared.
//!
//! ```rust
//! use aes_core::AesKey;
//! use key_wrap::{unwrap, wrap};
//!
//! let Some(aes) = AesKey::new(b"0123456789abcdef") else { return false; };
//! let mut wrapped = [0u8; 40];
//! wrap(&aes, &key, &mut wrapped);
//! let mut text = [0u8; 32];
//! let size = unwrap(&aes, &wrapped, &mut text);
//! ```
#![tactic(auto)]

mod lengths;
mod steps;
mod wrapping;

pub use lengths::{is_text_length, is_wrapped_length};
pub use wrapping::{unwrap, wrap};
