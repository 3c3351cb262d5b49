//! AES, the block cipher of FIPS 197, on one block at a time.
//!
//! The one contract: [`AesKey::encrypt`] is the standard's cipher of the key and the block, and
//! [`AesKey::decrypt`] is its inverse. The definitions (`specs/`) follow the standard's sections in
//! order; they invert in the field of 256 elements and hold no table.
//!
//! ```rust
//! use aes_core::{AesKey, BlockCipher};
//!
//! let Some(aes) = AesKey::new(b"0123456789abcdef") else { return false; };
//! let block = aes.encrypt([7; 16]);
//! aes.decrypt(block) == [7; 16]
//! ```
#![tactic(auto)]

mod aes_key;
mod block_cipher;
mod boxes;
mod rounds;
mod schedule;
mod state;
mod tower;

pub use aes_key::AesKey;
pub use block_cipher::{BlockCipher, ManyBlocks};
pub use tower::{sub_bytes, sub_in_tower, sub_out_of_tower, to_tower};
