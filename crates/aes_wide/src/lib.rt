//! AES on eight blocks at a time.
//!
//! The one contract: [`WideAes`] is the block cipher of `aes_core`, and `encrypt_all` makes of each
//! block what the cipher of FIPS 197 makes of it. Eight blocks stand in planes: bit b of lane j of
//! plane i is bit i of byte j of block b. No step looks up a table at a place that depends on a block.
//!
//! ```rust
//! use aes_core::ManyBlocks;
//! use aes_wide::WideAes;
//!
//! let Some(aes) = WideAes::new(&key) else { return false; };
//! let mut blocks = [[7u8; 16]; 64];
//! aes.encrypt_all(&mut blocks);
//! ```
#![tactic(auto)]

mod circuit;
mod planes;
mod single;
mod transpose;
mod wide_aes;

pub use wide_aes::WideAes;
