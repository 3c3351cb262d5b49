//! The modes ECB, CBC and CTR of SP 800-38A over a block cipher, with the padding of RFC 5652, for a text that comes in pieces.
//!
//! The one contract: for every cutting of the text, what [`Blocks`] gave after each piece is the front of what the mode
//! makes of the whole text so far, and `finish` gives the rest. The definitions (`specs/`) are of whole texts.
//!
//! ```rust
//! use aes_core::AesKey;
//! use block_modes::Blocks;
//! use tags::Plan;
//!
//! let Some(aes) = AesKey::new(b"0123456789abcdef") else { return false; };
//! let mut blocks = Blocks::new(aes, Plan::Cbc { seal: true, padded: true }, [9; 16]);
//! let mut out = [0u8; 48];
//! let size = blocks.update(b"twenty bytes of text", &mut out);
//! let mut last = [0u8; 16];
//! let rest = blocks.finish(&mut last);
//! ```
#![tactic(auto)]

mod engine;
mod fault;
mod lanes;
mod padding;
mod partial;
mod step;

pub use engine::Blocks;
pub use fault::ModeFault;
