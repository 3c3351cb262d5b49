//! GHASH, the universal hash under GCM (SP 800-38D sections 6.3 and 6.4).
//!
//! Its one contract: `Ghash` holds `ghash` of the blocks that it absorbed, in their order, under the hash subkey that
//! it was made for. It takes no memory.
//!
//! ```rust
//! use ghash::Ghash;
//!
//! let mut hash = Ghash::new(subkey);
//! hash.absorb([1; 16]);
//! hash.absorb_all(&blocks);
//! let sum = hash.value();
//! ```
#![tactic(auto)]

mod chains;
mod field;
mod hashing;
mod laws;
mod state;
mod table;
mod wide;

pub use field::{element, product};
pub use laws::field_laws;
pub use state::Ghash;
