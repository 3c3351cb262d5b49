//! What an operation puts out, call by call, made of blocks and GHASH: a second way to the outputs, for who checks them.
//!
//! The one contract: what [`Carried`] gives at an update and at a finish is what `update_output` and `finish_output` of
//! `cipher_ops` say of the whole texts, in whatever pieces they come. An update costs what its own piece costs, since what
//! a mode makes of a text from a block on hangs on what that block is chained to alone. Nothing here is made by the state
//! of a cipher that the service holds; what both have are the block cipher, the hash of blocks and the code of a key.
//!
//! ```rust
//! use tags::Plan;
//! use whole_outputs::Carried;
//!
//! let plan = Plan::Gcm { seal: true, tag: 16 };
//! let mut carried = Carried::begin(alloc, plan, false, b"0123456789abcdef", b"twelve bytes")?;
//! carried.aad(b"what is bound to the text");
//! let first = carried.update(alloc, b"twenty bytes of text")?;
//! let last = carried.finish(alloc, b"", &None)?;
//! ```
#![tactic(auto)]

mod bytewise;
mod carried;
mod chained;
mod gcm;
mod joined;
mod key_stream;
mod mac;
mod mode;
mod padding;
mod part;
mod text_hash;

pub use carried::Carried;
