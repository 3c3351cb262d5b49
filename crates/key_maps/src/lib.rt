//! Keys that last, found by their numbers, by owner and alias, and in the order of an owner's aliases.
//!
//! Its contract: `Keys` is seen as the list of its keys in the order of their numbers, with the room for more
//! (`specs/Table.antt`); each look-up is a search of that list, and each change puts a key behind it, takes keys out or takes
//! a use. No two keys have one number, or one owner and alias (`AreRows` of `specs/Rows.antt`), and nothing walks the keys:
//! three ordered maps have them (`specs/Maps.antt`). Only `reserve` takes memory, before a key is added.
//!
//! ```rust
//! use key_maps::Keys;
//!
//! let mut keys = Keys::new(alloc);
//! keys.reserve()?;
//! keys.push(key);
//! let found = keys.named(domain, nspace, alias);
//! ```
#![tactic(auto)]

mod counts;
mod keys;
mod maps;
mod names;

pub use keys::Keys;
