//! The rows of a lasting part, told in the order of their numbers.
//!
//! Its contract: a table of keys and grants that tells its rows is seen as a lasting part, and each call is a look-up in that part
//! (`specs/Rows.antt`). So a snapshot of what a table holds is written from where its bytes lie, by one that knows no table.
//!
//! ```rust
//! use held_rows::Held;
//!
//! // each key once, by rising numbers
//! let mut past = 0;
//! while let Some(key) = keys.key_after(past) {
//!     write(key, keys.alias(key.id), keys.blob(key.id), keys.list(key.id));
//!     past = key.id;
//! }
//! ```
#![tactic(auto)]

mod held;
mod row;

pub use held::Held;
pub use row::HeldRow;
