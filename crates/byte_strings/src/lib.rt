//! Bytes: how fields are read from them and written to them, the number that decimal digits give, and whether two strings
//! are the same, asked of secrets.
//!
//! Its contract: a reader takes its field from the front or says `Short`, and a writer puts the field's one spelling
//! behind what stands there; `specs/Codecs.antt` says when both are a codec, what is read being spelled so and what is
//! spelled being read again, and `proofs/Fields.antt` and `Rows.antt` have these laws of each field, of fields in a row
//! and of a table of rows by a number. Numbers are big-endian. `number_in` reads a number in digits. `same_bytes` tells
//! whether two strings are equal; that it looks at every byte of two strings of one length, whatever the bytes, is how
//! it is written, and no clause says it.
#![tactic(auto)]

mod compare;
mod digits;
mod read;
mod write;

pub use compare::same_bytes;
pub use digits::{number_in, threads_in};
pub use read::{
    Short, bytes_at, counted_u8_at, counted_u16_at, counted_u32_at, flag_at, optional_u16_at,
    optional_u32_at, u8_at, u16_at, u32_at, u64_at,
};
pub use write::{
    place_bytes, place_counted_u32, place_u32, place_u64, put_bytes, put_counted_u8,
    put_counted_u16, put_counted_u32, put_flag, put_optional_u16, put_optional_u32, put_u8,
    put_u16, put_u32, put_u64,
};
