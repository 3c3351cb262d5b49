//! The trace of a service's book.
//!
//! Its one contract is that of `write_book`: after `Ok` the trace of the book's history is written, and after a fault a front of it.
#![tactic(auto)]

mod book;

pub use book::{BookFault, write_book};
