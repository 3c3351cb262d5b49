//! The book of a service for threads: the history of all its steps, and what each entry says of who made it.
//!
//! Its one contract: `Tally` knows of a book, entry by entry, what the limits of a run ask (`specs/Limits.antt`), and answers
//! exactly whether a further call passes one of them. Beside it stand the definitions that the promises of the service speak of
//! (`specs/Book.antt`): what a pass made, what a client is, and when a book is caused.
#![tactic(auto)]

mod book;
mod entry;
mod tally;

pub use book::Book;
pub use entry::BookEntry;
pub use tally::{CALL_BYTES, MOST_BYTES, MOST_ENTRIES, Tally};
