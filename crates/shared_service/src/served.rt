//! What calls answer.

use rule_model::Reply;

/// The answer to a call, with the numbers of its first and last entry in the book, counted from 1; both are 0 where it added none.
#[derive(Debug, Drop)]
pub struct Served {
    pub first: u64,
    pub last: u64,
    pub reply: Reply,
}
