//! One connection: its requests are answered in turn, and each reply is written.
//!
//! Its one contract: the frames of the bytes that were taken are the requests that were answered, each by one call of
//! whoever answers them and in their order, up to the end; the bytes written are the frames of the replies; and each end
//! says what the stream had there (`specs/Ends.antt`). Who answers is handed in as an `Answerer`.
#![tactic(auto)]

mod answerer;
mod answering;
mod connection;
mod end;
mod writing;

pub use answerer::Answerer;
pub use connection::serve_link;
pub use end::End;
