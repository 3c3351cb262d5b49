//! The service over a listener: a store is opened, the connections of the listener are served over it by workers, and the service is
//! closed.
//!
//! Its contracts are those of `serve_connection` and `serve_words`. Of a connection: each request is one call of the service, made by
//! its pass in their order, at a reading that the clock shows; the bytes written are the frames of the replies; each end says what the stream had there; and whatever it
//! is, the client that has come is disconnected (`specs/Calling.antt`, and `Serves` of `connections`). `serve_listener` serves the
//! connections of a listener so, each once and by the next pass that is free, and gives all passes back: each has gone on by the
//! connections of its links alone, one behind another (`specs/Listening.antt`), and where nothing was served for want of memory all are
//! as they were.
//!
//! Of a whole service: what it came to over the lasting part that the store stood for (`specs/Ends.antt`). With status `Ok` the
//! listener gave as many links as were wanted, or said that no more come, and it never gave more; a status that tells a fault comes
//! where the device's count rose; and the book that is handed back is legal and caused, what it keeps is on the disk, and its entries
//! are those of the workers' connections, of which each link that the listener gave is one.
#![tactic(auto)]

mod caller;
mod end;
mod listening;
mod service;
mod serving;
mod words;
mod workers;

pub use end::{ServeEnd, ServeStatus};
pub use listening::serve_listener;
pub use service::serve_words;
pub use serving::serve_connection;
pub use words::{ServeForm, serve_form_of};
