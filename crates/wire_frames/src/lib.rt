//! Requests and replies as frames of bytes, for a stream that comes in any pieces.
//!
//! Its one contract: a stream has its requests in one way (`one_reading`), each frame being the spelling of an act
//! (`specs/Spelling.antt`), up to a frame that is bad or not whole (`specs/Streams.antt`); and `Frames::feed` gives them
//! however the stream is cut, each once, with a bad frame told by its first byte when all before it were given
//! (`specs/Standing.antt`). `request_frame` and `reply_frame` write the spelling,
//! `FrameWindow` shows that of a reply piece by piece without memory, and `frame_length` and `reply_length` tell its length. The format is the service's own; numbers
//! are big-endian.
//!
//! ```rust
//! use wire_frames::{FrameFault, Frames};
//!
//! let mut frames = Frames::new(alloc);
//! match frames.feed(alloc, piece) {
//!     Ok(requests) => answered(requests),
//!     Err(FrameFault::Bad { offset }) => refused_at(offset),
//!     Err(FrameFault::Memory) => no_memory(),
//! }
//! ```
#![tactic(auto)]

mod fault;
mod frames;
mod front;
mod held;
mod laws;
mod outcome;
mod reading;
mod request_length;
mod texts;
mod window;
mod writing;

pub use fault::FrameFault;
pub use frames::Frames;
pub use laws::{one_reading, same_requests, spelled_again, whole_frames};
pub use request_length::frame_length;
pub use window::{FrameWindow, WINDOW_BYTES};
pub use writing::{reply_frame, reply_length, request_frame};
