//! Lines of a script: the event that a line spells, the line that an event spells, and the line that a reply spells.
//!
//! Its one contract: `event_of`, `event_line` and `line_of` are the functions of `specs/`, over the JSON values (RFC 8259) that
//! `serde_json` promises. A line is malformed exactly where its definition gives no event, and the line of each event that a line
//! spells, without hold, spells that event again. The objects of events and replies are also those of `trace_lines`.
#![tactic(auto)]

mod act_line;
mod act_name;
mod event;
mod key_acts;
mod params;
mod reply;
mod service_acts;
mod step_acts;
mod written_event;

pub use event::{event_in, event_of};
pub use reply::{line_of, malformed_line, reply_object, settled_object};
pub use written_event::{event_line, event_object};
