//! The changes of what lasts, and the records that spell them in a store.
//!
//! Its contract: a record is spelled in one way (`specs/Spelling.antt`) and read from left to right
//! (`specs/Reading.antt`), both ways: what is read is spelled so, and what is spelled is read again. Beside them stand
//! the definitions that say what a store means: the lasting part, the need and the effect of each change
//! (`specs/LastingPart.antt`, `Needs.antt`, `Effects.antt`), those of the rows of a snapshot (`specs/States.antt`), and
//! what a store can hold (`specs/Storable.antt`), of which `storable_law` has the laws. Which bytes stand for a lasting
//! part, and which carry one to another (`specs/Carrying.antt`), has those of `carrying_law`. The format is the service's own.
#![tactic(auto)]

mod change;
mod changes;
mod fault;
mod law;
mod reading;
mod record;
mod writing;

pub use change::Change;
pub use changes::Changes;
pub use fault::{AppendFault, ApplyFault, RecordFault, StoreFault};
pub use law::{carrying_law, storable_law};
pub use reading::{parse, read_change, read_record};
pub use record::{AREA_KINDS, HeldNumbers, KeyRecord, Record};
pub use writing::{
    GRANT_ROW, KEY_ROW, NEXT_ROW, frame, frame_grant_into, frame_into, frame_key_into,
    frame_next_into, frame_record_into, framed_length, record_length,
};
