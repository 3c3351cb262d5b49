//! A lock over a value with a history, where each thread knows a front of that history.
//!
//! Its one contract: the history of the value behind the lock is one list of entries, to which the holder of a turn
//! adds at the end. A `LockPass` has a number and has seen a front of that history, with all that the pass itself made.
//! `TurnLock::enter` waits for a turn and gives the value, whose entries begin with the pass's front; `leave` takes it
//! back with the entries that were added under the turn, and gives the pass with the longer front. `catch_up` gives a
//! pass the whole history without a turn, and a level of it that was told. `end` takes the value out for good, once, and
//! then the front of each pass that was taken in begins the whole history and has all that this pass made. What contracts
//! say of passes stands in `specs/Passes.antt` and `specs/Fronts.antt`, and the one rule of the lock's words in
//! `specs/Rule.antt`. What entries mean is no matter of the lock: the type of the value keeps it.
//!
//! A turn goes to whoever looks first once none is out, so that nobody waits for a thread that does not run. A thread that
//! waits gives its processor away, and sleeps after some looks. No clause says that a turn comes.
#![tactic(auto)]

mod history;
mod lock;
mod plays;
mod rule;
mod view;

pub use history::History;
pub use lock::{
    Closing, LastTurn, LockPass, Locked, Maker, Note, RestingMaker, RestingNote, RestingPass, Turn,
    TurnLock,
};
pub use rule::{EndRule, Place, Turns};
pub use view::{Hand, Stage, View};
