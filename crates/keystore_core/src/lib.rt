//! The engine: it takes the events of the service one after another, and answers each by the rules.
//!
//! Its one contract is that of `Engine::step`: an engine that stands for a history stands, after a step, for the
//! history with the step's entry, and that entry may follow the history by the definitions of `rule_model`. What lasts
//! is on the disk before a reply that admits it: with its store the engine holds what is known by the history, and
//! at each moment of a step each image of the disk stands for what may last before the step or after it.
#![tactic(auto)]

mod answered;
mod beginning;
mod calls;
mod connecting;
mod creating;
mod draw_room;
mod draws;
mod engine;
mod leaving;
mod output;
mod restarting;
mod room;
mod settling;
mod stepping;
mod tables;
mod token_calls;
mod upgrading;
mod victims;
mod writing;

pub use engine::Engine;
pub use journal_records::StoreFault as OpenFault;
