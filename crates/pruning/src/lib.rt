//! Which idle operation gives way where all slots are taken.
//!
//! Its one contract: `victim` is the definition of `specs/Victim.antt`, over plain facts of the operations that are held. An
//! idle operation has a malus: how many operations of its uid are held, busy ones and itself among them, and the count of
//! binary digits of its age. The one of greatest malus gives way, of several the one touched longest ago; it is pruned where
//! its malus is greater than the caller's operations with the one that is to begin, or where the caller forces. The rule is
//! the service's own, after the way Android's Keystore2 prunes.
#![tactic(auto)]

mod choice;
mod digits;
mod prune;

pub use prune::victim;
