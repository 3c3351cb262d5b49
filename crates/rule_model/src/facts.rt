//! What a rule reads of the caller, and what an event draws.

use crate::Reading;
use step_rules::StepKind;

/// Who makes an event, and when.
#[derive(Clone, Copy, Debug, PartialEq, Eq)]
pub struct Caller {
    pub reading: Reading,
    /// the client's number
    pub client: u64,
    /// the uid of the client, where it is connected
    pub uid: Option<u32>,
}

/// What a step brings, as the rules read it.
#[derive(Clone, Copy, Debug, PartialEq, Eq)]
pub struct Brought {
    pub kind: StepKind,
    /// the length of the input in bytes
    pub input: u64,
    /// the length of the signature in bytes
    pub signature: u64,
}

/// What the rules of a begin read of the device, of the last tokens, of the begins on the key and of the slots.
#[derive(Clone, Copy, Debug, PartialEq, Eq)]
pub struct Conditions {
    /// early boot has ended
    pub early_ended: bool,
    /// the caller's user is unlocked
    pub unlocked: bool,
    /// one of the last tokens opens the key
    pub timely: bool,
    /// how many begins on the key were admitted since the last restart
    pub begins: u64,
    /// a slot is free, or an operation gives way
    pub room: bool,
}

/// How many bytes an event draws: two pieces, each by one draw. A piece of no bytes is not drawn.
#[derive(Clone, Copy, Debug, PartialEq, Eq)]
pub struct Pieces {
    pub first: usize,
    pub second: usize,
}

/// Nothing is drawn.
pub const NO_PIECES: Pieces = Pieces {
    first: 0,
    second: 0,
};
