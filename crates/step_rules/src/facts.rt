//! What the rules of a step read.

use tags::Plan;

/// What a step does.
#[derive(Clone, Copy, Debug, PartialEq, Eq)]
pub enum StepKind {
    /// updateAad: it adds additional data
    Aad,
    /// update: it adds text
    Text,
    /// finish: it adds the last text and asks for the rest of the output
    Last,
    /// abort: it gives the operation up
    Abort,
}

/// What the rules of a step read. A field that only rules after a broken one read may hold any value.
#[derive(Clone, Copy, Debug, PartialEq, Eq)]
pub struct StepFacts {
    pub kind: StepKind,
    /// the operation is open and the client's own
    pub own: bool,
    /// the work of an earlier step on it has not come back
    pub busy: bool,
    /// the input's length in bytes, 0 where there is none
    pub input: u64,
    /// the signature's length in bytes, 0 where there is none
    pub signature: u64,
    /// the operation's key has ended
    pub ended: bool,
    /// the operation was to be shown a token, and none was shown
    pub waiting: bool,
    pub plan: Plan,
    /// the length in bytes of the additional data that was admitted so far
    pub aad: u64,
    /// the length in bytes of the text that was admitted so far
    pub text: u64,
}
