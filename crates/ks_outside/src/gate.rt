//! What happens between the two turns of a call.

/// A gate is called once for each work that left the service, after its enter and before its leave, while no lock is held.
pub trait Gate {
    /// Called with the ticket of the work.
    fn between(&self, ticket: u64);
}

/// A gate that does nothing.
#[derive(Clone, Copy, Debug)]
pub struct OpenGate;

impl Gate for OpenGate {
    fn between(&self, _ticket: u64) {}
}
