//! Gates of workers.
/// What a worker passes before it works on a ticket. A gate has no meaning and no faults: a test may
/// hold workers at one, and no answer depends on it.
pub trait Gate {
    /// Called by a worker with the ticket that it drew, before it works on it.
    fn enter(&self, ticket: u32);
}

/// A gate that lets everyone pass.
#[derive(Clone, Copy, Debug)]
pub struct OpenGate;

impl Gate for OpenGate {
    /// Does nothing.
    fn enter(&self, _ticket: u32) {}
}
