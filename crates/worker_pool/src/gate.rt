//! What a worker passes before each turn.

/// A place that each turn passes. A test may hold a turn up there, or count the turns.
pub trait Gate {
    /// Called with the task's identifier, after the look at the task's calls and before its turn.
    fn pass(&self, id: u128);
}

/// The program's gate, which does nothing.
#[derive(Debug, Clone, Copy, Default)]
pub struct OpenGate;

impl Gate for OpenGate {
    fn pass(&self, _id: u128) {}
}
