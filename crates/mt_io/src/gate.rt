//! A place between two turns.

/// A place that a seat comes to between the turn in which it takes a snapshot, if it takes one, and the turn in which it enters something,
/// if it does: in each change before the turn that decides it, in each probe and advice after its snapshot. The turn isn't held there.
///
/// A test's gate can hold a caller there. No answer depends on a gate.
pub trait Gate {
    /// Called with the number of the caller's seat.
    fn between(&self, who: u32);
}

/// The gate that holds nobody.
#[derive(Clone, Copy)]
pub struct OpenGate;

impl Gate for OpenGate {
    fn between(&self, _who: u32) {}
}
