//! What stands behind a turn.
ghost use Rattle.std.specs.Prelude.{◌≡◌, ℕ, List, length};

/// A value with a history that only grows, and with plain data that never changes.
///
/// A turn knows nothing else of the value: not what an entry is, nor what the plain data says.
pub trait Recorded {
    /// An entry of the history.
    type Entry;

    /// The plain data that never changes.
    type Fixed;

    /// The entries so far, in order.
    ghost history: { Self → List Self.Entry };

    /// The number of the seat that an entry belongs to.
    ghost number: { Self.Entry → ℕ };

    /// The plain data.
    ghost fixed: { Self → Self.Fixed };

    /// The number of entries so far.
    fn count(&self) -> u64
        ensures { result ≡ length (history self.now) };
}
