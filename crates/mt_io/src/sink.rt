//! Where bytes go.
ghost use Rattle.std.specs.Prelude.{◌≡◌, ◌<◌, ◌≤◌, ℕ, List, length, IfOk};
ghost use Rattle.std.specs.declared.option.Option.{Option};
ghost use Rattle.std.specs.Io.KnownBytes.{WriteAppends};
ghost use Rattle.mt_io.specs.Causes.{HasCause};

use crate::source::Failed;

/// A sink of bytes, which counts its faults.
pub trait Sink {
    /// The bytes that it holds, where it tells them.
    ghost held: { Self → Option (List ℕ) };

    /// How often it has failed. The count never falls, and stays at `u64::MAX`.
    ghost faults: { Self → ℕ };

    /// What writes may change of the sink, from before them to after them.
    ghost writes_to: { Self → Self → Type 0 };

    /// The count of faults.
    fn write_faults(&self) -> u64
        ensures { result ≡ faults self.now };

    /// Takes some bytes of the piece, which isn't empty, from its front, one at least, and says how many.
    /// A call that fails takes none. `Failed` comes only where the count rose in this call.
    fn write_some(&mut self, piece: &[u8]) -> Result<usize, Failed>
        requires { 0 < length piece.now }
        ensures bound { IfOk result (λ count. (0 < count) × (count ≤ length piece.now)) }
        ensures bytes { WriteAppends (held self.old) (held self.new) result piece.now }
        ensures cause { HasCause (faults self.old) (faults self.new) result }
        ensures kept { writes_to self.old self.new };

    /// To write nothing changes what writes may change.
    ghost writes_to_itself: { (s : Self) → writes_to s s };

    /// Writes after writes are writes.
    ghost writes_on: { (a b c : Self) → writes_to a b → writes_to b c → writes_to a c };
}
