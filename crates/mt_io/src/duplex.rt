//! A link: bytes come from it and go to it.
ghost use Rattle.std.specs.Prelude.{◌≡◌, ◌≤◌};

use crate::sink::Sink;
use crate::source::Source;

/// A source and a sink in one. Neither side knows of what is done at the other.
pub trait Duplex: Source + Sink {
    /// What `shut` changes, from before it to after it.
    ghost shuts_to: { Self → Self → Type 0 };

    /// Ends the writes: all that was written still arrives, and then the peer is told that no more comes. What the peer sends can be read as
    /// before. It waits for nobody. Where it fails no fault is counted, since nothing is left to be written.
    fn shut(&mut self)
        ensures { shuts_to self.old self.new };

    /// Reads leave what is held.
    ghost reading_keeps_held: { (a b : Self) → Self.reads_to a b → Self.held b ≡ Self.held a };

    /// Reads lower no count of the writes' faults.
    ghost reading_keeps_count: { (a b : Self) → Self.reads_to a b → Self.Sink.faults a ≤ Self.Sink.faults b };

    /// Writes leave what is left to read.
    ghost writing_keeps_left: { (a b : Self) → Self.writes_to a b → Self.left b ≡ Self.left a };

    /// Writes lower no count of the reads' faults.
    ghost writing_keeps_count: { (a b : Self) → Self.writes_to a b → Self.Source.faults a ≤ Self.Source.faults b };

    /// To shut it leaves what is left to read and what is held.
    ghost shutting_keeps_bytes: { (a b : Self) → Self.shuts_to a b → (Self.left b ≡ Self.left a) × (Self.held b ≡ Self.held a) };

    /// To shut it leaves both counts.
    ghost shutting_keeps_counts: { (a b : Self) → Self.shuts_to a b
        → (Self.Source.faults b ≡ Self.Source.faults a) × (Self.Sink.faults b ≡ Self.Sink.faults a) };
}
