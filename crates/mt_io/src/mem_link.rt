//! A link in memory.
ghost use Rattle.std.specs.Prelude.{◌≡◌, ◌<◌, ◌≤◌, ◌↔◌, ◌⊎◌, ◌-◌, min, [], length, IfOk, IfErr, IfSome, IsErr, Some};
ghost use Rattle.std.specs.Io.{ReadsAtMost};
ghost use Rattle.std.specs.Io.KnownBytes.{ReadConsumes, WriteAppends};
ghost use Rattle.mt_io.specs.Calls.{CountsCall, IsNextListed, listing};
ghost use Rattle.mt_io.specs.Causes.{HasCause};

use crate::duplex::Duplex;
use crate::mem_sink::MemSink;
use crate::mem_source::MemSource;
use crate::sink::Sink;
use crate::source::{Failed, Source};
use mt_memory::Memory;
use std::alloc::Global;
use std::sync::Arc;
use std::sync::atomic::{AtomicU64, Ordering};

/// Bytes in memory to read, and room in memory for the bytes that are written: a source and a sink, each with calls of its own. It counts
/// the lines that were written, where others can see that; and it tells how often it was shut, and how many bytes it held then.
#[derive(Drop)]
pub struct MemLink {
    source: MemSource,
    sink: MemSink,
    replies: Arc<AtomicU64, Global>,
    shuts: u64,
    held_at_shut: usize,
}

impl MemLink {
    ghost use Rattle.mt_io.specs.MemLink.{most_read, most_written, reads_of, room_of, writes_of};

    /// A link that has these bytes left, holds nothing, has room for so many bytes and has counted no fault. A call fails only where it is
    /// a write and the link is full. It takes all its memory here.
    pub fn make(alloc: Global, bytes: Vec<u8>, room: u32) -> Result<MemLink, Memory>
        ensures left { IfOk result (λ link. ⟦<MemLink as Source>⟧.left link ≡ Some bytes.items) }
        ensures held { IfOk result (λ link. ⟦<MemLink as Sink>⟧.held link ≡ Some []) }
        ensures room { IfOk result (λ link. room_of link ≡ room) }
        ensures sound { IfOk result (λ link. (⟦<MemLink as Source>⟧.faults link ≡ 0) × (⟦<MemLink as Sink>⟧.faults link ≡ 0)) }
        ensures calls { IfOk result (λ link. (reads_of link ≡ listing []) × (writes_of link ≡ listing [])) }
        ensures most { IfOk result (λ link. (most_read link ≡ usize.MAX) × (most_written link ≡ usize.MAX)) }
        ensures open { IfOk result (λ link. link.shuts ≡ 0) }
    {
        Ok(MemLink {
            source: MemSource::of(bytes),
            sink: MemSink::make(alloc, room)?,
            replies: Arc::new(alloc, AtomicU64::new(0))?,
            shuts: 0,
            held_at_shut: 0,
        })
    }

    /// The same link, not used yet, but that these reads and these writes fail, each counted from 1, and that no call moves more than
    /// `most` bytes. It takes no memory.
    pub fn failing(self, reads: Vec<u64>, writes: Vec<u64>, most: u32) -> MemLink
        requires most { 0 < most }
        requires unused { ((reads_of self).made ≡ 0) × ((writes_of self).made ≡ 0) }
        ensures left { ⟦<MemLink as Source>⟧.left result ≡ ⟦<MemLink as Source>⟧.left self }
        ensures held { ⟦<MemLink as Sink>⟧.held result ≡ ⟦<MemLink as Sink>⟧.held self }
        ensures room { room_of result ≡ room_of self }
        ensures calls { (reads_of result ≡ listing reads.items) × (writes_of result ≡ listing writes.items) }
        ensures most { (most_read result ≡ most) × (most_written result ≡ most) }
        ensures shuts { result.shuts ≡ self.shuts }
    {
        MemLink {
            source: self.source.failing(reads, most),
            sink: self.sink.failing(writes, most),
            replies: self.replies,
            shuts: self.shuts,
            held_at_shut: self.held_at_shut,
        }
    }

    /// The bytes that were taken.
    pub fn held(&self) -> &[u8]
        ensures { Some result.now ≡ ⟦<MemLink as Sink>⟧.held self.now }
    {
        self.sink.held()
    }

    /// How often it was shut. The count stays at `u64::MAX`.
    pub fn shuts(&self) -> u64
        ensures { result ≡ self.now.shuts }
    {
        self.shuts
    }

    /// How many bytes it held when it was last shut; 0 where it never was.
    pub fn held_at_shut(&self) -> usize
        ensures { result ≡ self.now.held_at_shut }
    {
        self.held_at_shut
    }

    /// The number of lines written, 0x0A by 0x0A, as a number that goes on rising while the link is used elsewhere.
    pub fn replies(&self) -> Result<Arc<AtomicU64, Global>, Memory> {
        Ok(Arc::try_clone(&self.replies)?)
    }
}

// How many 0x0A there are.
fn line_ends(bytes: &[u8]) -> u64 {
    let mut count: u64 = 0;
    for byte in bytes {
        if *byte == b'\n' {
            count = count.saturating_add(1);
        }
    }
    count
}

impl Source for MemLink {
    ghost use Rattle.mt_io.specs.MemLink.{most_read, reads_of};
    ghost use Rattle.mt_io.specs.MemSource.{HasGiven};
    ghost use Rattle.mt_io.specs.Private.MemSource.{given_none, given_on};
    ghost use Rattle.std.specs.Prelude.{refl};
    ghost use Rattle.std.proofs.Common.{◌∙◌};

    ghost left = { λ l. ⟦<MemSource as Source>⟧.left l.source };

    ghost faults = { λ l. ⟦<MemSource as Source>⟧.faults l.source };

    ghost reads_to = { λ a b. (b.sink ≡ a.sink) × HasGiven a.source b.source };

    fn read_faults(&self) -> u64 {
        self.source.read_faults()
    }

    /// It fails exactly where it is one of the reads that are to fail, and then gives nothing.
    fn read_some(&mut self, buf: &mut [u8]) -> Result<usize, Failed>
        requires { 0 < length buf.old }
        ensures bound { ReadsAtMost result buf.new }
        ensures bytes { ReadConsumes (⟦<MemLink as Source>⟧.left self.old) (⟦<MemLink as Source>⟧.left self.new) result buf.new }
        ensures gives { IfOk result (λ count. IfSome (⟦<MemLink as Source>⟧.left self.old) (λ left. count ≡ min (min (length buf.old) (length left)) (most_read self.old))) }
        ensures nothing { IfErr result (λ _. buf.new ≡ buf.old) }
        ensures fails { IsErr result ↔ IsNextListed (reads_of self.old) }
        ensures counts { CountsCall (reads_of self.old) (reads_of self.new) result }
        ensures cause { HasCause (⟦<MemLink as Source>⟧.faults self.old) (⟦<MemLink as Source>⟧.faults self.new) result }
        ensures kept { ⟦<MemLink as Source>⟧.reads_to self.old self.new }
    {
        self.source.read_some(buf)
    }

    ghost reads_to_itself = { λ l. (refl, given_none l.source) };

    ghost reads_on = { λ a b c ab bc. (bc.0 ∙ ab.0, given_on a.source b.source c.source ab.1 bc.1) };
}

impl Sink for MemLink {
    ghost use Rattle.mt_io.specs.MemLink.{IsFull, most_written, room_of, writes_of};
    ghost use Rattle.mt_io.specs.MemSink.{HasWritten};
    ghost use Rattle.mt_io.specs.Private.MemSink.{written_none, written_on};
    ghost use Rattle.std.specs.Prelude.{refl};
    ghost use Rattle.std.proofs.Common.{◌∙◌};

    ghost held = { λ l. ⟦<MemSink as Sink>⟧.held l.sink };

    ghost faults = { λ l. ⟦<MemSink as Sink>⟧.faults l.sink };

    ghost writes_to = { λ a b. (b.source ≡ a.source) × HasWritten a.sink b.sink };

    fn write_faults(&self) -> u64 {
        self.sink.write_faults()
    }

    /// It fails exactly where it is one of the writes that are to fail, or the link is full. A write that fits counts no fault, though it
    /// fills the link.
    fn write_some(&mut self, piece: &[u8]) -> Result<usize, Failed>
        requires { 0 < length piece.now }
        ensures bound { IfOk result (λ count. (0 < count) × (count ≤ length piece.now)) }
        ensures bytes { WriteAppends (⟦<MemLink as Sink>⟧.held self.old) (⟦<MemLink as Sink>⟧.held self.new) result piece.now }
        ensures takes { IfOk result (λ count. IfSome (⟦<MemLink as Sink>⟧.held self.old) (λ held. count ≡ min (min (length piece.now) (room_of self.old - length held)) (most_written self.old))) }
        ensures fails { IsErr result ↔ (IsNextListed (writes_of self.old) ⊎ IsFull self.old) }
        ensures counts { CountsCall (writes_of self.old) (writes_of self.new) result }
        ensures cause { HasCause (⟦<MemLink as Sink>⟧.faults self.old) (⟦<MemLink as Sink>⟧.faults self.new) result }
        ensures kept { ⟦<MemLink as Sink>⟧.writes_to self.old self.new }
    {
        let count = self.sink.write_some(piece)?;
        self.replies
            .fetch_add(line_ends(&piece[..count]), Ordering::SeqCst);
        Ok(count)
    }

    ghost writes_to_itself = { λ l. (refl, written_none l.sink) };

    ghost writes_on = { λ a b c ab bc. (bc.0 ∙ ab.0, written_on a.sink b.sink c.sink ab.1 bc.1) };
}

impl Duplex for MemLink {
    ghost use Rattle.std.proofs.Common.{ap, arith};
    ghost use Rattle.mt_io.specs.MemLink.{HasShut};

    ghost shuts_to = { HasShut };

    fn shut(&mut self)
        ensures { HasShut self.old self.new }
    {
        self.shuts = self.shuts.saturating_add(1);
        self.held_at_shut = self.sink.held().len();
    }

    ghost reading_keeps_held = { λ a b kept. ap (λ s. ⟦<MemSink as Sink>⟧.held s) kept.0 };

    ghost reading_keeps_count = { λ a b kept. Prim.omega (arith, ap (λ s. ⟦<MemSink as Sink>⟧.faults s) kept.0) };

    ghost writing_keeps_left = { λ a b kept. ap (λ s. ⟦<MemSource as Source>⟧.left s) kept.0 };

    ghost writing_keeps_count = { λ a b kept. Prim.omega (arith, ap (λ s. ⟦<MemSource as Source>⟧.faults s) kept.0) };

    ghost shutting_keeps_bytes = { λ a b shut. (ap (λ s. ⟦<MemSource as Source>⟧.left s) shut.source, ap (λ s. ⟦<MemSink as Sink>⟧.held s) shut.sink) };

    ghost shutting_keeps_counts = { λ a b shut. (ap (λ s. ⟦<MemSource as Source>⟧.faults s) shut.source, ap (λ s. ⟦<MemSink as Sink>⟧.faults s) shut.sink) };
}
