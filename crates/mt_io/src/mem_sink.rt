//! A sink in memory.
ghost use Rattle.std.specs.Prelude.{◌≡◌, ◌<◌, ◌≤◌, ◌↔◌, ◌⊎◌, ◌-◌, min, [], length, vec_len, vec_capacity, IfOk, IfSome, IsErr, Some};
ghost use Rattle.std.specs.Io.KnownBytes.{WriteAppends};
ghost use Rattle.mt_io.specs.Calls.{CountsCall, IsNextListed, listing};
ghost use Rattle.mt_io.specs.Causes.{HasCause};

use crate::calls::FaultPlan;
use crate::sink::Sink;
use crate::source::Failed;
use mt_memory::Memory;
use std::alloc::Global;

/// Bytes in memory, as many as it has room for. A call takes as many as it can, up to a greatest number. It fails where the sink is full,
/// and where it is one of those that are to fail: as it is made, none is.
#[derive(Drop)]
pub struct MemSink {
    bytes: Vec<u8>,
    room: usize,
    most: usize,
    calls: FaultPlan,
    ghost within: { vec_len bytes ≤ room },
    ghost reserved: { room ≤ vec_capacity bytes },
    ghost some: { 0 < most },
}

impl MemSink {
    ghost use Rattle.mt_io.specs.MemSink.{calls_of, most_of, room_of};

    /// A sink that holds nothing, has room for this many bytes and has counted no fault. A call fails only where it is full. It takes all
    /// its memory here.
    pub fn make(alloc: Global, room: u32) -> Result<MemSink, Memory>
        ensures empty { IfOk result (λ sink. ⟦<MemSink as Sink>⟧.held sink ≡ Some []) }
        ensures room { IfOk result (λ sink. room_of sink ≡ room) }
        ensures sound { IfOk result (λ sink. ⟦<MemSink as Sink>⟧.faults sink ≡ 0) }
        ensures calls { IfOk result (λ sink. calls_of sink ≡ listing []) }
        ensures most { IfOk result (λ sink. most_of sink ≡ usize.MAX) }
    {
        let room = room as usize;
        Ok(MemSink {
            bytes: Vec::with_capacity(alloc, room)?,
            room,
            most: usize::MAX,
            calls: FaultPlan::listing(Vec::new(alloc)),
        })
    }

    /// The same sink, not used yet, but that these calls fail, counted from 1, and that no call takes more than `most` bytes. It takes no
    /// memory.
    pub fn failing(mut self, calls: Vec<u64>, most: u32) -> MemSink
        requires most { 0 < most }
        requires unused { (calls_of self).made ≡ 0 }
        ensures held { ⟦<MemSink as Sink>⟧.held result ≡ ⟦<MemSink as Sink>⟧.held self }
        ensures room { room_of result ≡ room_of self }
        ensures calls { calls_of result ≡ listing calls.items }
        ensures most { most_of result ≡ most }
    {
        self.calls = FaultPlan::listing(calls);
        self.most = most as usize;
        self
    }

    /// The bytes that were taken.
    pub fn held(&self) -> &[u8]
        ensures { Some result.now ≡ ⟦<MemSink as Sink>⟧.held self.now }
    {
        &self.bytes
    }
}

impl Sink for MemSink {
    ghost use Rattle.mt_io.specs.MemSink.{HasWritten, IsFull, calls_of, most_of, room_of};
    ghost use Rattle.mt_io.specs.Private.MemSink.{written_none, written_on};

    ghost held = { λ s. Some s.bytes.items };

    ghost faults = { λ s. s.calls.failed };

    ghost writes_to = { HasWritten };

    fn write_faults(&self) -> u64 {
        self.calls.failed()
    }

    /// It fails exactly where it is one of the calls that are to fail, or the sink is full. A write that fits counts no fault, though it
    /// fills the sink.
    fn write_some(&mut self, piece: &[u8]) -> Result<usize, Failed>
        requires { 0 < length piece.now }
        ensures bound { IfOk result (λ count. (0 < count) × (count ≤ length piece.now)) }
        ensures bytes { WriteAppends (⟦<MemSink as Sink>⟧.held self.old) (⟦<MemSink as Sink>⟧.held self.new) result piece.now }
        ensures takes { IfOk result (λ count. IfSome (⟦<MemSink as Sink>⟧.held self.old) (λ held. count ≡ min (min (length piece.now) (room_of self.old - length held)) (most_of self.old))) }
        ensures fails { IsErr result ↔ (IsNextListed (calls_of self.old) ⊎ IsFull self.old) }
        ensures counts { CountsCall (calls_of self.old) (calls_of self.new) result }
        ensures cause { HasCause (⟦<MemSink as Sink>⟧.faults self.old) (⟦<MemSink as Sink>⟧.faults self.new) result }
        ensures kept { HasWritten self.old self.new }
    {
        if self.calls.next_fails() {
            return Err(Failed);
        }
        let count = piece.len().min(self.room - self.bytes.len()).min(self.most);
        if count == 0 {
            self.calls.fail();
            return Err(Failed);
        }
        match self.bytes.extend_from_slice(&piece[..count]) {
            Ok(()) => Ok(count),
            Err(_) => unreachable!(),
        }
    }

    ghost writes_to_itself = { written_none };

    ghost writes_on = { written_on };
}
