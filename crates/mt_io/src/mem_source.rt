//! A source in memory.
ghost use Rattle.std.specs.Prelude.{◌≡◌, ◌<◌, ◌≤◌, ◌↔◌, min, [], drop, length, vec_len, IfOk, IfErr, IfSome, IsErr, Some};
ghost use Rattle.std.specs.Io.{ReadsAtMost};
ghost use Rattle.std.specs.Io.KnownBytes.{ReadConsumes};
ghost use Rattle.mt_io.specs.Calls.{CountsCall, IsNextListed, listing};
ghost use Rattle.mt_io.specs.Causes.{HasCause};

use crate::calls::FaultPlan;
use crate::source::{Failed, Source};

/// Bytes in memory, and the place of the first that is left. A call gives as many as it can, up to a greatest number. It fails where it is
/// one of those that are to fail: as it is made, none is.
#[derive(Drop)]
pub struct MemSource {
    bytes: Vec<u8>,
    at: usize,
    most: usize,
    calls: FaultPlan,
    ghost within: { at ≤ vec_len bytes },
    ghost some: { 0 < most },
}

impl MemSource {
    ghost use Rattle.mt_io.specs.MemSource.{calls_of, most_of};

    /// A source that has these bytes left, and tells them. No call fails.
    pub fn of(bytes: Vec<u8>) -> MemSource
        ensures left { ⟦<MemSource as Source>⟧.left result ≡ Some bytes.items }
        ensures calls { calls_of result ≡ listing [] }
        ensures most { most_of result ≡ usize.MAX }
    {
        let none = Vec::new(*bytes.allocator());
        MemSource {
            bytes,
            at: 0,
            most: usize::MAX,
            calls: FaultPlan::listing(none),
        }
    }

    /// The same source, not used yet, but that these calls fail, counted from 1, and that no call gives more than `most` bytes. It takes
    /// no memory.
    pub fn failing(mut self, calls: Vec<u64>, most: u32) -> MemSource
        requires most { 0 < most }
        requires unused { (calls_of self).made ≡ 0 }
        ensures left { ⟦<MemSource as Source>⟧.left result ≡ ⟦<MemSource as Source>⟧.left self }
        ensures calls { calls_of result ≡ listing calls.items }
        ensures most { most_of result ≡ most }
    {
        self.calls = FaultPlan::listing(calls);
        self.most = most as usize;
        self
    }
}

impl Source for MemSource {
    ghost use Rattle.mt_io.specs.MemSource.{HasGiven, calls_of, most_of};
    ghost use Rattle.mt_io.specs.Private.MemSource.{given_none, given_on};

    ghost left = { λ s. Some (drop s.at s.bytes.items) };

    ghost faults = { λ s. s.calls.failed };

    ghost reads_to = { HasGiven };

    fn read_faults(&self) -> u64 {
        self.calls.failed()
    }

    /// It fails exactly where it is one of the calls that are to fail, and then gives nothing.
    fn read_some(&mut self, buf: &mut [u8]) -> Result<usize, Failed>
        requires { 0 < length buf.old }
        ensures bound { ReadsAtMost result buf.new }
        ensures bytes { ReadConsumes (⟦<MemSource as Source>⟧.left self.old) (⟦<MemSource as Source>⟧.left self.new) result buf.new }
        ensures gives { IfOk result (λ count. IfSome (⟦<MemSource as Source>⟧.left self.old) (λ left. count ≡ min (min (length buf.old) (length left)) (most_of self.old))) }
        ensures nothing { IfErr result (λ _. buf.new ≡ buf.old) }
        ensures fails { IsErr result ↔ IsNextListed (calls_of self.old) }
        ensures counts { CountsCall (calls_of self.old) (calls_of self.new) result }
        ensures cause { HasCause (⟦<MemSource as Source>⟧.faults self.old) (⟦<MemSource as Source>⟧.faults self.new) result }
        ensures kept { HasGiven self.old self.new }
    {
        if self.calls.next_fails() {
            return Err(Failed);
        }
        let count = buf.len().min(self.bytes.len() - self.at).min(self.most);
        buf[..count].copy_from_slice(&self.bytes[self.at..self.at + count]);
        self.at += count;
        Ok(count)
    }

    ghost reads_to_itself = { given_none };

    ghost reads_on = { given_on };
}
