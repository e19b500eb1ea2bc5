//! The bytes of a source that were read and not yet given.
ghost use Rattle.std.specs.Prelude.{◌≡◌, ◌≢◌, ◌<◌, ◌≤◌, ◌↔◌, ◌^◌, ℕ, [], false, true, length, drop, slice_index, vec_len, Contains, EachIndex, IfOk, IsTrue, MatchOption, MatchResult};
ghost use Rattle.std.specs.Io.KnownBytes.{ReadConsumes};
ghost use Rattle.mt_io.specs.Causes.{HasCause, Rose};
ghost use Rattle.mt_io.specs.Reading.{Store};
ghost use Rattle.mt_io.specs.Private.Gathering.{EndsWhole, Fills, Moves, StopsFill};

use crate::gathered::Gathered;
use crate::line::LineFault;
use crate::source::{Failed, Source};
use mt_memory::Memory;
use std::alloc::Global;
use std::marker::Model;

/// How many bytes are read at once.
const CHUNK: usize = 65_536;

/// How many bytes a reader takes of its source in all.
const LIMIT: u64 = 1 << 32;

/// The bytes of a source that were read and not yet given, in a buffer of fixed size: those from `at` to `end`. The last 0x0A of the buffer's
/// bytes stands right before `whole`, which is 0 where there is none.
#[derive(Drop)]
pub struct Ahead {
    chunk: Vec<u8>,
    at: usize,
    whole: usize,
    end: usize,
    taken: u64,
    ended: bool,
}

impl Model for Ahead {
    ghost use Rattle.std.specs.Prelude.{◌<◌, ◌≤◌, slice_range, vec_len};
    ghost use Rattle.mt_io.specs.Private.Gathering.{EndsWhole};
    ghost use Rattle.mt_io.specs.Reading.{Store};

    ghost Value = { Store };

    ghost view = { λ a. record { ahead = slice_range a.chunk.items a.at a.end; taken = a.taken; ended = a.ended } };

    ghost invariant = { λ a. (a.at ≤ a.end) × (a.end ≤ vec_len a.chunk) × (0 < vec_len a.chunk) × EndsWhole a.chunk.items a.at a.whole a.end };
}

impl Ahead {
    /// Nothing read yet. It takes all its memory here.
    pub fn make(alloc: Global) -> Result<Ahead, Memory>
        ensures { IfOk result (λ ahead. ahead ≡ record { ahead = []; taken = 0; ended = false }) }
    {
        Ok(Ahead {
            chunk: vec![in alloc; 0; CHUNK]?,
            at: 0,
            whole: 0,
            end: 0,
            taken: 0,
            ended: false,
        })
    }

    /// Whether the source has ended.
    pub fn has_ended(&self) -> bool
        ensures { result ≡ self.now.ended }
    {
        self.ended
    }

    /// Whether a 0x0A is ahead. It costs the same however many bytes are.
    pub fn has_line(&self) -> bool
        ensures { IsTrue result ↔ Contains self.now.ahead 10 }
    {
        self.at < self.whole
    }

    /// Reads more where nothing is ahead. Says whether bytes are ahead then; if not, the source has ended.
    pub fn fill<S: Source>(&mut self, source: &mut S) -> Result<bool, LineFault>
        requires going { self.old.ended ≡ false }
        requires limit { self.old.taken ≤ 2 ^ 32 }
        ensures held { 0 < length self.old.ahead → (result ≡ Ok true) × (self.new ≡ self.old) × (S.left source.new ≡ S.left source.old) }
        ensures read { length self.old.ahead ≡ 0 → MatchResult result
            (Fills self.old self.new (S.left source.old) (S.left source.new))
            (StopsFill self.old self.new (S.left source.old) (S.left source.new)) }
        ensures cause { result ≡ Err LineFault.ReadFault → Rose (S.faults source.old) (S.faults source.new) }
        ensures later { S.faults source.old ≤ S.faults source.new }
        ensures kept { S.reads_to source.old source.new }
    {
        if self.at == self.end {
            self.refill(source)
        } else {
            Ok(true)
        }
    }

    // `fill` where nothing is ahead.
    fn refill<S: Source>(&mut self, source: &mut S) -> Result<bool, LineFault>
        requires going { self.old.ended ≡ false }
        requires limit { self.old.taken ≤ 2 ^ 32 }
        ensures read { MatchResult result
            (Fills self.old self.new (S.left source.old) (S.left source.new))
            (StopsFill self.old self.new (S.left source.old) (S.left source.new)) }
        ensures cause { result ≡ Err LineFault.ReadFault → Rose (S.faults source.old) (S.faults source.new) }
        ensures later { S.faults source.old ≤ S.faults source.new }
        ensures kept { S.reads_to source.old source.new }
    {
        self.at = 0;
        self.whole = 0;
        self.end = 0;
        if self.taken == LIMIT {
            return Err(LineFault::Spent);
        }
        let room = self.chunk.len().min((LIMIT - self.taken) as usize);
        match read_front(source, &mut self.chunk, room) {
            Ok(0) => {
                self.ended = true;
                Ok(false)
            }
            Ok(count) => {
                self.whole = whole_end(&self.chunk[..count]);
                self.end = count;
                self.taken += count as u64;
                Ok(true)
            }
            Err(Failed) => Err(LineFault::ReadFault),
        }
    }

    /// Moves the bytes ahead to the line: up to the first 0x0A, which is left out, or all.
    /// Says whether there was a 0x0A.
    pub fn move_piece(&mut self, line: &mut Gathered) -> bool
        ensures { Moves self.old self.new line.old.bytes.items line.old.is_long line.new.bytes.items line.new.is_long result }
    {
        match break_in(self.bytes()) {
            Some(place) => {
                line.add(&self.bytes()[..place]);
                self.skip(place + 1);
                true
            }
            None => {
                line.add(self.bytes());
                self.skip(self.bytes().len());
                false
            }
        }
    }

    fn bytes(&self) -> &[u8]
        ensures { result.now ≡ self.now.ahead }
    {
        &self.chunk[self.at..self.end]
    }

    fn skip(&mut self, count: usize)
        requires { count ≤ length self.old.ahead }
        ensures { self.new ≡ record self.old { ahead = drop count self.old.ahead } }
    {
        self.at += count;
    }
}

// The place of the first 0x0A, if there is one.
fn break_in(bytes: &[u8]) -> Option<usize>
    ensures { MatchOption result
        (EachIndex bytes.now (λ k. slice_index bytes.now k ≢ 10))
        (λ place. (place < length bytes.now) × (slice_index bytes.now place ≡ 10) × ((k : ℕ) → k < place → slice_index bytes.now k ≢ 10)) }
{
    bytes.iter().position(|byte| *byte == b'\n')
}

// The place after the last 0x0A, or 0 where there is none.
fn whole_end(bytes: &[u8]) -> usize
    ensures { EndsWhole bytes.now 0 result (length bytes.now) }
{
    let mut end = bytes.len();
    while end > 0 && bytes[end - 1] != b'\n' {
        end -= 1;
    }
    end
}

// Reads at most `room` bytes to the front of the buffer.
fn read_front<S: Source>(source: &mut S, buf: &mut [u8], room: usize) -> Result<usize, Failed>
    requires some { 0 < room }
    requires within { room ≤ length buf.old }
    ensures bound { IfOk result (λ count. count ≤ room) }
    ensures bytes { ReadConsumes (S.left source.old) (S.left source.new) result buf.new }
    ensures cause { HasCause (S.faults source.old) (S.faults source.new) result }
    ensures kept { S.reads_to source.old source.new }
{
    source.read_some(&mut buf[..room])
}
