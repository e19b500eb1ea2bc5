//! A line that isn't sent yet.
ghost use Rattle.std.specs.Prelude.{◌≡◌, ◌≤◌, ◌+◌, ◌++◌, [], length, take, IfOk};

use mt_memory::Memory;
use std::alloc::Global;
use std::marker::Model;

/// How many bytes of a line are kept at most until its 0x0A comes.
pub const LONGEST_LINE: usize = 131_072;

/// The bytes of a line that isn't sent yet, at most 131,072, in a buffer of fixed size. Contracts see it as the list of these bytes.
#[derive(Drop)]
pub struct Unsent {
    bytes: Vec<u8>,
}

impl Model for Unsent {
    ghost use Rattle.std.specs.Prelude.{◌≤◌, ℕ, List, vec_len, vec_capacity};

    ghost Value = { List ℕ };

    ghost view = { λ k. k.bytes.items };

    ghost invariant = { λ k. (131072 ≤ vec_capacity k.bytes) × (vec_len k.bytes ≤ 131072) };
}

impl Unsent {
    /// No bytes. It takes all its memory here.
    pub fn make(alloc: Global) -> Result<Unsent, Memory>
        ensures { IfOk result (λ kept. kept ≡ []) }
    {
        Ok(Unsent {
            bytes: Vec::with_capacity(alloc, LONGEST_LINE)?,
        })
    }

    /// The bytes.
    pub fn bytes(&self) -> &[u8]
        ensures same { result.now ≡ self.now }
        ensures short { length self.now ≤ 131072 }
    {
        &self.bytes
    }

    /// Adds a part of a line, which fits.
    pub fn add(&mut self, part: &[u8])
        requires { length self.old + length part.now ≤ 131072 }
        ensures { self.new ≡ self.old ++ part.now }
    {
        match self.bytes.extend_from_slice(part) {
            Ok(()) => {}
            Err(_) => unreachable!(),
        }
    }

    /// Keeps this many bytes at the front.
    pub fn cut(&mut self, count: usize)
        requires { count ≤ length self.old }
        ensures { self.new ≡ take count self.old }
    {
        self.bytes.truncate(count);
    }

    /// No bytes again.
    pub fn clear(&mut self)
        ensures { self.new ≡ [] }
    {
        self.bytes.clear();
    }
}
