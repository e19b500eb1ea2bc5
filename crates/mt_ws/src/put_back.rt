//! Bytes that were read and are given once more.
ghost use Rattle.std.specs.Prelude.{◌≡◌, ◌<◌, ◌≤◌, ◌↔◌, ◌++◌, [], length, take, IsTrue};

use std::marker::Model;

/// Bytes that were read, less those that were given again. Contracts see it as the list of those that are left.
#[derive(Drop)]
pub struct PutBack {
    bytes: Vec<u8>,
    at: usize,
}

impl Model for PutBack {
    ghost use Rattle.std.specs.Prelude.{◌≤◌, ℕ, List, drop, length};

    ghost Value = { List ℕ };

    ghost view = { λ p. drop p.at p.bytes.items };

    ghost invariant = { λ p. p.at ≤ length p.bytes.items };
}

impl PutBack {
    /// All of these.
    pub fn of(bytes: Vec<u8>) -> PutBack
        ensures { result ≡ bytes.items }
    {
        PutBack { bytes, at: 0 }
    }

    /// Whether none is left.
    pub fn is_empty(&self) -> bool
        ensures { IsTrue result ↔ (self.now ≡ []) }
    {
        self.at == self.bytes.len()
    }

    /// Gives some to the front of the buffer, one at least, and says how many.
    pub fn give(&mut self, buf: &mut [u8]) -> usize
        requires room { 0 < length buf.old }
        requires some { 0 < length self.old }
        ensures bound { (0 < result) × (result ≤ length buf.new) }
        ensures bytes { self.old ≡ take result buf.new ++ self.new }
    {
        let rest = &self.bytes[self.at..];
        let count = rest.len().min(buf.len());
        buf[..count].copy_from_slice(&rest[..count]);
        self.at += count;
        count
    }
}
