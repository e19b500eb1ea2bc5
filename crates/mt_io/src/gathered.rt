//! The bytes of one line, in a buffer of fixed size.
ghost use Rattle.std.specs.Prelude.{◌≡◌, ◌≤◌, ◌↔◌, ℕ, List, [], ◌++◌, false, length, IfOk, IsTrue, vec_len, vec_capacity};
ghost use Rattle.mt_io.specs.Private.Gathering.{IsGathered};

use mt_memory::Memory;
use std::alloc::Global;

/// How many bytes a line may have.
const LONGEST: usize = 65_536;

/// A line so far, or, where it is too long, that it is.
#[derive(Drop)]
pub struct Gathered {
    pub bytes: Vec<u8>,
    pub is_long: bool,
    ghost room: { 65536 ≤ vec_capacity bytes },
    ghost short: { vec_len bytes ≤ 65536 },
}

impl Gathered {
    /// An empty line. It takes all its memory here.
    pub fn make(alloc: Global) -> Result<Gathered, Memory>
        ensures { IfOk result (λ line. (line.bytes.items ≡ []) × (line.is_long ≡ false)) }
    {
        Ok(Gathered {
            bytes: Vec::with_capacity(alloc, LONGEST)?,
            is_long: false,
        })
    }

    /// An empty line again.
    pub fn clear(&mut self)
        ensures { (self.new.bytes.items ≡ []) × (self.new.is_long ≡ false) }
    {
        self.bytes.clear();
        self.is_long = false;
    }

    /// Whether it has no byte.
    pub fn is_empty(&self) -> bool
        ensures { (line : List ℕ) → IsGathered self.now.bytes.items self.now.is_long line → IsTrue result ↔ (length line ≡ 0) }
    {
        !self.is_long && self.bytes.is_empty()
    }

    /// Adds a piece, which is dropped where the line gets too long.
    pub fn add(&mut self, piece: &[u8])
        ensures { (line : List ℕ) → IsGathered self.old.bytes.items self.old.is_long line
            → IsGathered self.new.bytes.items self.new.is_long (line ++ piece.now) }
    {
        if self.is_long {
            return;
        }
        if piece.len() > LONGEST - self.bytes.len() {
            self.is_long = true;
            return;
        }
        match self.bytes.extend_from_slice(piece) {
            Ok(()) => {}
            Err(_) => unreachable!(),
        }
    }
}
