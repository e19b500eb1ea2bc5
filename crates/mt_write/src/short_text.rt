//! A short text, made on the stack from its end to its beginning and put into a room as one piece.
ghost use Rattle.std.specs.Prelude.{◌≡◌, ◌+◌, ◌≤◌, [], ◌++◌, decimal, length};
ghost use Rattle.serde_json.specs.Data.{boolean};
ghost use Rattle.serde_json.specs.Written.{compact_text};
ghost use Rattle.mt_base.specs.Name.{IsCallsign, IsFixName, IsTypeName};

use itoa::write_digits;
use mt_base::{Callsign, FixName, TypeName};
use std::marker::Model;

/// How many bytes it may have.
const LONGEST: usize = 128;

/// A text of at most 128 bytes, at the end of a buffer of fixed size, seen as its list. It grows at its beginning, so that the digits of a number
/// are written where they stay.
#[derive(Drop)]
pub(crate) struct ShortText {
    bytes: [u8; LONGEST],
    start: usize,
}

impl Model for ShortText {
    ghost use Rattle.std.specs.Prelude.{◌≡◌, ◌+◌, ℕ, List, drop, length};

    ghost Value = { List ℕ };

    ghost view = { λ t. drop t.start t.bytes };

    ghost invariant = { λ t. length (drop t.start t.bytes) + t.start ≡ 128 };
}

impl ShortText {
    /// An empty text.
    pub(crate) fn new() -> ShortText
        ensures { result ≡ [] }
    {
        ShortText {
            bytes: [0; LONGEST],
            start: LONGEST,
        }
    }

    /// Its bytes.
    pub(crate) fn bytes(&self) -> &[u8]
        ensures { result.now ≡ self.now }
    {
        &self.bytes[self.start..]
    }

    /// Puts bytes before it.
    #[inline(always)]
    pub(crate) fn prepend(&mut self, bytes: &[u8])
        requires { length self.old + length bytes.now ≤ 128 }
        ensures added { self.new ≡ bytes.now ++ self.old }
        ensures size { length self.new ≡ length self.old + length bytes.now }
    {
        let start = self.start - bytes.len();
        self.bytes[start..self.start].copy_from_slice(bytes);
        self.start = start;
    }

    /// Puts a number of 32 bits before it.
    pub(crate) fn prepend_number(&mut self, number: u32)
        requires { length self.old + 10 ≤ 128 }
        ensures added { self.new ≡ decimal number ++ self.old }
        ensures size { length self.new ≤ length self.old + 10 }
    {
        self.start = write_digits(u64::from(number), &mut self.bytes, self.start);
    }

    /// Puts a callsign before it.
    #[inline(always)]
    pub(crate) fn prepend_callsign(&mut self, call: &Callsign)
        requires { length self.old + 7 ≤ 128 }
        ensures added { self.new ≡ call.now ++ self.old }
        ensures size { length self.new ≤ length self.old + 7 }
        ensures named { IsCallsign call.now }
    {
        self.prepend(call.bytes());
    }

    /// Puts the name of a fix or of an area before it.
    #[inline(always)]
    pub(crate) fn prepend_fix(&mut self, name: &FixName)
        requires { length self.old + 5 ≤ 128 }
        ensures added { self.new ≡ name.now ++ self.old }
        ensures size { length self.new ≤ length self.old + 5 }
        ensures named { IsFixName name.now }
    {
        self.prepend(name.bytes());
    }

    /// Puts the name of a type before it.
    #[inline(always)]
    pub(crate) fn prepend_type(&mut self, name: &TypeName)
        requires { length self.old + 4 ≤ 128 }
        ensures added { self.new ≡ name.now ++ self.old }
        ensures size { length self.new ≤ length self.old + 4 }
        ensures named { IsTypeName name.now }
    {
        self.prepend(name.bytes());
    }

    /// Puts a truth value before it.
    #[inline(always)]
    pub(crate) fn prepend_truth(&mut self, truth: bool)
        requires { length self.old + 5 ≤ 128 }
        ensures added { self.new ≡ compact_text (boolean truth) ++ self.old }
        ensures size { length self.new ≤ length self.old + 5 }
    {
        if truth {
            self.prepend(b"true");
        } else {
            self.prepend(b"false");
        }
    }
}
