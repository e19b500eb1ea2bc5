//! A stream with the bytes that were read of it put back.
ghost use Rattle.std.specs.Prelude.{◌≡◌};
ghost use Rattle.std.specs.Io.{ReadsAtMost, WritesAtMost};
ghost use Rattle.std.specs.Io.KnownBytes.{ReadConsumes, WriteAppends};

use crate::half_close::HalfClose;
use crate::put_back::PutBack;
use std::io;
use std::io::{ErrorKind, Read, Write};

/// A stream of which some bytes were read, and are given again before those after them. Contracts see as what it has left these bytes and then
/// what the stream has left, where the stream tells that.
#[derive(Drop)]
pub struct Front<S> {
    back: PutBack,
    stream: S,
}

impl<S> Front<S> {
    /// The stream, with these bytes put back.
    pub fn of(back: Vec<u8>, stream: S) -> Front<S>
        ensures { result ≡ record { back = back.items; stream = stream } }
    {
        Front {
            back: PutBack::of(back),
            stream,
        }
    }
}

impl<S: HalfClose> HalfClose for Front<S> {
    fn hurry(&mut self) -> bool {
        self.stream.hurry()
    }

    fn end_writes(&mut self) {
        self.stream.end_writes();
    }
}

impl<S: Write> Front<S> {
    /// Writes once, and again where a write was interrupted. The bytes that were put back stay.
    pub fn write_some(&mut self, piece: &[u8]) -> io::Result<usize>
        ensures bound { WritesAtMost result piece.now }
        ensures bytes { WriteAppends (S.contents self.old.stream) (S.contents self.new.stream) result piece.now }
        ensures back { self.new.back ≡ self.old.back }
    {
        write_on(&mut self.stream, piece)
    }
}

impl<S: Read> Read for Front<S> {
    ghost use Rattle.std.specs.Io.KnownBytes.{prepend_known};

    ghost remaining = { λ f. prepend_known f.back (S.remaining f.stream) };

    fn read(&mut self, buf: &mut [u8]) -> io::Result<usize> {
        if buf.is_empty() {
            return Ok(0);
        }
        if self.back.is_empty() {
            return read_on(&mut self.stream, buf);
        }
        Ok(self.back.give(buf))
    }
}

impl<S: Write> Write for Front<S> {
    ghost contents = { λ f. S.contents f.stream };

    fn write(&mut self, buf: &[u8]) -> io::Result<usize> {
        self.stream.write(buf)
    }

    fn flush(&mut self) -> io::Result<()> {
        self.stream.flush()
    }
}

/// Reads once, and again where a read was interrupted.
pub fn read_on<S: Read>(stream: &mut S, buf: &mut [u8]) -> io::Result<usize>
    ensures bound { ReadsAtMost result buf.new }
    ensures bytes { ReadConsumes (S.remaining stream.old) (S.remaining stream.new) result buf.new }
{
    for _ in 0..u64::MAX {
        match stream.read(buf) {
            Ok(count) => return Ok(count),
            Err(error) if error.kind() == ErrorKind::Interrupted => {}
            Err(error) => return Err(error),
        }
    }
    Err(io::Error::from(ErrorKind::TimedOut))
}

// Writes once, and again where a write was interrupted.
fn write_on<S: Write>(stream: &mut S, piece: &[u8]) -> io::Result<usize>
    ensures bound { WritesAtMost result piece.now }
    ensures bytes { WriteAppends (S.contents stream.old) (S.contents stream.new) result piece.now }
{
    for _ in 0..u64::MAX {
        match stream.write(piece) {
            Ok(count) => return Ok(count),
            Err(error) if error.kind() == ErrorKind::Interrupted => {}
            Err(error) => return Err(error),
        }
    }
    Err(io::Error::from(ErrorKind::TimedOut))
}
