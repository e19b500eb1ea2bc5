//! A link whose first bytes say whether it is a line session, a WebSocket or neither.
ghost use Rattle.std.specs.Prelude.{◌≡◌, ◌≤◌, ◌<◌, length, IfOk, None, refl};
ghost use Rattle.std.specs.Io.{ReadsAtMost};
ghost use Rattle.std.specs.Io.KnownBytes.{ReadConsumes, WriteAppends};
ghost use Rattle.std.proofs.Common.{◌∙◌, arith};
ghost use Rattle.mt_io.specs.Causes.{HasCause};
ghost use Rattle.mt_ws.specs.Opening.{IsStreamUnread, ReadsOpening, WritesOpening, is_foreign as is_refused};

use crate::half_close::HalfClose;
use crate::opening::Opening;
use mt_io::{Duplex, Failed, Sink, Source};
use std::alloc::Global;
use std::io::{Read, Write};

/// A line session or a WebSocket over a stream of bytes, by what comes first, as `IsStart` says: `{` begins a line session, and `G` the request of a
/// WebSocket. Else the first line is read, 8,192 bytes at most. One that ends as the first line of a request of HTTP does, with a blank, `HTTP/` and
/// a version, whatever its method, is no session; nor is what begins with a control byte, as a greeting of TLS does, or has no 0x0A in that many
/// bytes. All else is a line session. It counts its failed reads and its failed writes. It tells no content.
///
/// The first read reads these bytes, and no more than it needs to tell. They are given as the first bytes of a line session. For a WebSocket it
/// makes the handshake, in the thread that reads; it takes the link's memory. Where that fails, or the first bytes are those of no session, the
/// read fails, and the stream is closed: a page of another site can send such bytes through a browser, with lines behind them, and none of them is
/// read. A stream that ends before its first byte is at its end. A write before the first read fails.
#[derive(Drop)]
pub struct AnyLink<S> {
    stream: Opening<S>,
    read_faults: u64,
    write_faults: u64,
}

impl<S: Read + Write + Drop> AnyLink<S> {
    /// A link over a stream of which nothing was read, with no fault counted. It takes no memory.
    pub fn of(alloc: Global, stream: S) -> AnyLink<S>
        ensures fresh { IsStreamUnread stream result.stream }
        ensures sound { (result.read_faults ≡ 0) × (result.write_faults ≡ 0) }
    {
        AnyLink {
            stream: Opening::of(alloc, stream),
            read_faults: 0,
            write_faults: 0,
        }
    }

    /// Whether it was broken since the stream began neither as lines nor as a WebSocket. Each read fails then.
    pub fn is_foreign(&self) -> bool
        ensures { result ≡ is_refused self.now.stream.kind }
    {
        self.stream.is_foreign()
    }
}

impl<S: Read + Write + Drop> Source for AnyLink<S> {
    ghost left = { λ _. None };

    ghost faults = { λ l. l.read_faults };

    ghost reads_to = { λ a b. b.write_faults ≡ a.write_faults };

    fn read_faults(&self) -> u64 {
        self.read_faults
    }

    fn read_some(&mut self, buf: &mut [u8]) -> Result<usize, Failed>
        requires { 0 < length buf.old }
        ensures bound { ReadsAtMost result buf.new }
        ensures bytes { ReadConsumes None None result buf.new }
        ensures cause { HasCause self.old.read_faults self.new.read_faults result }
        ensures kept { self.new.write_faults ≡ self.old.write_faults }
        ensures reads { ReadsOpening S.remaining S.contents self.old.stream self.new.stream buf.new result }
    {
        match self.stream.read(buf) {
            Ok(count) => Ok(count),
            Err(Failed) => {
                self.read_faults = self.read_faults.saturating_add(1);
                Err(Failed)
            }
        }
    }

    ghost reads_to_itself = { λ l. refl };

    ghost reads_on = { λ a b c ab bc. bc ∙ ab };
}

impl<S: Read + Write + Drop> Sink for AnyLink<S> {
    ghost held = { λ _. None };

    ghost faults = { λ l. l.write_faults };

    ghost writes_to = { λ a b. b.read_faults ≡ a.read_faults };

    fn write_faults(&self) -> u64 {
        self.write_faults
    }

    fn write_some(&mut self, piece: &[u8]) -> Result<usize, Failed>
        requires { 0 < length piece.now }
        ensures bound { IfOk result (λ count. (0 < count) × (count ≤ length piece.now)) }
        ensures bytes { WriteAppends None None result piece.now }
        ensures cause { HasCause self.old.write_faults self.new.write_faults result }
        ensures kept { self.new.read_faults ≡ self.old.read_faults }
        ensures writes { WritesOpening S.remaining S.contents self.old.stream self.new.stream piece.now result }
    {
        match self.stream.write(piece) {
            Ok(count) => Ok(count),
            Err(Failed) => {
                self.write_faults = self.write_faults.saturating_add(1);
                Err(Failed)
            }
        }
    }

    ghost writes_to_itself = { λ l. refl };

    ghost writes_on = { λ a b c ab bc. bc ∙ ab };
}

impl<S: HalfClose + Drop> Duplex for AnyLink<S> {
    ghost shuts_to = { λ a b. (b.read_faults ≡ a.read_faults) × (b.write_faults ≡ a.write_faults) };

    /// Over a WebSocket it sends a close first, unless one was sent or answered, if the stream takes it at once.
    fn shut(&mut self) {
        self.stream.shut();
    }

    ghost reading_keeps_held = { λ a b same. refl };

    ghost reading_keeps_count = { λ a b same. Prim.omega (arith, same) };

    ghost writing_keeps_left = { λ a b same. refl };

    ghost writing_keeps_count = { λ a b same. Prim.omega (arith, same) };

    ghost shutting_keeps_bytes = { λ a b same. (refl, refl) };

    ghost shutting_keeps_counts = { λ a b same. same };
}
