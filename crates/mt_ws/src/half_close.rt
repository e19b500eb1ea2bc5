//! Streams whose writes can be ended alone.
ghost use Rattle.std.specs.Prelude.{◌≡◌};

use std::io::{Read, Write};
use std::net::{Shutdown, TcpStream};

/// A stream of bytes both ways, each of which ends by itself. Neither call changes what is left to read, or what was written.
pub trait HalfClose: Read + Write {
    /// Has the calls that follow wait for nobody: what would wait fails. Says whether it does.
    fn hurry(&mut self) -> bool
        ensures { (Self.remaining self.new ≡ Self.remaining self.old) × (Self.contents self.new ≡ Self.contents self.old) };

    /// Ends the writes: what was written still arrives, and then the peer is told that no more comes.
    fn end_writes(&mut self)
        ensures { (Self.remaining self.new ≡ Self.remaining self.old) × (Self.contents self.new ≡ Self.contents self.old) };
}

impl HalfClose for TcpStream {
    fn hurry(&mut self) -> bool {
        self.set_nonblocking(true).is_ok()
    }

    fn end_writes(&mut self) {
        let _ = self.shutdown(Shutdown::Write);
    }
}
