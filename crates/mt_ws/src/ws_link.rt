//! A WebSocket as a link of lines.
ghost use Rattle.std.specs.Prelude.{◌≡◌, ◌≤◌, option_copied, true, ◌<◌, length, IfOk, None, Some, refl};
ghost use Rattle.std.specs.Io.{ReadsAtMost};
ghost use Rattle.std.specs.Io.KnownBytes.{ReadConsumes, WriteAppends};
ghost use Rattle.std.proofs.Common.{◌∙◌, arith};
ghost use Rattle.mt_io.specs.Causes.{HasCause, Rose};
ghost use Rattle.mt_ws.specs.Linking.{IsNew, ReadsLink, WritesLink};
ghost use Rattle.mt_ws.specs.Accepted.{IsFromHandshake};

use crate::cause::{WsCause, WsNo};
use crate::half_close::HalfClose;
use crate::origin::LocalPages;
use crate::pull::{Pulled, pull};
use crate::sending::{cut, send_line};
use crate::ungiven::Ungiven;
use crate::unsent::{LONGEST_LINE, Unsent};
use mt_io::{Duplex, Failed, Sink, Source};
use mt_memory::Memory;
use std::alloc::Global;
use std::io::{Read, Write};
use std::mem::replace;
use tungstenite::handshake::HandshakeError;
use tungstenite::handshake::server::start;
use tungstenite::{Error, NoMask, WebSocket, WebSocketConfig};

/// How many bytes a message has at most that a peer sends.
const LONGEST_MESSAGE: usize = 131_072;

/// A server's WebSocket as a link of lines. It counts its failed reads and its failed writes, and keeps why the last call that failed did so.
///
/// A text or binary message is read as its bytes, after which a 0x0A is added unless they end with one; so a message may hold several
/// lines, and an empty one is an empty line. Pings and pongs are passed over. A close is the end.
///
/// Bytes that are written are kept up to a 0x0A and then sent without it, as one message: text where they are UTF-8, and else binary.
#[derive(Drop)]
pub struct WsLink<S> {
    alloc: Global,
    socket: WebSocket<S, NoMask>,
    ungiven: Ungiven,
    ended: bool,
    line: Unsent,
    cause: Option<WsCause>,
    read_faults: u64,
    write_faults: u64,
}

impl<S: Read + Write + Drop> WsLink<S> {
    /// A link over a server's socket, of which nothing is read or written yet, with no fault counted. It takes its memory here, and that of
    /// a message when it is read or sent.
    pub fn over(alloc: Global, socket: WebSocket<S, NoMask>) -> Result<WsLink<S>, Memory>
        ensures { IfOk result (IsNew socket) }
    {
        match Unsent::make(alloc) {
            Ok(line) => Ok(WsLink {
                alloc,
                socket,
                ungiven: Ungiven::none(),
                ended: false,
                line,
                cause: None,
                read_faults: 0,
                write_faults: 0,
            }),
            Err(Memory) => {
                drop(socket);
                Err(Memory)
            }
        }
    }

    /// A link over a stream, on which a client asks for a WebSocket now: makes the handshake, and waits for it. The request of a page from
    /// elsewhere than this machine is refused. A message that the peer sends, and a frame of one, has at most 131,072 bytes of content; a
    /// longer one fails at its header, before the link keeps its bytes. The link takes its memory here, and that of a message when it is
    /// read.
    pub fn accept(alloc: Global, stream: S) -> Result<WsLink<S>, WsNo>
        ensures { IfOk result IsFromHandshake }
    {
        let config = WebSocketConfig::default()
            .max_message_size(Some(LONGEST_MESSAGE))
            .max_frame_size(Some(LONGEST_MESSAGE));
        match start(alloc, stream, LocalPages::of(alloc), Some(config)).handshake() {
            Ok(socket) => match WsLink::over(alloc, socket) {
                Ok(link) => Ok(link),
                Err(_) => Err(WsNo::Memory),
            },
            Err(error) => {
                let starved = matches!(error, HandshakeError::Failure(Error::OutOfMemory));
                drop(error);
                Err(if starved {
                    WsNo::Memory
                } else {
                    WsNo::Handshake
                })
            }
        }
    }

    /// The socket, given back.
    pub fn into_socket(self) -> WebSocket<S, NoMask>
        ensures { result ≡ self.socket }
    {
        let WsLink {
            socket,
            ungiven,
            line,
            cause,
            ..
        } = self;
        drop(ungiven);
        drop(line);
        drop(cause);
        socket
    }

    /// Why the last call that failed did so; none where none has failed.
    pub fn cause(&self) -> Option<&WsCause>
        ensures { option_copied result ≡ self.now.cause }
    {
        self.cause.as_ref()
    }

    // Marks the end. Whether the reply to a close was sent changes nothing.
    fn end(&mut self, failure: Option<Error>)
        ensures { self.new ≡ record self.old { ended = true } }
    {
        drop(failure);
        self.ended = true;
    }

    // Counts a failed read, and keeps its cause.
    fn fail_read(&mut self, cause: WsCause) -> Failed
        ensures same { self.new ≡ record self.old { cause = Some cause; read_faults = self.new.read_faults } }
        ensures count { (self.old.read_faults ≤ self.new.read_faults) × Rose self.old.read_faults self.new.read_faults }
    {
        self.read_faults = self.read_faults.saturating_add(1);
        drop(self.cause.replace(cause));
        Failed
    }

    // Counts a failed write, and keeps its cause.
    fn fail_write(&mut self, cause: WsCause) -> Failed
        ensures same { self.new ≡ record self.old { cause = Some cause; write_faults = self.new.write_faults } }
        ensures count { (self.old.write_faults ≤ self.new.write_faults) × Rose self.old.write_faults self.new.write_faults }
    {
        self.write_faults = self.write_faults.saturating_add(1);
        drop(self.cause.replace(cause));
        Failed
    }
}

impl<S: Read + Write + Drop> Source for WsLink<S> {
    ghost left = { λ _. None };

    ghost faults = { λ l. l.read_faults };

    ghost reads_to = { λ a b. (b.write_faults ≡ a.write_faults) × (b.line ≡ a.line) };

    fn read_faults(&self) -> u64 {
        self.read_faults
    }

    fn read_some(&mut self, buf: &mut [u8]) -> Result<usize, Failed>
        requires { 0 < length buf.old }
        ensures bound { ReadsAtMost result buf.new }
        ensures bytes { ReadConsumes None None result buf.new }
        ensures cause { HasCause self.old.read_faults self.new.read_faults result }
        ensures kept { (self.new.write_faults ≡ self.old.write_faults) × (self.new.line ≡ self.old.line) }
        ensures reads { ReadsLink S.remaining S.contents self.old self.new buf.new result }
    {
        if !self.ungiven.is_empty() {
            return Ok(self.ungiven.give(buf));
        }
        if self.ended {
            return Ok(0);
        }
        match pull(&mut self.socket) {
            Pulled::Data(message) => {
                drop(replace(&mut self.ungiven, Ungiven::of(message)));
                Ok(self.ungiven.give(buf))
            }
            Pulled::End(failure) => {
                self.end(failure);
                Ok(0)
            }
            Pulled::Fault(cause) => Err(self.fail_read(cause)),
        }
    }

    ghost reads_to_itself = { λ l. (refl, refl) };

    ghost reads_on = { λ a b c ab bc. (bc.0 ∙ ab.0, bc.1 ∙ ab.1) };
}

impl<S: Read + Write + Drop> Sink for WsLink<S> {
    ghost held = { λ _. None };

    ghost faults = { λ l. l.write_faults };

    ghost writes_to = { λ a b. (b.read_faults ≡ a.read_faults) × (b.ungiven ≡ a.ungiven) × (b.ended ≡ a.ended) };

    fn write_faults(&self) -> u64 {
        self.write_faults
    }

    fn write_some(&mut self, piece: &[u8]) -> Result<usize, Failed>
        requires { 0 < length piece.now }
        ensures bound { IfOk result (λ count. (0 < count) × (count ≤ length piece.now)) }
        ensures bytes { WriteAppends None None result piece.now }
        ensures cause { HasCause self.old.write_faults self.new.write_faults result }
        ensures kept { (self.new.read_faults ≡ self.old.read_faults) × (self.new.ungiven ≡ self.old.ungiven) × (self.new.ended ≡ self.old.ended) }
        ensures writes { WritesLink S.remaining S.contents self.old self.new piece.now result }
    {
        let (part, whole) = cut(piece);
        let before = self.line.bytes().len();
        if part.len() > LONGEST_LINE - before {
            return Err(self.fail_write(WsCause::Long));
        }
        self.line.add(part);
        if !whole {
            return Ok(part.len());
        }
        match send_line(self.alloc, &mut self.socket, self.line.bytes()) {
            Ok(()) => {
                self.line.clear();
                Ok(part.len() + 1)
            }
            Err(cause) => {
                self.line.cut(before);
                Err(self.fail_write(cause))
            }
        }
    }

    ghost writes_to_itself = { λ l. (refl, refl, refl) };

    ghost writes_on = { λ a b c ab bc. (bc.0 ∙ ab.0, bc.1 ∙ ab.1, bc.2 ∙ ab.2) };
}

impl<S: HalfClose + Drop> Duplex for WsLink<S> {
    ghost shuts_to = { λ a b. (b.read_faults ≡ a.read_faults) × (b.write_faults ≡ a.write_faults) };

    /// Sends a close, unless one was sent or answered, if the stream takes it at once; and ends the stream's writes.
    fn shut(&mut self) {
        if self.socket.get_mut().hurry() {
            let _sent = self.socket.close(None);
        }
        self.socket.get_mut().end_writes();
    }

    ghost reading_keeps_held = { λ a b same. refl };

    ghost reading_keeps_count = { λ a b same. Prim.omega (arith, same.0) };

    ghost writing_keeps_left = { λ a b same. refl };

    ghost writing_keeps_count = { λ a b same. Prim.omega (arith, same.0) };

    ghost shutting_keeps_bytes = { λ a b same. (refl, refl) };

    ghost shutting_keeps_counts = { λ a b same. same };
}
