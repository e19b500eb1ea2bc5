//! A connection that has come to the port and isn't let in yet.

use crate::beginning::{LONGEST_FIRST_LINE, Start, start_of};
use crate::rehearsal::{Rehearsal, rehearse};
use std::alloc::Global;
use std::io::{ErrorKind, Read, Write};
use std::net::{Shutdown, TcpStream};

/// The most bytes of a connection that are looked at: a request for a WebSocket isn't longer.
pub const LONGEST_REQUEST: usize = 16_384;

/// How many reads at most throw away what a connection sent that is refused.
const LAST_READS: u32 = 64;

/// What a client is told that asks for no WebSocket.
const BAD_REQUEST: &[u8] =
    b"HTTP/1.1 400 Bad Request\r\nConnection: close\r\nContent-Length: 0\r\n\r\n";

/// What a page from elsewhere is told.
const FORBIDDEN: &[u8] =
    b"HTTP/1.1 403 Forbidden\r\nConnection: close\r\nContent-Length: 0\r\n\r\n";

/// What is done with a connection.
#[derive(Clone, Copy, Debug, PartialEq, Eq)]
pub enum Sight {
    /// It is let in.
    LetIn,
    /// It hasn't said yet what it is.
    Waits,
    /// It is answered so, and dropped.
    IsRefused(Refused),
    /// It is over.
    IsGone,
}

/// Why a connection is refused.
#[derive(Clone, Copy, Debug, PartialEq, Eq)]
pub enum Refused {
    /// It asks neither for lines nor for a WebSocket.
    BadRequest,
    /// The page that asks is from elsewhere than this machine.
    Forbidden,
}

/// What is done with a connection that has sent these bytes, which aren't looked at beyond 16,384. `ended` says that no more come.
pub fn sight_of(alloc: Global, bytes: &[u8], ended: bool) -> Sight {
    let first = &bytes[..bytes.len().min(LONGEST_FIRST_LINE)];
    match start_of(first, ended) {
        None => Sight::Waits,
        Some(Start::Lines) => Sight::LetIn,
        Some(Start::Foreign) => Sight::IsRefused(Refused::BadRequest),
        Some(Start::Web) => match rehearse(alloc, bytes) {
            Rehearsal::Succeeds => Sight::LetIn,
            Rehearsal::NeedsMore if !ended && bytes.len() < LONGEST_REQUEST => Sight::Waits,
            Rehearsal::IsFromElsewhere => Sight::IsRefused(Refused::Forbidden),
            Rehearsal::NeedsMore | Rehearsal::Fails => Sight::IsRefused(Refused::BadRequest),
        },
    }
}

/// A connection that isn't let in yet. Its calls wait for nobody.
#[derive(Drop)]
pub struct Caller {
    stream: TcpStream,
    number: usize,
    ended: bool,
}

impl Caller {
    /// A connection with a number of its own, none where its calls can't be kept from waiting.
    pub fn of(stream: TcpStream, number: usize) -> Option<Caller> {
        if stream.set_nonblocking(true).is_err() {
            return None;
        }
        Some(Caller {
            stream,
            number,
            ended: false,
        })
    }

    /// Its connection.
    pub fn stream(&self) -> &TcpStream {
        &self.stream
    }

    /// Its number.
    pub fn number(&self) -> usize {
        self.number
    }

    /// Marks that the peer sends no more.
    pub fn end(&mut self) {
        self.ended = true;
    }

    /// Looks at what it has sent, and takes none of it. The buffer is overwritten.
    pub fn look(&self, alloc: Global, buf: &mut [u8]) -> Sight {
        match self.stream.peek(buf) {
            Ok(0) => Sight::IsGone,
            Ok(count) => sight_of(alloc, &buf[..count], self.ended),
            Err(error) if error.kind() == ErrorKind::WouldBlock && !self.ended => Sight::Waits,
            Err(_) => Sight::IsGone,
        }
    }

    /// Its connection, whose calls wait again; none where that can't be had.
    pub fn let_in(self) -> Option<TcpStream> {
        let Caller { stream, .. } = self;
        if stream.set_nonblocking(false).is_err() {
            return None;
        }
        Some(stream)
    }

    /// Tells it why it isn't let in, and ends the connection. What it has sent is thrown away first: else the system may take back what it was told.
    pub fn refuse(self, refused: Refused, buf: &mut [u8]) {
        let Caller { mut stream, .. } = self;
        let _ = stream.write(text_of(refused));
        let _ = stream.shutdown(Shutdown::Write);
        for _ in 0..LAST_READS {
            match stream.read(buf) {
                Ok(0) | Err(_) => break,
                Ok(_) => {}
            }
        }
    }
}

// What is told.
fn text_of(refused: Refused) -> &'static [u8] {
    match refused {
        Refused::BadRequest => BAD_REQUEST,
        Refused::Forbidden => FORBIDDEN,
    }
}
