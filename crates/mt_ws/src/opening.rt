//! A stream that is opened by its first read: by its first bytes it is a line session, a WebSocket or neither.
ghost use Rattle.std.specs.Prelude.{◌≡◌, ◌<◌, ◌≤◌, length, take, IfOk};
ghost use Rattle.std.specs.Io.{ReadsAtMost};
ghost use Rattle.mt_ws.specs.Beginning.{ReadsHead};
ghost use Rattle.mt_ws.specs.Opening.{BeginsLink, IsStreamUnread, Opens, ReadsKind, ReadsOpening, WritesKind, WritesOpening, is_foreign as is_refused};
ghost use Rattle.mt_ws.specs.Private.Opening.{IsKindBy, IsWebOrBroken};

use crate::beginning::{LONGEST_FIRST_LINE, Start, start_of};
use crate::front::{Front, read_on};
use crate::half_close::HalfClose;
use crate::rehearsal::copy_of;
use crate::ws_link::WsLink;
use mt_io::{Duplex, Failed, Sink, Source};
use mt_memory::Memory;
use std::alloc::Global;
use std::io;
use std::io::{Read, Write};
use std::mem::replace;

/// What a link is once its first bytes were read.
#[derive(Drop)]
pub enum LinkKind<S> {
    /// A line session.
    Lines(Front<S>),
    /// A WebSocket.
    Web(WsLink<Front<S>>),
    /// The stream ended before its first byte.
    Over,
    /// The stream began as none of these does. It is gone, and so closed.
    Foreign,
    /// Nothing was read yet, the first bytes couldn't be read, no WebSocket could be made, or memory was wanted. The stream is gone, and so
    /// closed, but for one of which nothing was read.
    Broken,
}

/// A stream of which nothing was read, or what its first bytes made of it.
#[derive(Drop)]
pub struct Opening<S> {
    alloc: Global,
    fresh: Option<S>,
    kind: LinkKind<S>,
}

impl<S: Read + Write + Drop> Opening<S> {
    /// A stream of which nothing was read.
    pub fn of(alloc: Global, stream: S) -> Opening<S>
        ensures { IsStreamUnread stream result }
    {
        Opening {
            alloc,
            fresh: Some(stream),
            kind: LinkKind::Broken,
        }
    }

    /// Reads some bytes. The first call reads the first bytes, and makes the handshake of a WebSocket.
    pub fn read(&mut self, buf: &mut [u8]) -> Result<usize, Failed>
        requires { 0 < length buf.old }
        ensures bound { ReadsAtMost result buf.new }
        ensures reads { ReadsOpening S.remaining S.contents self.old self.new buf.new result }
    {
        self.open();
        read_kind(&mut self.kind, buf)
    }

    /// Takes some bytes of a piece. None are taken before the first read.
    pub fn write(&mut self, piece: &[u8]) -> Result<usize, Failed>
        requires { 0 < length piece.now }
        ensures bound { IfOk result (λ count. (0 < count) × (count ≤ length piece.now)) }
        ensures writes { WritesOpening S.remaining S.contents self.old self.new piece.now result }
    {
        write_kind(&mut self.kind, piece)
    }

    /// Whether the stream began neither as lines nor as a WebSocket, and is gone.
    pub fn is_foreign(&self) -> bool
        ensures { result ≡ is_refused self.now.kind }
    {
        matches!(&self.kind, LinkKind::Foreign)
    }

    // Reads the first bytes, where they weren't read yet.
    fn open(&mut self)
        ensures { Opens S.remaining S.contents self.old self.new }
    {
        if let Some(stream) = self.fresh.take() {
            drop(replace(&mut self.kind, begin(self.alloc, stream)));
        }
    }
}

impl<S: HalfClose + Drop> Opening<S> {
    /// Ends the writes of what was opened, and of a stream of which nothing was read.
    pub fn shut(&mut self) {
        if let Some(stream) = &mut self.fresh {
            stream.end_writes();
        }
        match &mut self.kind {
            LinkKind::Lines(stream) => stream.end_writes(),
            LinkKind::Web(link) => link.shut(),
            LinkKind::Over | LinkKind::Foreign | LinkKind::Broken => {}
        }
    }
}

// Reads the first bytes, and makes the handshake where they say so.
fn begin<S: Read + Write + Drop>(alloc: Global, mut stream: S) -> LinkKind<S>
    ensures { BeginsLink S.remaining S.contents stream result }
{
    let mut head = [0; LONGEST_FIRST_LINE];
    match read_head(&mut stream, &mut head) {
        Ok((count, start)) => kind_by(alloc, &head[..count], start, stream),
        Err(_) => LinkKind::Broken,
    }
}

// Reads until the bytes say what the stream is, or none are left; how many there are, and what they say. It reads no more than lies there once they say
// it.
fn read_head<S: Read>(
    stream: &mut S,
    head: &mut [u8; LONGEST_FIRST_LINE],
) -> io::Result<(usize, Option<Start>)>
    ensures short { IfOk result (λ found. found.0 ≤ 8192) }
    ensures head { IfOk result (λ found. ReadsHead (S.remaining stream.old) (S.remaining stream.new) (take found.0 head.new) found.1) }
{
    let mut count = 0;
    while count < LONGEST_FIRST_LINE {
        let more = read_on(stream, &mut head[count..])?;
        if more == 0 {
            return Ok((count, start_of(&head[..count], true)));
        }
        count += more;
        let start = start_of(&head[..count], false);
        if start.is_some() {
            return Ok((count, start));
        }
    }
    unreachable!()
}

// A stream with these bytes put back.
fn front_of<S: Drop>(alloc: Global, head: &[u8], stream: S) -> Result<Front<S>, Memory>
    ensures { IfOk result (λ front. front ≡ record { back = head.now; stream = stream }) }
{
    match copy_of(alloc, head) {
        Ok(back) => Ok(Front::of(back, stream)),
        Err(Memory) => {
            drop(stream);
            Err(Memory)
        }
    }
}

// What the first bytes make of the stream.
fn kind_by<S: Read + Write + Drop>(
    alloc: Global,
    head: &[u8],
    start: Option<Start>,
    stream: S,
) -> LinkKind<S>
    ensures { IsKindBy head.now start stream result }
{
    match start {
        None => LinkKind::Over,
        Some(Start::Foreign) => LinkKind::Foreign,
        Some(Start::Lines) => match front_of(alloc, head, stream) {
            Ok(front) => LinkKind::Lines(front),
            Err(Memory) => LinkKind::Broken,
        },
        Some(Start::Web) => match front_of(alloc, head, stream) {
            Ok(front) => web(alloc, front),
            Err(Memory) => LinkKind::Broken,
        },
    }
}

// Makes the handshake of a WebSocket.
fn web<S: Read + Write + Drop>(alloc: Global, front: Front<S>) -> LinkKind<S>
    ensures { IsWebOrBroken result }
{
    match WsLink::accept(alloc, front) {
        Ok(link) => LinkKind::Web(link),
        Err(_) => LinkKind::Broken,
    }
}

// Reads some bytes of what was opened.
fn read_kind<S: Read + Write + Drop>(
    kind: &mut LinkKind<S>,
    buf: &mut [u8],
) -> Result<usize, Failed>
    requires { 0 < length buf.old }
    ensures bound { ReadsAtMost result buf.new }
    ensures reads { ReadsKind S.remaining S.contents kind.old kind.new buf.new result }
{
    match kind {
        LinkKind::Lines(stream) => match stream.read(buf) {
            Ok(count) => Ok(count),
            Err(_) => Err(Failed),
        },
        LinkKind::Web(link) => link.read_some(buf),
        LinkKind::Over => Ok(0),
        LinkKind::Foreign | LinkKind::Broken => Err(Failed),
    }
}

// Takes some bytes of a piece.
fn write_kind<S: Read + Write + Drop>(kind: &mut LinkKind<S>, piece: &[u8]) -> Result<usize, Failed>
    requires { 0 < length piece.now }
    ensures bound { IfOk result (λ count. (0 < count) × (count ≤ length piece.now)) }
    ensures writes { WritesKind S.remaining S.contents kind.old kind.new piece.now result }
{
    match kind {
        LinkKind::Lines(stream) => match stream.write_some(piece) {
            Ok(0) => Err(Failed),
            Ok(count) => Ok(count),
            Err(_) => Err(Failed),
        },
        LinkKind::Web(link) => link.write_some(piece),
        LinkKind::Over | LinkKind::Foreign | LinkKind::Broken => Err(Failed),
    }
}
