//! Where connections stand until they have said what they are.

use crate::caller::{Caller, LONGEST_REQUEST, Sight};
use mio::unix::SourceFd;
use mio::{Events, Interest, Poll, Token};
use mt_io::{Admission, Arrival, next_arrival};
use mt_memory::Memory;
use std::alloc::Global;
use std::collections::VecDeque;
use std::io;
use std::net::{Net, TcpListener, TcpStream};
use std::os::fd::AsRawFd;

/// How many connections stand here at most.
const PLACES: usize = 64;

/// The listener's token. No connection has this number.
const LISTENER: Token = Token(usize::MAX);

/// What a foyer needs once it is open.
#[derive(Drop)]
struct Room {
    poll: Poll,
    events: Events<Global>,
    callers: VecDeque<Caller>,
    buf: Vec<u8>,
    next: usize,
}

/// Lets in, of those that come to a port, each that has sent what begins a line session, or the whole request of a WebSocket that a page may make.
/// Who asks for something else is answered and dropped. Who has said nothing yet, or too little to tell, stands aside: 64 at most, and when
/// one more comes, the one that has waited longest is dropped. What is looked at is not taken.
#[derive(Drop)]
pub struct Foyer {
    alloc: Global,
    room: Option<Room>,
}

impl Foyer {
    /// With nobody in it. It takes its memory when it is first asked for somebody, from this allocator.
    pub fn of(alloc: Global) -> Foyer {
        Foyer { alloc, room: None }
    }

    /// Drops all that stand here.
    pub fn close(&mut self) {
        drop(self.room.take());
    }
}

impl Admission for Foyer {
    fn next<N: Net<Listener = TcpListener, Stream = TcpStream>>(
        &mut self,
        net: &N,
        listener: &TcpListener,
    ) -> Option<TcpStream> {
        if self.room.is_none() {
            match opened(self.alloc, net, listener) {
                Ok(room) => drop(self.room.replace(room)),
                Err(_) => return None,
            }
        }
        match &mut self.room {
            Some(room) => room.next(self.alloc, listener),
            None => None,
        }
    }
}

// The room of a foyer, with the listener among what it waits for.
fn opened<N: Net<Listener = TcpListener, Stream = TcpStream>>(
    alloc: Global,
    net: &N,
    listener: &TcpListener,
) -> io::Result<Room> {
    listener.set_nonblocking(true)?;
    let poll = Poll::new(net)?;
    let descriptor = listener.as_raw_fd();
    poll.registry()
        .register(&mut SourceFd(&descriptor), LISTENER, Interest::READABLE)?;
    match furnished(alloc, poll) {
        Ok(room) => Ok(room),
        Err(Memory) => Err(io::Error::from(io::ErrorKind::OutOfMemory)),
    }
}

// The room over what waits.
fn furnished(alloc: Global, poll: Poll) -> Result<Room, Memory> {
    Ok(Room {
        poll,
        events: Events::with_capacity(alloc, PLACES + 1)?,
        callers: VecDeque::with_capacity(alloc, PLACES)?,
        buf: Vec::from_elem(alloc, 0, LONGEST_REQUEST)?,
        next: 0,
    })
}

impl Room {
    // The next connection that is let in, which it waits for. None where the listener, or the waiting, failed.
    fn next(&mut self, alloc: Global, listener: &TcpListener) -> Option<TcpStream> {
        for _ in 0..u64::MAX {
            if let Some(stream) = self.first_let_in(alloc) {
                return Some(stream);
            }
            match next_arrival(listener) {
                Arrival::One(stream) => self.take(stream),
                Arrival::Gone => {}
                Arrival::NoneYet => {
                    if self.wait().is_err() {
                        return None;
                    }
                }
                Arrival::Broken => return None,
            }
        }
        None
    }

    // Looks at all in the order in which they came. Of those that may come in the first one does, and the others stay.
    fn first_let_in(&mut self, alloc: Global) -> Option<TcpStream> {
        let mut first = None;
        for _ in 0..self.callers.len() {
            let Some(caller) = self.callers.pop_front() else {
                break;
            };
            if first.is_some() {
                drop(self.callers.push_back(caller));
            } else {
                first = self.looked_at(alloc, caller);
            }
        }
        first
    }

    // Looks at one. It comes in, stays, or is dropped.
    fn looked_at(&mut self, alloc: Global, caller: Caller) -> Option<TcpStream> {
        match caller.look(alloc, &mut self.buf) {
            Sight::LetIn => self.let_in(caller),
            Sight::Waits => {
                drop(self.callers.push_back(caller));
                None
            }
            Sight::IsRefused(refused) => {
                caller.refuse(refused, &mut self.buf);
                None
            }
            Sight::IsGone => None,
        }
    }

    // Lets one in. Nothing that it sends is waited for here any more.
    fn let_in(&mut self, caller: Caller) -> Option<TcpStream> {
        let descriptor = caller.stream().as_raw_fd();
        let _ = self.poll.registry().deregister(&mut SourceFd(&descriptor));
        caller.let_in()
    }

    // One more stands here, and what it sends is waited for. Where all places are taken, the one that has waited longest is dropped.
    fn take(&mut self, stream: TcpStream) {
        if self.callers.len() >= PLACES {
            drop(self.callers.pop_front());
        }
        let number = self.next;
        self.next = if number < usize::MAX - 1 {
            number + 1
        } else {
            0
        };
        let Some(caller) = Caller::of(stream, number) else {
            return;
        };
        let descriptor = caller.stream().as_raw_fd();
        let registered = self.poll.registry().register(
            &mut SourceFd(&descriptor),
            Token(number),
            Interest::READABLE,
        );
        if registered.is_ok() {
            drop(self.callers.push_back(caller));
        }
    }

    // Waits until one comes, sends more or ends.
    fn wait(&mut self) -> io::Result<()> {
        self.poll.poll(&mut self.events, None)?;
        for event in self.events.iter() {
            if event.is_read_closed() {
                mark_end(&mut self.callers, event.token());
            }
        }
        Ok(())
    }
}

// Marks that the connection of this token sends no more.
fn mark_end(callers: &mut VecDeque<Caller>, token: Token) {
    for caller in callers.iter_mut() {
        if caller.number() == token.0 {
            caller.end();
        }
    }
}
