//! Who is let in of those that come to a port.

use std::io;
use std::io::ErrorKind;
use std::net::{Net, TcpListener, TcpStream};

/// The errors of `accept(2)` on Linux that belong to the new connection, by its manual: a firewall forbids it (`EPERM`), or the network had an error for
/// it (`ENONET`, `EPROTO`, `ENOPROTOOPT`, `EOPNOTSUPP`, `ENETDOWN`, `ENETUNREACH`, `ECONNABORTED`, `EHOSTDOWN`, `EHOSTUNREACH`).
const OF_ONE_CONNECTION: [i32; 10] = [1, 64, 71, 92, 95, 100, 101, 103, 112, 113];

/// Says which connection is served next.
pub trait Admission {
    /// The next connection of a listener that is let in, which it waits for. None where the listener failed.
    fn next<N: Net<Listener = TcpListener, Stream = TcpStream>>(
        &mut self,
        net: &N,
        listener: &TcpListener,
    ) -> Option<TcpStream>;
}

/// Each is let in, as they come.
#[derive(Drop)]
pub struct FirstCome;

impl Admission for FirstCome {
    fn next<N: Net<Listener = TcpListener, Stream = TcpStream>>(
        &mut self,
        _net: &N,
        listener: &TcpListener,
    ) -> Option<TcpStream> {
        for _ in 0..u64::MAX {
            match next_arrival(listener) {
                Arrival::One(stream) => return Some(stream),
                Arrival::Gone => {}
                Arrival::NoneYet | Arrival::Broken => break,
            }
        }
        None
    }
}

/// What a call for the next connection of a listener comes to.
#[derive(Drop)]
pub enum Arrival {
    /// A connection. What is written to it is sent at once, as a reply should be, where the system takes that wish.
    One(TcpStream),
    /// A connection that was over before it was taken, or a call that a signal ended. Another call may give one.
    Gone,
    /// None has come, and the listener doesn't wait for one.
    NoneYet,
    /// The listener failed.
    Broken,
}

/// Takes the next connection of a listener. The errors that belong to one connection aren't those of the listener.
pub fn next_arrival(listener: &TcpListener) -> Arrival {
    match listener.accept() {
        Ok((stream, _)) => {
            let _ = stream.set_nodelay(true);
            Arrival::One(stream)
        }
        Err(error) => refused(&error),
    }
}

// What an error at the taking of a connection says.
fn refused(error: &io::Error) -> Arrival {
    match error.kind() {
        ErrorKind::WouldBlock => Arrival::NoneYet,
        ErrorKind::Interrupted => Arrival::Gone,
        _ => match error.raw_os_error() {
            Some(code) if OF_ONE_CONNECTION.contains(&code) => Arrival::Gone,
            _ => Arrival::Broken,
        },
    }
}
