//! The door of TCP on loopback whose links are line sessions or WebSockets. It tells no content.
ghost use Rattle.std.specs.Prelude.{◌≡◌, None};
ghost use Rattle.mt_io.specs.Door.{listened};

use crate::any_link::AnyLink;
use crate::foyer::Foyer;
use mt_io::{Door, Failed, Loopback};
use std::alloc::Global;
use std::net::{Net, TcpListener, TcpStream};

/// A door to the ports of loopback whose links say by their first bytes what they are. It has the runtime's handle to the network, and a listener
/// from when it has listened until a call of `next_link` answers that no link is left: a client that comes later is refused at once, and those that
/// came and said nothing are dropped. An error of either is counted. Before `listen` it has no link to give.
///
/// A connection is a link once it has spoken: it has sent what begins a line session, or the whole request of a WebSocket that the check of origins
/// lets in. All others are answered by status 400 or 403 and dropped, and are neither links nor faults. Of those that have said nothing yet, or too
/// little to tell, 64 are kept, and when one more comes, the one that has waited longest is dropped. The door looks at the bytes and takes none: the
/// link's first read does, in the session's own thread.
#[derive(Drop)]
pub struct AnyDoor<N> {
    alloc: Global,
    at: Loopback<N>,
    foyer: Foyer,
}

impl<N: Net<Listener = TcpListener, Stream = TcpStream>> AnyDoor<N> {
    /// A new door: it has not listened, and has counted no fault. It takes no memory, and its links take theirs in their first reads, from
    /// this allocator.
    pub fn of(alloc: Global, net: N) -> AnyDoor<N>
        ensures new { ⟦<AnyDoor<N> as Door>⟧.count result ≡ listened 0 0 }
        ensures sound { ⟦<AnyDoor<N> as Door>⟧.faults result ≡ 0 }
    {
        AnyDoor {
            alloc,
            at: Loopback::of(net),
            foyer: Foyer::of(alloc),
        }
    }
}

impl<N: Net<Listener = TcpListener, Stream = TcpStream>> Door for AnyDoor<N> {
    type Link = AnyLink<TcpStream>;

    ghost count = { λ d. d.at.links };

    ghost still = { λ _. None };

    ghost returned = { λ _. None };

    ghost faults = { λ d. d.at.faults };

    fn door_faults(&self) -> u64 {
        self.at.faults()
    }

    fn listen(&mut self, port: u16, sessions: u32) -> Result<(), Failed> {
        self.foyer.close();
        self.at.listen(port, sessions)
    }

    fn next_link(&mut self) -> Result<Option<AnyLink<TcpStream>>, Failed> {
        match self.at.next_stream(&mut self.foyer) {
            Ok(Some(stream)) => Ok(Some(AnyLink::of(self.alloc, stream))),
            Ok(None) => {
                self.foyer.close();
                Ok(None)
            }
            Err(Failed) => Err(Failed),
        }
    }

    fn back(&mut self, link: AnyLink<TcpStream>) {
        drop(link);
        self.at.take_back();
    }
}
