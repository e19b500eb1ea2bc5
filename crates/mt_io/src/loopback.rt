//! The port of loopback at which a door listens.
ghost use Rattle.std.specs.Prelude.{◌≡◌, ◌<◌, Bool, true, false, None, Ok, MatchResult};
ghost use Rattle.mt_io.specs.Causes.{HasCause};
ghost use Rattle.mt_io.specs.Door.{GivesLink, listened, took_one};

use crate::admission::Admission;
use crate::source::Failed;
use std::marker::Model;
use std::net::{Ipv4Addr, Net, TcpListener, TcpStream};

/// A port of loopback, for so many sessions. It has the runtime's handle to the network, and a listener once it has listened. An error of
/// either is counted. Before `listen` it has no connection to give. Contracts see it as a `Port`.
#[derive(Drop)]
pub struct Loopback<N> {
    net: N,
    listener: Option<TcpListener>,
    port: u16,
    sessions: u32,
    given: u32,
    back: u32,
    faults: u64,
}

impl<N> Model for Loopback<N> {
    ghost use Rattle.std.specs.Prelude.{◌≤◌, is_some};
    ghost use Rattle.mt_io.specs.Loopback.{Port};

    ghost Value = { Port };

    ghost view = { λ l. record { links = record { port = l.port; sessions = l.sessions; given = l.given; back = l.back }; listens = is_some l.listener; faults = l.faults } };

    ghost invariant = { λ l. (l.back ≤ l.given) × (l.given ≤ l.sessions) };
}

impl<N: Net<Listener = TcpListener, Stream = TcpStream>> Loopback<N> {
    /// It has not listened, and has counted no fault.
    pub fn of(net: N) -> Loopback<N>
        ensures { result ≡ record { links = listened 0 0; listens = false; faults = 0 } }
    {
        Loopback {
            net,
            listener: None,
            port: 0,
            sessions: 0,
            given: 0,
            back: 0,
            faults: 0,
        }
    }

    /// How often it has failed. The count never falls, and stays at `u64::MAX`.
    pub fn faults(&self) -> u64
        ensures { result ≡ self.now.faults }
    {
        self.faults
    }

    /// Listens at a port of loopback, for so many sessions. Where that fails, it stays as it was but for the count of faults.
    pub fn listen(&mut self, port: u16, sessions: u32) -> Result<(), Failed>
        ensures opens { MatchResult result
            (λ _. self.new ≡ record self.old { links = listened port sessions; listens = true })
            (λ _. self.new ≡ record self.old { faults = self.new.faults }) }
        ensures cause { HasCause self.old.faults self.new.faults result }
    {
        match TcpListener::bind(&self.net, (Ipv4Addr::LOCALHOST, port)) {
            Ok(listener) => {
                drop(self.listener.replace(listener));
                self.port = port;
                self.back = 0;
                self.given = 0;
                self.sessions = sessions;
                Ok(())
            }
            Err(_) => {
                self.faults = self.faults.saturating_add(1);
                Err(Failed)
            }
        }
    }

    /// The next connection that is let in, which it waits for; none exactly where as many were given as there are sessions, and then it listens
    /// no more, so that a client that comes later is refused at once. `Failed` comes only where fewer were given and the count of faults rose in
    /// this call.
    pub fn next_stream<A: Admission>(
        &mut self,
        admission: &mut A,
    ) -> Result<Option<TcpStream>, Failed>
        ensures gives { GivesLink self.old.links self.new.links None None result }
        ensures shut { result ≡ Ok None → self.new.listens ≡ false }
        ensures cause { HasCause self.old.faults self.new.faults result }
    {
        if self.given == self.sessions {
            drop(self.listener.take());
            return Ok(None);
        }
        if let Some(listener) = &self.listener {
            if let Some(stream) = admission.next(&self.net, listener) {
                self.given += 1;
                return Ok(Some(stream));
            }
        }
        self.faults = self.faults.saturating_add(1);
        Err(Failed)
    }

    /// One that was given is back. Not all that were given may be.
    pub fn take_back(&mut self)
        requires { self.old.links.back < self.old.links.given }
        ensures { self.new ≡ record self.old { links = took_one self.old.links } }
    {
        self.back += 1;
    }
}
