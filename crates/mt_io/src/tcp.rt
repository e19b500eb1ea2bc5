//! The door and the links of TCP on loopback. They tell no content.
ghost use Rattle.std.specs.Prelude.{◌≡◌, ◌≤◌, None};
ghost use Rattle.mt_io.specs.Door.{listened};

use crate::admission::FirstCome;
use crate::door::Door;
use crate::duplex::Duplex;
use crate::loopback::Loopback;
use crate::sink::Sink;
use crate::source::{Failed, Source};
use std::io::{ErrorKind, Read, Write};
use std::net::{Net, Shutdown, TcpListener, TcpStream};

/// A connection, with the counts of the errors that it gave at reads and at writes. A write that took nothing counts as one.
#[derive(Drop)]
pub struct TcpLink {
    stream: TcpStream,
    reads: u64,
    writes: u64,
}

impl TcpLink {
    /// A connection, with no fault counted.
    pub fn of(stream: TcpStream) -> TcpLink
        ensures { (⟦<TcpLink as Source>⟧.faults result ≡ 0) × (⟦<TcpLink as Sink>⟧.faults result ≡ 0) }
    {
        TcpLink {
            stream,
            reads: 0,
            writes: 0,
        }
    }
}

impl Source for TcpLink {
    ghost use Rattle.std.specs.Prelude.{refl};
    ghost use Rattle.std.proofs.Common.{◌∙◌};

    ghost left = { λ _. None };

    ghost faults = { λ l. l.reads };

    ghost reads_to = { λ a b. b.writes ≡ a.writes };

    fn read_faults(&self) -> u64 {
        self.reads
    }

    fn read_some(&mut self, buf: &mut [u8]) -> Result<usize, Failed> {
        for _ in 0..u64::MAX {
            match self.stream.read(buf) {
                Ok(count) => return Ok(count),
                Err(error) if error.kind() == ErrorKind::Interrupted => {}
                Err(_) => break,
            }
        }
        self.reads = self.reads.saturating_add(1);
        Err(Failed)
    }

    ghost reads_to_itself = { λ s. refl };

    ghost reads_on = { λ a b c ab bc. bc ∙ ab };
}

impl Sink for TcpLink {
    ghost use Rattle.std.specs.Prelude.{refl};
    ghost use Rattle.std.proofs.Common.{◌∙◌};

    ghost held = { λ _. None };

    ghost faults = { λ l. l.writes };

    ghost writes_to = { λ a b. b.reads ≡ a.reads };

    fn write_faults(&self) -> u64 {
        self.writes
    }

    fn write_some(&mut self, piece: &[u8]) -> Result<usize, Failed> {
        for _ in 0..u64::MAX {
            match self.stream.write(piece) {
                Ok(0) => break,
                Ok(count) => return Ok(count),
                Err(error) if error.kind() == ErrorKind::Interrupted => {}
                Err(_) => break,
            }
        }
        self.writes = self.writes.saturating_add(1);
        Err(Failed)
    }

    ghost writes_to_itself = { λ s. refl };

    ghost writes_on = { λ a b c ab bc. bc ∙ ab };
}

impl Duplex for TcpLink {
    ghost use Rattle.std.specs.Prelude.{refl};
    ghost use Rattle.std.proofs.Common.{arith};

    ghost shuts_to = { λ a b. (b.reads ≡ a.reads) × (b.writes ≡ a.writes) };

    fn shut(&mut self) {
        let _ = self.stream.shutdown(Shutdown::Write);
    }

    ghost reading_keeps_held = { λ a b same. refl };

    ghost reading_keeps_count = { λ a b same. Prim.omega (arith, same) };

    ghost writing_keeps_left = { λ a b same. refl };

    ghost writing_keeps_count = { λ a b same. Prim.omega (arith, same) };

    ghost shutting_keeps_bytes = { λ a b same. (refl, refl) };

    ghost shutting_keeps_counts = { λ a b same. same };
}

/// A door to the ports of loopback. It has the runtime's handle to the network, and a listener from when it has listened until a call of
/// `next_link` answers that no link is left: a client that comes later is refused at once. An error of either is counted. Before `listen` it has
/// no link to give.
#[derive(Drop)]
pub struct TcpDoor<N> {
    at: Loopback<N>,
}

impl<N: Net<Listener = TcpListener, Stream = TcpStream>> TcpDoor<N> {
    /// A new door: it has not listened, and has counted no fault.
    pub fn of(net: N) -> TcpDoor<N>
        ensures new { ⟦<TcpDoor<N> as Door>⟧.count result ≡ listened 0 0 }
        ensures sound { ⟦<TcpDoor<N> as Door>⟧.faults result ≡ 0 }
    {
        TcpDoor {
            at: Loopback::of(net),
        }
    }
}

impl<N: Net<Listener = TcpListener, Stream = TcpStream>> Door for TcpDoor<N> {
    type Link = TcpLink;

    ghost count = { λ d. d.at.links };

    ghost still = { λ _. None };

    ghost returned = { λ _. None };

    ghost faults = { λ d. d.at.faults };

    fn door_faults(&self) -> u64 {
        self.at.faults()
    }

    fn listen(&mut self, port: u16, sessions: u32) -> Result<(), Failed> {
        self.at.listen(port, sessions)
    }

    fn next_link(&mut self) -> Result<Option<TcpLink>, Failed> {
        match self.at.next_stream(&mut FirstCome) {
            Ok(Some(stream)) => Ok(Some(TcpLink::of(stream))),
            Ok(None) => Ok(None),
            Err(Failed) => Err(Failed),
        }
    }

    fn back(&mut self, link: TcpLink) {
        drop(link);
        self.at.take_back();
    }
}
