//! A handshake on the bytes that have come, before the connection is let in.

ghost use Rattle.std.specs.Prelude.{◌≡◌, IfOk};

use crate::origin::LocalPages;
use mt_memory::Memory;
use std::alloc::Global;
use std::io::Cursor;
use tungstenite::handshake::HandshakeError;
use tungstenite::handshake::server::start;
use tungstenite::{Duplex, Error};

/// What would come of a handshake.
#[derive(Clone, Copy, Debug, PartialEq, Eq)]
pub enum Rehearsal {
    /// It would succeed.
    Succeeds,
    /// The request isn't whole yet.
    NeedsMore,
    /// The page that asks is from elsewhere than this machine.
    IsFromElsewhere,
    /// It asks for no WebSocket, or isn't in order, or memory was wanted.
    Fails,
}

/// What would come of a handshake with a client that has sent these bytes. Nothing is sent.
pub fn rehearse(alloc: Global, bytes: &[u8]) -> Rehearsal {
    let Ok(said) = copy_of(alloc, bytes) else {
        return Rehearsal::Fails;
    };
    let stream = Duplex {
        reader: Cursor::new(said),
        writer: Vec::new(alloc),
    };
    match start(alloc, stream, LocalPages::of(alloc), None).handshake() {
        Ok(socket) => {
            drop(socket);
            Rehearsal::Succeeds
        }
        Err(error) => {
            let rehearsal = match &error {
                HandshakeError::Failure(Error::HandshakeIncomplete) => Rehearsal::NeedsMore,
                HandshakeError::Failure(Error::Refused(_)) => Rehearsal::IsFromElsewhere,
                _ => Rehearsal::Fails,
            };
            drop(error);
            rehearsal
        }
    }
}

/// The same bytes.
pub fn copy_of(alloc: Global, bytes: &[u8]) -> Result<Vec<u8>, Memory>
    ensures { IfOk result (λ copy. copy.items ≡ bytes.now) }
{
    let mut copy = Vec::with_capacity(alloc, bytes.len())?;
    copy.extend_from_slice(bytes)?;
    Ok(copy)
}
