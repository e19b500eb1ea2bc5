//! The next message of a socket that is no ping and no pong.
ghost use Rattle.std.specs.Prelude.{◌≡◌};
ghost use Rattle.mt_ws.specs.Messages.{is_memory as is_want, is_after_close as is_closing, is_beat as beats};
ghost use Rattle.mt_ws.specs.Pulling.{IsSent};
ghost use Rattle.mt_ws.specs.Private.Pulling.{Pulls};
ghost use Rattle.tungstenite.specs.Socket.{Flushed};

use crate::cause::WsCause;
use std::io::{Read, Write};
use tungstenite::{Error, Message, NoMask, WebSocket};

/// How many pings and pongs are passed over in one call.
const BEATS: u32 = 4_096;

/// What the reads of a socket came to.
#[derive(Debug, Drop)]
pub enum Pulled {
    /// A text or a binary message.
    Data(Message),
    /// A close was read, or the socket was closed before; and why the reply to the close couldn't be sent, where it couldn't.
    End(Option<Error>),
    /// A read failed, or too many pings and pongs came.
    Fault(WsCause),
}

/// Reads until a text, a binary message or a close comes. After a close it flushes the socket once, so that the reply to the close leaves.
pub fn pull<S: Read + Write + Drop>(socket: &mut WebSocket<S, NoMask>) -> Pulled
    ensures { Pulls S.remaining S.contents socket.old socket.new result }
{
    for _ in 0..=BEATS {
        let message = match socket.read() {
            Ok(message) => message,
            Err(error) => {
                return if is_closed(&error) {
                    drop(error);
                    Pulled::End(None)
                } else if is_memory(&error) {
                    drop(error);
                    Pulled::Fault(WsCause::Memory)
                } else {
                    Pulled::Fault(WsCause::Read(error))
                };
            }
        };
        if message.is_close() {
            drop(message);
            // The reply to a close waits until then. The end is met whether or not it gets there.
            return Pulled::End(send_waiting(socket));
        }
        if !is_beat(&message) {
            return Pulled::Data(message);
        }
        drop(message);
    }
    Pulled::Fault(WsCause::Pings)
}

// Sends what waits, the reply to a close with it. Says why it couldn't.
fn send_waiting<S: Read + Write + Drop>(socket: &mut WebSocket<S, NoMask>) -> Option<Error>
    ensures sent { Flushed S.contents socket.old socket.new }
    ensures all { IsSent S.remaining S.contents result socket.new }
{
    match socket.flush() {
        Ok(()) => None,
        Err(error) => Some(error),
    }
}

/// Whether there was no memory.
pub fn is_memory(error: &Error) -> bool
    ensures { result ≡ is_want error.now }
{
    matches!(error, Error::OutOfMemory)
}

// Whether this comes after a close.
fn is_closed(error: &Error) -> bool
    ensures { result ≡ is_closing error.now }
{
    matches!(error, Error::ConnectionClosed)
}

// Whether this is a ping or a pong.
fn is_beat(message: &Message) -> bool
    ensures { result ≡ beats message.now }
{
    matches!(message, Message::Ping(_) | Message::Pong(_))
}
