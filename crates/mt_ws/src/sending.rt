//! A line on its way to a message: cutting a piece where the line ends, and sending a line as one message.
ghost use Rattle.std.specs.Prelude.{◌≡◌, ◌≢◌, ◌<◌, ℕ, length, slice_index, EachIndex, IfOk, MatchOption};
ghost use Rattle.tungstenite.specs.Socket.{content_of};
ghost use Rattle.mt_ws.specs.Messages.{line_content};
ghost use Rattle.mt_ws.specs.Linking.{Cuts, SendsMessage};

use crate::cause::WsCause;
use crate::pull::is_memory;
use mt_memory::Memory;
use std::alloc::Global;
use std::io::{Read, Write};
use tungstenite::{Message, NoMask, WebSocket};

// The message of a line: text where it is UTF-8, and else binary.
fn message_of(alloc: Global, line: &[u8]) -> Result<Message, Memory>
    ensures { IfOk result (λ m. content_of m ≡ line_content line.now) }
{
    match str::from_utf8(line) {
        Ok(text) => Ok(Message::text(alloc, text)?),
        Err(_) => Ok(Message::binary(alloc, line)?),
    }
}

// The place of the first 0x0A, if there is one.
fn break_in(bytes: &[u8]) -> Option<usize>
    ensures { MatchOption result
        (EachIndex bytes.now (λ k. slice_index bytes.now k ≢ 10))
        (λ place. (place < length bytes.now) × (slice_index bytes.now place ≡ 10) × ((k : ℕ) → k < place → slice_index bytes.now k ≢ 10)) }
{
    bytes.iter().position(|byte| *byte == b'\n')
}

/// A piece up to its first 0x0A, which is left out, or all of it; and whether there was one.
pub fn cut(piece: &[u8]) -> (&[u8], bool)
    ensures { Cuts piece.now result.0.now result.1 }
{
    match break_in(piece) {
        Some(place) => (&piece[..place], true),
        None => (piece, false),
    }
}

/// Sends a line, which is given without its 0x0A, as one message: text where it is UTF-8, and else binary. Without memory the socket is as
/// it was.
pub fn send_line<S: Read + Write + Drop>(
    alloc: Global,
    socket: &mut WebSocket<S, NoMask>,
    line: &[u8],
) -> Result<(), WsCause>
    ensures { SendsMessage S.remaining S.contents socket.old socket.new line.now result }
{
    let message = match message_of(alloc, line) {
        Ok(message) => message,
        Err(_) => return Err(WsCause::Memory),
    };
    match socket.send(message) {
        Ok(()) => Ok(()),
        Err(error) => {
            if is_memory(&error) {
                drop(error);
                return Err(WsCause::Memory);
            }
            Err(WsCause::Send(error))
        }
    }
}
