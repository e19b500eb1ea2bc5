//! What is left of a message.
ghost use Rattle.std.specs.Prelude.{◌≡◌, ◌<◌, ◌≤◌, ◌↔◌, ◌++◌, [], length, take, IsTrue};
ghost use Rattle.mt_ws.specs.Messages.{payload_of, is_unended as is_open_text, with_ending};
ghost use Rattle.mt_ws.specs.Private.Messages.{bytes_in};

use std::marker::Model;
use tungstenite::Message;

/// The bytes of a message that weren't given yet, and the 0x0A after them, if that is to be added and wasn't given either. Contracts see it
/// as the list of these bytes. It copies nothing.
#[derive(Drop)]
pub struct Ungiven {
    message: Option<Message>,
    at: usize,
    unended: bool,
}

impl Model for Ungiven {
    ghost use Rattle.std.specs.Prelude.{◌≤◌, ◌++◌, ℕ, List, drop, length};
    ghost use Rattle.mt_ws.specs.Private.Messages.{bytes_in};
    ghost use Rattle.mt_io.specs.Gathering.{ending_of};

    ghost Value = { List ℕ };

    ghost view = { λ i. drop i.at (bytes_in i.message) ++ ending_of i.unended };

    ghost invariant = { λ i. i.at ≤ length (bytes_in i.message) };
}

impl Ungiven {
    /// Nothing.
    pub fn none() -> Ungiven
        ensures { result ≡ [] }
    {
        Ungiven {
            message: None,
            at: 0,
            unended: false,
        }
    }

    /// All of a text or binary message, ended by a 0x0A.
    pub fn of(message: Message) -> Ungiven
        ensures { result ≡ with_ending (payload_of message) }
    {
        let unended = is_open(payload(&message));
        Ungiven {
            message: Some(message),
            at: 0,
            unended,
        }
    }

    /// Whether nothing is left.
    pub fn is_empty(&self) -> bool
        ensures { IsTrue result ↔ (self.now ≡ []) }
    {
        !self.unended && self.at == bytes_of(&self.message).len()
    }

    /// Gives some bytes to the front of the buffer, one at least, and says how many.
    pub fn give(&mut self, buf: &mut [u8]) -> usize
        requires room { 0 < length buf.old }
        requires some { 0 < length self.old }
        ensures bound { (0 < result) × (result ≤ length buf.new) }
        ensures bytes { self.old ≡ take result buf.new ++ self.new }
    {
        let rest = &bytes_of(&self.message)[self.at..];
        if rest.is_empty() {
            buf[0] = b'\n';
            self.unended = false;
            return 1;
        }
        let count = rest.len().min(buf.len());
        buf[..count].copy_from_slice(&rest[..count]);
        self.at += count;
        count
    }
}

// The bytes of a message, or none.
fn bytes_of(message: &Option<Message>) -> &[u8]
    ensures { result.now ≡ bytes_in message.now }
{
    match message {
        Some(message) => payload(message),
        None => &[],
    }
}

// The bytes of a text or a binary message.
fn payload(message: &Message) -> &[u8]
    ensures { result.now ≡ payload_of message.now }
{
    match message {
        Message::Text(text) => text.as_str().as_bytes(),
        Message::Binary(bytes) => bytes.as_slice(),
        _ => &[],
    }
}

// Whether no 0x0A stands at the end.
fn is_open(bytes: &[u8]) -> bool
    ensures { result ≡ is_open_text bytes.now }
{
    bytes.is_empty() || bytes[bytes.len() - 1] != b'\n'
}
