//! Replies that wait to be written.
ghost use Rattle.std.specs.Prelude.{◌≡◌, ◌<◌, ◌≤◌, ◌+◌, [], ◌++◌, length, IfOk, OnErr, OnOk, vec_capacity, vec_len};
ghost use Rattle.std.specs.Io.KnownBytes.{Appends};
ghost use Rattle.mt_io.specs.Causes.{HasCause};
ghost use Rattle.mt_io.specs.Writing.{AppendsFront};
ghost use Rattle.mt_lines.specs.Fit.{IsFit};
ghost use Rattle.mt_lines.specs.Waiting.{GivesAfter, LeavesWaiting};

use crate::given_text::text_of;
use mt_base::Memory;
use mt_io::{Sink, WriteFault, put_all};
use mt_write::Reply;
use std::alloc::Global;

/// How many bytes of replies may wait, and how many a reply that follows a change may have.
pub(crate) const ROOM: usize = 65_536;

/// The bytes from which on a text doesn't wait: a write of its own costs less than a copy of it.
const LONG: usize = 8_192;

/// Replies that were given and not yet written, at most 65,536 bytes of them, in the order in which they were given. After a fault none waits: what
/// was not written is lost.
#[derive(Drop)]
pub(crate) struct Waiting {
    bytes: Vec<u8>,
    ghost room: { 65536 ≤ vec_capacity bytes },
    ghost few: { vec_len bytes ≤ 65536 },
}

impl Waiting {
    ghost use Rattle.mt_lines.specs.Private.Waits.{waits};

    /// None waits. It takes all its memory here.
    pub(crate) fn make(alloc: Global) -> Result<Waiting, Memory>
        ensures { IfOk result (λ waiting. waits waiting ≡ []) }
    {
        Ok(Waiting {
            bytes: Vec::with_capacity(alloc, ROOM)?,
        })
    }

    /// Gives a reply after those that wait: its text, or that of `memory` where a text that isn't brief finds none. Says whether it was the last
    /// one. What waits is written where the text finds no room after it, or is long; a long text is written then.
    ///
    /// `WriteFault` comes only where the output's count of faults rose in this call, or stands at its last value; then a front of what waited and
    /// of the text was written. A reply that is brief is made in the room, which is to have 65,536 bytes: it wants no memory.
    pub(crate) fn give<K: Sink>(
        &mut self,
        alloc: Global,
        reply: &Reply,
        room: &mut Vec<u8>,
        output: &mut K,
    ) -> Result<bool, WriteFault>
        requires room { 65536 ≤ vec_capacity room.old }
        requires fit { IsFit reply.now }
        ensures given { GivesAfter reply.now result (waits self.old) (waits self.new) (K.held output.old) (K.held output.new) }
        ensures lost { OnErr result (waits self.new ≡ []) }
        ensures room { 65536 ≤ vec_capacity room.new }
        ensures cause { HasCause (K.faults output.old) (K.faults output.new) result }
        ensures kept { K.writes_to output.old output.new }
    {
        let text = text_of(alloc, reply, room);
        self.put(text.bytes(room), output)?;
        Ok(text.is_last)
    }

    /// Writes all that waits. It fails as `give` does, and only where something waits.
    pub(crate) fn flush<K: Sink>(&mut self, output: &mut K) -> Result<(), WriteFault>
        ensures ok { OnOk result (Appends (K.held output.old) (K.held output.new) (waits self.old)) }
        ensures err { OnErr result ((0 < length (waits self.old)) × AppendsFront (K.held output.old) (K.held output.new) (waits self.old)) }
        ensures none { waits self.new ≡ [] }
        ensures cause { HasCause (K.faults output.old) (K.faults output.new) result }
        ensures kept { K.writes_to output.old output.new }
    {
        if self.bytes.is_empty() {
            return Ok(());
        }
        let written = put_all(output, &self.bytes);
        self.bytes.clear();
        written
    }

    // Puts a text after what waits.
    fn put<K: Sink>(&mut self, text: &[u8], output: &mut K) -> Result<(), WriteFault>
        ensures ok { OnOk result (LeavesWaiting (K.held output.old) (K.held output.new) (waits self.old ++ text.now) (waits self.new)) }
        ensures err { OnErr result (AppendsFront (K.held output.old) (K.held output.new) (waits self.old ++ text.now)) }
        ensures lost { OnErr result (waits self.new ≡ []) }
        ensures cause { HasCause (K.faults output.old) (K.faults output.new) result }
        ensures kept { K.writes_to output.old output.new }
    {
        if text.len() < LONG && text.len() <= ROOM - self.bytes.len() {
            self.add(text);
            return Ok(());
        }
        self.flush(output)?;
        if text.len() < LONG {
            self.add(text);
            return Ok(());
        }
        put_all(output, text)
    }

    // Adds a text for which there is room.
    fn add(&mut self, text: &[u8])
        requires { length (waits self.old) + length text.now ≤ 65536 }
        ensures { waits self.new ≡ waits self.old ++ text.now }
    {
        match self.bytes.extend_from_slice(text) {
            Ok(()) => {}
            Err(_) => unreachable!(),
        }
    }
}
