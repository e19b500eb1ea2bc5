//! Replies on their way out.
ghost use Rattle.std.specs.Prelude.{◌≡◌, ◌<◌, ◌≤◌, [], false, length, true, IfOk, OnErr, OnOk, vec_capacity};
ghost use Rattle.std.specs.Io.KnownBytes.{Appends};
ghost use Rattle.mt_io.specs.Causes.{HasCause};
ghost use Rattle.mt_io.specs.Writing.{AppendsFront};
ghost use Rattle.mt_lines.specs.Fit.{IsFit};
ghost use Rattle.mt_lines.specs.Waiting.{GivesAfter, LeavesWaiting};

use crate::waiting::{ROOM, Waiting};
use mt_base::Memory;
use mt_io::{Sink, WriteFault};
use mt_write::Reply;
use std::alloc::Global;
use std::marker::Model;

/// The replies that wait to be written, at most 65,536 bytes of them, and the room in which a brief reply is made. It is seen as the bytes that
/// wait.
#[derive(Drop)]
pub struct Outgoing {
    waiting: Waiting,
    room: Vec<u8>,
}

impl Model for Outgoing {
    ghost use Rattle.std.specs.Prelude.{◌≤◌, ℕ, List, vec_capacity};
    ghost use Rattle.mt_lines.specs.Private.Waits.{waits};

    ghost Value = { List ℕ };

    ghost view = { λ o. waits o.waiting };

    ghost invariant = { λ o. 65536 ≤ vec_capacity o.room };
}

impl Outgoing {
    /// None waits. It takes all its memory here.
    pub fn make(alloc: Global) -> Result<Outgoing, Memory>
        ensures { IfOk result (λ outgoing. outgoing ≡ []) }
    {
        Ok(Outgoing {
            waiting: Waiting::make(alloc)?,
            room: Vec::with_capacity(alloc, ROOM)?,
        })
    }

    /// The room, which has 65,536 bytes. What waits is let go.
    pub fn into_room(self) -> Vec<u8>
        ensures { 65536 ≤ vec_capacity result }
    {
        let Outgoing {
            waiting: _waiting,
            room,
        } = self;
        room
    }

    /// Writes all that waits. `WriteFault` comes only where something waits and the output's count of faults rose in this call, or stands at its
    /// last value; then a front of what waited was written, and the rest is lost.
    pub fn flush<K: Sink>(&mut self, output: &mut K) -> Result<(), WriteFault>
        ensures ok { OnOk result (Appends (K.held output.old) (K.held output.new) self.old) }
        ensures err { OnErr result ((0 < length self.old) × AppendsFront (K.held output.old) (K.held output.new) self.old) }
        ensures none { self.new ≡ [] }
        ensures cause { HasCause (K.faults output.old) (K.faults output.new) result }
        ensures kept { K.writes_to output.old output.new }
    {
        self.waiting.flush(output)
    }

    /// Writes what waits, unless it may wait. It fails as `flush` does.
    pub fn ready<K: Sink>(&mut self, may_wait: bool, output: &mut K) -> Result<(), WriteFault>
        ensures ok { OnOk result (LeavesWaiting (K.held output.old) (K.held output.new) self.old self.new) }
        ensures idle { OnOk result (may_wait ≡ false → self.new ≡ []) }
        ensures err { OnErr result ((0 < length self.old) × AppendsFront (K.held output.old) (K.held output.new) self.old) }
        ensures lost { OnErr result (self.new ≡ []) }
        ensures cause { HasCause (K.faults output.old) (K.faults output.new) result }
        ensures kept { K.writes_to output.old output.new }
    {
        if may_wait {
            return Ok(());
        }
        self.flush(output)
    }

    /// Gives a reply after those that wait: its text, or that of `memory` where a text that isn't brief finds none. Says whether it was the last
    /// one. What waits is written where the text finds no room after it, or is long; a long text is written then. Where something follows the
    /// reply, all is written then.
    ///
    /// `WriteFault` comes only where the output's count of faults rose in this call, or stands at its last value; then a front of what waited and
    /// of the text was written. A reply that is brief wants no memory.
    pub fn give<K: Sink>(
        &mut self,
        alloc: Global,
        reply: &Reply,
        is_followed: bool,
        output: &mut K,
    ) -> Result<bool, WriteFault>
        requires fit { IsFit reply.now }
        ensures given { GivesAfter reply.now result self.old self.new (K.held output.old) (K.held output.new) }
        ensures lost { OnErr result (self.new ≡ []) }
        ensures written { OnOk result (is_followed ≡ true → self.new ≡ []) }
        ensures cause { HasCause (K.faults output.old) (K.faults output.new) result }
        ensures kept { K.writes_to output.old output.new }
    {
        let is_last = self.add(alloc, reply, output)?;
        self.ready(!is_followed, output)?;
        Ok(is_last)
    }

    // Gives a reply after those that wait.
    fn add<K: Sink>(
        &mut self,
        alloc: Global,
        reply: &Reply,
        output: &mut K,
    ) -> Result<bool, WriteFault>
        requires fit { IsFit reply.now }
        ensures given { GivesAfter reply.now result self.old self.new (K.held output.old) (K.held output.new) }
        ensures lost { OnErr result (self.new ≡ []) }
        ensures cause { HasCause (K.faults output.old) (K.faults output.new) result }
        ensures kept { K.writes_to output.old output.new }
    {
        self.waiting.give(alloc, reply, &mut self.room, output)
    }
}
