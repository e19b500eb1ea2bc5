//! A line for a standby, and its reply.
ghost use Rattle.std.specs.Prelude.{◌⊎◌, ◌≤◌, length};
ghost use Rattle.mt_history.specs.Rebuilt.{IsReadyToDecide};
ghost use Rattle.mt_lines.specs.Fit.{IsFit};
ghost use Rattle.mt_read.specs.declared.request.Request.TheVariants as requests;
ghost use Rattle.mt_standby.specs.Standby.{IsEntryAnswered, IsStandbyReplied, standby_world};
ghost use Rattle.mt_world.specs.World.{IsRefused, IsServed};
ghost use Rattle.mt_write.specs.declared.reply.Reply.TheVariants as replies;

use crate::standby::Standby;
use crate::telling::followed;
use mt_base::Entry;
use mt_board::Ask;
use mt_lines::unread;
use mt_read::{FeedLine, Scratch, read_feed};
use mt_world::tell;
use mt_write::{DoneWord, Reply};
use std::thread::Threads;

impl Standby {
    /// Answers a line of at most 65,536 bytes: an entry that it is to follow, or a line that asks what holds. The definition is
    /// `IsStandbyReplied`. A text with an escape goes into `scratch`, which is kept from line to line.
    pub fn answer<R: Threads + Sync>(&mut self, rt: &R, scratch: &mut Scratch, line: &[u8]) -> Reply
        requires { length line.now ≤ 65536 }
        ensures replied { IsStandbyReplied (standby_world self.old) line.now result (standby_world self.new) }
        ensures fit { IsFit result }
    {
        match read_feed(self.alloc, scratch, line) {
            Ok(FeedLine::Followed(entry)) => self.enter(&entry),
            Ok(FeedLine::Asked(ask)) => self.tell(rt, &ask),
            Ok(FeedLine::Ended) => Reply::Done(DoneWord::Bye),
            Err(no) => unread(no),
        }
    }

    // Follows an entry, and says so.
    fn enter(&mut self, entry: &Entry) -> Reply
        requires { IsReadyToDecide entry.now }
        ensures followed { IsEntryAnswered (standby_world self.old) entry.now result (standby_world self.new)
            ⊎ IsRefused (standby_world self.old) replies.Memory result (standby_world self.new) }
        ensures fit { IsFit result }
    {
        followed(self.follow(entry))
    }

    // Tells what holds.
    fn tell<R: Threads + Sync>(&self, rt: &R, ask: &Ask) -> Reply
        ensures told { IsServed (standby_world self.now) 0 (requests.Ask ask.now) result (standby_world self.now)
            ⊎ IsRefused (standby_world self.now) replies.Memory result (standby_world self.now) }
        ensures fit { IsFit result }
    {
        tell(rt, self.alloc, &self.picture, ask)
    }
}
