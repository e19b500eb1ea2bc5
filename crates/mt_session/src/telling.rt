//! What a board answers, as replies.
ghost use Rattle.std.specs.Prelude.{◌≡◌, ◌⊎◌, Option};
ghost use Rattle.std.specs.Thread.{IsSync};
ghost use Rattle.mt_lines.specs.Fit.{IsFit};
ghost use Rattle.mt_session.specs.Private.Keeping.{StaysOn};
ghost use Rattle.mt_session.specs.Served.{IsLooked, IsNumberRefused, IsReadAnswered};
ghost use Rattle.mt_session.specs.Private.Served.{told_version};

use crate::serving::Serving;
use mt_base::Refusal;
use mt_board::{Answer, Ask, Board, No};
use mt_lines::told;
use mt_wire::Reply;
use std::sync::Wait;
use std::thread::Threads;

// The version at which entries are told.
fn told_version(outcome: Result<Answer, No>) -> Option<u64>
    ensures { result ≡ told_version outcome }
{
    match outcome {
        Ok(Answer::History { version, .. }) => Some(version),
        _ => None,
    }
}

impl<B: Board> Serving<B> {
    // Tells what is asked for.
    pub(crate) fn tell<R: Threads + Wait + Sync>(&mut self, rt: &R, ask: &Ask) -> Reply
        requires sync { IsSync R.row }
        ensures told { IsReadAnswered self.old.session ask.now result self.new.session }
        ensures on { StaysOn self.old self.new }
        ensures fit { IsFit result }
    {
        told(self.read(rt, ask))
    }

    // Refuses a number, at a version that is read for it.
    pub(crate) fn refuse_number<R: Threads + Wait + Sync>(
        &mut self,
        rt: &R,
        refusal: Refusal,
    ) -> Reply
        requires sync { IsSync R.row }
        ensures refused { IsNumberRefused self.old.session refusal result self.new.session ⊎ IsLooked self.old.session result self.new.session }
        ensures on { StaysOn self.old self.new }
        ensures fit { IsFit result }
    {
        match told_version(self.read(rt, &Ask::History { from: 0, to: 0 })) {
            Some(version) => Reply::Refused { refusal, version },
            None => Reply::Memory,
        }
    }
}
