//! Settling: one line, several steps.
ghost use Rattle.std.specs.Prelude.{◌≡◌, ◌⊎◌, IfSome, Result};
ghost use Rattle.std.specs.Thread.{IsSync};
ghost use Rattle.mt_board.specs.BoardSeat.{BoardSeat};
ghost use Rattle.mt_board.specs.Short.{AreFewCalls};
ghost use Rattle.mt_lines.specs.Fit.{IsFit};
ghost use Rattle.mt_session.specs.Private.Keeping.{StaysOn};
ghost use Rattle.mt_session.specs.Private.Settles.{Settles, is_starved, told_due};
ghost use Rattle.mt_session.specs.Served.{IsSettledBy, IsStarvedInSession};
ghost use Rattle.mt_session.specs.Session.{with_seat};
ghost use Rattle.mt_read.specs.declared.request.Request.TheVariants as requests;

use crate::serving::Serving;
use mt_base::{Calls, Callsign, Command, Entered};
use mt_board::{Answer, Ask, Board, No};
use mt_io::Gate;
use mt_wire::Reply;
use std::sync::Wait;
use std::thread::Threads;

// The flights that are told as due, and the version.
fn due(told: Result<Answer, No>) -> Option<(Calls, u64)>
    ensures { result ≡ told_due told }
{
    match told {
        Ok(Answer::Due { calls, version }) => Some((calls, version)),
        _ => None,
    }
}

// Whether memory was wanted.
fn is_starved(changed: &Result<Entered, No>) -> bool
    ensures { result ≡ is_starved changed.now }
{
    match changed {
        Err(No::Memory) => true,
        Ok(_) | Err(No::Refused { .. }) => false,
    }
}

impl<B: Board> Serving<B> {
    // Renews the flights that are due, and tells those that are due then.
    pub(crate) fn settle<R: Threads + Wait + Sync, G: Gate>(&mut self, rt: &R, gate: &G) -> Reply
        requires sync { IsSync R.row }
        ensures settled { IsSettledBy self.old.session result self.new.session ⊎ IsStarvedInSession self.old.session requests.Settle result self.new.session }
        ensures on { StaysOn self.old self.new }
        ensures fit { IsFit result }
    {
        match self.settled(rt, gate) {
            Some((left, version)) => Reply::Settled { left, version },
            None => Reply::Memory,
        }
    }

    // Renews the flights that are due; those that are due then, with the version.
    fn settled<R: Threads + Wait + Sync, G: Gate>(
        &mut self,
        rt: &R,
        gate: &G,
    ) -> Option<(Calls, u64)>
        requires sync { IsSync R.row }
        ensures settled { (seat : BoardSeat) × Settles self.old.session.seat result seat × (self.new.session ≡ with_seat self.old.session seat) }
        ensures short { IfSome result (λ told. AreFewCalls told.0) }
        ensures on { StaysOn self.old self.new }
    {
        let Some((calls, _)) = due(self.read(rt, &Ask::Due)) else {
            return None;
        };
        for call in calls.items() {
            let renewed = self.change(rt, Command::Renew { call: *call }, gate);
            if is_starved(&renewed) {
                return None;
            }
        }
        due(self.read(rt, &Ask::Due))
    }
}
