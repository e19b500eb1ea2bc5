//! What is told of a snapshot, with the turn not held.
ghost use Rattle.std.specs.Prelude.{IfOk};
ghost use Rattle.mt_board.specs.declared.ask.Ask.TheVariants as asks;
ghost use Rattle.mt_board.specs.Asking.{IsRead, IsShortAnswer};
ghost use Rattle.mt_turn.specs.Lending.{AreViewsOfOneSeat};
ghost use Rattle.mt_desk.specs.Desk.{IsSeatOfDesk, seat_of};

use crate::desk::{Desk, Seat};
use mt_base::{Callsign, Refusal, Second, Tally};
use mt_board::{Answer, No};
use mt_snapshot::{check, due, view_of_call};
use std::sync::Wait;
use std::thread::Threads;

impl Desk {
    // What is published, each pair of trajectories tested anew.
    pub(crate) fn check<R: Threads + Wait + Sync>(
        &self,
        rt: &R,
        seat: &mut Seat,
    ) -> Result<Answer, No>
        requires ready { IsSeatOfDesk self.now seat.old }
        ensures ready { IsSeatOfDesk self.now seat.new }
        ensures same { AreViewsOfOneSeat seat.old.view seat.new.view }
        ensures read { IsRead (seat_of self.now.fixed seat.old.view) asks.Check result (seat_of self.now.fixed seat.new.view) }
        ensures short { IfOk result IsShortAnswer }
    {
        let snapshot = self.take(rt, seat)?;
        let mut tests = Tally::new(rt);
        Ok(Answer::Check {
            conflicts: check(self.alloc, &snapshot, &mut tests)?,
            version: snapshot.version(),
        })
    }

    // The flights that are due.
    pub(crate) fn due<R: Wait>(&self, rt: &R, seat: &mut Seat) -> Result<Answer, No>
        requires ready { IsSeatOfDesk self.now seat.old }
        ensures ready { IsSeatOfDesk self.now seat.new }
        ensures same { AreViewsOfOneSeat seat.old.view seat.new.view }
        ensures read { IsRead (seat_of self.now.fixed seat.old.view) asks.Due result (seat_of self.now.fixed seat.new.view) }
        ensures short { IfOk result IsShortAnswer }
    {
        let snapshot = self.take(rt, seat)?;
        Ok(Answer::Due {
            calls: due(self.alloc, &snapshot)?,
            version: snapshot.version(),
        })
    }

    // What is told of a flight.
    pub(crate) fn flight<R: Wait>(
        &self,
        rt: &R,
        seat: &mut Seat,
        call: Callsign,
        sec: Option<Second>,
    ) -> Result<Answer, No>
        requires ready { IsSeatOfDesk self.now seat.old }
        ensures ready { IsSeatOfDesk self.now seat.new }
        ensures same { AreViewsOfOneSeat seat.old.view seat.new.view }
        ensures read { IsRead (seat_of self.now.fixed seat.old.view) (asks.Flight call sec) result (seat_of self.now.fixed seat.new.view) }
        ensures short { IfOk result IsShortAnswer }
    {
        let snapshot = self.take(rt, seat)?;
        match view_of_call(&snapshot, call, sec) {
            Some(view) => Ok(Answer::Flight(view)),
            None => Err(No::Refused {
                refusal: Refusal::UnknownCall(call),
                version: snapshot.version(),
            }),
        }
    }
}
