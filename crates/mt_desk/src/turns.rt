//! What is done while a seat has the turn.
ghost use Rattle.std.specs.Prelude.{length, IfOk, option_copied};
ghost use Rattle.mt_base.specs.History.{IsInTime, WasFree};
ghost use Rattle.mt_board.specs.declared.ask.Ask.TheVariants as asks;
ghost use Rattle.mt_board.specs.Asking.{IsRead, IsShortAnswer};
ghost use Rattle.mt_board.specs.Changing.{IsChanged};
ghost use Rattle.mt_board.specs.BoardSeat.{HasSeen};
ghost use Rattle.mt_change.specs.Altered.{IsBoundedBesides};
ghost use Rattle.mt_picture.specs.Story.{IsPrepGivenFor};
ghost use Rattle.mt_turn.specs.Lending.{AreViewsOfOneSeat};
ghost use Rattle.mt_desk.specs.Desk.{IsSeatOfDesk, seat_of};
ghost use Rattle.mt_desk.specs.Private.Desk.{story_seen};
ghost use Rattle.mt_desk.specs.Private.Taken.{StandsFor};

use crate::desk::{Desk, Seat};
use mt_base::{Command, Entered, Memory, Tally};
use mt_board::{Answer, No};
use mt_probe::{Prep, Snapshot};
use std::sync::Wait;
use std::thread::Threads;

impl Desk {
    // Takes a snapshot, which stands for all that the seat has seen then. It copies no list.
    pub(crate) fn take<R: Wait>(&self, rt: &R, seat: &mut Seat) -> Result<Snapshot, Memory>
        requires ready { IsSeatOfDesk self.now seat.old }
        ensures ready { IsSeatOfDesk self.now seat.new }
        ensures same { AreViewsOfOneSeat seat.old.view seat.new.view }
        ensures seen { HasSeen (seat_of self.now.fixed seat.old.view) (seat_of self.now.fixed seat.new.view) (length seat.new.view.seen) }
        ensures taken { IfOk result (StandsFor (seat_of self.now.fixed seat.new.view)) }
    {
        let held = self.turn.enter(rt, seat);
        let legal = held.value();
        legal.keeps();
        let taken = legal.snapshot();
        self.turn.leave(seat, held);
        taken
    }

    // What is published, as it is kept.
    pub(crate) fn list<R: Wait>(&self, rt: &R, seat: &mut Seat) -> Result<Answer, No>
        requires ready { IsSeatOfDesk self.now seat.old }
        ensures ready { IsSeatOfDesk self.now seat.new }
        ensures same { AreViewsOfOneSeat seat.old.view seat.new.view }
        ensures read { IsRead (seat_of self.now.fixed seat.old.view) asks.List result (seat_of self.now.fixed seat.new.view) }
        ensures short { IfOk result IsShortAnswer }
    {
        let held = self.turn.enter(rt, seat);
        let legal = held.value();
        let version = legal.version();
        let conflicts = legal.published(self.alloc);
        self.turn.leave(seat, held);
        Ok(Answer::List {
            conflicts: conflicts?,
            version,
        })
    }

    // The entries from number `from` up to number `to`, without it.
    pub(crate) fn entries<R: Wait>(
        &self,
        rt: &R,
        seat: &mut Seat,
        from: u64,
        to: u64,
    ) -> Result<Answer, No>
        requires ready { IsSeatOfDesk self.now seat.old }
        ensures ready { IsSeatOfDesk self.now seat.new }
        ensures same { AreViewsOfOneSeat seat.old.view seat.new.view }
        ensures read { IsRead (seat_of self.now.fixed seat.old.view) (asks.History from to) result (seat_of self.now.fixed seat.new.view) }
        ensures short { IfOk result IsShortAnswer }
    {
        let held = self.turn.enter(rt, seat);
        let legal = held.value();
        let version = legal.version();
        let entries = legal.part(self.alloc, from, to);
        self.turn.leave(seat, held);
        Ok(Answer::History {
            entries: entries?,
            version,
        })
    }

    // Decides a command of the seat, and enters it unless it is refused. What is asked is of what the seat has seen: it holds of every history
    // that goes on from there, so also of the one that stands when the turn comes.
    pub(crate) fn publish<R: Threads + Wait + Sync>(
        &self,
        rt: &R,
        seat: &mut Seat,
        command: &Command,
        prep: Option<&Prep>,
    ) -> Result<Entered, No>
        requires ready { IsSeatOfDesk self.now seat.old }
        requires bounded { IsBoundedBesides command.now }
        requires in_time { IsInTime (length seat.old.view.seen) command.now }
        requires free { WasFree self.now.fixed seat.old.view.seen command.now }
        requires prepared { IsPrepGivenFor (story_seen self.now.fixed seat.old.view) seat.old.view.number command.now (option_copied prep) }
        ensures ready { IsSeatOfDesk self.now seat.new }
        ensures same { AreViewsOfOneSeat seat.old.view seat.new.view }
        ensures changed { IsChanged (seat_of self.now.fixed seat.old.view) command.now result (seat_of self.now.fixed seat.new.view) }
    {
        let mut tests = Tally::new(rt);
        let mut held = self.turn.enter(rt, seat);
        let who = seat.number();
        let result = held
            .value_mut()
            .publish(self.alloc, who, command, prep, &mut tests);
        held.value().keeps();
        self.turn.leave(seat, held);
        result
    }
}
