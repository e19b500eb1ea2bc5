//! A hand's calls.
ghost use Rattle.std.specs.Thread.{IsSync};
ghost use Rattle.mt_base.specs.Bounds.{IsAskedFor, IsBoundedCommand};
ghost use Rattle.mt_board.specs.Changing.{IsChanged};
ghost use Rattle.mt_probe.specs.Prepared.{MakesStrand};
ghost use Rattle.mt_turn.specs.Lending.{AreViewsOfOneSeat};
ghost use Rattle.mt_desk.specs.Desk.{IsSeatOfDesk, seat_of};

use crate::desk::{Desk, Seat};
use crate::hand::Hand;
use crate::home::Home;
use mt_base::{Callsign, Clearance, Command, Entered, Second, Tally};
use mt_board::{Advised, Answer, Ask, Board, No};
use mt_io::Gate;
use mt_probe::{Probe, makes_strand, prepare, what_if};
use mt_snapshot::advise;
use std::sync::Wait;
use std::thread::Threads;

// Prepares a command on a snapshot, outside of the turn, and enters it with its prep.
fn change_prepared<R: Threads + Wait + Sync, G: Gate>(
    rt: &R,
    desk: &Desk,
    seat: &mut Seat,
    command: &Command,
    gate: &G,
) -> Result<Entered, No>
    requires sync { IsSync R.row }
    requires ready { IsSeatOfDesk desk.now seat.old }
    requires bounded { IsBoundedCommand command.now }
    requires asked_for { IsAskedFor command.now }
    requires makes { MakesStrand command.now }
    ensures ready { IsSeatOfDesk desk.now seat.new }
    ensures same { AreViewsOfOneSeat seat.old.view seat.new.view }
    ensures changed { IsChanged (seat_of desk.now.fixed seat.old.view) command.now result (seat_of desk.now.fixed seat.new.view) }
{
    let snapshot = desk.take(rt, seat)?;
    let who = seat.number();
    gate.between(who);
    let (tables, rules) = (snapshot.tables(), snapshot.rules());
    let mut tests = Tally::new(rt);
    let prep = prepare(
        desk.alloc, &snapshot, tables, rules, who, command, &mut tests,
    )?;
    desk.publish(rt, seat, command, Some(&prep))
}

impl<'a> Board for Hand<'a> {
    type Probe = Probe;

    type Home = Home;

    ghost seat = { λ h. seat_of h.desk.fixed h.view };

    ghost home = { λ h. record { turn = h.desk.home; gave = h.view.gave; joined = h.view.joined } };

    ghost keeps_look = { λ h. h.keeps_look };

    fn number(&self) -> u32 {
        self.seat.number()
    }

    fn look_anew(&mut self) {
        self.look = None;
    }

    fn read<R: Threads + Wait + Sync>(&mut self, rt: &R, ask: &Ask) -> Result<Answer, No> {
        self.look = None;
        let (desk, seat) = (self.desk, &mut self.seat);
        match ask {
            Ask::List => desk.list(rt, seat),
            Ask::Check => desk.check(rt, seat),
            Ask::Due => desk.due(rt, seat),
            Ask::Flight { call, sec } => desk.flight(rt, seat, *call, *sec),
            Ask::History { from, to } => desk.entries(rt, seat, *from, *to),
        }
    }

    fn what_if<R: Threads + Wait + Sync, G: Gate>(
        &mut self,
        rt: &R,
        call: Callsign,
        clearance: Clearance,
        eff: Option<Second>,
        gate: &G,
    ) -> Result<Probe, No> {
        let (desk, who) = (self.desk, self.seat.number());
        let snapshot = self.look(rt)?;
        gate.between(who);
        let (tables, rules) = (snapshot.tables(), snapshot.rules());
        let mut tests = Tally::new(rt);
        what_if(
            desk.alloc, &snapshot, tables, rules, call, clearance, eff, &mut tests,
        )
    }

    fn advise<R: Threads + Wait + Sync, G: Gate>(
        &mut self,
        rt: &R,
        call: Callsign,
        gate: &G,
    ) -> Result<Advised<Probe>, No> {
        let (desk, who) = (self.desk, self.seat.number());
        let snapshot = self.look(rt)?;
        gate.between(who);
        advise(rt, desk.alloc, &snapshot, call)
    }

    fn change<R: Threads + Wait + Sync, G: Gate>(
        &mut self,
        rt: &R,
        command: Command,
        gate: &G,
    ) -> Result<Entered, No> {
        self.look = None;
        let (desk, seat) = (self.desk, &mut self.seat);
        if makes_strand(&command) {
            return change_prepared(rt, desk, seat, &command, gate);
        }
        gate.between(seat.number());
        desk.publish(rt, seat, &command, None)
    }

    fn accept<R: Threads + Wait + Sync, G: Gate>(
        &mut self,
        rt: &R,
        probe: &Probe,
        gate: &G,
    ) -> Result<Entered, No> {
        self.look = None;
        gate.between(self.seat.number());
        let desk = self.desk;
        let mut tests = Tally::new(rt);
        let prep = probe.prep(desk.alloc, &mut tests)?;
        desk.publish(rt, &mut self.seat, prep.command(), Some(&prep))
    }
}
