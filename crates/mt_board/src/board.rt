//! The trait of a board.
ghost use Rattle.std.specs.Prelude.{◌≡◌, ◌≤◌, Bool, false, [], All, map, IfOk, IfErr, IfSome};
ghost use Rattle.std.specs.Thread.{IsSync};
ghost use Rattle.mt_base.specs.Bounds.{IsAskedFor, IsBoundedClearance, IsBoundedCommand};
ghost use Rattle.mt_board.specs.Asking.{IsRead, IsShortAnswer};
ghost use Rattle.mt_board.specs.Changing.{IsChanged};
ghost use Rattle.mt_board.specs.Probing.{IsAdvised, IsNotAdvised, IsNotProbed, IsPast, IsProbed, acceptance};
ghost use Rattle.mt_board.specs.BoardSeat.{BoardSeat};

use crate::advised::Advised;
use crate::ask::{Answer, Ask};
use crate::no::No;
use crate::probed::Probed;
use mt_base::{Callsign, Clearance, Command, Entered, Second};
use mt_io::Gate;
use std::sync::Wait;
use std::thread::Threads;

/// Through a board one seat reads and changes the shared picture. Each call that is given a runtime may wait for other seats.
///
/// Each answer but want of memory names a version, and the seat has seen the history of that version then, which is legal, begins with
/// what it had seen, and has no entry of its number but its own. Want of memory changes nothing, but that the seat may have seen more.
///
/// Tries and advice that follow each other may be answered from one look at the picture, which is kept until `look_anew` is called or the seat sees
/// more by another call. Where no look is kept, the next try is answered from the picture as it stands then. So who asks for others keeps none while
/// it waits for what they ask.
pub trait Board {
    /// What a probe answers.
    type Probe: Probed + Drop + Send;

    /// What tells the turn that the seat is of. No value of it is made.
    type Home;

    /// What the seat knows.
    ghost seat: { Self → BoardSeat };

    /// The turn that it is of. No call changes it.
    ghost home: { Self → Self.Home };

    /// Whether a look at the picture is kept, from which the next try may be answered.
    ghost keeps_look: { Self → Bool };

    /// The seat's number.
    fn number(&self) -> u32
        ensures { result ≡ (seat self.now).number };

    /// Lets go of the look at the picture that tries are answered from, so that the next one is answered from the picture as it stands then.
    fn look_anew(&mut self)
        ensures seat { seat self.new ≡ seat self.old }
        ensures home { home self.new ≡ home self.old }
        ensures none_kept { keeps_look self.new ≡ false };

    /// Reads. It is refused exactly where a flight is asked for and there is none of that callsign.
    fn read<R: Threads + Wait + Sync>(&mut self, rt: &R, ask: &Ask) -> Result<Answer, No>
        requires sync { IsSync R.row }
        ensures read { IsRead (seat self.old) ask.now result (seat self.new) }
        ensures short { IfOk result IsShortAnswer }
        ensures home { home self.new ≡ home self.old }
        ensures none_kept { keeps_look self.new ≡ false };

    /// Tries a clearance that is to hold from second `eff` on, by default the moment. It asks that a level is at most 600 and `eff` at most
    /// 10,000,000.
    fn what_if<R: Threads + Wait + Sync, G: Gate>(
        &mut self,
        rt: &R,
        call: Callsign,
        clearance: Clearance,
        eff: Option<Second>,
        gate: &G,
    ) -> Result<Self::Probe, No>
        requires sync { IsSync R.row }
        requires clearance { IsBoundedClearance clearance }
        requires early { IfSome eff (λ second. second ≤ 10000000) }
        ensures probed { IfOk result (λ p. IsProbed (seat self.old) (seat self.new) call clearance eff (Self.Probe.told p)) }
        ensures past { IfOk result (λ p. IsPast (seat self.new) (Self.Probe.fixed p) (Self.Probe.state p) (Self.Probe.told p).version) }
        ensures denied { IfErr result (IsNotProbed (seat self.old) (seat self.new) call clearance eff) }
        ensures home { home self.new ≡ home self.old };

    /// Tries the candidates for a flight at the moment, and gives a probe of each that is free, in their order.
    fn advise<R: Threads + Wait + Sync, G: Gate>(
        &mut self,
        rt: &R,
        call: Callsign,
        gate: &G,
    ) -> Result<Advised<Self::Probe>, No>
        requires sync { IsSync R.row }
        ensures advised { IfOk result (λ a. IsAdvised (seat self.old) (seat self.new) call a.eff a.version (map Self.Probe.told a.probes.items)) }
        ensures past { IfOk result (λ a. All (λ p. IsPast (seat self.new) (Self.Probe.fixed p) (Self.Probe.state p) (Self.Probe.told p).version) a.probes.items) }
        ensures denied { IfErr result (IsNotAdvised (seat self.old) (seat self.new) call) }
        ensures home { home self.new ≡ home self.old };

    /// Decides a command, and enters it unless it is refused. It asks that its numbers are within their bounds and that it is no acceptance.
    fn change<R: Threads + Wait + Sync, G: Gate>(
        &mut self,
        rt: &R,
        command: Command,
        gate: &G,
    ) -> Result<Entered, No>
        requires sync { IsSync R.row }
        requires bounded { IsBoundedCommand command }
        requires asked_for { IsAskedFor command }
        ensures changed { IsChanged (seat self.old) command result (seat self.new) }
        ensures home { home self.new ≡ home self.old }
        ensures none_kept { keeps_look self.new ≡ false };

    /// Enters the clearance of a probe, if it is free of conflicts still. It asks that the probe had none, and is one of the history that the
    /// seat has seen.
    fn accept<R: Threads + Wait + Sync, G: Gate>(
        &mut self,
        rt: &R,
        probe: &Self::Probe,
        gate: &G,
    ) -> Result<Entered, No>
        requires sync { IsSync R.row }
        requires free { (Self.Probe.told probe.now).hits ≡ [] }
        requires past { IsPast (seat self.old) (Self.Probe.fixed probe.now) (Self.Probe.state probe.now) (Self.Probe.told probe.now).version }
        ensures changed { IsChanged (seat self.old) (acceptance (Self.Probe.told probe.now)) result (seat self.new) }
        ensures home { home self.new ≡ home self.old }
        ensures none_kept { keeps_look self.new ≡ false };
}
