ghost use Rattle.std.specs.Prelude.{◌≡◌, IfOk};
ghost use Rattle.mt_base.specs.Decision.{call_of, filled};

use crate::callsign::Callsign;
use crate::clearance::Clearance;
use crate::fix_name::FixName;
use crate::flight::{Report, Straight};
use crate::hit::Hit;
use crate::list::Listed;
use crate::route::{Route, RouteNo};
use crate::row::Second;
use crate::type_name::TypeName;
use crate::verdict::Verdict;
use mt_memory::Memory;
use std::alloc::Global;

/// A change of the picture that is asked for.
#[derive(Drop)]
pub enum Command {
    /// File a planned flight.
    Plan {
        /// Its callsign.
        call: Callsign,
        /// The aircraft's type.
        kind: TypeName,
        /// The fixes that it flies along.
        route: Route,
        /// The second at which it is at the first of them.
        at: Second,
        /// The flight level that it has then.
        from: u32,
        /// The flight level that it is cleared to.
        level: u32,
        /// Whether the aircraft is approved for RVSM.
        rvsm: bool,
    },
    /// File an external flight.
    External {
        /// Its callsign.
        call: Callsign,
        /// Its stretch.
        straight: Straight,
    },
    /// Take a flight out of the picture.
    Drop {
        /// Its callsign.
        call: Callsign,
    },
    /// Tell where a planned flight was seen.
    Report {
        /// Its callsign.
        call: Callsign,
        /// Where it was seen, and when.
        report: Report,
    },
    /// Move the moment.
    Tick {
        /// The new moment.
        now: Second,
    },
    /// Let a flight that is due begin anew at its last report.
    Renew {
        /// Its callsign.
        call: Callsign,
    },
    /// Clear a planned flight.
    Clear {
        /// Its callsign.
        call: Callsign,
        /// The clearance.
        clearance: Clearance,
        /// From which second it holds; absent, from the moment at which the command is decided.
        eff: Option<Second>,
    },
    /// Clear a planned flight as it was probed, if that is free of conflicts still.
    Accept {
        /// Its callsign.
        call: Callsign,
        /// The clearance.
        clearance: Clearance,
        /// From which second it holds.
        eff: Second,
        /// The version of the probe.
        probed: u64,
    },
    /// Mark a clearance of a planned flight as tentative.
    Tentative {
        /// Its callsign.
        call: Callsign,
        /// The clearance.
        clearance: Clearance,
        /// From which second it holds; absent, from the moment at which the command is decided.
        eff: Option<Second>,
    },
    /// Take a tentative clearance away.
    Withdraw {
        /// Its callsign.
        call: Callsign,
        /// Whether another than its owner may do so.
        force: bool,
    },
    /// Make a tentative clearance the flight's own.
    Commit {
        /// Its callsign.
        call: Callsign,
    },
}

impl Command {
    /// The callsign that it names; a tick names none.
    pub fn call(&self) -> Option<Callsign>
        ensures { result ≡ call_of self.now }
    {
        match self {
            Command::Plan { call, .. }
            | Command::External { call, .. }
            | Command::Drop { call }
            | Command::Report { call, .. }
            | Command::Renew { call }
            | Command::Clear { call, .. }
            | Command::Accept { call, .. }
            | Command::Tentative { call, .. }
            | Command::Withdraw { call, .. }
            | Command::Commit { call } => Some(*call),
            Command::Tick { .. } => None,
        }
    }

    /// The same command, holding from the moment where that was left open.
    pub fn filled(&self, alloc: Global, now: Second) -> Result<Command, Memory>
        ensures { IfOk result (λ command. command ≡ filled now self.now) }
    {
        match self {
            Command::Clear {
                call,
                clearance,
                eff,
            } => Ok(Command::Clear {
                call: *call,
                clearance: *clearance,
                eff: Some(eff.unwrap_or(now)),
            }),
            Command::Tentative {
                call,
                clearance,
                eff,
            } => Ok(Command::Tentative {
                call: *call,
                clearance: *clearance,
                eff: Some(eff.unwrap_or(now)),
            }),
            _ => self.copy(alloc),
        }
    }

    /// The same command once more.
    pub fn copy(&self, alloc: Global) -> Result<Command, Memory>
        ensures { IfOk result (λ command. command ≡ self.now) }
    {
        match self {
            Command::Plan {
                call,
                kind,
                route,
                at,
                from,
                level,
                rvsm,
            } => Ok(Command::Plan {
                call: *call,
                kind: *kind,
                route: route.copy(alloc)?,
                at: *at,
                from: *from,
                level: *level,
                rvsm: *rvsm,
            }),
            &Command::External { call, straight } => Ok(Command::External { call, straight }),
            Command::Drop { call } => Ok(Command::Drop { call: *call }),
            &Command::Report { call, report } => Ok(Command::Report { call, report }),
            Command::Tick { now } => Ok(Command::Tick { now: *now }),
            Command::Renew { call } => Ok(Command::Renew { call: *call }),
            Command::Tentative {
                call,
                clearance,
                eff,
            } => Ok(Command::Tentative {
                call: *call,
                clearance: *clearance,
                eff: *eff,
            }),
            &Command::Withdraw { call, force } => Ok(Command::Withdraw { call, force }),
            Command::Commit { call } => Ok(Command::Commit { call: *call }),
            Command::Clear {
                call,
                clearance,
                eff,
            } => Ok(Command::Clear {
                call: *call,
                clearance: *clearance,
                eff: *eff,
            }),
            Command::Accept {
                call,
                clearance,
                eff,
                probed,
            } => Ok(Command::Accept {
                call: *call,
                clearance: *clearance,
                eff: *eff,
                probed: *probed,
            }),
        }
    }
}

/// A command that was entered into the history.
#[derive(Drop)]
pub struct Entry {
    /// The number of the actor that asked for it.
    pub who: u32,
    /// The command.
    pub command: Command,
}

impl Entry {
    /// The same entry once more.
    pub fn copy(&self, alloc: Global) -> Result<Entry, Memory>
        ensures { IfOk result (λ entry. entry ≡ self.now) }
    {
        Ok(Entry {
            who: self.who,
            command: self.command.copy(alloc)?,
        })
    }
}

/// Entries, seen as their list.
pub type Entries = Listed<Entry>;

impl Listed<Entry> {
    ghost use Rattle.std.specs.Prelude.{◌-◌, drop, take};

    /// A copy of these entries from number `from` up to number `to`, without it.
    pub fn part(alloc: Global, entries: &[Entry], from: u64, to: u64) -> Result<Entries, Memory>
        ensures { IfOk result (λ part. part ≡ take (to - from) (drop from entries.now)) }
    {
        let count = entries.len() as u64;
        let first = from.min(count);
        let end = to.min(count).max(first);
        let mut part = Entries::make(alloc)?;
        for entry in &entries[first as usize..end as usize] {
            part.push(entry.copy(alloc)?)?;
        }
        Ok(part)
    }
}

/// What an entered command answers.
#[derive(Clone, Copy, PartialEq, Eq)]
pub struct Entered {
    /// The version with the entry: the number of entries then.
    pub version: u64,
    /// The verdict on a report; no other command has one.
    pub verdict: Option<Verdict>,
}

/// Why a command is refused.
#[derive(Clone, Copy, PartialEq, Eq)]
pub enum Refusal {
    /// A flight of that callsign is in the picture.
    HeldCall,
    /// No flight of that callsign is in the picture.
    UnknownCall(Callsign),
    /// No type has that name.
    UnknownType(TypeName),
    /// No fix has that name; of a route it is the first such.
    UnknownFix(FixName),
    /// The route has fewer than two names.
    RouteShort,
    /// The route has more than 64 names.
    RouteLong,
    /// Two neighbours of the route are equal.
    RouteTwice,
    /// A level is above the ceiling of the aircraft's type.
    Ceiling,
    /// As many flights are held as the rule `flights` says.
    Full,
    /// As many entries are held as the rule `history` says.
    HistoryFull,
    /// The new moment is not above the moment now.
    Backward,
    /// The report's second is not above the last report's.
    Old,
    /// The second of a report, or from which a clearance holds, is above the moment.
    Future,
    /// The second from which a clearance holds is at or past both ends of the trajectory.
    Ended,
    /// The fix to fly direct to does not stand ahead on the route.
    NotAhead,
    /// The book has no probe of that number.
    NoProbe,
    /// The probe had conflicts.
    NotFree,
    /// What was probed is no longer free of conflicts.
    Stale {
        /// The first of its hits now.
        first: Hit,
    },
    /// The flight is an external one, which can't be cleared.
    Fixed,
    /// The flight has a tentative clearance.
    TentativeHeld {
        /// The number of the actor that owns it.
        owner: u32,
    },
    /// The flight has no tentative clearance.
    NoTentative,
    /// Another owns the tentative clearance.
    NotOwner,
    /// The flight is not due.
    NotDue,
}

impl From<RouteNo> for Refusal {
    ghost use Rattle.mt_base.specs.Decision.{refusal_of};

    ghost from_gives = { λ no refusal. refusal ≡ refusal_of no };

    fn from(no: RouteNo) -> Refusal {
        match no {
            RouteNo::UnknownFix(name) => Refusal::UnknownFix(name),
            RouteNo::Short => Refusal::RouteShort,
            RouteNo::Long => Refusal::RouteLong,
            RouteNo::Twice => Refusal::RouteTwice,
        }
    }
}
