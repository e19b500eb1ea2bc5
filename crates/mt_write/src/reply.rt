//! Replies, and what stands in them.
ghost use Rattle.std.specs.Prelude.{◌≡◌, ◌<◌, ◌^◌};
ghost use Rattle.mt_write.specs.Short.{IsShortAdvised, IsShortClearance};

use mt_base::{
    Calls, Callsign, Clearance, Conflicts, Entered, Entries, FieldName, FixName, FlightView, Hits,
    Listed, Pierces, Refusal, Role, Second, TypeName,
};

/// What was done.
#[derive(Clone, Copy, PartialEq, Eq)]
pub enum DoneWord {
    /// A fix was set.
    Fix,
    /// A type of aircraft was set.
    TypeLine,
    /// A restricted area was set.
    Area,
    /// Rules were set.
    Rule,
    /// The picture has begun.
    Begin,
    /// The lines end here.
    Bye,
}

/// A clearance that is advised, and the number of the probe that it is kept under.
#[derive(Clone, Copy, PartialEq, Eq)]
pub struct AdviceItem {
    /// The clearance, free of conflicts.
    pub clearance: Clearance,
    /// The number under which it can be accepted.
    pub probe: u64,
}

impl AdviceItem {
    /// A clearance and the number of its probe, which are short enough for any line.
    pub fn of(clearance: Clearance, probe: u64) -> AdviceItem
        ensures is { result ≡ record { clearance = clearance; probe = probe } }
        ensures short { IsShortAdvised result }
    {
        clearance_is_short(&clearance);
        AdviceItem { clearance, probe }
    }
}

// A level has 32 bits. It does nothing; the proof of its caller goes by its contract.
fn level_is_short(level: u32)
    ensures { level < 2 ^ 32 }
{}

// The level or the fix of a clearance is short, as its type says. It does nothing, as the one above.
fn clearance_is_short(clearance: &Clearance)
    ensures { IsShortClearance clearance.now }
{
    match clearance {
        Clearance::Level(level) => level_is_short(*level),
        Clearance::Direct(fix) => fix.keeps(),
    }
}

/// Advised clearances, seen as their list.
pub type AdviceList = Listed<AdviceItem>;

/// The answer to a line.
#[derive(Drop)]
pub enum Reply {
    /// It is done.
    Done(DoneWord),
    /// The role is taken.
    Hello(Role),
    /// The version now is taken.
    Taken {
        /// That version.
        version: u64,
    },
    /// The command is entered.
    Entered(Entered),
    /// The published conflicts.
    List {
        /// The conflicts, in the order of publishing.
        conflicts: Conflicts,
        /// The version that they are of.
        version: u64,
    },
    /// What would follow from a clearance.
    Probe {
        /// The conflicts that it would have, in order.
        conflicts: Hits,
        /// From which second it would hold.
        eff: Second,
        /// The number of the probe.
        probe: u64,
        /// The version that it was tried on.
        version: u64,
    },
    /// The clearances of a flight that are free of conflicts.
    Advice {
        /// The clearances, in the order in which they were tried.
        advice: AdviceList,
        /// The flight's callsign.
        call: Callsign,
        /// From which second they would hold.
        eff: Second,
        /// The version that they were tried on.
        version: u64,
    },
    /// What is told of a flight.
    Flight(FlightView),
    /// The flights for which a new trajectory is due.
    Due {
        /// Their callsigns, in the order of filing.
        calls: Calls,
        /// The version now.
        version: u64,
    },
    /// The flights that are still due once those that were due are renewed.
    Settled {
        /// Their callsigns, in the order of filing.
        left: Calls,
        /// The version now.
        version: u64,
    },
    /// Some entries.
    History {
        /// The entries, in order.
        entries: Entries,
        /// The version now.
        version: u64,
    },
    /// Which trajectories pass through which areas.
    Areas {
        /// Each passage in the window, in order.
        areas: Pierces,
        /// The version that they are of.
        version: u64,
    },
    /// No JSON value is read from the line.
    Json,
    /// The line is too long.
    Long,
    /// The picture has begun already.
    Begun,
    /// The picture hasn't begun.
    Unbegun,
    /// The tops of the bands don't rise strictly.
    Bands,
    /// As many fixes or types stand as the tables hold.
    TablesFull,
    /// The shape of the area isn't right.
    Shape,
    /// As many areas stand as may.
    AreasFull,
    /// There wasn't enough memory.
    Memory,
    /// The line, or the field named, isn't of the form asked for.
    Form(FieldName),
    /// The number at the field named is outside its bounds.
    Range(FieldName),
    /// A fix, or an area, of that name stands.
    TakenFix(FixName),
    /// A type of that name stands.
    TakenType(TypeName),
    /// The command is refused.
    Refused {
        /// Why.
        refusal: Refusal,
        /// The version at which that holds.
        version: u64,
    },
    /// An entry that a standby was to follow isn't what is decided of its command.
    Illegal {
        /// The version at which that holds.
        version: u64,
        /// Why.
        refusal: Refusal,
    },
    /// An entry that a standby was to follow is an acceptance that names a version above the one now.
    Late {
        /// The version now.
        version: u64,
    },
}
