ghost use Rattle.std.specs.Prelude.{◌≡◌, unwrap_or};

use mt_base::{
    Area, Bands, Callsign, Clearance, Command, FieldName, FixName, Role, Rules, Second, TypeName,
};
use mt_board::Ask;

/// The rules that a line sets; the others stay as they stand.
#[derive(Clone, Copy, PartialEq, Eq)]
pub struct RuleSet {
    /// Horizontal minimum, in 1/3600 of a nautical mile.
    pub sh: Option<i64>,
    /// Vertical minimum, in 1/60 of a foot.
    pub sv: Option<i64>,
    /// Horizontal margin of a new trajectory.
    pub r0: Option<i64>,
    /// What the horizontal margin gains in a second.
    pub gh: Option<i64>,
    /// The greatest horizontal margin.
    pub rmax: Option<i64>,
    /// Vertical margin of a new trajectory.
    pub w0: Option<i64>,
    /// What the vertical margin gains in a second of climb or descent.
    pub gv: Option<i64>,
    /// The greatest vertical margin.
    pub wmax: Option<i64>,
    /// Tolerance across the track, in 1/3600 of a nautical mile.
    pub tc: Option<i64>,
    /// Tolerance along the track, in 1/3600 of a nautical mile.
    pub ta: Option<i64>,
    /// Vertical tolerance, in 1/60 of a foot.
    pub tv: Option<i64>,
    /// The greatest number of flights.
    pub flights: Option<i64>,
    /// The greatest number of entries of the history.
    pub history: Option<i64>,
    /// Vertical minimum above flight level 410, and above 290 without approval, in 1/60 of a foot.
    pub sv2: Option<i64>,
}

// The number that is set, or else the one that stands.
fn set_or(set: &Option<i64>, rule: &i64) -> i64
    ensures { result ≡ unwrap_or set.now rule.now }
{
    match set {
        Some(number) => *number,
        None => *rule,
    }
}

impl RuleSet {
    ghost use Rattle.mt_read.specs.Rules.{rules_with};

    /// The rules as they stand once these are set over them.
    pub fn over(&self, rules: &Rules) -> Rules
        ensures { result ≡ rules_with self.now rules.now }
    {
        Rules {
            sh: set_or(&self.sh, &rules.sh),
            sv: set_or(&self.sv, &rules.sv),
            r0: set_or(&self.r0, &rules.r0),
            gh: set_or(&self.gh, &rules.gh),
            rmax: set_or(&self.rmax, &rules.rmax),
            w0: set_or(&self.w0, &rules.w0),
            gv: set_or(&self.gv, &rules.gv),
            wmax: set_or(&self.wmax, &rules.wmax),
            tc: set_or(&self.tc, &rules.tc),
            ta: set_or(&self.ta, &rules.ta),
            tv: set_or(&self.tv, &rules.tv),
            flights: set_or(&self.flights, &rules.flights),
            history: set_or(&self.history, &rules.history),
            sv2: set_or(&self.sv2, &rules.sv2),
        }
    }
}

/// What a line asks for.
#[derive(Drop)]
pub enum Request {
    /// Set a fix, before the picture begins.
    Fix {
        /// Its name.
        name: FixName,
        /// Position east, in 1/3600 of a nautical mile.
        x: i64,
        /// Position north, in 1/3600 of a nautical mile.
        y: i64,
    },
    /// Set a type of aircraft, before the picture begins.
    TypeLine {
        /// Its name.
        name: TypeName,
        /// Its bands, 1 to 8; their tops need not rise.
        bands: Bands,
    },
    /// Set a restricted area, before the picture begins.
    Area(Area),
    /// Set rules, before the picture begins.
    Rule(RuleSet),
    /// Begin the picture.
    Begin,
    /// Change the picture. It is no acceptance, which is asked for by the number of its probe.
    Change(Command),
    /// Try a clearance, without a change of the picture.
    Probe {
        /// The planned flight.
        call: Callsign,
        /// The clearance.
        clearance: Clearance,
        /// From which second it would hold; absent, from the moment.
        eff: Option<Second>,
    },
    /// Clear a flight as it was probed.
    Accept {
        /// The number of the probe, from 1 to 9,223,372,036,854,775,807.
        probe: u64,
    },
    /// Give the clearances of a flight that are free of conflicts.
    Advise {
        /// Its callsign.
        call: Callsign,
    },
    /// Take a role.
    Hello(Role),
    /// Tell what holds now.
    Ask(Ask),
    /// Renew each flight that is due, and give those that are due then.
    Settle,
    /// End.
    Bye,
    /// Tell which trajectories pass through which areas.
    Areas,
    /// Take the version now, so that clearances are tried on it.
    Take,
}

/// Who sends a line: each sender has commands of its own.
#[derive(Clone, Copy, PartialEq, Eq)]
pub enum Sender {
    /// A script, in which each line may name its actor.
    Replay,
    /// A session in the role of the feed.
    Feed,
    /// A session in the role of a position.
    Position,
    /// A session without a role.
    Plain,
}

/// Why a line is refused.
#[derive(Drop)]
pub enum LineNo {
    /// No JSON value is read from its bytes.
    Json,
    /// The value, or the field named, isn't of the form asked for; the empty name stands for the value itself.
    Form(FieldName),
    /// The number at the field named is outside its bounds.
    Range(FieldName),
    /// There wasn't enough memory.
    Memory,
}
