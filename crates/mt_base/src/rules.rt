ghost use Rattle.std.specs.Prelude.{◌≡◌, ◌↔◌, pos, IsOk};
ghost use Rattle.mt_base.specs.Checks.{check_answer};
ghost use Rattle.mt_base.specs.Rules.{is_within};

use crate::checks::must;

/// The name of a rule: of the field of [`Rules`] that has its bounds and units.
#[derive(Clone, Copy, PartialEq, Eq)]
pub enum RuleName {
    /// The horizontal minimum.
    Sh,
    /// The vertical minimum.
    Sv,
    /// The first horizontal margin.
    R0,
    /// The growth of the horizontal margin.
    Gh,
    /// The greatest horizontal margin.
    Rmax,
    /// The first vertical margin.
    W0,
    /// The growth of the vertical margin.
    Gv,
    /// The greatest vertical margin.
    Wmax,
    /// The tolerance across the track.
    Tc,
    /// The tolerance along the track.
    Ta,
    /// The vertical tolerance.
    Tv,
    /// The greatest number of flights.
    Flights,
    /// The greatest number of entries.
    History,
    /// The greater vertical minimum.
    Sv2,
}

fn is_within(low: i64, high: i64, rule: i64) -> bool
    ensures { result ≡ is_within low high rule }
{
    low <= rule && rule <= high
}

// Whether a rule is within constant bounds.
fn within(name: RuleName, rule: &i64, low: i64, high: i64) -> Result<(), RuleName>
    ensures { result ≡ check_answer (name, is_within low high rule.now) }
{
    must(is_within(low, high, *rule), name)
}

// Whether a rule is at least 0 and at most another.
fn up_to(name: RuleName, rule: &i64, most: &i64) -> Result<(), RuleName>
    ensures { result ≡ check_answer (name, is_within (pos 0) most.now rule.now) }
{
    must(is_within(0, *most, *rule), name)
}

// Whether a rule is at least another and at most a constant.
fn from_rule(name: RuleName, rule: &i64, least: &i64, most: i64) -> Result<(), RuleName>
    ensures { result ≡ check_answer (name, is_within least.now most rule.now) }
{
    must(is_within(*least, most, *rule), name)
}

/// The parameters of a picture. They are set before it begins and then stay.
#[derive(Clone, Copy, PartialEq, Eq)]
pub struct Rules {
    /// Horizontal minimum, in 1/3600 of a nautical mile.
    pub sh: i64,
    /// Vertical minimum, in 1/60 of a foot.
    pub sv: i64,
    /// Horizontal margin of a new trajectory.
    pub r0: i64,
    /// What the horizontal margin gains in a second.
    pub gh: i64,
    /// The greatest horizontal margin.
    pub rmax: i64,
    /// Vertical margin of a new trajectory.
    pub w0: i64,
    /// What the vertical margin gains in a second of climb or descent.
    pub gv: i64,
    /// The greatest vertical margin.
    pub wmax: i64,
    /// Tolerance across the track, in 1/3600 of a nautical mile.
    pub tc: i64,
    /// Tolerance along the track, in 1/3600 of a nautical mile.
    pub ta: i64,
    /// Vertical tolerance, in 1/60 of a foot.
    pub tv: i64,
    /// The greatest number of flights.
    pub flights: i64,
    /// The greatest number of entries of the history.
    pub history: i64,
    /// Vertical minimum above flight level 410, and above 290 without approval, in 1/60 of a foot.
    pub sv2: i64,
}

impl Rules {
    ghost use Rattle.mt_base.specs.Bounds.{AreWithinBounds};
    ghost use Rattle.mt_base.specs.Checks.{judged};
    ghost use Rattle.mt_base.specs.Rules.{rule_checks, usual_rules};

    /// The rules of a picture for which none was set: 5 nautical miles, 1,000 feet, 2,000 feet
    /// above flight level 410 and above 290 without approval, and margins that grow with time.
    pub fn usual() -> Rules
        ensures value { result ≡ usual_rules }
        ensures bounded { AreWithinBounds result }
    {
        Rules {
            sh: 18_000,
            sv: 60_000,
            r0: 0,
            gh: 15,
            rmax: 9_000,
            w0: 0,
            gv: 100,
            wmax: 30_000,
            tc: 7_200,
            ta: 10_800,
            tv: 18_000,
            flights: 1_024,
            history: 4_194_304,
            sv2: 120_000,
        }
    }

    /// Whether each rule is within its bounds; else the first, in the order of the fields, that is not.
    pub fn check(&self) -> Result<(), RuleName>
        ensures exact { result ≡ judged (rule_checks self.now) (tt {0}) }
        ensures bounded { IsOk result ↔ AreWithinBounds self.now }
    {
        self.first_outside()
    }

    // `check`, by its table alone.
    fn first_outside(&self) -> Result<(), RuleName>
        ensures { result ≡ judged (rule_checks self.now) (tt {0}) }
    {
        within(RuleName::Sh, &self.sh, 1, 72_000)?;
        within(RuleName::Sv, &self.sv, 1, 600_000)?;
        up_to(RuleName::R0, &self.r0, &self.rmax)?;
        within(RuleName::Gh, &self.gh, 0, 1_000)?;
        within(RuleName::Rmax, &self.rmax, 0, 72_000)?;
        up_to(RuleName::W0, &self.w0, &self.wmax)?;
        within(RuleName::Gv, &self.gv, 0, 10_000)?;
        within(RuleName::Wmax, &self.wmax, 0, 600_000)?;
        within(RuleName::Tc, &self.tc, 0, 360_000)?;
        within(RuleName::Ta, &self.ta, 0, 360_000)?;
        within(RuleName::Tv, &self.tv, 0, 600_000)?;
        within(RuleName::Flights, &self.flights, 1, 1_024)?;
        within(RuleName::History, &self.history, 1, 4_194_304)?;
        from_rule(RuleName::Sv2, &self.sv2, &self.sv, 600_000)
    }
}
