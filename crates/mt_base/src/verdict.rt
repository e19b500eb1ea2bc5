ghost use Rattle.std.specs.Prelude.{◌≡◌};
ghost use Rattle.mt_base.specs.Verdict.{is_flagged};

/// How a report compares with the trajectory that was predicted: which of the tolerances it is beyond. A report with any of these flags makes
/// its flight due. It is the definition `verdict_of`.
#[derive(Clone, Copy, PartialEq, Eq)]
pub struct Verdict {
    /// It lies to a side of the flight's way by more than the rule `tc`; where the flight stands still, in any direction.
    pub lateral: bool,
    /// It lies ahead or behind on the flight's way by more than the rule `ta`.
    pub along: bool,
    /// Its height differs by more than the rule `tv`.
    pub vertical: bool,
    /// It was made 120 seconds or more after the base's second.
    pub aged: bool,
    /// The trajectory doesn't cover its second; then no other flag but `aged` holds.
    pub outside: bool,
}

impl Verdict {
    /// Whether it has any flag.
    pub fn is_flagged(&self) -> bool
        ensures { result ≡ is_flagged self.now }
    {
        self.lateral || self.along || self.vertical || self.aged || self.outside
    }
}
