ghost use Rattle.mt_frac.specs.Signs.{IsBoundedLine, IsBoundedQuad};

use crate::horizontal::gap;
use crate::question::{are_below_inside, are_below_with, whole};
use crate::turning::{are_quiet, begins_before, lasts_until};
use crate::vertical::{above, excess};
use mt_base::{Row, Rules, Second, Steps};
use mt_frac::{Frac, Linear, Quad};
use mt_track::{Halved, first_over, last_over};

/// The lines of the greater vertical minimum: the two that are below 0 where two trajectories are nearer than that, and for each of the two
/// one that is below 0 where it is above the level from which that minimum holds.
#[derive(Clone, Copy)]
pub(crate) struct High {
    over: Linear,
    under: Linear,
    left: Linear,
    right: Linear,
    ghost over_bounded: { IsBoundedLine over },
    ghost under_bounded: { IsBoundedLine under },
    ghost left_bounded: { IsBoundedLine left },
    ghost right_bounded: { IsBoundedLine right },
}

impl High {
    ghost use Rattle.std.specs.Prelude.{◌↔◌, ◌<◌, IsTrue};
    ghost use Rattle.mt_base.specs.Bounds.{AreWithinBounds, IsBoundedRow};
    ghost use Rattle.mt_frac.specs.FractionOrder.{IsBefore};
    ghost use Rattle.mt_pair.specs.Private.Below.{HoldsBetween};
    ghost use Rattle.mt_pair.specs.Private.Cases.{AreHighOf, IsHighAt};
    ghost use Rattle.mt_pair.specs.High.{level_of};

    /// Those of two rows of one second, by whether both are approved.
    pub(crate) fn of(rules: &Rules, approved: bool, a: &Row, b: &Row) -> High
        requires rules_kept { AreWithinBounds rules.now }
        requires a_kept { IsBoundedRow a.now }
        requires b_kept { IsBoundedRow b.now }
        ensures { AreHighOf rules.now (level_of approved) a.now b.now result }
    {
        High {
            over: excess(&rules.sv2, a, b),
            under: excess(&rules.sv2, b, a),
            left: above(approved, a),
            right: above(approved, b),
        }
    }

    /// Whether at one fraction strictly between the two there is a loss by the greater minimum.
    fn loses_inside(&self, gap: Quad, lo: Frac, hi: Frac) -> bool
        requires gap_bounded { IsBoundedQuad gap }
        requires ordered { IsBefore lo hi }
        ensures { IsTrue result ↔ HoldsBetween (IsHighAt gap self.now) lo hi }
    {
        are_below_with(gap, self.over, self.under, self.left, lo, hi)
            || are_below_with(gap, self.over, self.under, self.right, lo, hi)
    }
}

/// How two trajectories come near one another while neither changes its gains: the quadratic that is below 0 where they are too near
/// horizontally, the two lines that are below 0 where they are nearer vertically than the lesser minimum, and those of the greater one, where
/// one of the two is high. Time is counted in seconds from some row of each.
#[derive(Clone, Copy)]
pub(crate) struct Approach<'a> {
    gap: Quad,
    over: Linear,
    under: Linear,
    high: Option<&'a High>,
    ghost gap_bounded: { IsBoundedQuad gap },
    ghost over_bounded: { IsBoundedLine over },
    ghost under_bounded: { IsBoundedLine under },
}

impl<'a> Approach<'a> {
    ghost use Rattle.std.specs.Prelude.{◌≡◌, ◌↔◌, ℕ, true, None, ◌+◌, ◌<◌, ◌≤◌, pos, ◌≤ℤ◌, IsTrue};
    ghost use Rattle.mt_base.specs.Bounds.{AreWithinBounds, IsBoundedRow};
    ghost use Rattle.mt_base.specs.Tally.{raised};
    ghost use Rattle.mt_frac.specs.FractionOrder.{IsBefore};
    ghost use Rattle.mt_frac.specs.Instants.{HoldsIn};
    ghost use Rattle.mt_pair.specs.Private.Below.{HoldsBetween};
    ghost use Rattle.mt_pair.specs.Private.Cases.{IsLoss};
    ghost use Rattle.mt_pair.specs.Gap.{excess_of, gap_of};
    ghost use Rattle.mt_base.specs.Span.{IsSpan};
    ghost use Rattle.mt_track.specs.Seconds.{HasSome};
    ghost use Rattle.mt_pair.specs.Private.Span.{IsFirst};

    /// That of two rows of one second, with the lines of the greater minimum where one of the two is high in the seconds that are asked for.
    pub(crate) fn of(rules: &Rules, a: &Row, b: &Row, high: Option<&'a High>) -> Approach<'a>
        requires rules_kept { AreWithinBounds rules.now }
        requires a_kept { IsBoundedRow a.now }
        requires b_kept { IsBoundedRow b.now }
        ensures gap { result.gap ≡ gap_of rules.now a.now b.now }
        ensures over { result.over ≡ excess_of rules.now.sv a.now b.now }
        ensures under { result.under ≡ excess_of rules.now.sv b.now a.now }
        ensures high { result.high ≡ high.entry }
    {
        Approach {
            gap: gap(rules, a, b),
            over: excess(&rules.sv, a, b),
            under: excess(&rules.sv, b, a),
            high,
        }
    }

    /// Whether at one fraction strictly between the two there is a loss.
    fn loses_inside(&self, lo: Frac, hi: Frac) -> bool
        requires ordered { IsBefore lo hi }
        ensures { IsTrue result ↔ HoldsBetween (IsLoss self.now) lo hi }
    {
        if are_below_inside(self.gap, self.over, self.under, lo, hi) {
            return true;
        }
        let Some(high) = self.high else {
            return false;
        };
        high.loses_inside(self.gap, lo, hi)
    }

    /// Whether some instant of the seconds from `low` up to `high` has a loss. This is one step.
    fn loses_over(&self, low: Second, high: Second, steps: &mut Steps) -> bool
        requires ordered { low < high }
        ensures is { IsTrue result ↔ HasSome (HoldsIn (IsLoss self.now)) low high }
        ensures counted { steps.new ≡ raised steps.old }
    {
        steps.raise();
        self.loses_inside(whole(low), whole(high))
    }

    /// Whether the values at whole seconds decide: the quadratic doesn't open downwards, and no one is high. Where it says no, nothing is said.
    fn goes_by_values(&self) -> bool
        ensures { result ≡ true → (pos 0 ≤ℤ self.now.gap.a) × (self.now.high ≡ None) }
    {
        self.gap.a >= 0 && self.high.is_none()
    }

    /// Whether the values at both ends tell that no instant before second `seconds` has a loss. Where it says no, nothing is said. This is
    /// one step.
    fn is_quiet(&self, seconds: Second, steps: &mut Steps) -> bool
        requires some { 0 < seconds }
        requires short { seconds ≤ 14400 }
        ensures is { result ≡ true → ¬ HasSome (HoldsIn (IsLoss self.now)) 0 seconds }
        ensures counted { steps.new ≡ raised steps.old }
    {
        steps.raise();
        if self.gap.a < 0 {
            return false;
        }
        if !are_quiet(self.gap, self.over, self.under, seconds) {
            return false;
        }
        let Some(high) = self.high else {
            return true;
        };
        are_quiet(self.gap, high.over, high.under, seconds)
    }

    /// Whether the quadratic alone tells that no instant has a loss, since it is nowhere below 0. Where it says no, nothing is said. This is
    /// one step.
    fn keeps_distance(&self, steps: &mut Steps) -> bool
        ensures is { result ≡ true → (low high : ℕ) → ¬ HasSome (HoldsIn (IsLoss self.now)) low high }
        ensures counted { steps.new ≡ raised steps.old }
    {
        steps.raise();
        self.gap.stays_above()
    }

    /// Whether there is a loss at the very start by the lesser minimum. Where it says no, nothing is said. This is one step.
    fn begins_with_loss(&self, steps: &mut Steps) -> bool
        ensures is { result ≡ true → HoldsIn (IsLoss self.now) 0 }
        ensures counted { steps.new ≡ raised steps.old }
    {
        steps.raise();
        if self.gap.c >= 0 {
            return false;
        }
        if self.over.c >= 0 {
            return false;
        }
        self.under.c < 0
    }

    /// The first second with a loss before the `seconds`-th; `None` exactly where none has. At most 18 steps.
    fn first_before(&self, seconds: Second, steps: &mut Steps) -> Option<Second>
        requires some { 0 < seconds }
        requires short { seconds ≤ 14400 }
        ensures is { IsFirst (HoldsIn (IsLoss self.now)) 0 seconds result }
        ensures counted { steps.new ≤ steps.old + 18 }
    {
        if self.begins_with_loss(steps) {
            return Some(0);
        }
        if self.is_quiet(seconds, steps) {
            return None;
        }
        if self.keeps_distance(steps) {
            return None;
        }
        if !self.loses_over(0, seconds, steps) {
            return None;
        }
        Some(first_over(self, 0, seconds, steps))
    }

    /// The first and the last second with a loss before the `seconds`-th; `None` exactly where none has. At most 32 steps.
    pub(crate) fn span_before(&self, seconds: Second, steps: &mut Steps) -> Option<(Second, Second)>
        requires some { 0 < seconds }
        requires short { seconds ≤ 14400 }
        ensures span { IsSpan (HoldsIn (IsLoss self.now)) 0 seconds result }
        ensures counted { steps.new ≤ steps.old + 32 }
    {
        let first = self.first_before(seconds, steps)?;
        let last = last_over(self, first, seconds, steps);
        Some((first, last))
    }
}

impl<'a> Halved for Approach<'a> {
    ghost use Rattle.mt_frac.specs.Instants.{HoldsIn};
    ghost use Rattle.mt_pair.specs.Private.Cases.{IsLoss};

    ghost holds = { λ x. HoldsIn (IsLoss x) };

    fn is_before(&self, low: Second, middle: Second, steps: &mut Steps) -> bool {
        if !self.goes_by_values() {
            return self.loses_over(low, middle, steps);
        }
        steps.raise();
        begins_before(self.gap, self.over, self.under, middle)
    }

    fn is_from(&self, middle: Second, high: Second, steps: &mut Steps) -> bool {
        if !self.goes_by_values() {
            return self.loses_over(middle, high, steps);
        }
        steps.raise();
        lasts_until(self.gap, self.over, self.under, middle)
    }
}
