ghost use Rattle.std.specs.Prelude.{◌≡◌, ◌↔◌, pos, IsTrue};
ghost use Rattle.mt_frac.specs.FractionOrder.{IsBefore};
ghost use Rattle.mt_frac.specs.Signs.{IsBoundedLine, IsBoundedQuad};
ghost use Rattle.mt_pair.specs.Private.Below.{AreBelowAt, AreBelowWithAt, HoldsBetween};

use mt_base::Second;
use mt_frac::{Frac, Linear, Quad};

/// Whether at one fraction strictly between the two all three are below 0. Each line cuts off what is not below 0 of it.
pub(crate) fn are_below_inside(gap: Quad, over: Linear, under: Linear, lo: Frac, hi: Frac) -> bool
    requires gap_bounded { IsBoundedQuad gap }
    requires over_bounded { IsBoundedLine over }
    requires under_bounded { IsBoundedLine under }
    requires ordered { IsBefore lo hi }
    ensures { IsTrue result ↔ HoldsBetween (AreBelowAt gap over under) lo hi }
{
    let Some((low, high)) = over.below_in(lo, hi) else {
        return false;
    };
    let Some((lower, higher)) = under.below_in(low, high) else {
        return false;
    };
    gap.below_zero_in(lower, higher)
}

/// Whether at one fraction strictly between the two these three and a further line are below 0.
pub(crate) fn are_below_with(
    gap: Quad,
    over: Linear,
    under: Linear,
    held: Linear,
    lo: Frac,
    hi: Frac,
) -> bool
    requires gap_bounded { IsBoundedQuad gap }
    requires over_bounded { IsBoundedLine over }
    requires under_bounded { IsBoundedLine under }
    requires held_bounded { IsBoundedLine held }
    requires ordered { IsBefore lo hi }
    ensures { IsTrue result ↔ HoldsBetween (AreBelowWithAt gap over under held) lo hi }
{
    let Some((low, high)) = held.below_in(lo, hi) else {
        return false;
    };
    are_below_inside(gap, over, under, low, high)
}

/// A second as a fraction.
pub(crate) fn whole(k: Second) -> Frac
    ensures num { result.num ≡ pos k }
    ensures den { result.den ≡ pos 1 }
{
    Frac {
        num: i128::from(k),
        den: 1,
    }
}
