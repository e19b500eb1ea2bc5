//! Fractions and their order.

ghost use Rattle.std.specs.Prelude.{unsigned_abs, pos, ◌<◌, ◌^◌, ◌<ℤ◌, ◌≤ℤ◌};

use std::cmp::Ordering;

/// The fraction `num / den`. It needs not be in lowest terms, so two fractions are compared by
/// `compare` and never by their fields.
///
/// `num` is below 2^32 in size, and `den` is at least 1 and below 2^18.
#[derive(Clone, Copy)]
pub struct Frac {
    pub num: i128,
    pub den: i128,
    pub ghost num_bounded: { unsigned_abs num < 2 ^ 32 },
    pub ghost den_positive: { pos 1 ≤ℤ den },
    pub ghost den_bounded: { den <ℤ pos (2 ^ 18) },
}

impl Frac {
    ghost use Rattle.std.specs.Ordering.{MatchOrdering};
    ghost use Rattle.mt_frac.specs.FractionOrder.{IsBefore, IsSame};

    /// The order of the two fractions as numbers: `Less` exactly where `self` is less than `other`,
    /// `Equal` where they are one number, `Greater` where `self` is greater.
    pub fn compare(self, other: Frac) -> Ordering
        ensures { MatchOrdering result (IsBefore self other) (IsSame self other) (IsBefore other self) }
    {
        (self.num * other.den).cmp(&(other.num * self.den))
    }
}
