//! Quadratics and their signs at fractions.

ghost use Rattle.std.specs.Prelude.{ℤ, true, pos, ◌≡◌, ◌≤ℤ◌, ◌↔◌, IsTrue};
ghost use Rattle.std.specs.Ordering.{int_cmp};
ghost use Rattle.mt_frac.specs.FractionOrder.{IsBefore};
ghost use Rattle.mt_frac.specs.Polynomials.{value, slope, discriminant_of};
ghost use Rattle.mt_frac.specs.Signs.{IsBoundedQuad, IsBelowZeroIn};

use crate::fraction::Frac;
use std::cmp::Ordering;

/// The quadratic `a s^2 + b s + c`. Any of its coefficients may be 0.
///
/// Its calls ask that `a`, `b` and `c` are below 2^26, 2^40 and 2^50 in size.
#[derive(Clone, Copy)]
pub struct Quad {
    pub a: i128,
    pub b: i128,
    pub c: i128,
}

impl Quad {
    /// The sign of the quadratic at the fraction: `Less` exactly where its value is below 0, `Equal`
    /// where it is 0, `Greater` where it is above.
    pub fn sign_at(self, at: Frac) -> Ordering
        requires coefficients { IsBoundedQuad self }
        ensures { result ≡ int_cmp (value self.a self.b self.c at.num at.den) (pos 0) }
    {
        let square = self.a * at.num * at.num;
        let linear = self.b * at.num * at.den;
        let constant = self.c * at.den * at.den;
        (square + linear + constant).cmp(&0)
    }

    /// True exactly where at some fraction strictly between `lo` and `hi` the quadratic is below 0.
    ///
    /// It asks that `lo` is before `hi`. It looks at the signs at the two ends and, where the
    /// quadratic opens upwards and its vertex lies between them, at the discriminant.
    pub fn below_zero_in(self, lo: Frac, hi: Frac) -> bool
        requires coefficients { IsBoundedQuad self }
        requires ordered { IsBefore lo hi }
        ensures { IsTrue result ↔ IsBelowZeroIn self lo hi }
    {
        if self.sign_at(lo).is_lt() {
            return true;
        }
        if self.sign_at(hi).is_lt() {
            return true;
        }
        if self.a <= 0 {
            return false;
        }
        if self.slope_at(lo) >= 0 {
            return false;
        }
        if self.slope_at(hi) <= 0 {
            return false;
        }
        self.discriminant() > 0
    }

    /// Whether the quadratic opens upwards and has no two zeros, so that it is nowhere below 0. Where it says no, nothing is said.
    pub fn stays_above(self) -> bool
        requires coefficients { IsBoundedQuad self }
        ensures { result ≡ true → (n d : ℤ) → pos 0 ≤ℤ value self.a self.b self.c n d }
    {
        self.a > 0 && self.discriminant() <= 0
    }

    // The denominator times the slope at the fraction.
    fn slope_at(self, at: Frac) -> i128
        requires coefficients { IsBoundedQuad self }
        ensures { result ≡ slope self.a self.b at.num at.den }
    {
        2 * self.a * at.num + self.b * at.den
    }

    fn discriminant(self) -> i128
        requires coefficients { IsBoundedQuad self }
        ensures { result ≡ discriminant_of self.a self.b self.c }
    {
        self.b * self.b - 4 * self.a * self.c
    }
}
