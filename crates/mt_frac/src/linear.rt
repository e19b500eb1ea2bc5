//! Lines and the parts on which they are below zero.

ghost use Rattle.std.specs.Prelude.{pos, ◌≡◌, ◌≢◌};
ghost use Rattle.mt_frac.specs.FractionOrder.{IsBefore};
ghost use Rattle.mt_frac.specs.Polynomials.{line_value};
ghost use Rattle.mt_frac.specs.Signs.{IsBoundedLine, IsPartBelow};

use crate::fraction::Frac;

/// The line `b s + c`. Either coefficient may be 0.
///
/// `below_in` asks that `b` and `c` are below 2^18 and 2^32 in size, `meet` that they are below 2^40 and 2^50.
#[derive(Clone, Copy)]
pub struct Linear {
    pub b: i128,
    pub c: i128,
}

impl Linear {
    /// The open part of the interval from `lo` to `hi` on which the line is below 0, as its two
    /// ends, the lesser first: a fraction lies strictly between these exactly where it lies
    /// strictly between `lo` and `hi` and the line is below 0 there. `None` exactly where there is
    /// no such fraction.
    ///
    /// It asks that `lo` is before `hi`. The two ends are in order again, so that they may be
    /// passed on.
    pub fn below_in(self, lo: Frac, hi: Frac) -> Option<(Frac, Frac)>
        requires coefficients { IsBoundedLine self }
        requires ordered { IsBefore lo hi }
        ensures { IsPartBelow self lo hi result }
    {
        let at_lo = self.value_at(lo);
        let at_hi = self.value_at(hi);
        if at_lo >= 0 {
            if at_hi >= 0 {
                return None;
            }
            return Some((self.root(), hi));
        }
        if at_hi <= 0 {
            return Some((lo, hi));
        }
        Some((lo, self.root()))
    }

    // The denominator times the value at the fraction.
    fn value_at(self, at: Frac) -> i128
        requires coefficients { IsBoundedLine self }
        ensures { result ≡ line_value self.b self.c at.num at.den }
    {
        self.b * at.num + self.c * at.den
    }

    // Where the line is 0.
    fn root(self) -> Frac
        requires coefficients { IsBoundedLine self }
        requires inclined { self.b ≢ pos 0 }
        ensures { line_value self.b self.c result.num result.den ≡ pos 0 }
    {
        if self.b > 0 {
            return Frac {
                num: -self.c,
                den: self.b,
            };
        }
        Frac {
            num: self.c,
            den: -self.b,
        }
    }
}
