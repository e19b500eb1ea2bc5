//! Whether several lines are below 0 together.

ghost use Rattle.std.specs.Prelude.{pos, ◌≡◌, ◌≢◌, ◌*ℤ◌, ◌<ℤ◌, ◌≤ℤ◌, ◌↔◌, IsTrue, All};
ghost use Rattle.mt_frac.specs.Meeting.{IsBoundedSide, MeetBelow};
ghost use Rattle.mt_frac.specs.Private.Meeting.{CutsTo};
ghost use Rattle.mt_frac.specs.Polynomials.{line_value};

use crate::end::End;
use crate::linear::Linear;

impl Linear {
    /// Whether at one fraction strictly between `lo` and `hi` all of the lines are below 0; where there are no lines, true.
    ///
    /// It asks that each `b` is below 2^40 and each `c` below 2^50 in size, and that 0 <= `lo` < `hi` <= 14,400. It takes no memory. Each line
    /// cuts off the part on which it isn't below 0; what is left is an interval.
    pub fn meet(lines: &[Linear], lo: i64, hi: i64) -> bool
        requires bounded { All IsBoundedSide lines.now }
        requires begun { pos 0 ≤ℤ lo }
        requires ordered { lo <ℤ hi }
        requires short { hi ≤ℤ pos 14400 }
        ensures { IsTrue result ↔ MeetBelow lines.now lo hi }
    {
        let mut low = whole(lo);
        let mut high = whole(hi);
        for line in lines {
            let Some((after, until)) = line.cut(low, high) else {
                return false;
            };
            (low, high) = (after, until);
        }
        true
    }

    // The part between two ends on which the line is below 0; `None` exactly where there is none.
    fn cut(self, low: End, high: End) -> Option<(End, End)>
        requires bounded { IsBoundedSide self }
        requires ordered { (low.num *ℤ high.den) <ℤ (high.num *ℤ low.den) }
        ensures { CutsTo self low high result }
    {
        let at_low = self.value_by(low);
        let at_high = self.value_by(high);
        if at_low >= 0 {
            if at_high >= 0 {
                return None;
            }
            return Some((self.zero(), high));
        }
        if at_high <= 0 {
            return Some((low, high));
        }
        Some((low, self.zero()))
    }

    // The denominator times the value at the end.
    fn value_by(self, at: End) -> i128
        requires bounded { IsBoundedSide self }
        ensures { result ≡ line_value self.b self.c at.num at.den }
    {
        self.b * at.num + self.c * at.den
    }

    // Where the line is 0.
    fn zero(self) -> End
        requires bounded { IsBoundedSide self }
        requires inclined { self.b ≢ pos 0 }
        ensures { line_value self.b self.c result.num result.den ≡ pos 0 }
    {
        if self.b > 0 {
            return End {
                num: -self.c,
                den: self.b,
            };
        }
        End {
            num: self.c,
            den: -self.b,
        }
    }
}

// A whole number as an end.
fn whole(k: i64) -> End
    requires begun { pos 0 ≤ℤ k }
    requires short { k ≤ℤ pos 14400 }
    ensures num { result.num ≡ k }
    ensures den { result.den ≡ pos 1 }
{
    End {
        num: i128::from(k),
        den: 1,
    }
}
