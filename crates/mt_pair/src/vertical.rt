ghost use Rattle.std.specs.Prelude.{◌≡◌, ◌↔◌, ◌&&◌, ◌+ℤ◌, ◌*ℤ◌, pos, IsTrue};
ghost use Rattle.mt_base.specs.Bounds.{AreWithinBounds, IsBoundedRow, IsWithin};
ghost use Rattle.mt_frac.specs.Signs.{IsBoundedLine};
ghost use Rattle.mt_pair.specs.Gap.{above_of, excess_of};
ghost use Rattle.mt_pair.specs.High.{level_of};
ghost use Rattle.mt_pair.specs.Private.High.{AreFar, AreLow, IsLow, StaysAbove};

use mt_base::{Row, Rules, Second};
use mt_frac::Linear;

/// How much the height of `b` above `a` exceeds a vertical minimum with both margins, as a line in the seconds
/// since the start of the rows' second.
pub(crate) fn excess(least: &i64, a: &Row, b: &Row) -> Linear
    requires least_kept { IsWithin (pos 1) (pos 600000) least.now }
    requires a_kept { IsBoundedRow a.now }
    requires b_kept { IsBoundedRow b.now }
    ensures is { result ≡ excess_of least.now a.now b.now }
    ensures bounded { IsBoundedLine result }
{
    Linear {
        b: i128::from(b.vz - a.vz - a.gw - b.gw),
        c: i128::from(b.z - a.z - *least - a.w - b.w),
    }
}

/// The value of a line that many seconds after the start of the rows' second.
fn value_after(line: Linear, seconds: Second) -> i128
    requires bounded { IsBoundedLine line }
    ensures { result ≡ line.b *ℤ pos seconds +ℤ line.c }
{
    line.b * i128::from(seconds) + line.c
}

/// Whether a line is at least 0 both at the start of the rows' second and that many seconds later.
fn stays_above(line: Linear, seconds: Second) -> bool
    requires bounded { IsBoundedLine line }
    ensures { IsTrue result ↔ StaysAbove line seconds }
{
    line.c >= 0 && value_after(line, seconds) >= 0
}

/// Whether both aircraft are approved.
pub(crate) fn both(a_rvsm: bool, b_rvsm: bool) -> bool
    ensures { result ≡ (a_rvsm && b_rvsm) }
{
    a_rvsm && b_rvsm
}

/// The level above which the greater vertical minimum holds, in 1/60 of a foot: flight level 410 where both aircraft are approved for RVSM,
/// else flight level 290.
pub fn level_of(approved: bool) -> i64
    ensures { result ≡ level_of approved }
{
    if approved { 2_460_000 } else { 1_740_000 }
}

/// How far that level is above `a`, as a line in the seconds since the start of the row's second.
pub(crate) fn above(approved: bool, a: &Row) -> Linear
    requires a_kept { IsBoundedRow a.now }
    ensures is { result ≡ above_of (level_of approved) a.now }
    ensures bounded { IsBoundedLine result }
{
    Linear {
        b: i128::from(-a.vz),
        c: i128::from(level_of(approved) - a.z),
    }
}

/// The height of a row that many seconds after the start of its second, if it keeps its gain.
fn height_after(a: &Row, seconds: Second) -> i64
    requires a_kept { IsBoundedRow a.now }
    ensures { result ≡ a.now.z +ℤ a.now.vz *ℤ pos seconds }
{
    a.z + a.vz * i64::from(seconds)
}

/// Whether a row isn't above that level, neither at the start of its second nor that many seconds later.
fn is_low(approved: bool, a: &Row, seconds: Second) -> bool
    requires a_kept { IsBoundedRow a.now }
    ensures { IsTrue result ↔ IsLow (level_of approved) a.now seconds }
{
    a.z <= level_of(approved) && height_after(a, seconds) <= level_of(approved)
}

/// Whether neither of two rows of one second is above that level, neither at the start of the second nor that many seconds later.
pub(crate) fn are_low(approved: bool, a: &Row, b: &Row, seconds: Second) -> bool
    requires a_kept { IsBoundedRow a.now }
    requires b_kept { IsBoundedRow b.now }
    ensures { IsTrue result ↔ AreLow (level_of approved) a.now b.now seconds }
{
    is_low(approved, a, seconds) && is_low(approved, b, seconds)
}

/// Whether one of two rows of one second is above the other by the lesser minimum, both at the start of the second and that many seconds
/// later.
pub(crate) fn are_far(rules: &Rules, a: &Row, b: &Row, seconds: Second) -> bool
    requires rules_kept { AreWithinBounds rules.now }
    requires a_kept { IsBoundedRow a.now }
    requires b_kept { IsBoundedRow b.now }
    ensures { IsTrue result ↔ AreFar rules.now a.now b.now seconds }
{
    stays_above(excess(&rules.sv, a, b), seconds) || stays_above(excess(&rules.sv, b, a), seconds)
}
