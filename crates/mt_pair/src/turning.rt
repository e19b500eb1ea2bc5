//! On which side of a second's start a loss lies, told from the values there.
ghost use Rattle.std.specs.Prelude.{◌≡◌, ◌↔◌, ℕ, true, ◌<◌, ◌≤◌, pos, ◌≤ℤ◌, IsTrue};
ghost use Rattle.mt_frac.specs.Polynomials.{value, line_value, slope};
ghost use Rattle.mt_frac.specs.Signs.{IsBoundedLine, IsBoundedQuad};
ghost use Rattle.mt_frac.specs.Instants.{HoldsIn};
ghost use Rattle.mt_track.specs.Seconds.{HasSome};
ghost use Rattle.mt_pair.specs.Private.Below.{AreBelowAt};
ghost use Rattle.mt_pair.specs.Private.Turning.{IsFalling, IsSooner};

use mt_base::Second;
use mt_frac::{Linear, Quad};

/// The quadratic at the start of second k.
fn gap_at(gap: Quad, k: Second) -> i64
    requires bounded { IsBoundedQuad gap }
    requires short { k ≤ 16384 }
    ensures { result ≡ value gap.a gap.b gap.c (pos k) (pos 1) }
{
    let seconds = i64::from(k);
    (gap.a as i64 * seconds + gap.b as i64) * seconds + gap.c as i64
}

/// Its slope there.
fn slope_at(gap: Quad, k: Second) -> i64
    requires bounded { IsBoundedQuad gap }
    requires short { k ≤ 16384 }
    ensures { result ≡ slope gap.a gap.b (pos k) (pos 1) }
{
    2 * (gap.a as i64 * i64::from(k)) + gap.b as i64
}

/// A line there.
fn line_at(line: Linear, k: Second) -> i64
    requires bounded { IsBoundedLine line }
    requires short { k ≤ 16384 }
    ensures { result ≡ line_value line.b line.c (pos k) (pos 1) }
{
    line.b as i64 * i64::from(k) + line.c as i64
}

/// Whether the quadratic isn't below 0 at the start of second k, and falls there.
fn gap_is_later(gap: Quad, k: Second) -> bool
    requires bounded { IsBoundedQuad gap }
    requires short { k ≤ 16384 }
    ensures { IsTrue result ↔ IsFalling (value gap.a gap.b gap.c (pos k) (pos 1)) (slope gap.a gap.b (pos k) (pos 1)) }
{
    gap_at(gap, k) >= 0 && slope_at(gap, k) < 0
}

/// Whether it isn't, and doesn't fall.
fn gap_is_sooner(gap: Quad, k: Second) -> bool
    requires bounded { IsBoundedQuad gap }
    requires short { k ≤ 16384 }
    ensures { IsTrue result ↔ IsSooner (value gap.a gap.b gap.c (pos k) (pos 1)) (slope gap.a gap.b (pos k) (pos 1)) }
{
    gap_at(gap, k) >= 0 && slope_at(gap, k) >= 0
}

/// The same of a line.
fn line_is_later(line: Linear, k: Second) -> bool
    requires bounded { IsBoundedLine line }
    requires short { k ≤ 16384 }
    ensures { IsTrue result ↔ IsFalling (line_value line.b line.c (pos k) (pos 1)) line.b }
{
    line_at(line, k) >= 0 && line.b < 0
}

fn line_is_sooner(line: Linear, k: Second) -> bool
    requires bounded { IsBoundedLine line }
    requires short { k ≤ 16384 }
    ensures { IsTrue result ↔ IsSooner (line_value line.b line.c (pos k) (pos 1)) line.b }
{
    line_at(line, k) >= 0 && line.b >= 0
}

/// Whether all three are below 0 at some instant before second k, where they are so at some instant of a stretch that begins before.
pub(crate) fn begins_before(gap: Quad, over: Linear, under: Linear, k: Second) -> bool
    requires gap_bounded { IsBoundedQuad gap }
    requires over_bounded { IsBoundedLine over }
    requires under_bounded { IsBoundedLine under }
    requires convex { pos 0 ≤ℤ gap.a }
    requires short { k ≤ 16384 }
    ensures { (low high : ℕ) → low < k → HasSome (HoldsIn (AreBelowAt gap over under)) low high → IsTrue result ↔ HasSome (HoldsIn (AreBelowAt gap over under)) low k }
{
    if gap_is_later(gap, k) {
        return false;
    }
    if line_is_later(over, k) {
        return false;
    }
    if line_is_later(under, k) {
        return false;
    }
    true
}

/// Whether all three are below 0 at some instant of second k or later, where they are so at some instant of a stretch that ends after it.
pub(crate) fn lasts_until(gap: Quad, over: Linear, under: Linear, k: Second) -> bool
    requires gap_bounded { IsBoundedQuad gap }
    requires over_bounded { IsBoundedLine over }
    requires under_bounded { IsBoundedLine under }
    requires convex { pos 0 ≤ℤ gap.a }
    requires short { k ≤ 16384 }
    ensures { (low high : ℕ) → k < high → HasSome (HoldsIn (AreBelowAt gap over under)) low high → IsTrue result ↔ HasSome (HoldsIn (AreBelowAt gap over under)) k high }
{
    if gap_is_sooner(gap, k) {
        return false;
    }
    if line_is_sooner(over, k) {
        return false;
    }
    if line_is_sooner(under, k) {
        return false;
    }
    true
}

/// Whether the values at both ends tell that at no instant before second `seconds` all three are below 0. Where it says no, nothing is said.
pub(crate) fn are_quiet(gap: Quad, over: Linear, under: Linear, seconds: Second) -> bool
    requires gap_bounded { IsBoundedQuad gap }
    requires over_bounded { IsBoundedLine over }
    requires under_bounded { IsBoundedLine under }
    requires convex { pos 0 ≤ℤ gap.a }
    requires some { 0 < seconds }
    requires short { seconds ≤ 16384 }
    ensures { result ≡ true → ¬ HasSome (HoldsIn (AreBelowAt gap over under)) 0 seconds }
{
    if !lasts_until(gap, over, under, 0) {
        return true;
    }
    if !begins_before(gap, over, under, seconds) {
        return true;
    }
    false
}
