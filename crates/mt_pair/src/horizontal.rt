ghost use Rattle.std.specs.Prelude.{◌≡◌};
ghost use Rattle.mt_base.specs.Bounds.{AreWithinBounds, IsBoundedRow};
ghost use Rattle.mt_frac.specs.Signs.{IsBoundedQuad};
ghost use Rattle.mt_pair.specs.Gap.{gain_of, gap_of, offset_of, product};
ghost use Rattle.mt_pair.specs.Private.Gap.{IsOffsetWithin};

use mt_base::{Row, Rules};
use mt_frac::Quad;

/// How far one row is from another horizontally, and the minimum between them with both margins; or what these gain in a second.
#[derive(Clone, Copy)]
pub(crate) struct Offset {
    x: i128,
    y: i128,
    width: i128,
}

/// The offset at the start of the rows' second.
fn offset_at_start(rules: &Rules, a: &Row, b: &Row) -> Offset
    requires rules_kept { AreWithinBounds rules.now }
    requires a_kept { IsBoundedRow a.now }
    requires b_kept { IsBoundedRow b.now }
    ensures is { result ≡ offset_of rules.now a.now b.now }
    ensures kept { IsOffsetWithin 7372800 result }
{
    Offset {
        x: i128::from(b.x - a.x),
        y: i128::from(b.y - a.y),
        width: i128::from(rules.sh + a.r + b.r),
    }
}

/// What the offset gains in a second.
fn offset_gain(a: &Row, b: &Row) -> Offset
    requires a_kept { IsBoundedRow a.now }
    requires b_kept { IsBoundedRow b.now }
    ensures is { result ≡ gain_of a.now b.now }
    ensures kept { IsOffsetWithin 2000 result }
{
    Offset {
        x: i128::from(b.vx - a.vx),
        y: i128::from(b.vy - a.vy),
        width: i128::from(a.gr + b.gr),
    }
}

/// The product of two offsets, in which the width counts against the distance. An offset times itself is below 0 exactly where the
/// distance is below the minimum.
fn product(p: Offset, q: Offset) -> i128
    requires p_kept { IsOffsetWithin 7372800 p }
    requires q_kept { IsOffsetWithin 7372800 q }
    ensures { result ≡ product p q }
{
    let square = p.x as i64 * q.x as i64 + p.y as i64 * q.y as i64
        - p.width as i64 * q.width as i64;
    i128::from(square)
}

/// The offset times itself, as a quadratic in the seconds since the start of the rows' second.
pub(crate) fn gap(rules: &Rules, a: &Row, b: &Row) -> Quad
    requires rules_kept { AreWithinBounds rules.now }
    requires a_kept { IsBoundedRow a.now }
    requires b_kept { IsBoundedRow b.now }
    ensures is { result ≡ gap_of rules.now a.now b.now }
    ensures bounded { IsBoundedQuad result }
{
    let offset = offset_at_start(rules, a, b);
    let gain = offset_gain(a, b);
    Quad {
        a: product(gain, gain),
        b: 2 * product(offset, gain),
        c: product(offset, offset),
    }
}
