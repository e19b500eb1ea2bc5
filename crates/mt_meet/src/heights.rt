//! Trajectories whose heights keep them apart.
ghost use Rattle.std.specs.Prelude.{◌↔◌, pos, ◌≤ℤ◌, ◌-ℤ◌, IsTrue};
ghost use Rattle.mt_base.specs.Bounds.{AreWithinBounds, IsWithin};
ghost use Rattle.mt_cover.specs.Layer.{IsLayerKept};
ghost use Rattle.mt_meet.specs.Heights.{AreApartBy, EndBelow, LieApart};
ghost use Rattle.mt_pair.specs.High.{level_of};

use mt_base::Rules;
use mt_cover::Layer;
use mt_pair::level_of;

/// Whether neither of two layers reaches above the level from which on the greater minimum holds.
fn end_below(approved: bool, a: &Layer, b: &Layer) -> bool
    ensures { IsTrue result ↔ EndBelow (level_of approved) a.now b.now }
{
    let top = level_of(approved);
    i64::from(a.high) <= top && i64::from(b.high) <= top
}

/// Whether one layer lies above another by at least that much.
fn is_above(least: &i64, low: &Layer, high: &Layer) -> bool
    requires least_kept { IsWithin (pos 1) (pos 600000) least.now }
    requires low_kept { IsLayerKept low.now }
    requires high_kept { IsLayerKept high.now }
    ensures { IsTrue result ↔ (least.now ≤ℤ (high.now.low -ℤ low.now.high)) }
{
    i64::from(high.low - low.high) >= *least
}

/// Whether one of two layers lies above the other by at least that much.
fn are_apart_by(least: &i64, a: &Layer, b: &Layer) -> bool
    requires least_kept { IsWithin (pos 1) (pos 600000) least.now }
    requires a_kept { IsLayerKept a.now }
    requires b_kept { IsLayerKept b.now }
    ensures { IsTrue result ↔ AreApartBy least.now a.now b.now }
{
    is_above(least, a, b) || is_above(least, b, a)
}

/// Whether two layers lie apart by the vertical minimum: the greater one, or the lesser one where neither reaches above the level from which
/// on the greater one holds; that is flight level 410 where both aircraft are approved, else 290.
pub fn lie_apart(rules: &Rules, approved: bool, a: &Layer, b: &Layer) -> bool
    requires rules { AreWithinBounds rules.now }
    requires a_kept { IsLayerKept a.now }
    requires b_kept { IsLayerKept b.now }
    ensures { IsTrue result ↔ LieApart rules.now (level_of approved) a.now b.now }
{
    are_apart_by(&rules.sv, a, b) && (end_below(approved, a, b) || are_apart_by(&rules.sv2, a, b))
}
