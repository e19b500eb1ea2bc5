ghost use Rattle.std.specs.Prelude.{◌≡◌, ◌≤◌, pos};
ghost use Rattle.mt_base.specs.declared.rules.Rules.{Rules};
ghost use Rattle.mt_base.specs.Bounds.{AreBoundedBands, AreWithinBounds, IsHeight, IsWithin};
ghost use Rattle.mt_base.specs.Predictor.{climb_from, margin_at, margin_gain};
ghost use Rattle.mt_predict.specs.Manners.{manner};

use mt_base::{Band, Rules};
use mt_tables::band_at;

/// How many units of height, each 1/60 of a foot, a flight level has.
pub(crate) const LEVEL: i64 = 6_000;

/// What a second climbs from a height: what is left to the level, at most the rate of climb and at least minus the rate of descent of
/// the band that holds the height.
pub(crate) fn climb_from(bands: &[Band], level: u32, z: i64) -> i64
    requires bands_kept { AreBoundedBands bands.now }
    requires level_kept { level ≤ 600 }
    requires height { IsHeight z }
    ensures { (rules : Rules) → result ≡ climb_from (manner rules bands.now level) z }
{
    let band = band_at(bands, z);
    let to_level = LEVEL * i64::from(level) - z;
    to_level.min(band.climb).max(-band.descent)
}

/// The vertical margin at the start of a second with that climb: a level second has the first margin again.
pub(crate) fn margin_at(rules: &Rules, climb: i64, w: i64) -> i64
    ensures { result ≡ margin_at rules.now climb w }
{
    if climb == 0 { rules.w0 } else { w }
}

/// What the vertical margin gains in a second with that climb.
pub(crate) fn margin_gain(rules: &Rules, climb: i64, w: i64) -> i64
    requires rules_kept { AreWithinBounds rules.now }
    requires kept { IsWithin (pos 0) (pos 600000) (margin_at rules.now climb w) }
    ensures { result ≡ margin_gain rules.now climb w }
{
    if climb == 0 {
        0
    } else {
        rules.gv.min(rules.wmax - w)
    }
}
