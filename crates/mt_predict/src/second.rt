ghost use Rattle.std.specs.Prelude.{◌≡◌, ◌<◌};
ghost use Rattle.mt_base.specs.Bounds.{IsBoundedOver, IsBoundedRow};
ghost use Rattle.mt_base.specs.Predictor.{row_on};
ghost use Rattle.mt_predict.specs.Private.Flying.{place_at};
ghost use Rattle.mt_predict.specs.Manners.{IsBoundedManner, manner};
ghost use Rattle.mt_predict.specs.Private.Manners.{IsBoundedLeg};

use crate::climb::{climb_from, margin_at, margin_gain};
use crate::gain::gain_with;
use mt_base::{Band, Leg, Place, Row, Rules};
use mt_track::later;

/// The row of a second of a leg, with n more seconds of the leg after it.
pub(crate) fn row_on(rules: &Rules, bands: &[Band], level: u32, leg: &Leg, n: u32, a: &Place) -> Row
    requires manner_kept { IsBoundedManner (manner rules.now bands.now level) }
    requires leg_kept { IsBoundedLeg leg.now }
    requires behind { n < leg.now.seconds }
    requires bounded { IsBoundedRow (row_on (manner rules.now bands.now level) leg.now n a.now) }
    ensures { result ≡ row_on (manner rules.now bands.now level) leg.now n a.now }
{
    let climb = climb_from(bands, level, a.z);
    Row {
        x: a.x,
        y: a.y,
        z: a.z,
        r: a.r,
        w: margin_at(rules, climb, a.w),
        vx: gain_with(leg.dx, leg.seconds, n),
        vy: gain_with(leg.dy, leg.seconds, n),
        vz: climb,
        gr: rules.gh.min(rules.rmax - a.r),
        gw: margin_gain(rules, climb, a.w),
        leg: leg.number,
    }
}

/// The place that a row reaches in so many seconds of its gains.
pub(crate) fn place_at(row: &Row, seconds: u32) -> Place
    requires { IsBoundedOver row.now seconds }
    ensures { result ≡ place_at row.now seconds }
{
    let end = later(row, seconds);
    Place {
        x: end.x,
        y: end.y,
        z: end.z,
        r: end.r,
        w: end.w,
    }
}
