ghost use Rattle.std.specs.Prelude.{◌≡◌, ℕ, ◌*◌, ◌<◌, ◌≤◌, ◌^◌, pos, unsigned_abs};
ghost use Rattle.mt_base.specs.Bounds.{AreBoundedBands, IsInPlane, IsWithin};
ghost use Rattle.mt_base.specs.Predictor.{leg_to, seconds_of};
ghost use Rattle.mt_predict.specs.Private.Manners.{IsAcross};

use mt_base::{Band, Leg, Place, Point};
use mt_tables::band_at;

/// The least number whose square is at least that.
fn root_above(square: u64) -> u64
    requires { square < 2 ^ 47 }
    ensures enough { square ≤ result * result }
    ensures least { (s : ℕ) → s < result → s * s < square }
{
    let root = square.isqrt();
    if root * root == square {
        root
    } else {
        root + 1
    }
}

/// The least number of seconds in which a speed of so many knots covers a displacement.
pub(crate) fn seconds_of(dx: i64, dy: i64, speed: i64) -> u32
    requires east { IsAcross dx }
    requires north { IsAcross dy }
    requires fast { IsWithin (pos 1) (pos 1000) speed }
    ensures { result ≡ seconds_of dx dy (unsigned_abs speed) }
{
    let east = dx.unsigned_abs();
    let north = dy.unsigned_abs();
    let root = root_above(east * east + north * north);
    root.div_ceil(speed.unsigned_abs()) as u32
}

/// The leg from a place to a fix, at the speed of the band that holds the height there.
pub(crate) fn leg_to(bands: &[Band], number: u32, fix: &Point, a: &Place) -> Leg
    requires bands_kept { AreBoundedBands bands.now }
    requires fix_kept { IsInPlane fix.now.x fix.now.y }
    requires place_kept { IsInPlane a.now.x a.now.y }
    ensures { result ≡ leg_to bands.now number fix.now a.now }
{
    let dx = fix.x - a.x;
    let dy = fix.y - a.y;
    let seconds = seconds_of(dx, dy, band_at(bands, a.z).speed);
    Leg {
        number,
        dx,
        dy,
        seconds,
    }
}
