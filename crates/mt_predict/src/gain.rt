ghost use Rattle.std.specs.Prelude.{◌≡◌, ◌<◌};
ghost use Rattle.mt_base.specs.Predictor.{gain_with};
ghost use Rattle.mt_predict.specs.Private.Manners.{IsAcross};

/// What a second gains of a distance that so many seconds share, with n of them after it: the last ones gain one more, so that the sum
/// is the distance.
pub(crate) fn gain_with(total: i64, seconds: u32, n: u32) -> i64
    requires some { 0 < seconds }
    requires kept { IsAcross total }
    ensures { result ≡ gain_with total seconds n }
{
    let each = total.div_euclid(i64::from(seconds));
    let rest = total.rem_euclid(i64::from(seconds)).unsigned_abs();
    if u64::from(n) < rest { each + 1 } else { each }
}
