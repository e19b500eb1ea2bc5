ghost use Rattle.std.specs.Prelude.{◌≡◌};
ghost use Rattle.mt_base.specs.Bounds.{AreBoundedBands};
ghost use Rattle.mt_base.specs.Predictor.{band_at};
ghost use Rattle.mt_base.specs.Tables.{ceiling_of};
ghost use Rattle.mt_tables.specs.Adding.{tops_rise};

use mt_base::Band;

/// How many units of height, each 1/60 of a foot, a flight level has.
const LEVEL: i64 = 6_000;

/// The band that holds a height in 1/60 of a foot: the first whose top is not below it, else the last. A type has 1 to 8 bands.
pub fn band_at(bands: &[Band], z: i64) -> Band
    requires { AreBoundedBands bands.now }
    ensures { result ≡ band_at bands.now z }
{
    let mut i = 0;
    while i + 1 < bands.len() && z > LEVEL * i64::from(bands[i].top) {
        i += 1;
    }
    bands[i]
}

/// The last top.
pub(crate) fn ceiling_of(bands: &[Band]) -> u32
    requires { AreBoundedBands bands.now }
    ensures { result ≡ ceiling_of bands.now }
{
    bands[bands.len() - 1].top
}

/// Whether the tops rise strictly.
pub(crate) fn tops_rise(bands: &[Band]) -> bool
    ensures { result ≡ tops_rise bands.now }
{
    let mut i = 0;
    while i + 1 < bands.len() {
        if bands[i].top >= bands[i + 1].top {
            return false;
        }
        i += 1;
    }
    true
}
