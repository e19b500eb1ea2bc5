//! The heights of rows.
ghost use Rattle.std.specs.Prelude.{◌≡◌};
ghost use Rattle.mt_base.specs.Bounds.{IsBoundedOver};
ghost use Rattle.mt_cover.specs.Layer.{IsLayerKept};
ghost use Rattle.mt_cover.specs.Box.{both};
ghost use Rattle.mt_cover.specs.Private.Parts.{straight_layer};

use crate::layer::Layer;
use mt_base::{Row, Second};
use mt_track::narrow;

/// The heights of so many seconds with the same gains, of which a row is the first, with the vertical margin below and above. Both are linear, so
/// they are extreme at the first instant or at the last.
pub(crate) fn straight_layer(first: &Row, seconds: Second) -> Layer
    requires { IsBoundedOver first.now seconds }
    ensures is { result ≡ straight_layer first.now seconds }
    ensures kept { IsLayerKept result }
{
    let seconds = i64::from(seconds);
    let low = first.z - first.w;
    let high = first.z + first.w;
    Layer {
        low: narrow(low.min(low + (first.vz - first.gw) * seconds)),
        high: narrow(high.max(high + (first.vz + first.gw) * seconds)),
    }
}

/// Heights so far that they hold both.
pub(crate) fn both(a: Layer, b: Layer) -> Layer
    requires a_kept { IsLayerKept a }
    requires b_kept { IsLayerKept b }
    ensures is { result ≡ both a b }
    ensures kept { IsLayerKept result }
{
    Layer {
        low: a.low.min(b.low),
        high: a.high.max(b.high),
    }
}
