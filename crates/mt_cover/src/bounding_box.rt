ghost use Rattle.std.specs.Prelude.{◌≡◌, pos, neg_ℤ, ◌<◌, ◌+ℤ◌};
ghost use Rattle.mt_base.specs.Bounds.{AreWithinBounds, IsBoundedOver, IsWithin};
ghost use Rattle.mt_base.specs.Trajectory.{straight_rows};
ghost use Rattle.mt_cover.specs.Box.{box_over, extent_of, half, hull, wider};
ghost use Rattle.mt_cover.specs.Cells.{place};
ghost use Rattle.mt_cover.specs.Private.InPlane.{IsBoxInPlane, IsExtentInPlane, IsExtentNearPlane};
ghost use Rattle.mt_cover.specs.Private.Parts.{box_of_both};

use crate::heights::{both, straight_layer};
use crate::layer::Layer;
use mt_base::{Row, Rules, Second};
use mt_track::narrow;

/// Coordinates from a least to a greatest one, in units of the plane.
#[derive(Clone, Copy)]
pub struct Extent {
    /// The least.
    pub low: i32,
    /// The greatest.
    pub high: i32,
}

/// The box of some rows: where they are at any instant of their seconds, in height with the vertical margin below and above, and their
/// greatest horizontal margin.
#[derive(Clone, Copy)]
pub struct BoundingBox {
    /// Positions east.
    pub x: Extent,
    /// Positions north.
    pub y: Extent,
    /// The greatest horizontal margin.
    pub margin: i64,
    /// Heights, with the vertical margin.
    pub layer: Layer,
}

/// From the lesser to the greater of a coordinate and what it is after a gain.
fn extent_of(z: i64, gain: i64) -> Extent
    requires z_kept { IsWithin (neg_ℤ (pos 3686400)) (pos 3686400) z }
    requires end_kept { IsWithin (neg_ℤ (pos 3686400)) (pos 3686400) (z +ℤ gain) }
    ensures is { result ≡ extent_of z gain }
    ensures kept { IsExtentInPlane result }
{
    let end = z + gain;
    Extent {
        low: narrow(z.min(end)),
        high: narrow(z.max(end)),
    }
}

/// So far that it holds both.
fn hull(a: Extent, b: Extent) -> Extent
    requires a_kept { IsExtentInPlane a }
    requires b_kept { IsExtentInPlane b }
    ensures is { result ≡ hull a b }
    ensures kept { IsExtentInPlane result }
{
    Extent {
        low: a.low.min(b.low),
        high: a.high.max(b.high),
    }
}

/// The box of so many seconds with the same gains, of which a row is the first. Positions are linear, so they are extreme at the first instant or
/// at the last; the margin gains, so it is greatest at the last.
pub(crate) fn straight_box(first: &Row, seconds: Second) -> BoundingBox
    requires some { 0 < seconds }
    requires bounded { IsBoundedOver first.now seconds }
    ensures is { result ≡ box_over (straight_rows first.now seconds) first.now }
    ensures kept { IsBoxInPlane result }
{
    let lasting = i64::from(seconds);
    BoundingBox {
        x: extent_of(first.x, first.vx * lasting),
        y: extent_of(first.y, first.vy * lasting),
        margin: first.r + first.gr * lasting,
        layer: straight_layer(first, seconds),
    }
}

/// So far that it holds both boxes, with the greater margin.
pub(crate) fn box_of_both(a: BoundingBox, b: BoundingBox) -> BoundingBox
    requires a_kept { IsBoxInPlane a }
    requires b_kept { IsBoxInPlane b }
    ensures is { result ≡ box_of_both a b }
    ensures kept { IsBoxInPlane result }
{
    BoundingBox {
        x: hull(a.x, b.x),
        y: hull(a.y, b.y),
        margin: a.margin.max(b.margin),
        layer: both(a.layer, b.layer),
    }
}

/// In which of 64 places of 115,200 units each a coordinate lies, counted from the plane's lower edge; what lies outside counts to the
/// first or the last.
pub(crate) fn place(z: i32) -> u32
    requires { IsWithin (neg_ℤ (pos 9000000)) (pos 9000000) z }
    ensures is { result ≡ place z }
    ensures few { result < 64 }
{
    let from_edge = z + 3_686_400;
    if from_edge < 0 {
        return 0;
    }
    (from_edge.unsigned_abs() / 115_200).min(63)
}

/// Half of the horizontal minimum, rounded up.
pub(crate) fn half(rules: &Rules) -> i64
    requires { AreWithinBounds rules.now }
    ensures is { result ≡ half rules.now }
    ensures kept { IsWithin (pos 1) (pos 36000) result }
{
    (rules.sh + 1) / 2
}

/// An extent, wider by so much on each side.
pub(crate) fn wider(e: Extent, by: i64) -> Extent
    requires kept { IsExtentInPlane e }
    requires by_kept { IsWithin (pos 0) (pos 108000) by }
    ensures is { result ≡ wider e by }
    ensures kept { IsExtentNearPlane result }
{
    let by = narrow(by);
    Extent {
        low: e.low - by,
        high: e.high + by,
    }
}
