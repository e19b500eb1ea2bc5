//! Where a trajectory is in some seconds, as a box, and the areas that lie apart from that.
ghost use Rattle.std.specs.Prelude.{◌↔◌, ◌<◌, ◌≤◌, ◌<ℤ◌, ℕ, ℤ, IsTrue, All};
ghost use Rattle.mt_base.specs.Area.{IsBoundedArea};
ghost use Rattle.mt_area.specs.Private.Volume.{AreHeightsApart, AreSouthOrNorth, AreWestOrEast, IsWithinInterval, HoldsRow, HoldsSecond, IsPlaced, IsWiderInterval, IsWiderVolume, AreBoxesApart};

use crate::levels::height_of;
use mt_base::{Area, Row, Second};
use mt_track::Strand;

/// Numbers from a least to a greatest one.
#[derive(Clone, Copy)]
pub(crate) struct Interval {
    low: i64,
    high: i64,
}

/// An interval, so much wider that it holds a number.
fn with(interval: Interval, z: i64) -> Interval
    ensures holds { IsWithinInterval result z }
    ensures wider { IsWiderInterval interval result }
{
    Interval {
        low: interval.low.min(z),
        high: interval.high.max(z),
    }
}

/// Where something is: its positions east and north, in 1/3600 of a nautical mile, and its heights, in 1/60 of a foot.
#[derive(Clone, Copy)]
pub(crate) struct Volume {
    x: Interval,
    y: Interval,
    z: Interval,
}

/// A volume that holds no position.
fn nowhere() -> Volume {
    let none = Interval {
        low: 3_686_400,
        high: -3_686_400,
    };
    Volume {
        x: none,
        y: none,
        z: none,
    }
}

/// A volume, so much wider that it holds a row at the start of its second.
fn grown(volume: Volume, row: &Row) -> Volume
    requires { IsPlaced row.now }
    ensures holds { HoldsRow result row.now }
    ensures wider { IsWiderVolume volume result }
{
    Volume {
        x: with(volume.x, row.x),
        y: with(volume.y, row.y),
        z: with(volume.z, row.z),
    }
}

/// The volume from one row to another.
pub(crate) fn volume_between(row: &Row, end: &Row) -> Volume
    requires row_placed { IsPlaced row.now }
    requires end_placed { IsPlaced end.now }
    ensures row { HoldsRow result row.now }
    ensures end { HoldsRow result end.now }
{
    grown(grown(nowhere(), row), end)
}

/// The volume of a strand from second `from` up to second `to`: it holds where the strand is at any instant of these seconds.
pub(crate) fn volume_over(strand: &Strand, from: Second, to: Second) -> Volume
    ensures { (k : ℕ) → from ≤ k → k < to → HoldsSecond result strand.now k }
{
    let segments = strand.segments();
    let mut volume = nowhere();
    for segment in segments {
        let begin = from.max(segment.from);
        let end = to.min(segment.to);
        if end <= begin {
            continue;
        }
        volume = grown(volume, &segment.first.later(begin - segment.from));
        volume = grown(volume, &segment.first.later(end - segment.from));
    }
    volume
}

/// Whether an area ends below some heights or begins above them.
fn are_heights_apart(area: &Area, z: &Interval) -> bool
    requires { IsBoundedArea area.now }
    ensures { IsTrue result ↔ AreHeightsApart area.now z.now }
{
    z.high <= height_of(area.bottom) || height_of(area.top) <= z.low
}

/// Whether all corners lie west of some positions east; or all east of them.
fn are_west(corners: &[(i64, i64)], x: &Interval) -> bool
    ensures { IsTrue result ↔ All (λ (c : ℤ × ℤ). c.0 <ℤ x.now.low) corners.now }
{
    corners.iter().all(|corner| corner.0 < x.low)
}

fn are_east(corners: &[(i64, i64)], x: &Interval) -> bool
    ensures { IsTrue result ↔ All (λ (c : ℤ × ℤ). x.now.high <ℤ c.0) corners.now }
{
    corners.iter().all(|corner| x.high < corner.0)
}

/// Whether all corners lie south of some positions north; or all north of them.
fn are_south(corners: &[(i64, i64)], y: &Interval) -> bool
    ensures { IsTrue result ↔ All (λ (c : ℤ × ℤ). c.1 <ℤ y.now.low) corners.now }
{
    corners.iter().all(|corner| corner.1 < y.low)
}

fn are_north(corners: &[(i64, i64)], y: &Interval) -> bool
    ensures { IsTrue result ↔ All (λ (c : ℤ × ℤ). y.now.high <ℤ c.1) corners.now }
{
    corners.iter().all(|corner| y.high < corner.1)
}

/// Whether all corners lie on one side of some positions east.
fn are_west_or_east(corners: &[(i64, i64)], x: &Interval) -> bool
    ensures { IsTrue result ↔ AreWestOrEast corners.now x.now }
{
    are_west(corners, x) || are_east(corners, x)
}

/// Whether all corners lie on one side of some positions north.
fn are_south_or_north(corners: &[(i64, i64)], y: &Interval) -> bool
    ensures { IsTrue result ↔ AreSouthOrNorth corners.now y.now }
{
    are_south(corners, y) || are_north(corners, y)
}

/// Whether the boxes of an area and of a volume lie apart. Then nothing in the volume is inside the area.
pub(crate) fn lie_apart(area: &Area, volume: &Volume) -> bool
    requires { IsBoundedArea area.now }
    ensures { IsTrue result ↔ AreBoxesApart area.now volume.now }
{
    if are_heights_apart(area, &volume.z) {
        return true;
    }
    let corners = area.corners.items();
    are_west_or_east(corners, &volume.x) || are_south_or_north(corners, &volume.y)
}
