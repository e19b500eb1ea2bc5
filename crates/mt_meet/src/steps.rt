//! Where a trajectory is in a window of the clock, in steps: of 1,024 units east and north, and of 1,000 units in height.
ghost use Rattle.std.specs.Prelude.{◌≡◌, ◌↔◌, pos, IsTrue};
ghost use Rattle.mt_base.specs.Bounds.{AreWithinBounds, IsWithin};
ghost use Rattle.mt_cover.specs.Layer.{IsLayerKept};
ghost use Rattle.mt_meet.specs.Private.Stepping.{IsBoxedBy, IsGuard, IsGuardedBy, IsBelowTop, IsReach, bounds_of, height_step, nowhere, step, wider_by};

use mt_base::Rules;
use mt_cover::{Extent, Layer, Slice};
use mt_pair::level_of;

// What lies farther from 0 counts as there.
const FAR: i32 = 16_777_216;

/// In which steps a trajectory is in a window: positions east and north, and heights with the vertical margin.
#[derive(Clone, Copy, PartialEq, Eq)]
pub(crate) struct Bounds {
    /// The least position east.
    pub(crate) west: i16,
    /// The greatest position east.
    pub(crate) east: i16,
    /// The least position north.
    pub(crate) south: i16,
    /// The greatest position north.
    pub(crate) north: i16,
    /// The least height.
    pub(crate) low: i16,
    /// The greatest height.
    pub(crate) high: i16,
}

// In which of 32,768 steps of 1,024 units a position or a height lies. What lies below counts to the first, what lies above to the last.
fn step(z: i32) -> i16
    ensures { result ≡ pos (step z) }
{
    let from_least = z.max(-FAR).min(FAR - 1) + FAR;
    (from_least.unsigned_abs() / 1024) as i16
}

// What lies farther from 0 in height counts as there.
const HIGH: i32 = 16_000_000;

// In which of 32,000 steps of 1,000 units a height lies: a flight level begins one.
fn height_step(z: i32) -> i16
    ensures { result ≡ pos (height_step z) }
{
    let from_least = z.max(-HIGH).min(HIGH - 1) + HIGH;
    (from_least.unsigned_abs() / 1000) as i16
}

// A unit less than a step of heights: a height with so much more is rounded up to a step. An item's greatest height and a subject's least one, which are
// compared, are rounded up, and the two others down. So two that fly level a minimum apart, where steps begin, have no step in common.
const NEARLY_A_STEP: i32 = 999;

/// Those of what is nowhere: no step lies between them.
pub(crate) fn nowhere() -> Bounds
    ensures { result ≡ nowhere }
{
    Bounds {
        west: 32_767,
        east: -1,
        south: 32_767,
        north: -1,
        low: 32_767,
        high: -1,
    }
}

// Those of positions east and north, and of a least and a greatest height.
fn bounds_of(x: &Extent, y: &Extent, low: i32, high: i32) -> Bounds
    ensures { result ≡ bounds_of x.now y.now low high }
{
    Bounds {
        west: step(x.low),
        east: step(x.high),
        south: step(y.low),
        north: step(y.high),
        low: height_step(low),
        high: height_step(high),
    }
}

// Whether the aircraft is approved for RVSM, and nowhere above the level from which on the greater vertical minimum holds all the same.
fn is_below_top(approved: bool, layer: &Layer) -> bool
    ensures { IsTrue result ↔ IsBelowTop approved layer.now }
{
    approved && i64::from(layer.high) <= level_of(true)
}

// Heights that reach farther by so much on each side.
fn wider(layer: &Layer, by: i64) -> Layer
    requires kept { IsLayerKept layer.now }
    requires by_kept { IsWithin (pos 0) (pos 600000) by }
    ensures { result ≡ wider_by by layer.now }
{
    // no minimum is above 600,000
    let by = by as i32;
    Layer {
        low: layer.low - by,
        high: layer.high + by,
    }
}

// The heights by which an item is found: its own where they end below the top, else wider by the most that the vertical minimum can be.
fn reach_of(approved: bool, layer: &Layer) -> Layer
    requires { IsLayerKept layer.now }
    ensures { IsReach approved layer.now result }
{
    if is_below_top(approved, layer) {
        return *layer;
    }
    wider(layer, 600_000)
}

// The heights by which a subject is looked for: wider by the lesser minimum where they end below the top, else by the greater one; but for a unit,
// since two that are a minimum apart are apart.
fn guard_of(rules: &Rules, approved: bool, layer: &Layer) -> Layer
    requires rules { AreWithinBounds rules.now }
    requires kept { IsLayerKept layer.now }
    ensures { IsGuard rules.now approved layer.now result }
{
    if is_below_top(approved, layer) {
        return wider(layer, rules.sv - 1);
    }
    wider(layer, rules.sv2 - 1)
}

/// The steps by which an item with a slice is found.
pub(crate) fn boxed(approved: bool, slice: &Slice) -> Bounds
    requires { IsLayerKept slice.now.layer }
    ensures { IsBoxedBy result approved slice.now }
{
    let reach = reach_of(approved, &slice.layer);
    bounds_of(&slice.x, &slice.y, reach.low, reach.high + NEARLY_A_STEP)
}

/// The steps by which a subject with a slice is looked for.
pub(crate) fn guarded(rules: &Rules, approved: bool, slice: &Slice) -> Bounds
    requires rules { AreWithinBounds rules.now }
    requires kept { IsLayerKept slice.now.layer }
    ensures { IsGuardedBy rules.now result approved slice.now }
{
    let guard = guard_of(rules, approved, &slice.layer);
    bounds_of(&slice.x, &slice.y, guard.low + NEARLY_A_STEP, guard.high)
}
