//! A slice that holds those of all seconds in a window.
ghost use Rattle.std.specs.Prelude.{◌≤ℤ◌};
ghost use Rattle.mt_cover.specs.Layer.{IsLayerKept};
ghost use Rattle.mt_cover.specs.Sliced.{HaveWindow, Holds, HoldsWindow, Reaches};

use crate::bounding_box::Extent;
use crate::heights::both;
use crate::sliced::{SLICE, Slice, Slices};
use mt_base::Second;

/// How many seconds of the clock a window has: no more than two slices.
pub const CLOCK_WINDOW: Second = 256;

fn lesser(a: i32, b: i32) -> i32
    ensures left { result ≤ℤ a }
    ensures right { result ≤ℤ b }
{
    if a <= b { a } else { b }
}

fn greater(a: i32, b: i32) -> i32
    ensures left { a ≤ℤ result }
    ensures right { b ≤ℤ result }
{
    if a <= b { b } else { a }
}

// So far that it reaches as far as both.
fn extended(a: Extent, b: Extent) -> Extent
    ensures left { Reaches result a }
    ensures right { Reaches result b }
{
    Extent {
        low: lesser(a.low, b.low),
        high: greater(a.high, b.high),
    }
}

// So wide that it holds both.
fn joined(a: &Slice, b: &Slice) -> Slice
    requires a_kept { IsLayerKept a.now.layer }
    requires b_kept { IsLayerKept b.now.layer }
    ensures left { Holds result a.now }
    ensures right { Holds result b.now }
    ensures kept { IsLayerKept result.layer }
{
    Slice {
        x: extended(a.x, b.x),
        y: extended(a.y, b.y),
        layer: both(a.layer, b.layer),
    }
}

impl Slices {
    /// So wide that it holds the slices of all seconds in a window: 256 seconds of the clock, which at most three slices have. `window` is their
    /// number, second / 256. It takes no memory.
    pub fn over_window(&self, window: u32) -> Slice
        requires { HaveWindow self.now window }
        ensures hold { HoldsWindow self.now window result }
        ensures kept { IsLayerKept result.layer }
    {
        let begin = self.from.max(CLOCK_WINDOW * window);
        let end = self.to.min(CLOCK_WINDOW * window + CLOCK_WINDOW);
        let first = (begin - self.from) / SLICE;
        let last = (end - 1 - self.from) / SLICE;
        let middle = (first + last) / 2;
        let front = joined(&self.list[first as usize], &self.list[middle as usize]);
        joined(&front, &self.list[last as usize])
    }
}
