//! Ends of intervals.

ghost use Rattle.std.specs.Prelude.{unsigned_abs, pos, ◌<◌, ◌^◌, ◌<ℤ◌, ◌≤ℤ◌};

/// An end of what is left of an interval, as `num`/`den`: a whole number, or where a line is 0. It is a `Frac` with room for the lines of
/// `Linear::meet`.
#[derive(Clone, Copy)]
pub(crate) struct End {
    pub(crate) num: i128,
    pub(crate) den: i128,
    pub(crate) ghost num_bounded: { unsigned_abs num < 2 ^ 50 },
    pub(crate) ghost den_positive: { pos 1 ≤ℤ den },
    pub(crate) ghost den_bounded: { den <ℤ pos (2 ^ 40) },
}
