/// A position in the plane, in 1/3600 of a nautical mile.
#[derive(Clone, Copy, PartialEq, Eq)]
pub struct Point {
    /// East.
    pub x: i64,
    /// North.
    pub y: i64,
}

/// The five values of a trajectory at the start of a second; units as in [`crate::Row`].
#[derive(Clone, Copy, PartialEq, Eq)]
pub struct Place {
    /// Position east.
    pub x: i64,
    /// Position north.
    pub y: i64,
    /// Height.
    pub z: i64,
    /// Horizontal margin.
    pub r: i64,
    /// Vertical margin.
    pub w: i64,
}

/// A leg of a route: the flight from a place to the next fix.
#[derive(Clone, Copy, PartialEq, Eq)]
pub struct Leg {
    /// The fix's place in the route.
    pub number: u32,
    /// How far it is east, in 1/3600 of a nautical mile.
    pub dx: i64,
    /// How far it is north.
    pub dy: i64,
    /// How many seconds the leg lasts.
    pub seconds: u32,
}
