/// A second of the picture's time, counted from 0.
pub type Second = u32;

/// How many seconds the window lasts. It begins with the moment.
pub const WINDOW: Second = 1200;

/// The second before which every trajectory ends, and by which the hours of every area do.
pub const HORIZON: Second = 10_014_400;

/// A trajectory during one second: five values at its start, and what each gains until its end.
///
/// Inside the second all five values are linear in time.
#[derive(Clone, Copy, PartialEq, Eq)]
pub struct Row {
    /// Position east, in 1/3600 of a nautical mile.
    pub x: i64,
    /// Position north, in 1/3600 of a nautical mile.
    pub y: i64,
    /// Height, in 1/60 of a foot.
    pub z: i64,
    /// Horizontal margin, in 1/3600 of a nautical mile.
    pub r: i64,
    /// Vertical margin, in 1/60 of a foot.
    pub w: i64,
    /// What `x` gains: so many knots.
    pub vx: i64,
    /// What `y` gains: so many knots.
    pub vy: i64,
    /// What `z` gains: so many feet a minute.
    pub vz: i64,
    /// What `r` gains.
    pub gr: i64,
    /// What `w` gains.
    pub gw: i64,
    /// The place in the route of the fix that is flown to; 0 for an external flight.
    pub leg: u32,
}
