use crate::fix_name::FixName;
use crate::flight::Base;
use crate::list::Listed;

/// What a planned flight is told to do.
#[derive(Clone, Copy, PartialEq, Eq)]
pub enum Clearance {
    /// To climb or descend to a flight level.
    Level(u32),
    /// To fly direct to a fix that lies ahead on its route.
    Direct(FixName),
}

/// What a clearance leaves: where the trajectory begins, and the flight level.
#[derive(Clone, Copy, PartialEq, Eq)]
pub struct Aim {
    /// Where the trajectory begins.
    pub base: Base,
    /// The flight level that it climbs or descends to.
    pub level: u32,
}

/// Clearances, seen as their list.
pub type Clearances = Listed<Clearance>;
