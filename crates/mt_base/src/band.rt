use crate::list::Listed;

/// How an aircraft of a type flies in a band of heights: those above the top of the band before it, or from 0 for the first, up to its own.
#[derive(Clone, Copy, PartialEq, Eq)]
pub struct Band {
    /// Its top, a flight level from 1 to 600.
    pub top: u32,
    /// The speed, from 1 to 1,000 knots.
    pub speed: i64,
    /// The rate of climb, from 1 to 10,000 feet a minute.
    pub climb: i64,
    /// The rate of descent, likewise.
    pub descent: i64,
}

/// Bands, seen as their list. Those of a type are 1 to 8, whose tops rise strictly; the last top is the type's ceiling.
pub type Bands = Listed<Band>;
