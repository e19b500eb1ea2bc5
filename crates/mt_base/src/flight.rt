ghost use Rattle.std.specs.Prelude.{◌≡◌, IfOk};

use crate::callsign::Callsign;
use crate::route::Route;
use crate::row::{Row, Second};
use crate::type_name::TypeName;
use mt_memory::Memory;
use std::alloc::Global;

/// A straight stretch that is given whole: the seconds `from <= k < to`, each value linear over all of them.
#[derive(Clone, Copy, PartialEq, Eq)]
pub struct Straight {
    /// The first second.
    pub from: Second,
    /// The second after the last one.
    pub to: Second,
    /// The values and gains of the first second.
    pub first: Row,
    /// Whether the aircraft is approved for RVSM.
    pub rvsm: bool,
}

/// Where a planned trajectory begins; units as in [`Row`].
#[derive(Clone, Copy, PartialEq, Eq)]
pub struct Base {
    /// Its first second.
    pub at: Second,
    /// Position east.
    pub x: i64,
    /// Position north.
    pub y: i64,
    /// Height.
    pub z: i64,
    /// Horizontal margin.
    pub r: i64,
    /// Vertical margin.
    pub w: i64,
    /// The place in the route of the fix that is flown to next.
    pub next: u32,
}

/// Where a flight was seen; units as in [`Row`].
#[derive(Clone, Copy, PartialEq, Eq)]
pub struct Report {
    /// The second.
    pub at: Second,
    /// Position east.
    pub x: i64,
    /// Position north.
    pub y: i64,
    /// Height.
    pub z: i64,
}

/// A tentative clearance: a trajectory beside the one that the flight is cleared to.
#[derive(Clone, Copy, PartialEq, Eq)]
pub struct Mark {
    /// The number of the actor that owns it.
    pub owner: u32,
    /// Where its trajectory begins.
    pub base: Base,
    /// The flight level that it climbs or descends to.
    pub level: u32,
}

/// What a planned flight is cleared to, and what is known of it.
#[derive(Drop)]
pub struct Course {
    /// The aircraft's type.
    pub kind: TypeName,
    /// The fixes that it flies along.
    pub route: Route,
    /// Where its trajectory begins.
    pub base: Base,
    /// The flight level that it is cleared to.
    pub level: u32,
    /// Its last report.
    pub last: Option<Report>,
    /// Whether a report left the trajectory, so that a new one is due.
    pub due: bool,
    /// Its tentative clearance.
    pub mark: Option<Mark>,
    /// Whether the aircraft is approved for RVSM.
    pub rvsm: bool,
}

impl Course {
    /// The same course once more.
    pub fn copy(&self, alloc: Global) -> Result<Course, Memory>
        ensures { IfOk result (λ course. course ≡ self.now) }
    {
        Ok(Course {
            kind: self.kind,
            route: self.route.copy(alloc)?,
            base: self.base,
            level: self.level,
            last: self.last,
            due: self.due,
            mark: self.mark,
            rvsm: self.rvsm,
        })
    }
}

/// How a flight moves.
#[derive(Drop)]
pub enum Path {
    /// A planned flight, by its course.
    Planned(Course),
    /// An external flight, by a straight stretch from elsewhere.
    Outer(Straight),
}

impl Path {
    /// The same path once more.
    pub fn copy(&self, alloc: Global) -> Result<Path, Memory>
        ensures { IfOk result (λ path. path ≡ self.now) }
    {
        match self {
            Path::Planned(course) => Ok(Path::Planned(course.copy(alloc)?)),
            Path::Outer(straight) => Ok(Path::Outer(*straight)),
        }
    }
}

/// A flight of the picture.
#[derive(Drop)]
pub struct Record {
    /// Its callsign. No two flights of a picture have the same.
    pub call: Callsign,
    /// How it moves.
    pub path: Path,
}

impl Record {
    ghost use Rattle.mt_base.specs.Settled.{is_due};

    /// Whether a new trajectory of the flight is due.
    pub fn is_due(&self) -> bool
        ensures { result ≡ is_due self.now }
    {
        match &self.path {
            Path::Planned(course) => course.due,
            Path::Outer(_) => false,
        }
    }

    /// The same flight once more.
    pub fn copy(&self, alloc: Global) -> Result<Record, Memory>
        ensures { IfOk result (λ flight. flight ≡ self.now) }
    {
        Ok(Record {
            call: self.call,
            path: self.path.copy(alloc)?,
        })
    }
}

/// What is told of a tentative clearance.
#[derive(Clone, Copy, PartialEq, Eq)]
pub struct Tent {
    /// The flight level that it climbs or descends to.
    pub level: u32,
    /// The number of the actor that owns it.
    pub owner: u32,
    /// The first second of its trajectory.
    pub start: Second,
}

/// What is told of a flight.
#[derive(Clone, Copy, PartialEq, Eq)]
pub struct FlightView {
    /// Its callsign.
    pub call: Callsign,
    /// Whether a new trajectory is due.
    pub due: bool,
    /// The second after the last one of its trajectory.
    pub end: Second,
    /// The flight level that it is cleared to; an external flight has none.
    pub level: Option<u32>,
    /// The row of the second that was asked for, where the trajectory covers it.
    pub row: Option<Row>,
    /// The first second of its trajectory.
    pub start: Second,
    /// Its tentative clearance.
    pub tentative: Option<Tent>,
    /// The version at which this holds.
    pub version: u64,
}
