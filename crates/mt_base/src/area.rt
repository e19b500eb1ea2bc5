use crate::callsign::Callsign;
use crate::conflict::Kind;
use crate::fix_name::FixName;
use crate::list::Listed;
use crate::row::Second;
use mt_memory::Memory;
use std::alloc::Global;

/// The corners of an area, each its position east and north in 1/3600 of a nautical mile, seen as their list.
pub type Corners = Listed<(i64, i64)>;

/// A restricted area: a polygon in the plane, between two levels and within some hours.
#[derive(Drop)]
pub struct Area {
    /// Its name.
    pub name: FixName,
    /// Its 3 to 16 corners, counterclockwise.
    pub corners: Corners,
    /// Its bottom, a flight level.
    pub bottom: u32,
    /// Its top, a flight level.
    pub top: u32,
    /// The first second of its hours.
    pub from: Second,
    /// The second after the last one of its hours.
    pub to: Second,
}

impl Area {
    ghost use Rattle.std.specs.Prelude.{◌≡◌, IfOk};

    /// The same area once more.
    pub fn copy(&self, alloc: Global) -> Result<Area, Memory>
        ensures { IfOk result (λ area. area ≡ self.now) }
    {
        Ok(Area {
            corners: self.corners.copy(alloc)?,
            ..*self
        })
    }
}

/// A trajectory that passes through an area. The fields stand in the order in which they are told.
#[derive(Clone, Copy, PartialEq, Eq, PartialOrd, Ord)]
pub struct Pierced {
    /// The first second in which it is inside.
    pub first: Second,
    /// The flight's callsign.
    pub call: Callsign,
    /// The trajectory's kind.
    pub kind: Kind,
    /// The area's name.
    pub area: FixName,
    /// The last second in which it is inside.
    pub last: Second,
}

/// What is told of trajectories and areas, seen as its list.
pub type Pierces = Listed<Pierced>;

impl Listed<Pierced> {
    ghost use Rattle.std.specs.Prelude.{Contains, ◌↔◌};
    ghost use Rattle.std.specs.List.Sorted.{IsStrictlySortedBy};
    ghost use Rattle.mt_base.specs.declared.area.Pierced.{Pierced};
    ghost use Rattle.mt_base.specs.Pierced.{pierced_cmp};

    /// Puts them in order, each once.
    pub fn order(&mut self)
        ensures same { (p : Pierced) → Contains self.new p ↔ Contains self.old p }
        ensures sorted { IsStrictlySortedBy pierced_cmp self.new }
    {
        self.values.sort_unstable();
        self.values.dedup();
    }
}
