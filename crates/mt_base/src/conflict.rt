use crate::callsign::Callsign;
use crate::list::Listed;
use crate::row::Second;

/// Which of a flight's trajectories: the one it flies, or one that a position marked as tentative.
#[derive(Clone, Copy, PartialEq, Eq, PartialOrd, Ord)]
pub enum Kind {
    /// The trajectory that the flight flies.
    Actual,
    /// The trajectory of its tentative clearance.
    Tentative,
}

/// Two trajectories that lose separation. The fields stand in the order in which conflicts are published.
#[derive(Clone, Copy, PartialEq, Eq, PartialOrd, Ord)]
pub struct Conflict {
    /// The first second in which they do.
    pub first: Second,
    /// The lesser callsign.
    pub a: Callsign,
    /// The greater callsign.
    pub b: Callsign,
    /// The kind of the lesser callsign's trajectory.
    pub ka: Kind,
    /// The kind of the greater callsign's trajectory.
    pub kb: Kind,
    /// The last second in which they do.
    pub last: Second,
}

/// Conflicts, seen as their list.
pub type Conflicts = Listed<Conflict>;

impl Listed<Conflict> {
    ghost use Rattle.std.specs.Prelude.{Contains, ◌↔◌};
    ghost use Rattle.std.specs.List.Sorted.{IsStrictlySortedBy};
    ghost use Rattle.mt_base.specs.declared.conflict.Conflict.{Conflict};
    ghost use Rattle.mt_base.specs.Picture.{conflict_cmp};

    /// Puts them in the order of publishing, each once.
    pub fn order(&mut self)
        ensures same { (c : Conflict) → Contains self.new c ↔ Contains self.old c }
        ensures sorted { IsStrictlySortedBy conflict_cmp self.new }
    {
        self.values.sort_unstable();
        self.values.dedup();
    }
}
