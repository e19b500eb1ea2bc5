use crate::callsign::Callsign;
use crate::list::Listed;
use crate::row::Second;

/// A conflict of a trajectory that is tried with that of another flight.
#[derive(Clone, Copy, PartialEq, Eq, PartialOrd, Ord)]
pub struct Hit {
    /// The first second with loss of separation.
    pub first: Second,
    /// The other flight's callsign.
    pub with: Callsign,
    /// The last second with loss of separation.
    pub last: Second,
}

/// Hits, seen as their list.
pub type Hits = Listed<Hit>;

impl Listed<Hit> {
    ghost use Rattle.std.specs.Prelude.{Contains, ◌↔◌, ◌≤◌, length};
    ghost use Rattle.std.specs.List.Sorted.{IsStrictlySortedBy};
    ghost use Rattle.mt_base.specs.declared.hit.Hit.{Hit};
    ghost use Rattle.mt_base.specs.WhatIf.{hit_cmp};

    /// Puts them in order, by their first seconds and then by callsign, each once.
    pub fn order(&mut self)
        ensures same { (h : Hit) → Contains self.new h ↔ Contains self.old h }
        ensures sorted { IsStrictlySortedBy hit_cmp self.new }
        ensures fewer { length self.new ≤ length self.old }
    {
        self.values.sort_unstable();
        self.values.dedup();
    }
}
