//! The places of a snapshot in the order in which their flights were filed.
ghost use Rattle.std.specs.Prelude.{◌↔◌, Contains, IfOk};
ghost use Rattle.mt_snapshot.specs.Private.Order.{ArePlaced, IsFilledPlace};

use mt_base::Memory;
use mt_probe::Snapshot;
use std::alloc::Global;

/// A place with a flight, ordered by the version at which the flight was filed.
#[derive(Clone, Copy, PartialEq, Eq, PartialOrd, Ord, Drop)]
pub(crate) struct Filed {
    /// The version with its filing.
    pub at: u64,
    /// The place.
    pub place: u32,
}

// The places that hold a flight.
fn filled(alloc: Global, snapshot: &Snapshot) -> Result<Vec<Filed>, Memory>
    ensures { IfOk result (λ all. (x : Filed) → Contains all.items x ↔ IsFilledPlace snapshot.now x) }
{
    let mut all = Vec::new(alloc);
    let count = snapshot.slots();
    for place in 0..count {
        if let Some(at) = snapshot.filed(place) {
            all.push(Filed { at, place })?;
        }
    }
    Ok(all)
}

/// The places that hold a flight, in the order of filing.
pub(crate) fn in_order(alloc: Global, snapshot: &Snapshot) -> Result<Vec<Filed>, Memory>
    ensures { IfOk result (λ all. ArePlaced snapshot.now all.items) }
{
    snapshot.keeps();
    let mut all = filled(alloc, snapshot)?;
    all.sort_unstable();
    // No place is twice among them. This drops nothing, and shows it.
    all.dedup();
    Ok(all)
}
