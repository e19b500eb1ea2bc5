//! Where trajectories stand.
ghost use Rattle.std.specs.Prelude.{◌≡◌, ◌<◌, ℕ, IfSome, Some};
ghost use Rattle.mt_probe.specs.Items.{kind_at};
ghost use Rattle.mt_picture.specs.Private.Candidates.{StandsInPlace, is_made_since};
ghost use Rattle.mt_picture.specs.Private.Places.{place_in};

use mt_base::{Callsign, Kind};
use mt_probe::Snapshot;

/// A place where a trajectory stands, and the version at which that was made.
#[derive(Clone, Copy)]
pub(crate) struct FoundPlace {
    /// The place.
    pub(crate) place: u32,
    /// The version.
    pub(crate) stamp: u64,
}

/// The place of a kind of trajectory of the flight in a slot.
pub(crate) fn place_of(slot: u32, kind: Kind) -> u32
    requires { slot < 2147483648 }
    ensures { result ≡ place_in slot kind }
{
    match kind {
        Kind::Actual => 2 * slot,
        Kind::Tentative => 2 * slot + 1,
    }
}

// The kind of the trajectory that may stand in a place.
fn kind_of(place: u32) -> Kind
    ensures { result ≡ kind_at place }
{
    if place.is_multiple_of(2) {
        Kind::Actual
    } else {
        Kind::Tentative
    }
}

/// Whether what stands in a place was made after a version. It isn't where nothing stands.
pub(crate) fn is_made_since(snapshot: &Snapshot, place: u32, version: u64) -> bool
    ensures { result ≡ is_made_since snapshot.now.slots version place }
{
    match snapshot.stamp(place / 2, kind_of(place)) {
        Some(stamp) => version < stamp,
        None => false,
    }
}

/// Where the trajectory of a kind of the flight of that callsign stands; `None` exactly where it stands nowhere.
pub(crate) fn find_trajectory(snapshot: &Snapshot, call: Callsign, kind: Kind) -> Option<FoundPlace>
    ensures there { IfSome result (λ it. StandsInPlace snapshot.now.slots it.place call kind it.stamp) }
    ensures only { (place stamp : ℕ) → StandsInPlace snapshot.now.slots place call kind stamp
        → result ≡ Some (record { place = place; stamp = stamp }) }
{
    snapshot.keeps();
    let slot = snapshot.find(call)?;
    let stamp = snapshot.stamp(slot, kind)?;
    let place = place_of(slot, kind);
    Some(FoundPlace { place, stamp })
}
