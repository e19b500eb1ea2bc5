//! The published conflicts from nothing.
ghost use Rattle.std.specs.Prelude.{◌≡◌, ◌++◌, IfOk, IfSome, OnOk, OnErr};
ghost use Rattle.mt_base.specs.Picture.{IsPublished, trajectories};
ghost use Rattle.mt_base.specs.Tally.{RoseUpTo, raised_by};
ghost use Rattle.mt_plain.specs.Tests.{pairs_of_different_flights};
ghost use Rattle.mt_probe.specs.Shot.{flight_at, made_named, state_in_shot};
ghost use Rattle.mt_base.specs.Others.{AreOfOthers};
ghost use Rattle.mt_snapshot.specs.Private.Kept.{kept_at, path_at};
ghost use Rattle.mt_track.specs.Named.{IsNameFree};

use crate::order::in_order;
use mt_base::{Callsign, Conflicts, Kind, Memory, Tally};
use mt_plain::all_pairs;
use mt_probe::Snapshot;
use mt_track::Roster;
use std::alloc::Global;

// Puts the trajectory of a kind of the flight at a place, where it has one, after the others, under that callsign.
fn add_strand(
    snapshot: &Snapshot,
    place: u32,
    call: Callsign,
    kind: Kind,
    roster: &mut Roster,
) -> Result<(), Memory>
    requires { IsNameFree roster.old call kind }
    ensures { OnOk result (roster.new ≡ roster.old ++ made_named call kind (path_at snapshot.now place kind)) }
{
    match snapshot.strand(place, kind) {
        Some(strand) => roster.add(call, kind, strand),
        None => Ok(()),
    }
}

// Puts the trajectories that are kept of the flight at a place after those of others.
fn add_flight(snapshot: &Snapshot, place: u32, roster: &mut Roster) -> Result<(), Memory>
    requires { IfSome (flight_at snapshot.now place) (λ f. AreOfOthers f.card.call roster.old) }
    ensures { OnOk result (roster.new ≡ roster.old ++ kept_at snapshot.now place) }
{
    let Some(flight) = snapshot.flight(place) else {
        return Ok(());
    };
    add_strand(snapshot, place, flight.call, Kind::Actual, roster)?;
    add_strand(snapshot, place, flight.call, Kind::Tentative, roster)
}

/// All trajectories of a snapshot, in the order of filing, each flight's actual one before its tentative one.
pub fn roster_of(alloc: Global, snapshot: &Snapshot) -> Result<Roster, Memory>
    ensures { IfOk result (λ roster. roster ≡ trajectories snapshot.now.setup (state_in_shot snapshot.now)) }
{
    snapshot.keeps();
    let places = in_order(alloc, snapshot)?;
    let mut roster = Roster::make(alloc)?;
    for filed in &places {
        add_flight(snapshot, filed.place, &mut roster)?;
    }
    Ok(roster)
}

/// The conflicts of all trajectories of a snapshot in the window of 1,200 seconds from its moment, tentative ones too, in the order of
/// publishing.
///
/// Each two trajectories of different flights are tested once: the tally rises by so many, up to the type's end, and on an error by at most
/// so many.
pub fn check(alloc: Global, snapshot: &Snapshot, tests: &mut Tally) -> Result<Conflicts, Memory>
    ensures published { IfOk result (IsPublished snapshot.now.setup (state_in_shot snapshot.now)) }
    ensures counted { OnOk result (tests.new ≡
        raised_by (pairs_of_different_flights (trajectories snapshot.now.setup (state_in_shot snapshot.now))) tests.old) }
    ensures limited { OnErr result
        (RoseUpTo (pairs_of_different_flights (trajectories snapshot.now.setup (state_in_shot snapshot.now))) tests.old tests.new) }
{
    let roster = roster_of(alloc, snapshot)?;
    all_pairs(alloc, &roster, snapshot.now(), snapshot.rules(), tests)
}
