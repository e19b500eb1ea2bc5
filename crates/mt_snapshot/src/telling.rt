//! What is told of a flight.
ghost use Rattle.std.specs.Prelude.{◌≡◌, option_map};
ghost use Rattle.mt_base.specs.Picture.{flight_of};
ghost use Rattle.mt_base.specs.View.{view_of};
ghost use Rattle.mt_probe.specs.Shot.{state_in_shot};

use mt_base::{Callsign, FlightView, Kind, Second};
use mt_probe::Snapshot;
use mt_track::view_of_path;

/// What is told of a flight at a second, by default the moment; `None` exactly where no flight has that callsign.
pub fn view_of_call(snapshot: &Snapshot, call: Callsign, sec: Option<Second>) -> Option<FlightView>
    ensures { result ≡ option_map (view_of snapshot.now.setup (state_in_shot snapshot.now) sec) (flight_of (state_in_shot snapshot.now).records call) }
{
    let version = snapshot.version();
    let k = sec.unwrap_or(snapshot.now());
    let slot = snapshot.find(call)?;
    let flight = snapshot.flight(slot)?;
    let strand = snapshot.strand(slot, Kind::Actual)?;
    Some(view_of_path(flight, strand, k, version))
}
