//! What is told of a flight.
ghost use Rattle.std.specs.Prelude.{◌≡◌};
ghost use Rattle.mt_base.specs.View.{tent_of, view_of_path};

use crate::strand::Strand;
use mt_base::{FlightView, Mark, Path, Record, Second, Tent};

fn tent_of(mark: &Mark) -> Tent
    ensures { result ≡ tent_of mark.now }
{
    Tent {
        level: mark.level,
        owner: mark.owner,
        start: mark.base.at,
    }
}

/// What is told of a flight with this strand at second `k`, as of a version: what `view_of_path` says.
pub fn view_of_path(flight: &Record, strand: &Strand, k: Second, version: u64) -> FlightView
    ensures { result ≡ view_of_path flight.now.call flight.now.path strand.now k version }
{
    let told = FlightView {
        call: flight.call,
        due: false,
        end: strand.end(),
        level: None,
        row: strand.at(k),
        start: strand.start(),
        tentative: None,
        version,
    };
    match &flight.path {
        Path::Planned(course) => FlightView {
            due: course.due,
            level: Some(course.level),
            tentative: course.mark.as_ref().map(tent_of),
            ..told
        },
        Path::Outer(_) => told,
    }
}
