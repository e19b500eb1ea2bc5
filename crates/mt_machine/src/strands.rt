//! The trajectories of a state.
ghost use Rattle.std.specs.Prelude.{◌≡◌, ◌++◌, All, IfOk, OnOk};
ghost use Rattle.std.specs.List.{flat_map};
ghost use Rattle.mt_base.specs.Bounds.{AreWithinBounds, IsSoundFlight};
ghost use Rattle.mt_base.specs.Picture.{HaveOwnCalls, trajectories, trajectories_of};
ghost use Rattle.mt_change.specs.Sound.{IsSoundState};
ghost use Rattle.mt_base.specs.Others.{AreOfOthers};
ghost use Rattle.mt_base.specs.Tables.{setup_with};

use crate::plain::Plain;
use mt_base::{Kind, Memory, Path, Record, Rules};
use mt_change::strand_of_path;
use mt_predict::predict;
use mt_tables::Tables;
use mt_track::Roster;
use std::alloc::Global;
use std::sync::Arc;

// Puts the trajectories of a flight after those of others.
fn add_flight(
    alloc: Global,
    tables: &Tables,
    rules: &Rules,
    flight: &Record,
    roster: &mut Roster,
) -> Result<(), Memory>
    requires rules { AreWithinBounds rules.now }
    requires sound { IsSoundFlight (setup_with rules.now tables.now) flight.now }
    requires free { AreOfOthers flight.now.call roster.old }
    ensures { OnOk result (roster.new ≡ roster.old ++ trajectories_of (setup_with rules.now tables.now) flight.now) }
{
    let strand = Arc::new(alloc, strand_of_path(alloc, tables, rules, &flight.path)?)?;
    roster.add(flight.call, Kind::Actual, &strand)?;
    if let Path::Planned(course) = &flight.path
        && course.mark.is_some()
    {
        let strand = Arc::new(
            alloc,
            predict(alloc, tables, rules, course, Kind::Tentative)?,
        )?;
        roster.add(flight.call, Kind::Tentative, &strand)?;
    }
    Ok(())
}

// The trajectories of some flights.
fn roster_of(
    alloc: Global,
    tables: &Tables,
    rules: &Rules,
    flights: &[Record],
) -> Result<Roster, Memory>
    requires rules { AreWithinBounds rules.now }
    requires sound { All (IsSoundFlight (setup_with rules.now tables.now)) flights.now }
    requires own_calls { HaveOwnCalls flights.now }
    ensures { IfOk result (λ roster. roster ≡ flat_map (trajectories_of (setup_with rules.now tables.now)) flights.now) }
{
    let mut roster = Roster::make(alloc)?;
    for flight in flights {
        add_flight(alloc, tables, rules, flight, &mut roster)?;
    }
    Ok(roster)
}

impl Plain {
    /// All trajectories of the state, each predicted anew: of each flight in the order of filing the one that it flies, and its tentative
    /// one.
    ///
    /// It asks that the rules are within their bounds and the state is sound for them and the tables.
    pub fn strands(&self, alloc: Global, tables: &Tables, rules: &Rules) -> Result<Roster, Memory>
        requires rules { AreWithinBounds rules.now }
        requires sound { IsSoundState (setup_with rules.now tables.now) self.now }
        ensures { IfOk result (λ roster. roster ≡ trajectories (setup_with rules.now tables.now) self.now) }
    {
        roster_of(alloc, tables, rules, &self.flights)
    }
}
