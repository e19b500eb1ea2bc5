//! What is told of a flight.
ghost use Rattle.std.specs.Prelude.{◌≡◌, IfOk, option_map};
ghost use Rattle.mt_base.specs.Bounds.{AreWithinBounds};
ghost use Rattle.mt_base.specs.Picture.{flight_of};
ghost use Rattle.mt_base.specs.View.{view_of};
ghost use Rattle.mt_change.specs.Sound.{IsSoundState};
ghost use Rattle.mt_base.specs.Tables.{setup_with};

use crate::plain::Plain;
use mt_base::{Callsign, FlightView, Memory, Rules, Second};
use mt_change::strand_of_path;
use mt_tables::Tables;
use mt_track::view_of_path;
use std::alloc::Global;

impl Plain {
    /// What is told of a flight at a second, by default the moment; `None` exactly where no flight has that callsign.
    ///
    /// It asks that the rules are within their bounds and the state is sound for them and the tables.
    pub fn view(
        &self,
        alloc: Global,
        tables: &Tables,
        rules: &Rules,
        call: Callsign,
        sec: Option<Second>,
    ) -> Result<Option<FlightView>, Memory>
        requires rules { AreWithinBounds rules.now }
        requires sound { IsSoundState (setup_with rules.now tables.now) self.now }
        ensures { IfOk result (λ view. view ≡
            option_map (view_of (setup_with rules.now tables.now) self.now sec) (flight_of self.now.records call)) }
    {
        let Some(flight) = self.flight(call) else {
            return Ok(None);
        };
        let strand = strand_of_path(alloc, tables, rules, &flight.path)?;
        let k = sec.unwrap_or(self.moment);
        Ok(Some(view_of_path(flight, &strand, k, self.version)))
    }
}
