//! The state of a picture.
ghost use Rattle.std.specs.Prelude.{◌≡◌, IfOk, option_copied};
ghost use Rattle.mt_base.specs.Picture.{flight_of, opening};
ghost use Rattle.mt_base.specs.Tables.{Setup};
ghost use Rattle.mt_change.specs.Sound.{IsSoundState};

use mt_base::{Callsign, Memory, Record, Second};
use std::alloc::Global;
use std::marker::Model;

/// A state: its moment, its flights in the order of filing, and its version, which is the number of entries.
#[derive(Drop)]
pub struct Plain {
    pub(crate) alloc: Global,
    pub(crate) moment: Second,
    pub(crate) flights: Vec<Record>,
    pub(crate) version: u64,
}

impl Model for Plain {
    ghost use Rattle.mt_base.specs.Picture.{State};

    ghost Value = { State };

    ghost view = { λ p. record { now = p.moment; records = p.flights.items; version = p.version } };
}

impl Plain {
    /// The opening state. It is sound for any rules and tables.
    pub fn make(alloc: Global) -> Result<Plain, Memory>
        ensures opening { IfOk result (λ plain. plain ≡ opening) }
        ensures sound { IfOk result (λ plain. (setup : Setup) → IsSoundState setup plain) }
    {
        Ok(Plain {
            alloc,
            moment: 0,
            flights: Vec::new(alloc),
            version: 0,
        })
    }

    /// The same state once more.
    pub fn copy(&self) -> Result<Plain, Memory>
        ensures { IfOk result (λ plain. plain ≡ self.now) }
    {
        Ok(Plain {
            alloc: self.alloc,
            moment: self.moment,
            flights: copies(self.alloc, &self.flights)?,
            version: self.version,
        })
    }

    /// The moment.
    pub fn now(&self) -> Second
        ensures { result ≡ self.now.now }
    {
        self.moment
    }

    /// The number of entries.
    pub fn version(&self) -> u64
        ensures { result ≡ self.now.version }
    {
        self.version
    }

    /// The flight of that callsign; `None` exactly where the picture has none.
    pub fn flight(&self, call: Callsign) -> Option<&Record>
        ensures { option_copied result ≡ flight_of self.now.records call }
    {
        self.flights.iter().find(|flight| flight.call == call)
    }
}

// The same flights once more.
fn copies(alloc: Global, flights: &[Record]) -> Result<Vec<Record>, Memory>
    ensures { IfOk result (λ copies. copies.items ≡ flights.now) }
{
    let mut copies = Vec::new(alloc);
    for flight in flights {
        copies.push(flight.copy(alloc)?)?;
    }
    Ok(copies)
}
