//! The flights for which a new trajectory is due.
ghost use Rattle.std.specs.Prelude.{◌≡◌, ◌≤◌, All, true, length, IfOk};
ghost use Rattle.mt_base.specs.Name.{is_name};
ghost use Rattle.mt_base.specs.Settled.{due_calls};

use crate::plain::Plain;
use mt_base::{Calls, Memory, Record};
use std::alloc::Global;

// The callsigns of those of the flights that are due, in order.
fn calls_of(alloc: Global, flights: &[Record]) -> Result<Calls, Memory>
    ensures exact { IfOk result (λ calls. calls ≡ due_calls flights.now) }
    ensures few { IfOk result (λ calls. length calls ≤ length flights.now) }
    ensures named { IfOk result (All (λ call. is_name 1 7 call ≡ true)) }
{
    let mut calls = Calls::make(alloc)?;
    for flight in flights {
        flight.call.keeps();
        if flight.is_due() {
            calls.push(flight.call)?;
        }
    }
    Ok(calls)
}

impl Plain {
    /// The callsigns of the flights for which a new trajectory is due, in the order of filing.
    pub fn due(&self, alloc: Global) -> Result<Calls, Memory>
        ensures exact { IfOk result (λ calls. calls ≡ due_calls self.now.records) }
        ensures few { IfOk result (λ calls. length calls ≤ length self.now.records) }
        ensures named { IfOk result (All (λ call. is_name 1 7 call ≡ true)) }
    {
        calls_of(alloc, &self.flights)
    }
}
