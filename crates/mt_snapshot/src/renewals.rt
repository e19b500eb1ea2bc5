//! The flights for which a new trajectory is due.
ghost use Rattle.std.specs.Prelude.{◌≡◌, IfOk};
ghost use Rattle.mt_base.specs.Settled.{due_calls};
ghost use Rattle.mt_board.specs.Short.{AreFewCalls};
ghost use Rattle.mt_probe.specs.Shot.{state_in_shot};

use crate::order::in_order;
use mt_base::{Calls, Memory};
use mt_probe::Snapshot;
use std::alloc::Global;

/// The callsigns of the flights for which a new trajectory is due, in the order of filing. There are at most 1,024.
pub fn due(alloc: Global, snapshot: &Snapshot) -> Result<Calls, Memory>
    ensures exact { IfOk result (λ calls. calls ≡ due_calls (state_in_shot snapshot.now).records) }
    ensures short { IfOk result AreFewCalls }
{
    snapshot.keeps();
    let places = in_order(alloc, snapshot)?;
    let mut calls = Calls::make(alloc)?;
    for filed in &places {
        let Some(flight) = snapshot.flight(filed.place) else {
            unreachable!()
        };
        flight.call.keeps();
        if flight.is_due() {
            calls.push(flight.call)?;
        }
    }
    Ok(calls)
}
