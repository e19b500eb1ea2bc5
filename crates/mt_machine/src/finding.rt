//! The hits of a trajectory: its conflicts with those that the other flights fly.
ghost use Rattle.std.specs.Prelude.{◌≡◌, ◌≤◌, ◌↔◌, Some, true, is_some, IfOk};
ghost use Rattle.mt_base.specs.declared.hit.Hit.{Hit};
ghost use Rattle.mt_base.specs.Bounds.{AreWithinBounds, IsSoundFlight};
ghost use Rattle.mt_base.specs.Name.{is_name};
ghost use Rattle.mt_base.specs.Picture.{flight_of};
ghost use Rattle.mt_base.specs.WhatIf.{AreHitsOf};
ghost use Rattle.mt_machine.specs.Private.Hits.{IsHitWith};
ghost use Rattle.mt_board.specs.Short.{AreShortHits};
ghost use Rattle.mt_change.specs.Sound.{IsSoundState};
ghost use Rattle.mt_base.specs.Tables.{setup_with};

use crate::plain::Plain;
use mt_base::{Callsign, Hit, Hits, Memory, Record, Rules, Second, Tally, WINDOW};
use mt_change::strand_of_path;
use mt_pair::lose;
use mt_tables::Tables;
use mt_track::Strand;
use std::alloc::Global;

// The conflict of a trajectory in the window with the one that another flight flies.
fn hit_with(
    alloc: Global,
    tables: &Tables,
    rules: &Rules,
    other: &Record,
    strand: &Strand,
    now: Second,
    tests: &mut Tally,
) -> Result<Option<Hit>, Memory>
    requires rules { AreWithinBounds rules.now }
    requires sound { IsSoundFlight (setup_with rules.now tables.now) other.now }
    requires early { now ≤ 10000000 }
    ensures exact { IfOk result (λ found. (hit : Hit) →
        (found ≡ Some hit) ↔ IsHitWith (setup_with rules.now tables.now) now strand.now other.now hit) }
    ensures named { is_name 1 7 other.now.call ≡ true }
{
    other.call.keeps();
    let flown = strand_of_path(alloc, tables, rules, &other.path)?;
    let Some((first, last)) = lose(strand, &flown, rules, now, now + WINDOW, tests) else {
        return Ok(None);
    };
    Ok(Some(Hit {
        first,
        with: other.call,
        last,
    }))
}

/// The hits of a trajectory of a flight: in the window of 1,200 seconds from the moment, its conflicts with the trajectory that each
/// other flight flies, by their first seconds and then by callsign. Tentative trajectories don't count.
///
/// One pair is tested for each other flight. It asks that the rules are within their bounds, the state is sound for them and the
/// tables, and the flight is there.
pub(crate) fn hits_of(
    alloc: Global,
    tables: &Tables,
    rules: &Rules,
    plain: &Plain,
    call: Callsign,
    strand: &Strand,
    tests: &mut Tally,
) -> Result<Hits, Memory>
    requires rules { AreWithinBounds rules.now }
    requires sound { IsSoundState (setup_with rules.now tables.now) plain.now }
    requires flies { is_some (flight_of plain.now.records call) ≡ true }
    ensures exact { IfOk result (AreHitsOf (setup_with rules.now tables.now) plain.now call strand.now) }
    ensures short { IfOk result AreShortHits }
{
    let mut hits = Hits::make(alloc)?;
    for other in &plain.flights {
        if other.call == call {
            continue;
        }
        if let Some(hit) = hit_with(alloc, tables, rules, other, strand, plain.moment, tests)? {
            hits.push(hit)?;
        }
    }
    hits.order();
    Ok(hits)
}
