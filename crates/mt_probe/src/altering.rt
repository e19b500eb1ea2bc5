//! What a command leaves of the planned flight that it names.
ghost use Rattle.std.specs.Prelude.{◌≡◌, Ok, Some, IfOk};
ghost use Rattle.mt_base.specs.Effect.{verdict_in};
ghost use Rattle.mt_change.specs.Altered.{Alters, IsBoundedBesides};
ghost use Rattle.mt_probe.specs.Prepared.{IsLeftByEntry, IsSlotNamed, judged_aside};
ghost use Rattle.mt_probe.specs.Shot.{state_in_shot};

use crate::snapshot::Snapshot;
use mt_base::{Command, Kind, Memory, Path, Record, Verdict};
use mt_change::alteration_by;
use std::alloc::Global;

/// A planned flight as the entry of a command leaves it.
#[derive(Drop)]
pub struct Altered {
    /// The flight.
    pub card: Record,
    /// The verdict on the report, where the command is one.
    pub verdict: Option<Verdict>,
}

/// The planned flight in a slot, as the entry of a command that names it leaves it, and the verdict on a report.
///
/// It asks that the slot is that of the flight that the command names, that the command alters a planned flight, that its numbers are within
/// their bounds, whatever version the probe of an acceptance names, and that no check of it fails, but for the want of room.
pub fn altered_flight(
    alloc: Global,
    snapshot: &Snapshot,
    slot: u32,
    who: u32,
    command: &Command,
) -> Result<Altered, Memory>
    requires named { IsSlotNamed snapshot.now command.now (Some slot) }
    requires alters { Alters command.now }
    requires bounded { IsBoundedBesides command.now }
    requires passed { judged_aside snapshot.now.setup (state_in_shot snapshot.now) who command.now ≡ Ok (tt {0}) }
    ensures left { IfOk result (λ it. IsLeftByEntry snapshot.now.setup (state_in_shot snapshot.now) who command.now it.card) }
    ensures verdict { IfOk result (λ it. it.verdict ≡ verdict_in snapshot.now.setup (state_in_shot snapshot.now) command.now) }
{
    snapshot.keeps();
    let Some(flight) = snapshot.flight(slot) else {
        unreachable!()
    };
    let Path::Planned(course) = &flight.path else {
        unreachable!()
    };
    let Some(strand) = snapshot.path(slot, Kind::Actual) else {
        unreachable!()
    };
    let now = snapshot.now();
    let filled = command.filled(alloc, now)?;
    let alteration = alteration_by(
        snapshot.tables(),
        snapshot.rules(),
        who,
        &filled,
        course,
        strand,
        now,
    );
    let mut altered = course.copy(alloc)?;
    alteration.alter(&mut altered);
    Ok(Altered {
        card: Record {
            call: flight.call,
            path: Path::Planned(altered),
        },
        verdict: alteration.verdict(),
    })
}
