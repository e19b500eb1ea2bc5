//! Which clearances are tried for a flight of a snapshot.
ghost use Rattle.std.specs.Prelude.{◌≡◌, IfOk, IfErr};
ghost use Rattle.mt_board.specs.declared.no.No.TheVariants.{Refused};
ghost use Rattle.mt_snapshot.specs.Advised.{IsNotAdvisedOn};
ghost use Rattle.mt_snapshot.specs.Private.Trying.{AreAdviceCandidates};

use mt_advise::candidates;
use mt_base::{Callsign, Clearance, Kind, Path, Refusal};
use mt_board::No;
use mt_predict::base_from;
use mt_probe::Snapshot;
use std::alloc::Global;

// A refusal, at the snapshot's version.
fn refused(snapshot: &Snapshot, refusal: Refusal) -> No
    ensures { result ≡ Refused refusal snapshot.now.version }
{
    No::Refused {
        refusal,
        version: snapshot.version(),
    }
}

/// The clearances that are tried for a flight at the snapshot's moment, or why it isn't advised, at the snapshot's version.
pub(crate) fn asked(
    alloc: Global,
    snapshot: &Snapshot,
    call: Callsign,
) -> Result<Vec<Clearance>, No>
    ensures asked { IfOk result (λ list. AreAdviceCandidates snapshot.now call list.items) }
    ensures refused { IfErr result (IsNotAdvisedOn snapshot.now call) }
{
    snapshot.keeps();
    let Some(slot) = snapshot.find(call) else {
        return Err(refused(snapshot, Refusal::UnknownCall(call)));
    };
    let Some(flight) = snapshot.flight(slot) else {
        unreachable!()
    };
    let Path::Planned(course) = &flight.path else {
        return Err(refused(snapshot, Refusal::Fixed));
    };
    let Some(strand) = snapshot.strand(slot, Kind::Actual) else {
        unreachable!()
    };
    let Some(base) = base_from(&course.base, strand, snapshot.now()) else {
        return Err(refused(snapshot, Refusal::Ended));
    };
    let tables = snapshot.tables();
    tables.keeps();
    Ok(candidates(alloc, course, &base, tables)?)
}
