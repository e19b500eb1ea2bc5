//! The advice for a flight of a snapshot.
ghost use Rattle.std.specs.Prelude.{IfOk, IfErr};
ghost use Rattle.mt_snapshot.specs.Advised.{IsAdvisedOn, IsNotAdvisedOn};

use crate::asking::asked;
use crate::trying::{free_of, tries};
use mt_base::Callsign;
use mt_board::{Advised, No};
use mt_probe::{Probe, Snapshot};
use std::alloc::Global;
use std::thread::Threads;

/// The clearances that are advised to a flight at a snapshot's moment, as probes: those of the candidates whose what-if is empty, in their
/// order; or its first refusal, at the snapshot's version, that no flight has the callsign, that it is an external one, or that its trajectory
/// has ended.
///
/// The candidates are tried on the caller's thread; on more the answer would be the same, whichever of them is done first. At most sixteen are
/// advised. Each was tried from the moment on and has no hit. Nothing is asked of the caller, and `Memory` is answered where one of the tries
/// wanted some. The definitions are `IsAdvice` and `IsProbe`.
pub fn advise<R: Threads + Sync>(
    rt: &R,
    alloc: Global,
    snapshot: &Snapshot,
    call: Callsign,
) -> Result<Advised<Probe>, No>
    ensures advised { IfOk result (λ a. IsAdvisedOn snapshot.now call a.eff a.version a.probes.items) }
    ensures refused { IfErr result (IsNotAdvisedOn snapshot.now call) }
{
    let list = asked(alloc, snapshot, call)?;
    let tries = tries(rt, alloc, snapshot, call, &list)?;
    Ok(Advised {
        version: snapshot.version(),
        eff: snapshot.now(),
        probes: free_of(alloc, tries)?,
    })
}
