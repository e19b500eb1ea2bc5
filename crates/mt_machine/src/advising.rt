//! Which clearances are advised to a flight.
ghost use Rattle.std.specs.Prelude.{◌≤◌, All, None, Ok, length, IfOk};
ghost use Rattle.mt_advise.specs.Trying.{CanBeTried};
ghost use Rattle.mt_base.specs.Advice.{IsAdvice, WasFound};
ghost use Rattle.mt_base.specs.Bounds.{AreWithinBounds};
ghost use Rattle.mt_base.specs.Tables.{setup_with};
ghost use Rattle.mt_machine.specs.Advising.{IsClearanceFree};
ghost use Rattle.mt_machine.specs.Private.Advising.{AreCandidatesOrRefused, AreFreeAmong};
ghost use Rattle.mt_change.specs.Sound.{IsSoundState};

use crate::plain::Plain;
use crate::what_if::hits;
use mt_advise::candidates;
use mt_base::{Callsign, Clearance, Clearances, Kind, Memory, Path, Refusal, Rules};
use mt_predict::{base_from, predict};
use mt_tables::Tables;
use std::alloc::Global;
use std::thread::Threads;

// The clearances that are tried for a flight at the moment, or why it isn't advised.
fn asked(
    alloc: Global,
    tables: &Tables,
    rules: &Rules,
    plain: &Plain,
    call: Callsign,
) -> Result<Result<Clearances, Refusal>, Memory>
    requires rules { AreWithinBounds rules.now }
    requires sound { IsSoundState (setup_with rules.now tables.now) plain.now }
    ensures { IfOk result (AreCandidatesOrRefused (setup_with rules.now tables.now) plain.now call) }
{
    let Some(flight) = plain.flight(call) else {
        return Ok(Err(Refusal::UnknownCall(call)));
    };
    let Path::Planned(course) = &flight.path else {
        return Ok(Err(Refusal::Fixed));
    };
    let strand = predict(alloc, tables, rules, course, Kind::Actual)?;
    let Some(base) = base_from(&course.base, &strand, plain.now()) else {
        return Ok(Err(Refusal::Ended));
    };
    tables.keeps();
    Ok(Ok(Clearances::of(candidates(alloc, course, &base, tables)?)))
}

// Whether a clearance of a flight that can be tried has no hit.
fn is_free<R: Threads + Sync>(
    rt: &R,
    alloc: Global,
    tables: &Tables,
    rules: &Rules,
    plain: &Plain,
    call: Callsign,
    clearance: Clearance,
) -> Result<bool, Memory>
    requires rules { AreWithinBounds rules.now }
    requires sound { IsSoundState (setup_with rules.now tables.now) plain.now }
    requires can { CanBeTried (setup_with rules.now tables.now) plain.now call clearance }
    ensures { IfOk result (WasFound (setup_with rules.now tables.now) plain.now call clearance) }
{
    let Ok(found) = hits(rt, alloc, tables, rules, plain, call, clearance, None)? else {
        unreachable!()
    };
    Ok(found.items().is_empty())
}

// Those of some clearances that have no hit, in order.
fn free_among<R: Threads + Sync>(
    rt: &R,
    alloc: Global,
    tables: &Tables,
    rules: &Rules,
    plain: &Plain,
    call: Callsign,
    tried: &[Clearance],
) -> Result<Clearances, Memory>
    requires rules { AreWithinBounds rules.now }
    requires sound { IsSoundState (setup_with rules.now tables.now) plain.now }
    requires can { All (CanBeTried (setup_with rules.now tables.now) plain.now call) tried.now }
    ensures { IfOk result (AreFreeAmong (setup_with rules.now tables.now) plain.now call tried.now) }
{
    let mut free = Clearances::make(alloc)?;
    for clearance in tried {
        if is_free(rt, alloc, tables, rules, plain, call, *clearance)? {
            free.push(*clearance)?;
        }
    }
    Ok(free)
}

/// The clearances that are advised to a flight at the moment: those of the candidates whose what-if is empty, in their order; or its first
/// refusal, that no flight has the callsign, that it is an external one, or that its trajectory has ended.
///
/// Each candidate is tried anew, one after the other. At most sixteen are advised, and each has an empty what-if from the moment on. It asks
/// that the rules are within their bounds and the state is sound for them and the tables. The definition is `IsAdvice`.
pub fn plain_advice<R: Threads + Sync>(
    rt: &R,
    alloc: Global,
    tables: &Tables,
    rules: &Rules,
    plain: &Plain,
    call: Callsign,
) -> Result<Result<Clearances, Refusal>, Memory>
    requires rules { AreWithinBounds rules.now }
    requires sound { IsSoundState (setup_with rules.now tables.now) plain.now }
    ensures exact { IfOk result (IsAdvice (setup_with rules.now tables.now) plain.now call) }
    ensures free { IfOk result (λ advice. IfOk advice (All (IsClearanceFree (setup_with rules.now tables.now) plain.now call))) }
    ensures few { IfOk result (λ advice. IfOk advice (λ advised. length advised ≤ 16)) }
{
    let tried = match asked(alloc, tables, rules, plain, call)? {
        Ok(tried) => tried,
        Err(refusal) => return Ok(Err(refusal)),
    };
    let free = free_among(rt, alloc, tables, rules, plain, call, tried.items())?;
    Ok(Ok(free))
}
