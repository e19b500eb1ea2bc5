//! What is decided of a command.
ghost use Rattle.std.specs.Prelude.{◌≡◌, ◌≤◌, ℕ, length, option_copied, IfOk};
ghost use Rattle.mt_base.specs.Bounds.{AreWithinBounds, IsBoundedCommand};
ghost use Rattle.mt_base.specs.Decision.{IsDecided, look_at};
ghost use Rattle.mt_base.specs.Picture.{flight_of};
ghost use Rattle.mt_change.specs.Deciding.{IsFirstHit};
ghost use Rattle.mt_machine.specs.Private.Deciding.{IsPlannedStrand, IsStrandFor};
ghost use Rattle.mt_change.specs.Sound.{IsSoundState, PassesChecks};
ghost use Rattle.mt_predict.specs.Looking.{look_of};
ghost use Rattle.mt_base.specs.Tables.{setup_with};

use crate::plain::Plain;
use crate::what_if::hits;
use mt_base::{Callsign, Command, Entry, Hit, Kind, Memory, Path, Refusal, Rules};
use mt_predict::{Looked, judge, predict};
use mt_tables::Tables;
use mt_track::Strand;
use std::alloc::Global;
use std::thread::Threads;

// What a decision of the command looks at in the state.
fn look<'a>(plain: &'a Plain, command: &Command, strand: Option<&'a Strand>) -> Looked<'a>
    requires { length plain.now.records ≤ 1024 }
    ensures look { look_of result ≡ look_at plain.now command.now }
    ensures strand { option_copied result.strand ≡ option_copied strand.entry }
{
    Looked {
        now: plain.moment,
        held: plain.flights.len() as u32,
        entries: plain.version,
        flight: match command.call() {
            Some(call) => plain.flight(call),
            None => None,
        },
        strand,
    }
}

// The trajectory of the flight that a clearance names, where that is there and planned.
fn strand_for(
    alloc: Global,
    tables: &Tables,
    rules: &Rules,
    plain: &Plain,
    command: &Command,
) -> Result<Option<Strand>, Memory>
    requires rules { AreWithinBounds rules.now }
    requires sound { IsSoundState (setup_with rules.now tables.now) plain.now }
    ensures { IfOk result (IsStrandFor (setup_with rules.now tables.now) plain.now command.now) }
{
    match command {
        Command::Clear { call, .. }
        | Command::Accept { call, .. }
        | Command::Tentative { call, .. } => planned_strand(alloc, tables, rules, plain, *call),
        _ => Ok(None),
    }
}

// The trajectory of a flight, where that is there and planned.
fn planned_strand(
    alloc: Global,
    tables: &Tables,
    rules: &Rules,
    plain: &Plain,
    call: Callsign,
) -> Result<Option<Strand>, Memory>
    requires rules { AreWithinBounds rules.now }
    requires sound { IsSoundState (setup_with rules.now tables.now) plain.now }
    ensures { IfOk result (IsPlannedStrand (setup_with rules.now tables.now) (flight_of plain.now.records call)) }
{
    let Some(flight) = plain.flight(call) else {
        return Ok(None);
    };
    let Path::Planned(course) = &flight.path else {
        return Ok(None);
    };
    Ok(Some(predict(alloc, tables, rules, course, Kind::Actual)?))
}

// The first hit of a command that was probed; `None` exactly where it has none, as any other command.
fn first_hit<R: Threads + Sync>(
    rt: &R,
    alloc: Global,
    tables: &Tables,
    rules: &Rules,
    plain: &Plain,
    command: &Command,
) -> Result<Option<Hit>, Memory>
    requires rules { AreWithinBounds rules.now }
    requires sound { IsSoundState (setup_with rules.now tables.now) plain.now }
    requires bounded { IsBoundedCommand command.now }
    requires passed { (who : ℕ) × PassesChecks (setup_with rules.now tables.now) plain.now who command.now }
    ensures { IfOk result (IsFirstHit (setup_with rules.now tables.now) plain.now command.now) }
{
    let Command::Accept {
        call,
        clearance,
        eff,
        ..
    } = command
    else {
        return Ok(None);
    };
    let Ok(found) = hits(
        rt,
        alloc,
        tables,
        rules,
        plain,
        *call,
        *clearance,
        Some(*eff),
    )?
    else {
        unreachable!()
    };
    Ok(found.items().first().copied())
}

/// What is decided of an actor's command in a state: the first of its refusals, the last of which is that what was probed is no longer
/// free; or the entry.
///
/// It asks that the rules are within their bounds, the state is sound for them and the tables, and the numbers of the command are within
/// their bounds.
pub fn decide<R: Threads + Sync>(
    rt: &R,
    alloc: Global,
    tables: &Tables,
    rules: &Rules,
    plain: &Plain,
    who: u32,
    command: &Command,
) -> Result<Result<Entry, Refusal>, Memory>
    requires rules { AreWithinBounds rules.now }
    requires sound { IsSoundState (setup_with rules.now tables.now) plain.now }
    requires bounded { IsBoundedCommand command.now }
    ensures { IfOk result (IsDecided (setup_with rules.now tables.now) plain.now who command.now) }
{
    let strand = strand_for(alloc, tables, rules, plain, command)?;
    let looked = look(plain, command, strand.as_ref());
    if let Err(refusal) = judge(tables, rules, &looked, who, command) {
        return Ok(Err(refusal));
    }
    if let Some(first) = first_hit(rt, alloc, tables, rules, plain, command)? {
        return Ok(Err(Refusal::Stale { first }));
    }
    Ok(Ok(Entry {
        who,
        command: command.filled(alloc, plain.now())?,
    }))
}
