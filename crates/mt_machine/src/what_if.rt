//! What would follow from a clearance.
ghost use Rattle.std.specs.Prelude.{◌≡◌, ◌≤◌, length, IfOk, IfSome};
ghost use Rattle.mt_base.specs.Bounds.{AreWithinBounds, IsBoundedClearance, IsRightAim, IsSoundCourse};
ghost use Rattle.mt_base.specs.Effect.{with_aim};
ghost use Rattle.mt_base.specs.WhatIf.{IsWhatIf, aimed};
ghost use Rattle.mt_board.specs.Short.{AreShortHits};
ghost use Rattle.mt_change.specs.Sound.{IsSoundState};
ghost use Rattle.mt_base.specs.Tables.{setup_with};

use crate::aiming::aim;
use crate::finding::hits_of;
use crate::plain::Plain;
use mt_base::{
    Aim, Callsign, Clearance, Course, Hits, Kind, Memory, Path, Refusal, Rules, Second, Tally,
};
use mt_predict::predict;
use mt_tables::Tables;
use mt_track::Strand;
use std::alloc::Global;
use std::thread::Threads;

// A course with what a clearance leaves of it.
fn with_aim(alloc: Global, course: &Course, aim: &Aim) -> Result<Course, Memory>
    ensures { IfOk result (λ aimed. aimed ≡ with_aim course.now aim.now) }
{
    Ok(Course {
        base: aim.base,
        level: aim.level,
        ..course.copy(alloc)?
    })
}

// The trajectory that a clearance would leave.
fn aimed(
    alloc: Global,
    tables: &Tables,
    rules: &Rules,
    course: &Course,
    aim: &Aim,
) -> Result<Strand, Memory>
    requires rules { AreWithinBounds rules.now }
    requires sound { IsSoundCourse (setup_with rules.now tables.now) course.now }
    requires right { IsRightAim rules.now (length course.now.route) aim.now }
    ensures { IfOk result (λ strand. strand ≡ aimed (setup_with rules.now tables.now) course.now aim.now) }
{
    predict(
        alloc,
        tables,
        rules,
        &with_aim(alloc, course, aim)?,
        Kind::Actual,
    )
}

/// What would follow from a clearance of a flight that holds from second `eff` on, by default the moment: the conflicts in the window of
/// 1,200 seconds of the trajectory that it would leave with those that the other flights fly, by first second and then callsign; or the
/// first refusal. Tentative trajectories don't count.
///
/// It asks that the rules are within their bounds, the state is sound for them and the tables, a level is at most 600, and `eff` at most
/// 10,000,000.
pub fn hits<R: Threads + Sync>(
    rt: &R,
    alloc: Global,
    tables: &Tables,
    rules: &Rules,
    plain: &Plain,
    call: Callsign,
    clearance: Clearance,
    eff: Option<Second>,
) -> Result<Result<Hits, Refusal>, Memory>
    requires rules { AreWithinBounds rules.now }
    requires sound { IsSoundState (setup_with rules.now tables.now) plain.now }
    requires clearance { IsBoundedClearance clearance }
    requires early { IfSome eff (λ second. second ≤ 10000000) }
    ensures exact { IfOk result (IsWhatIf (setup_with rules.now tables.now) plain.now call clearance eff) }
    ensures short { IfOk result (λ found. IfOk found AreShortHits) }
{
    let Some(flight) = plain.flight(call) else {
        return Ok(Err(Refusal::UnknownCall(call)));
    };
    let Path::Planned(course) = &flight.path else {
        return Ok(Err(Refusal::Fixed));
    };
    let now = plain.now();
    let second = eff.unwrap_or(now);
    match aim(alloc, tables, rules, course, clearance, second, now)? {
        Ok(aim) => {
            let strand = aimed(alloc, tables, rules, course, &aim)?;
            let mut tests = Tally::new(rt);
            Ok(Ok(hits_of(alloc, tables, rules, plain, call, &strand, &mut tests)?))
        }
        Err(refusal) => Ok(Err(refusal)),
    }
}
