//! What a clearance leaves of a flight.
ghost use Rattle.std.specs.Prelude.{◌≡◌, ◌≤◌, IfOk, length};
ghost use Rattle.mt_base.specs.Bounds.{AreWithinBounds, IsBoundedClearance, IsRightAim, IsSoundCourse};
ghost use Rattle.mt_base.specs.Cleared.{cleared};
ghost use Rattle.mt_base.specs.Picture.{trajectory_of};
ghost use Rattle.mt_base.specs.declared.flight.Path.TheVariants.{Planned};
ghost use Rattle.mt_base.specs.Tables.{setup_with};

use mt_base::{Aim, Clearance, Course, Kind, Memory, Refusal, Rules, Second};
use mt_predict::{cleared, predict};
use mt_tables::Tables;
use std::alloc::Global;

/// What a clearance that holds from second `eff` on leaves of a course at the moment `now`, or the first of its refusals.
pub(crate) fn aim(
    alloc: Global,
    tables: &Tables,
    rules: &Rules,
    course: &Course,
    clearance: Clearance,
    eff: Second,
    now: Second,
) -> Result<Result<Aim, Refusal>, Memory>
    requires rules { AreWithinBounds rules.now }
    requires sound { IsSoundCourse (setup_with rules.now tables.now) course.now }
    requires clearance { IsBoundedClearance clearance }
    requires early { eff ≤ 10000000 }
    ensures exact { IfOk result (λ aim. aim ≡
        cleared tables.now course.now (trajectory_of (setup_with rules.now tables.now) (Planned course.now)) clearance eff now) }
    ensures right { IfOk result (λ aim. IfOk aim (IsRightAim rules.now (length course.now.route))) }
{
    let strand = predict(alloc, tables, rules, course, Kind::Actual)?;
    Ok(cleared(tables, course, &strand, clearance, eff, now))
}
