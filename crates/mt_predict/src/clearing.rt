ghost use Rattle.std.specs.Prelude.{◌≡◌, ◌<◌, ◌≤◌, length, position, IfOk, IfSome};
ghost use Rattle.std.specs.Str.{bytes_eq};
ghost use Rattle.mt_base.specs.declared.clearance.Clearance.TheVariants as clearances;
ghost use Rattle.mt_base.specs.declared.rules.Rules.{Rules};
ghost use Rattle.mt_base.specs.declared.flight.Path.TheVariants.{Planned};
ghost use Rattle.mt_base.specs.Bounds.{AreWithinBounds, IsBoundedClearance, IsRightAim, IsSoundCourse};
ghost use Rattle.mt_base.specs.Cleared.{base_by, base_from, cleared, place_further_on};
ghost use Rattle.mt_base.specs.Picture.{trajectory_of};
ghost use Rattle.mt_base.specs.Tables.{setup_with};
ghost use Rattle.mt_predict.specs.Clearing.{IsInAir};

use crate::judging::is_below_ceiling;
use mt_base::{Aim, Base, Clearance, Course, FixName, Refusal, Route, Row, Second, must};
use mt_tables::Tables;
use mt_track::Strand;

/// The base at a second of a trajectory, by its row.
fn base_by(at: Second, row: &Row) -> Base
    ensures { result ≡ base_by at row.now }
{
    Base {
        at,
        x: row.x,
        y: row.y,
        z: row.z,
        r: row.r,
        w: row.w,
        next: row.leg,
    }
}

/// The base from which a clearance holds: the flight's own before its trajectory begins, the row of that second within it, and none at or
/// past its end.
pub fn base_from(base: &Base, strand: &Strand, eff: Second) -> Option<Base>
    ensures exact { result ≡ base_from base.now strand.now eff }
    ensures air { strand.now.start ≤ eff → IfSome result IsInAir }
{
    if eff < strand.start() {
        return Some(*base);
    }
    let row = strand.at(eff)?;
    Some(base_by(eff, &row))
}

/// The first place among some names at which a fix stands.
fn place_among(names: &[FixName], fix: FixName) -> Option<usize>
    ensures place { result ≡ position (bytes_eq fix) names.now }
    ensures within { IfSome result (λ place. place < length names.now) }
{
    names.iter().position(|name| fix == *name)
}

/// The first place of a route after a place at which a fix stands.
fn place_behind(route: &Route, place: u32, fix: FixName) -> Option<u32>
    requires short { length route.now ≤ 64 }
    ensures { result ≡ place_further_on route.now place fix }
{
    let first = place as usize + 1;
    let behind = route.items().get(first..)?;
    let further = place_among(behind, fix)?;
    Some((first + further) as u32)
}

/// The same base, but flying to that place of the route next.
fn flying_to(next: u32, base: &Base) -> Base
    ensures { result ≡ record base.now { next = next } }
{
    Base { next, ..*base }
}

/// What a level clearance leaves.
fn cleared_to(
    tables: &Tables,
    course: &Course,
    strand: &Strand,
    level: u32,
    eff: Second,
    now: Second,
) -> Result<Aim, Refusal>
    ensures exact { result ≡ cleared tables.now course.now strand.now (clearances.Level level) eff now }
    ensures air { strand.now.start ≤ eff → IfOk result (λ aim. IsInAir aim.base) }
{
    let Some(base) = base_from(&course.base, strand, eff) else {
        return Err(Refusal::Ended);
    };
    must(
        is_below_ceiling(tables, course.kind, level),
        Refusal::Ceiling,
    )?;
    must(eff <= now, Refusal::Future)?;
    Ok(Aim { base, level })
}

/// What a clearance direct to a fix leaves.
fn cleared_direct(
    tables: &Tables,
    course: &Course,
    strand: &Strand,
    fix: FixName,
    eff: Second,
    now: Second,
) -> Result<Aim, Refusal>
    requires short { length course.now.route ≤ 64 }
    ensures exact { result ≡ cleared tables.now course.now strand.now (clearances.Direct fix) eff now }
    ensures air { strand.now.start ≤ eff → IfOk result (λ aim. IsInAir aim.base) }
{
    must(tables.fix(fix).is_some(), Refusal::UnknownFix(fix))?;
    let Some(base) = base_from(&course.base, strand, eff) else {
        return Err(Refusal::Ended);
    };
    let Some(next) = place_behind(&course.route, base.next, fix) else {
        return Err(Refusal::NotAhead);
    };
    must(eff <= now, Refusal::Future)?;
    Ok(Aim {
        base: flying_to(next, &base),
        level: course.level,
    })
}

/// What a clearance that holds from second `eff` on leaves of a course that flies the strand; or the first of its refusals, in this order:
/// `UnknownFix` of a fix that no table has, `Ended` where `eff` is at or past the end of the strand, `NotAhead` where the fix does not
/// stand after the one that is flown to then, `Ceiling` for a level above the ceiling of the type, and `Future` where `eff` is above the
/// moment `now`. It takes no memory.
pub fn cleared(
    tables: &Tables,
    course: &Course,
    strand: &Strand,
    clearance: Clearance,
    eff: Second,
    now: Second,
) -> Result<Aim, Refusal>
    requires short { length course.now.route ≤ 64 }
    ensures exact { result ≡ cleared tables.now course.now strand.now clearance eff now }
    ensures right { (rules : Rules) → AreWithinBounds rules → IsSoundCourse (setup_with rules tables.now) course.now
        → strand.now ≡ trajectory_of (setup_with rules tables.now) (Planned course.now) → IsBoundedClearance clearance → eff ≤ 10000000
        → IfOk result (λ aim. IsRightAim rules (length course.now.route) aim) }
{
    match clearance {
        Clearance::Level(level) => cleared_to(tables, course, strand, level, eff, now),
        Clearance::Direct(fix) => cleared_direct(tables, course, strand, fix, eff, now),
    }
}
