ghost use Rattle.std.specs.Prelude.{◌≡◌, ◌≤◌, length, All, IfOk, is_some, true};
ghost use Rattle.mt_base.specs.Bounds.{AreWithinBounds, IsInPlane, IsRightBase, IsSoundCourse};
ghost use Rattle.mt_base.specs.Tables.{setup_with};
ghost use Rattle.mt_base.specs.Predictor.{flown, points_of};
ghost use Rattle.mt_base.specs.declared.conflict.Kind.TheVariants.{Tentative};
ghost use Rattle.mt_predict.specs.Paths.{IsPathOf};

use crate::fly::fly_route;
use mt_base::{Base, Course, Kind, Memory, Point, Route, Rules};
use mt_tables::Tables;
use mt_track::Strand;
use std::alloc::Global;

/// The positions of the fixes of a route.
fn points_of(alloc: Global, tables: &Tables, route: &Route) -> Result<Vec<Point>, Memory>
    ensures points { IfOk result (λ points. points.items ≡ points_of tables.now route.now) }
    ensures plane { IfOk result (λ points. All (λ p. IsInPlane p.x p.y) points.items) }
{
    let mut points = Vec::new(alloc);
    for name in route.items() {
        let point = tables.fix(*name).unwrap_or(Point { x: 0, y: 0 });
        points.push(point)?;
    }
    Ok(points)
}

/// The trajectory of the type and along the route of a course, from a base and cleared to a level.
fn fly(
    alloc: Global,
    tables: &Tables,
    rules: &Rules,
    course: &Course,
    base: &Base,
    level: u32,
) -> Result<Strand, Memory>
    requires rules { AreWithinBounds rules.now }
    requires sound { IsSoundCourse (setup_with rules.now tables.now) course.now }
    requires base { IsRightBase rules.now (length course.now.route) base.now }
    requires level { level ≤ 600 }
    ensures { IfOk result (λ strand. strand ≡ flown (setup_with rules.now tables.now) course.now.kind course.now.route base.now level course.now.rvsm) }
{
    let points = points_of(alloc, tables, &course.route)?;
    let Some(bands) = tables.bands(course.kind) else {
        unreachable!()
    };
    fly_route(alloc, rules, bands, level, &points, base, course.rvsm)
}

/// The trajectory of a course, or that of its tentative clearance, second by second: from the base along the rest of the route, at the
/// speed of the height at each leg's begin, and climbing or descending to the level. It ends over the last fix, or after 14,400 seconds.
pub fn predict(
    alloc: Global,
    tables: &Tables,
    rules: &Rules,
    course: &Course,
    kind: Kind,
) -> Result<Strand, Memory>
    requires rules { AreWithinBounds rules.now }
    requires sound { IsSoundCourse (setup_with rules.now tables.now) course.now }
    requires marked { kind ≡ Tentative → is_some course.now.mark ≡ true }
    ensures rows { IfOk result (λ strand. IsPathOf (setup_with rules.now tables.now) course.now kind strand) }
{
    match kind {
        Kind::Actual => fly(alloc, tables, rules, course, &course.base, course.level),
        Kind::Tentative => {
            let Some(mark) = &course.mark else {
                unreachable!()
            };
            fly(alloc, tables, rules, course, &mark.base, mark.level)
        }
    }
}
