//! The course that a plan files.
ghost use Rattle.std.specs.Prelude.{◌≡◌, ◌≤◌};
ghost use Rattle.mt_base.specs.Bounds.{IsInPlane};
ghost use Rattle.mt_base.specs.Effect.{base_of, course_of, first_of_points};
ghost use Rattle.mt_base.specs.Predictor.{points_of};
ghost use Rattle.mt_base.specs.Tables.{setup_with};

use mt_base::{Base, Course, Point, Route, Rules, Second, TypeName};
use mt_tables::Tables;

/// Where a route begins whose first name is no fix's.
const ORIGIN: Point = Point { x: 0, y: 0 };

// Where a route begins.
fn first_point(tables: &Tables, route: &Route) -> Point
    ensures exact { result ≡ first_of_points (points_of tables.now route.now) }
    ensures bounded { IsInPlane result.x result.y }
{
    match route.items().first() {
        Some(name) => tables.fix(*name).unwrap_or(ORIGIN),
        None => ORIGIN,
    }
}

// Where a plan begins.
fn base_of(rules: &Rules, fix: Point, at: Second, from: u32) -> Base
    requires { from ≤ 600 }
    ensures { result ≡ base_of rules.now fix at from }
{
    Base {
        at,
        x: fix.x,
        y: fix.y,
        z: i64::from(6_000 * from),
        r: rules.r0,
        w: rules.w0,
        next: 1,
    }
}

/// The course of a plan: it begins at the second `at` over the first fix of its route, at level `from`, which is at most 600, and is cleared
/// to `level`; `rvsm` is the approval. That it begins in the plane is said here too.
pub fn planned_course(
    tables: &Tables,
    rules: &Rules,
    kind: TypeName,
    route: Route,
    at: Second,
    from: u32,
    level: u32,
    rvsm: bool,
) -> Course
    requires { from ≤ 600 }
    ensures course { result ≡ course_of (setup_with rules.now tables.now) kind route at from level rvsm }
    ensures plane { IsInPlane (first_of_points (points_of tables.now route)).x (first_of_points (points_of tables.now route)).y }
{
    let fix = first_point(tables, &route);
    Course {
        kind,
        route,
        base: base_of(rules, fix, at, from),
        level,
        rvsm,
        last: None,
        due: false,
        mark: None,
    }
}
