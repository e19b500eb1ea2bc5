ghost use Rattle.std.specs.Prelude.{◌≡◌, is_some, length, true, IfSome};
ghost use Rattle.mt_base.specs.Bounds.{AreWithinBounds, IsRightBase, IsSoundCourse};
ghost use Rattle.mt_base.specs.Picture.{trajectory_of};
ghost use Rattle.mt_base.specs.Renewed.{base_at_report, renewed, row_by};
ghost use Rattle.mt_base.specs.Tables.{Tables, setup_with};
ghost use Rattle.mt_base.specs.declared.flight.Path.TheVariants.{Planned};

use mt_base::{Base, Course, Report, Row, Rules, Second};
use mt_track::Strand;

/// The row that a strand has at a second, or its last one where it ended before; none before it begins, or where it has no rows.
fn row_by(strand: &Strand, k: Second) -> Option<Row>
    ensures { result ≡ row_by strand.now k }
{
    if k < strand.start() || strand.end() == strand.start() {
        return None;
    }
    strand.at(k.min(strand.end() - 1))
}

/// The base at a report: its second and position, the first margins, and the fix that the strand flies to by then.
fn base_at_report(rules: &Rules, base: &Base, strand: &Strand, report: &Report) -> Base
    ensures { result ≡ base_at_report rules.now base.now strand.now report.now }
{
    let next = match row_by(strand, report.at) {
        Some(row) => row.leg,
        None => base.next,
    };
    Base {
        at: report.at,
        x: report.x,
        y: report.y,
        z: report.z,
        r: rules.r0,
        w: rules.w0,
        next,
    }
}

/// Where a flight that is due begins anew: at the second and the position of its last report, with the first margins, and flying to the fix
/// that its strand flies to by then. `None` exactly where it isn't due. It takes no memory.
pub fn renewed(rules: &Rules, course: &Course, strand: &Strand) -> Option<Base>
    ensures exact { result ≡ renewed rules.now course.now strand.now }
    ensures due { (course.now.due ≡ true → is_some course.now.last ≡ true) → is_some result ≡ course.now.due }
    ensures right { (tables : Tables) → AreWithinBounds rules.now → IsSoundCourse (setup_with rules.now tables) course.now
        → strand.now ≡ trajectory_of (setup_with rules.now tables) (Planned course.now)
        → IfSome result (IsRightBase rules.now (length course.now.route)) }
{
    if !course.due {
        return None;
    }
    let Some(report) = course.last else {
        return None;
    };
    Some(base_at_report(rules, &course.base, strand, &report))
}
