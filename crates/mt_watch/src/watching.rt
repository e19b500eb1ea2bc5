ghost use Rattle.std.specs.Prelude.{◌≡◌, ◌*ℤ◌, pos};
ghost use Rattle.mt_base.specs.Bounds.{AreWithinBounds, IsBoundedReport, IsBoundedRow, IsWithin};
ghost use Rattle.mt_base.specs.Verdict.{is_aged, is_along, is_lateral, is_vertical, verdict_of};
ghost use Rattle.mt_watch.specs.Private.Plane.{IsProduct, is_beyond};

use crate::vector::Vector;
use mt_base::{Base, Report, Row, Rules, Second, Verdict};
use mt_track::Strand;

/// So many seconds after its base a trajectory is aged.
const AGED: Second = 120;

/// How a report compares with the trajectory that was predicted from a base: by the row that the strand has at the report's second it is
/// `lateral` beyond the rule `tc` across the row's velocity (in any direction, where the row doesn't move), `along` beyond the rule `ta`
/// along it, and `vertical` beyond the rule `tv`; it is `aged` 120 seconds or more after the base's second, and `outside` where the strand
/// doesn't cover its second: then no other flag holds but `aged`. At a tolerance no flag holds yet. It takes no memory.
pub fn verdict(strand: &Strand, base: &Base, report: &Report, rules: &Rules) -> Verdict
    requires rules_kept { AreWithinBounds rules.now }
    requires report_kept { IsBoundedReport report.now }
    ensures { result ≡ verdict_of rules.now base.now strand.now report.now }
{
    match strand.at(report.at) {
        Some(row) => Verdict {
            lateral: is_lateral(rules, &row, report),
            along: is_along(rules, &row, report),
            vertical: is_vertical(rules, &row, report),
            aged: is_aged(base, report),
            outside: false,
        },
        None => Verdict {
            lateral: false,
            along: false,
            vertical: false,
            aged: is_aged(base, report),
            outside: true,
        },
    }
}

/// Whether the report lies beyond the tolerance to a side of the row's way; where the row doesn't move, in any direction.
fn is_lateral(rules: &Rules, row: &Row, report: &Report) -> bool
    requires rules_kept { AreWithinBounds rules.now }
    requires row_kept { IsBoundedRow row.now }
    requires report_kept { IsBoundedReport report.now }
    ensures { result ≡ is_lateral rules.now row.now report.now }
{
    let offset = Vector::offset(row, report);
    let velocity = Vector::velocity(row);
    if velocity.is_zero() {
        return offset.dot(offset) > square(&rules.tc);
    }
    is_beyond(&rules.tc, offset.cross(velocity), velocity.dot(velocity))
}

/// Whether the report lies beyond the tolerance ahead or behind on the row's way.
fn is_along(rules: &Rules, row: &Row, report: &Report) -> bool
    requires rules_kept { AreWithinBounds rules.now }
    requires row_kept { IsBoundedRow row.now }
    requires report_kept { IsBoundedReport report.now }
    ensures { result ≡ is_along rules.now row.now report.now }
{
    let offset = Vector::offset(row, report);
    let velocity = Vector::velocity(row);
    is_beyond(&rules.ta, offset.dot(velocity), velocity.dot(velocity))
}

/// Whether the report lies beyond the tolerance above or below the row.
fn is_vertical(rules: &Rules, row: &Row, report: &Report) -> bool
    requires rules_kept { AreWithinBounds rules.now }
    requires row_kept { IsBoundedRow row.now }
    requires report_kept { IsBoundedReport report.now }
    ensures { result ≡ is_vertical rules.now row.now report.now }
{
    let above = report.z - row.z;
    above > rules.tv || -above > rules.tv
}

/// Whether the report was made 120 seconds or more after the base's second.
fn is_aged(base: &Base, report: &Report) -> bool
    ensures { result ≡ is_aged base.now report.now }
{
    report.at.saturating_sub(base.at) >= AGED
}

/// Whether a product with a velocity is beyond the tolerance times the speed; `squared` is the square of the speed. Their squares are
/// compared: both stay below 2^94.
fn is_beyond(tolerance: &i64, product: i128, squared: i128) -> bool
    requires tolerance_kept { IsWithin (pos 0) (pos 360000) tolerance.now }
    requires product_kept { IsProduct product }
    requires squared_kept { IsProduct squared }
    ensures { result ≡ is_beyond tolerance.now product squared }
{
    product * product > square(tolerance) * squared
}

/// The square of a tolerance.
fn square(tolerance: &i64) -> i128
    requires { IsWithin (pos 0) (pos 360000) tolerance.now }
    ensures { result ≡ tolerance.now *ℤ tolerance.now }
{
    let tolerance = i128::from(*tolerance);
    tolerance * tolerance
}
