ghost use Rattle.std.specs.Prelude.{◌≡◌};
ghost use Rattle.mt_base.specs.Bounds.{IsBoundedReport, IsBoundedRow};
ghost use Rattle.mt_watch.specs.Private.Plane.{IsProduct, IsSmall, cross_product, dot, is_zero, offset_to_report, velocity_of};

use mt_base::{Report, Row};

/// A distance or a speed in the plane: so much east and so much north. Each is at most 7,372,800 in size, which is the width of the plane,
/// so a product of two vectors is below 2^47.
#[derive(Clone, Copy)]
pub(crate) struct Vector {
    x: i128,
    y: i128,
}

impl Vector {
    /// From the row's position to the reported one.
    pub(crate) fn offset(row: &Row, report: &Report) -> Vector
        requires row_kept { IsBoundedRow row.now }
        requires report_kept { IsBoundedReport report.now }
        ensures is { result ≡ offset_to_report row.now report.now }
        ensures small { IsSmall result }
    {
        Vector {
            x: i128::from(report.x - row.x),
            y: i128::from(report.y - row.y),
        }
    }

    /// What the row's position gains in a second.
    pub(crate) fn velocity(row: &Row) -> Vector
        requires { IsBoundedRow row.now }
        ensures is { result ≡ velocity_of row.now }
        ensures small { IsSmall result }
    {
        Vector {
            x: i128::from(row.vx),
            y: i128::from(row.vy),
        }
    }

    /// Whether it has no length.
    pub(crate) fn is_zero(self) -> bool
        requires { IsSmall self }
        ensures { result ≡ is_zero self }
    {
        self.x == 0 && self.y == 0
    }

    /// The cross product: what of it lies across another, times the length of that.
    pub(crate) fn cross(self, other: Vector) -> i128
        requires self_small { IsSmall self }
        requires other_small { IsSmall other }
        ensures is { result ≡ cross_product self other }
        ensures kept { IsProduct result }
    {
        self.x * other.y - self.y * other.x
    }

    /// The dot product: what of it lies along another, times the length of that.
    pub(crate) fn dot(self, other: Vector) -> i128
        requires self_small { IsSmall self }
        requires other_small { IsSmall other }
        ensures is { result ≡ dot self other }
        ensures kept { IsProduct result }
    {
        self.x * other.x + self.y * other.y
    }
}
