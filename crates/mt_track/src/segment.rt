ghost use Rattle.std.specs.Prelude.{◌≡◌, ◌↔◌, ◌-◌, ◌≤◌, pos, neg_ℤ, ◌+ℤ◌, ◌*ℤ◌, IsTrue};
ghost use Rattle.mt_base.specs.Bounds.{IsBoundedOver, IsWithin};
ghost use Rattle.mt_track.specs.Rows.{row_after};

use crate::packed_row::PackedRow;
use mt_base::{Row, Second};

/// Some seconds with the same gains: `from <= k < to`, each value linear over all of them.
#[derive(Clone, Copy, PartialEq, Eq)]
pub struct Segment {
    /// The first second.
    pub from: Second,
    /// The second after the last one.
    pub to: Second,
    /// The row of the first second.
    pub first: PackedRow,
}

/// A value that many seconds later, by its gain.
fn moved(value: i64, gain: i64, seconds: u32) -> i64
    requires value_kept { IsWithin (neg_ℤ (pos 3686400)) (pos 3686400) value }
    requires gain_kept { IsWithin (neg_ℤ (pos 10000)) (pos 10000) gain }
    ensures { result ≡ value +ℤ gain *ℤ pos seconds }
{
    value + gain * i64::from(seconds)
}

/// The row that many seconds later, with the same gains.
pub fn later(first: &Row, seconds: u32) -> Row
    requires { IsBoundedOver first.now seconds }
    ensures { result ≡ row_after first.now seconds }
{
    Row {
        x: moved(first.x, first.vx, seconds),
        y: moved(first.y, first.vy, seconds),
        z: moved(first.z, first.vz, seconds),
        r: moved(first.r, first.gr, seconds),
        w: moved(first.w, first.gw, seconds),
        ..*first
    }
}

/// Whether a row is the next one of a segment: its gains and its leg are the same, and each value goes on.
pub(crate) fn goes_on(segment: &Segment, row: &PackedRow) -> bool
    requires kept { IsBoundedOver segment.now.first (segment.now.to - segment.now.from) }
    requires ordered { segment.now.from ≤ segment.now.to }
    ensures { IsTrue result ↔ (row.now ≡ row_after segment.now.first (segment.now.to - segment.now.from)) }
{
    row.row() == segment.first.later(segment.to - segment.from)
}
