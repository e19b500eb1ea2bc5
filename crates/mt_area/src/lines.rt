ghost use Rattle.std.specs.Prelude.{◌≡◌, ◌↔◌, ◌<◌, ◌≤◌, ℤ, take, IfSome, IsNone, IsTrue};
ghost use Rattle.mt_base.specs.Area.{IsBoundedArea, IsInsideAt, cross, place_after};
ghost use Rattle.mt_base.specs.Bounds.{IsBoundedRow, IsInPlane};
ghost use Rattle.mt_frac.specs.Meeting.{IsBoundedSide};
ghost use Rattle.mt_area.specs.Private.Lines.{AreCrossed, IsDuringOrAtEnd, IsLineOf, StaysAboveLine, StaysBelow, line_to_ceiling, floor_of, side_of, value_after};

use crate::crossing::{apart, cross, place_after};
use crate::levels::height_of;
use mt_base::{Area, Row, Second};
use mt_frac::Linear;

/// The most sides of an area. The lines of its bottom and its top stand after those of its sides.
const SIDES: usize = 16;

/// How many lines there are.
const LINES: usize = SIDES + 2;

/// How far the position is to the right of the way from one corner to another, times that way's length, over time.
fn side(row: &Row, i: (i64, i64), j: (i64, i64)) -> Linear
    requires row_kept { IsBoundedRow row.now }
    requires i_kept { IsInPlane i.0 i.1 }
    requires j_kept { IsInPlane j.0 j.1 }
    ensures is { result ≡ side_of row.now i j }
    ensures bounded { IsBoundedSide result }
{
    let east = apart(i.0, j.0);
    let north = apart(i.1, j.1);
    Linear {
        b: cross(i128::from(row.vx), i128::from(row.vy), east, north),
        c: cross(apart(i.0, row.x), apart(i.1, row.y), east, north),
    }
}

/// How far the height is below a level, and how far it is above one, over time.
fn floor(row: &Row, level: u32) -> Linear
    requires row_kept { IsBoundedRow row.now }
    requires level_kept { level ≤ 600 }
    ensures is { result ≡ floor_of row.now level }
    ensures bounded { IsBoundedSide result }
{
    Linear {
        b: -i128::from(row.vz),
        c: i128::from(height_of(level) - row.z),
    }
}

fn ceiling(row: &Row, level: u32) -> Linear
    requires row_kept { IsBoundedRow row.now }
    requires level_kept { level ≤ 600 }
    ensures is { result ≡ line_to_ceiling row.now level }
    ensures bounded { IsBoundedSide result }
{
    Linear {
        b: i128::from(row.vz),
        c: i128::from(row.z - height_of(level)),
    }
}

/// The line at a place: of a side, of the bottom or the top, or one that is always below 0.
fn line_at(area: &Area, row: &Row, i: usize) -> Linear
    requires area_kept { IsBoundedArea area.now }
    requires row_kept { IsBoundedRow row.now }
    ensures is { IsLineOf area.now row.now i result }
    ensures bounded { IsBoundedSide result }
{
    let corners = area.corners.items();
    if i < corners.len() {
        let next = place_after(corners, i);
        return side(row, corners[i], corners[next]);
    }
    if i == SIDES {
        return floor(row, area.bottom);
    }
    if i == SIDES + 1 {
        return ceiling(row, area.top);
    }
    Linear { b: 0, c: -1 }
}

/// The value of a line that many seconds later.
fn value_after(line: Linear, seconds: Second) -> i128
    requires bounded { IsBoundedSide line }
    requires short { seconds ≤ 14400 }
    ensures { result ≡ value_after line seconds }
{
    let after = line.b as i64 * i64::from(seconds) + line.c as i64;
    i128::from(after)
}

/// Whether a line is below 0 at both ends of some seconds, and so at each instant of them.
fn stays_below(line: Linear, seconds: Second) -> bool
    requires bounded { IsBoundedSide line }
    requires short { seconds ≤ 14400 }
    ensures { IsTrue result ↔ StaysBelow line seconds }
{
    line.c < 0 && value_after(line, seconds) < 0
}

/// Whether a line is below 0 at neither end, and so at no instant.
fn stays_above(line: Linear, seconds: Second) -> bool
    requires bounded { IsBoundedSide line }
    requires short { seconds ≤ 14400 }
    ensures { IsTrue result ↔ StaysAboveLine line seconds }
{
    line.c >= 0 && value_after(line, seconds) >= 0
}

/// The lines that cross 0 in the first `seconds` seconds from a row on, and how many they are: these are all below 0 exactly where the position is
/// strictly inside the area. `None` where it is nowhere inside, since one line isn't below 0 in all of that time.
pub(crate) fn crossed(area: &Area, row: &Row, seconds: Second) -> Option<([Linear; LINES], usize)>
    requires area_kept { IsBoundedArea area.now }
    requires row_kept { IsBoundedRow row.now }
    requires short { seconds ≤ 14400 }
    ensures some { IfSome result (λ found. (found.1 ≤ 18) × AreCrossed area.now row.now seconds (take found.1 found.0)) }
    ensures none { IsNone result → (n d : ℤ) → IsDuringOrAtEnd seconds n d → ¬ IsInsideAt area.now row.now n d }
{
    let mut lines = [Linear { b: 0, c: -1 }; LINES];
    let mut count = 0;
    for i in 0..LINES {
        let line = line_at(area, row, i);
        if stays_below(line, seconds) {
            continue;
        }
        if stays_above(line, seconds) {
            return None;
        }
        lines[count] = line;
        count += 1;
    }
    Some((lines, count))
}
