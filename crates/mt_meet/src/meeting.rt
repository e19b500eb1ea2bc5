//! The seconds in which the slices of two trajectories meet.
ghost use Rattle.std.specs.Prelude.{◌≡◌, ◌↔◌, ◌≤◌, ◌<◌, ◌+◌, ◌/◌, ◌^◌, ◌&&◌, IsTrue};
ghost use Rattle.mt_base.specs.Bounds.{AreWithinBounds};
ghost use Rattle.mt_cover.specs.Layer.{IsLayerKept};
ghost use Rattle.mt_cover.specs.Sliced.{Touch};
ghost use Rattle.mt_meet.specs.Meeting.{MeetAt, SlicesMeet};
ghost use Rattle.mt_meet.specs.Private.Meeting.{Before, IsFirstPiece, IsHull, IsLastPiece, MeetOnlyIn, PieceMeets};
ghost use Rattle.mt_meet.specs.Private.Pieces.{ArePieces, BeginEarly, HaveSlices, piece_seconds};

use crate::heights::lie_apart;
use mt_base::{Rules, Second};
use mt_cover::{Extent, SLICE, Slice, Slices};

// Whether two extents have a coordinate in common. Their ends belong to them.
fn touch(a: &Extent, b: &Extent) -> bool
    ensures { IsTrue result ↔ Touch a.now b.now }
{
    (a.low <= b.high) & (b.low <= a.high)
}

// Whether two slices meet: they have a position in common, and don't lie apart in height by the vertical minimum.
fn slices_meet(rules: &Rules, approved: bool, a: &Slice, b: &Slice) -> bool
    requires rules { AreWithinBounds rules.now }
    requires a_kept { IsLayerKept a.now.layer }
    requires b_kept { IsLayerKept b.now.layer }
    ensures { IsTrue result ↔ SlicesMeet rules.now approved a.now b.now }
{
    (touch(&a.x, &b.x) & touch(&a.y, &b.y)) && !lie_apart(rules, approved, &a.layer, &b.layer)
}

// Whether both aircraft are approved for RVSM.
fn are_approved(a: &Slices, b: &Slices) -> bool
    ensures { result ≡ (a.now.rvsm && b.now.rvsm) }
{
    a.rvsm() && b.rvsm()
}

// The pieces of the time of two trajectories, in each of which both have one slice. With the next piece that of them which ended gives way to the one
// after it, so the two lists take turns.
#[derive(Clone, Copy)]
struct Pieces {
    // The seconds in which the first slices begin.
    starts: (Second, Second),
    // 1 for that whose first slice ends earlier, else 0.
    turn: (usize, usize),
    // How many pieces there are.
    number: usize,
}

// 1 where one of two slices begins earlier than the other one, and so ends earlier, else 0.
fn is_earlier(a_start: Second, b_start: Second) -> usize
    ensures earlier { a_start < b_start → result ≡ 1 }
    ensures not { b_start ≤ a_start → result ≡ 0 }
{
    if a_start < b_start { 1 } else { 0 }
}

// Those of the seconds from one on and before another.
#[inline(always)]
fn pieces_of(a: &Slices, b: &Slices, begin: Second, end: Second) -> Pieces
    requires some { begin < end }
    requires left { a.now.from ≤ begin }
    requires right { b.now.from ≤ begin }
    ensures { ArePieces a.now b.now begin end result }
{
    let a_start = begin - (begin - a.from()) % SLICE;
    let b_start = begin - (begin - b.from()) % SLICE;
    let number = (end - 1 - a_start) / SLICE + (end - 1 - b_start) / SLICE + 1;
    Pieces {
        starts: (a_start, b_start),
        turn: (is_earlier(a_start, b_start), is_earlier(b_start, a_start)),
        number: number as usize,
    }
}

// Whether the slices of a piece meet.
#[inline(always)]
fn piece_meets(
    rules: &Rules,
    approved: bool,
    a: &[Slice],
    b: &[Slice],
    pieces: &Pieces,
    piece: usize,
) -> bool
    requires rules { AreWithinBounds rules.now }
    requires slices { HaveSlices a.now b.now pieces.now }
    requires few { pieces.now.number + 2 < 2 ^ 64 }
    requires piece { piece < pieces.now.number }
    ensures { IsTrue result ↔ PieceMeets rules.now approved a.now b.now pieces.now.turn piece }
{
    let left = &a[(piece + pieces.turn.0) / 2];
    let right = &b[(piece + pieces.turn.1) / 2];
    slices_meet(rules, approved, left, right)
}

// The first piece in which slices meet.
#[inline(always)]
fn first_that_meets(
    rules: &Rules,
    approved: bool,
    a: &[Slice],
    b: &[Slice],
    pieces: &Pieces,
) -> Option<usize>
    requires rules { AreWithinBounds rules.now }
    requires slices { HaveSlices a.now b.now pieces.now }
    requires few { pieces.now.number + 2 < 2 ^ 64 }
    ensures { IsFirstPiece (Before (PieceMeets rules.now approved a.now b.now pieces.now.turn) pieces.now.number) result }
{
    for piece in 0..pieces.number {
        if piece_meets(rules, approved, a, b, pieces, piece) {
            return Some(piece);
        }
    }
    None
}

// The last piece in which slices meet, from one on in which they do.
#[inline(always)]
fn last_that_meets(
    rules: &Rules,
    approved: bool,
    a: &[Slice],
    b: &[Slice],
    pieces: &Pieces,
    first: usize,
) -> usize
    requires rules { AreWithinBounds rules.now }
    requires slices { HaveSlices a.now b.now pieces.now }
    requires few { pieces.now.number + 2 < 2 ^ 64 }
    requires first { Before (PieceMeets rules.now approved a.now b.now pieces.now.turn) pieces.now.number first }
    ensures { IsLastPiece (Before (PieceMeets rules.now approved a.now b.now pieces.now.turn) pieces.now.number) result }
{
    let mut last = pieces.number - 1;
    while first < last && !piece_meets(rules, approved, a, b, pieces, last) {
        last -= 1;
    }
    last
}

// From which second on, and before which one, both slices of a piece stand.
fn piece_seconds(pieces: &Pieces, piece: usize) -> (Second, Second)
    requires { BeginEarly pieces.now piece }
    ensures { result ≡ piece_seconds pieces.now piece }
{
    let (starts, turn) = (pieces.starts, pieces.turn);
    let left = starts.0 + SLICE * ((piece + turn.0) / 2) as Second;
    let right = starts.1 + SLICE * ((piece + turn.1) / 2) as Second;
    (left.max(right), left.min(right) + SLICE)
}

/// The first and the last second in which slices meet, of seconds outside of which they never do; `None` exactly where there is no such second.
///
/// It goes from piece to piece of their time: where a slice of one of them ends, a piece ends.
pub(crate) fn meet_within(
    a: &Slices,
    b: &Slices,
    rules: &Rules,
    begin: Second,
    end: Second,
) -> Option<(Second, Second)>
    requires rules { AreWithinBounds rules.now }
    requires outside { MeetOnlyIn rules.now a.now b.now begin end }
    ensures { IsHull (MeetAt rules.now a.now b.now) result }
{
    a.keeps();
    b.keeps();
    let pieces = pieces_of(a, b, begin, end);
    let approved = are_approved(a, b);
    let (left, right) = (a.slices_from(begin), b.slices_from(begin));
    let first = first_that_meets(rules, approved, left, right, &pieces)?;
    let last = last_that_meets(rules, approved, left, right, &pieces, first);
    let (from, _) = piece_seconds(&pieces, first);
    let (_, past) = piece_seconds(&pieces, last);
    Some((begin.max(from), end.min(past) - 1))
}
