ghost use Rattle.std.specs.Prelude.{◌≡◌, ◌-◌, ◌<◌, ◌≤◌, All, IfOk, length};
ghost use Rattle.std.specs.Int.{div_ceil};
ghost use Rattle.mt_base.specs.Bounds.{AreWithinBounds};
ghost use Rattle.mt_track.specs.Laid.{IsLaid, all_rows};
ghost use Rattle.mt_cover.specs.Cells.{cover_of};
ghost use Rattle.mt_cover.specs.Private.InPlane.{IsBoxInPlane};
ghost use Rattle.mt_cover.specs.Sliced.{AreFrontUntil, slices_of};
ghost use Rattle.mt_cover.specs.declared.stays.Stay.{Stay};
ghost use Rattle.mt_cover.specs.Private.Walk.{IsBoxOver, StandsAtSecond, front_of};

use crate::bounding_box::{BoundingBox, box_of_both, half, straight_box};
use crate::sliced::{SLICE, Slices, slice_around};
use crate::stays::Cover;
use mt_base::{Memory, Rules, Second};
use mt_track::{Segment, Strand};
use std::alloc::Global;

/// What was gathered of a slice: the box of its rows up to a second, that second, and the number of the segment that holds it.
#[derive(Clone, Copy)]
pub(crate) struct GatheredRows {
    bounds: BoundingBox,
    until: Second,
    index: usize,
}

/// The box of the rows from one second to another, as far as the segment goes that holds the first. `index` is the number of that segment.
fn gather_part(
    segments: &[Segment],
    start: Second,
    end: Second,
    index: usize,
    from: Second,
    to: Second,
) -> GatheredRows
    requires laid { IsLaid start end segments.now }
    requires stands { StandsAtSecond start segments.now index from }
    requires begun { start ≤ from }
    requires some { from < to }
    requires within { to ≤ end }
    ensures on { from < result.until }
    ensures within { result.until ≤ to }
    ensures is { IsBoxOver (all_rows segments.now) (from - start) (result.until - from) result.bounds }
    ensures kept { IsBoxInPlane result.bounds }
    ensures stands { StandsAtSecond start segments.now result.index result.until }
{
    let segment = &segments[index];
    let until = segment.to.min(to);
    let first = segment.first.later(from - segment.from);
    GatheredRows {
        bounds: straight_box(&first, until - from),
        until,
        index: if segment.to <= to { index + 1 } else { index },
    }
}

/// The box of the rows from one second to another. `index` is the number of the segment that holds the first. It takes a few steps for each
/// segment that it meets, however many rows that has.
fn gather(
    segments: &[Segment],
    start: Second,
    end: Second,
    index: usize,
    from: Second,
    to: Second,
) -> GatheredRows
    requires laid { IsLaid start end segments.now }
    requires stands { StandsAtSecond start segments.now index from }
    requires begun { start ≤ from }
    requires some { from < to }
    requires within { to ≤ end }
    ensures is { IsBoxOver (all_rows segments.now) (from - start) (to - from) result.bounds }
    ensures kept { IsBoxInPlane result.bounds }
    ensures stands { StandsAtSecond start segments.now result.index to }
{
    let mut gathered = gather_part(segments, start, end, index, from, to);
    while gathered.until < to {
        let part = gather_part(segments, start, end, gathered.index, gathered.until, to);
        gathered = GatheredRows {
            bounds: box_of_both(gathered.bounds, part.bounds),
            ..part
        };
    }
    gathered
}

/// How many seconds a slice of a cover has, but the last one, which may be shorter.
const COVER_SLICE: Second = 256;

/// The cover of a strand. Its seconds are cut from its start into slices of 256. In each slice the strand counts to the cells that the box of
/// the slice's rows meets, made wider on each side by their greatest horizontal margin and half of the horizontal minimum, rounded up.
pub fn cover(alloc: Global, strand: &Strand, rules: &Rules) -> Result<Cover, Memory>
    requires { AreWithinBounds rules.now }
    ensures is { IfOk result (λ cover. cover ≡ cover_of rules.now strand.now) }
    ensures in_grid { IfOk result (λ cover. All (λ (stay : Stay). stay.cell < 4096) cover) }
{
    let start = strand.start();
    let end = strand.end();
    let segments = strand.segments();
    let mut cover = Cover::empty(alloc);
    let mut index = 0;
    for slice in 0..(end - start).div_ceil(COVER_SLICE) {
        let from = start + COVER_SLICE * slice;
        let to = end.min(from + COVER_SLICE);
        let gathered = gather(segments, start, end, index, from, to);
        cover.add(rules, gathered.bounds, from, to)?;
        index = gathered.index;
    }
    Ok(cover)
}

// The first slices of a strand.
fn front(alloc: Global, strand: &Strand, rules: &Rules, number: u32) -> Result<Slices, Memory>
    requires rules_kept { AreWithinBounds rules.now }
    requires few { number ≤ div_ceil (length strand.now.rows) 128 }
    ensures { IfOk result (λ slices. slices ≡ front_of rules.now strand.now number) }
{
    let start = strand.start();
    let end = strand.end();
    let segments = strand.segments();
    let half = half(rules);
    let mut list = Vec::with_capacity(alloc, number as usize)?;
    let mut index = 0;
    for slice in 0..number {
        let begin = start + SLICE * slice;
        let until = end.min(begin + SLICE);
        let gathered = gather(segments, start, end, index, begin, until);
        list.push(slice_around(half, gathered.bounds))?;
        index = gathered.index;
    }
    Ok(Slices {
        from: start,
        to: end.min(start + SLICE * number),
        rvsm: strand.rvsm(),
        list,
    })
}

/// The slices of a strand: the boxes of its seconds, 128 by 128 from its start, each with their heights.
pub fn slices(alloc: Global, strand: &Strand, rules: &Rules) -> Result<Slices, Memory>
    requires { AreWithinBounds rules.now }
    ensures { IfOk result (λ slices. slices ≡ slices_of rules.now strand.now) }
{
    let number = (strand.end() - strand.start()).div_ceil(SLICE);
    front(alloc, strand, rules, number)
}

/// The slices of a strand up to a second: whole ones, so the last may have seconds after it.
pub fn slices_until(
    alloc: Global,
    strand: &Strand,
    rules: &Rules,
    to: Second,
) -> Result<Slices, Memory>
    requires { AreWithinBounds rules.now }
    ensures { IfOk result (AreFrontUntil (slices_of rules.now strand.now) to) }
{
    let start = strand.start();
    let until = strand.end().min(to).max(start);
    front(alloc, strand, rules, (until - start).div_ceil(SLICE))
}
