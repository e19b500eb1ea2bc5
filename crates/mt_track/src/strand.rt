ghost use Rattle.std.specs.Prelude.{◌≡◌, ◌+◌, ◌<◌, ◌≤◌, [], length, IfOk, IfSome, OnOk, OnErr};
ghost use Rattle.mt_base.specs.Bounds.{IsBoundedRow, IsBoundedStretch};
ghost use Rattle.mt_base.specs.Trajectory.{row_at, straight};
ghost use Rattle.mt_track.specs.Laid.{AreSegmentsOf, CoversSecond, Follows, IsStrand, extended};

use crate::packed_row::PackedRow;
use crate::segment::{Segment, goes_on};
use mt_base::{Memory, Row, Second, Straight};
use std::alloc::Global;
use std::marker::Model;

/// A trajectory as segments of constant gains that lie end to end, seen as its first second, its rows, and whether the aircraft is approved
/// for RVSM.
///
/// No segment goes on from the one before it: the gains or the leg are others, or the vertical margin begins anew. So the rows alone say
/// which segments there are.
///
/// Every row keeps within the plane and the greatest rates, during its whole second; x, y, z and r go on from row to row; and there are
/// at most 14,400 rows, the last of which ends by second 10,014,400.
#[derive(Drop)]
pub struct Strand {
    start: Second,
    end: Second,
    segments: Vec<Segment>,
    rvsm: bool,
}

impl Model for Strand {
    ghost use Rattle.mt_base.specs.Trajectory.{Trajectory};
    ghost use Rattle.mt_track.specs.Laid.{IsLaid, all_rows};

    ghost Value = { Trajectory };

    ghost view = { λ s. record { start = s.start; rows = all_rows s.segments.items; rvsm = s.rvsm } };

    ghost invariant = { λ s. IsLaid s.start s.end s.segments.items };
}

impl Strand {
    /// A strand that begins at that second and has no row yet. It takes no memory; what is pushed later comes from `alloc`.
    pub fn empty(alloc: Global, at: Second, rvsm: bool) -> Strand
        requires { at ≤ 10014400 }
        ensures { result ≡ record { start = at; rows = []; rvsm = rvsm } }
    {
        Strand {
            start: at,
            end: at,
            segments: Vec::new(alloc),
            rvsm,
        }
    }

    /// Puts the rows of a segment after those of the strand: into its last segment where they go on from it with the same gains and leg,
    /// else as a segment of their own. On an error the strand stays as it was.
    pub fn push(&mut self, segment: Segment) -> Result<(), Memory>
        requires { Follows self.old segment }
        ensures ok { OnOk result (self.new ≡ extended self.old segment) }
        ensures err { OnErr result (self.new ≡ self.old) }
    {
        let count = self.segments.len();
        if count > 0 && goes_on(&self.segments[count - 1], &segment.first) {
            self.segments[count - 1].to = segment.to;
        } else {
            self.segments.push(segment)?;
        }
        self.end = segment.to;
        Ok(())
    }

    /// The strand of a straight stretch, as one segment.
    pub fn straight(alloc: Global, stretch: &Straight) -> Result<Strand, Memory>
        requires { IsBoundedStretch stretch.now }
        ensures { IfOk result (λ strand. strand ≡ straight stretch.now) }
    {
        let mut strand = Strand::empty(alloc, stretch.from, stretch.rvsm);
        strand.push(Segment {
            from: stretch.from,
            to: stretch.to,
            first: PackedRow::of(&stretch.first),
        })?;
        Ok(strand)
    }

    /// The segment that holds second k. It halves the segments until one is left.
    fn holding(&self, k: Second) -> &Segment
        requires begun { self.now.start ≤ k }
        requires within { k < self.now.start + length self.now.rows }
        ensures { CoversSecond self.now k result.now }
    {
        let mut low = 0;
        let mut high = self.segments.len();
        while high - low > 1 {
            let middle = low + (high - low) / 2;
            if self.segments[middle].from <= k {
                low = middle;
            } else {
                high = middle;
            }
        }
        &self.segments[low]
    }

    /// The row of second k; `None` exactly where the strand does not cover it.
    pub fn at(&self, k: Second) -> Option<Row>
        ensures row { result ≡ row_at self.now k }
        ensures bounded { IfSome result IsBoundedRow }
    {
        if k < self.start() || k >= self.end() {
            return None;
        }
        let segment = self.holding(k);
        Some(segment.first.later(k - segment.from))
    }

    /// Its first second.
    pub fn start(&self) -> Second
        ensures { result ≡ self.now.start }
    {
        self.start
    }

    /// Whether the aircraft is approved for RVSM.
    pub fn rvsm(&self) -> bool
        ensures { result ≡ self.now.rvsm }
    {
        self.rvsm
    }

    /// The second after its last one; `start()` where it has no row. What every strand keeps is said here too.
    pub fn end(&self) -> Second
        ensures end { result ≡ self.now.start + length self.now.rows }
        ensures kept { IsStrand self.now }
    {
        self.end
    }

    /// Its rows are those of a strand. It does nothing.
    pub fn keeps(&self)
        ensures { IsStrand self.now }
    {
        self.end();
    }

    /// Its segments, in order, end to end, no two neighbours in one. What every strand keeps is said here too.
    pub fn segments(&self) -> &[Segment]
        ensures are { AreSegmentsOf self.now result.now }
        ensures kept { IsStrand self.now }
    {
        &self.segments
    }

    /// The same strand once more.
    pub fn copy(&self) -> Result<Strand, Memory>
        ensures { IfOk result (λ strand. strand ≡ self.now) }
    {
        Ok(Strand {
            start: self.start,
            end: self.end,
            segments: self.segments.clone()?,
            rvsm: self.rvsm,
        })
    }
}
