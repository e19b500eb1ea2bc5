ghost use Rattle.std.specs.Prelude.{◌≡◌, ◌↔◌, ◌<◌, ◌++◌, ◌∷◌, [], IsTrue, OnOk};
ghost use Rattle.mt_base.specs.Bounds.{AreWithinBounds};
ghost use Rattle.mt_cover.specs.Box.{half, wider};
ghost use Rattle.mt_cover.specs.Cells.{Overlap, cells, cells_in, cells_of, stays_of};
ghost use Rattle.mt_cover.specs.Private.InPlane.{IsBoxInPlane, IsExtentNearPlane};

use crate::bounding_box::{BoundingBox, Extent, half, place, wider};
use mt_base::{Memory, Rules, Second};
use std::alloc::Global;
use std::marker::Model;

/// A cell, and the seconds `from <= k < to` for which a trajectory counts to it: one slice of at most 256 seconds.
#[derive(Clone, Copy, PartialEq, Eq)]
pub struct Stay {
    /// The cell's number, below 4,096: 64 times its line, counted from the south, and its column, counted from the west.
    pub cell: u32,
    /// The first second.
    pub from: Second,
    /// The second after the last one.
    pub to: Second,
}

impl Stay {
    /// Whether it has a second in common with the seconds `from <= k < to`.
    pub fn overlaps(&self, from: Second, to: Second) -> bool
        ensures { IsTrue result ↔ Overlap self.now from to }
    {
        self.from.max(from) < self.to.min(to)
    }
}

/// The cells that a trajectory meets, seen as a list of stays: slice by slice, and in each slice line by line from the south and in a line
/// from the west.
#[derive(Drop)]
pub struct Cover {
    stays: Vec<Stay>,
}

impl Model for Cover {
    ghost use Rattle.std.specs.Prelude.{List};
    ghost use Rattle.mt_cover.specs.declared.stays.Stay.{Stay};

    ghost Value = { List Stay };

    ghost view = { λ s. s.stays.items };
}

impl Cover {
    /// Its stays, in order.
    pub fn stays(&self) -> &[Stay]
        ensures { result.now ≡ self.now }
    {
        &self.stays
    }

    /// No stay. It takes no memory.
    pub(crate) fn empty(alloc: Global) -> Cover
        ensures { result ≡ [] }
    {
        Cover {
            stays: Vec::new(alloc),
        }
    }

    /// Puts a stay after the others.
    fn push(&mut self, cell: u32, from: Second, to: Second) -> Result<(), Memory>
        ensures { OnOk result (self.new ≡ self.old ++ record { cell = cell; from = from; to = to } ∷ []) }
    {
        self.stays.push(Stay { cell, from, to })?;
        Ok(())
    }

    /// Puts a stay after the others for each cell of a line that an extent meets.
    fn add_line(&mut self, x: Extent, line: u32, from: Second, to: Second) -> Result<(), Memory>
        requires kept { IsExtentNearPlane x }
        requires few { line < 64 }
        ensures { OnOk result (self.new ≡ self.old ++ stays_of from to (cells_in x line)) }
    {
        let first = place(x.low);
        let end = place(x.high) + 1;
        for column in first..end {
            self.push(64 * line + column, from, to)?;
        }
        Ok(())
    }

    /// Puts a stay after the others for each cell that two extents meet.
    fn add_cells(&mut self, x: Extent, y: Extent, from: Second, to: Second) -> Result<(), Memory>
        requires x_kept { IsExtentNearPlane x }
        requires y_kept { IsExtentNearPlane y }
        ensures { OnOk result (self.new ≡ self.old ++ stays_of from to (cells x y)) }
    {
        let first = place(y.low);
        let end = place(y.high) + 1;
        for line in first..end {
            self.add_line(x, line, from, to)?;
        }
        Ok(())
    }

    /// Puts a stay after the others for each cell that a box meets, made wider on each side by its margin and half of the horizontal
    /// minimum.
    pub(crate) fn add(
        &mut self,
        rules: &Rules,
        bounds: BoundingBox,
        from: Second,
        to: Second,
    ) -> Result<(), Memory>
        requires rules_kept { AreWithinBounds rules.now }
        requires kept { IsBoxInPlane bounds }
        ensures { OnOk result (self.new ≡ self.old ++ stays_of from to (cells_of rules.now bounds)) }
    {
        let by = bounds.margin + half(rules);
        self.add_cells(wider(bounds.x, by), wider(bounds.y, by), from, to)
    }
}
