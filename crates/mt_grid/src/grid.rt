ghost use Rattle.std.specs.Prelude.{◌≡◌, ◌↔◌, ℕ, ◌<◌, ◌⊎◌, [], replicate, IfOk, OnOk, slice_set};
ghost use Rattle.mt_grid.specs.Lists.{AreInGrid, AreNear, IsNearIn, list_at, others, with_stay, with_stays, without_stay, without_stays};
ghost use Rattle.mt_grid.specs.Private.Marks.{IsMarked};

use crate::marks::Marks;
use crate::nearness::mark_near;
use crate::placed::Placed;
use mt_base::{Listed, Memory};
use mt_cover::{Cover, Stay};
use mt_paged::Paged;
use std::alloc::Global;
use std::marker::Model;
use std::sync::Arc;

/// How many cells a grid has: 64 lines of 64.
const CELLS: u32 = 4096;

/// The lists of 4,096 cells, in pages that grids share: what counts to each cell, and for which seconds. A grid stays as it is; what is
/// put or taken gives another one, which shares with it all pages but those of the cells that change.
#[derive(Drop)]
pub struct Grid {
    alloc: Global,
    cells: Paged<Listed<Placed>>,
}

impl Model for Grid {
    ghost use Rattle.std.specs.Prelude.{◌≡◌, List, length, map};
    ghost use Rattle.mt_grid.specs.declared.placed.Placed.{Placed};
    ghost use Rattle.mt_grid.specs.Private.Lists.{list_or_empty};

    ghost Value = { List (List Placed) };

    ghost view = { λ s. map list_or_empty s.cells };

    ghost invariant = { λ s. length s.cells ≡ 4096 };
}

impl Grid {
    /// The grid of empty lists.
    pub fn make(alloc: Global) -> Result<Grid, Memory>
        ensures { IfOk result (λ grid. grid ≡ replicate 4096 []) }
    {
        Ok(Grid {
            alloc,
            cells: Paged::make(alloc, CELLS)?,
        })
    }

    /// The same grid once more: nothing is copied, all pages are shared.
    pub fn share(&self) -> Result<Grid, Memory>
        ensures { IfOk result (λ grid. grid ≡ self.now) }
    {
        Ok(Grid {
            alloc: self.alloc,
            cells: self.cells.share()?,
        })
    }

    /// A copy of the list of a cell.
    fn list(&self, cell: u32) -> Result<Listed<Placed>, Memory>
        requires { cell < 4096 }
        ensures { IfOk result (λ list. list ≡ list_at self.now cell) }
    {
        match self.cells.get(cell) {
            Some(list) => Ok(list.copy(self.alloc)?),
            None => Ok(Listed::make(self.alloc)?),
        }
    }

    /// Replaces the list of a cell.
    fn replace(&mut self, cell: u32, list: Listed<Placed>) -> Result<(), Memory>
        requires { cell < 4096 }
        ensures { OnOk result (self.new ≡ slice_set self.old cell list) }
    {
        let list = Arc::new(self.alloc, list)?;
        self.cells.replace(cell, Some(list))
    }

    /// Puts an item at the end of the list of a stay's cell.
    fn put_stay(&mut self, item: u32, stay: &Stay) -> Result<(), Memory>
        requires { stay.now.cell < 4096 }
        ensures { OnOk result (self.new ≡ with_stay item self.old stay.now) }
    {
        let mut list = self.list(stay.cell)?;
        list.push(Placed {
            item,
            from: stay.from,
            to: stay.to,
        })?;
        self.replace(stay.cell, list)
    }

    /// The grid with an item, for the seconds of each stay of a cover, at the end of the list of the stay's cell. This grid stays.
    ///
    /// It copies the lists of these cells, each page that one of them stands in, and the table of pages once.
    pub fn put(&self, item: u32, cover: &Cover) -> Result<Grid, Memory>
        requires { AreInGrid cover.now }
        ensures { IfOk result (λ grid. grid ≡ with_stays item self.now cover.now) }
    {
        let mut grid = self.share()?;
        for stay in cover.stays() {
            grid.put_stay(item, stay)?;
        }
        Ok(grid)
    }

    /// Takes an item out of the list of a stay's cell.
    fn take_stay(&mut self, item: u32, stay: &Stay) -> Result<(), Memory>
        requires { stay.now.cell < 4096 }
        ensures { OnOk result (self.new ≡ without_stay item self.old stay.now) }
    {
        let list = self.list(stay.cell)?;
        let left = others(self.alloc, item, list.items())?;
        self.replace(stay.cell, left)
    }

    /// The grid without an item in the lists of a cover's cells. This grid stays. It copies what `put` copies.
    pub fn take(&self, item: u32, cover: &Cover) -> Result<Grid, Memory>
        requires { AreInGrid cover.now }
        ensures { IfOk result (λ grid. grid ≡ without_stays item self.now cover.now) }
    {
        let mut grid = self.share()?;
        for stay in cover.stays() {
            grid.take_stay(item, stay)?;
        }
        Ok(grid)
    }

    /// Marks the items that are near a stay.
    fn mark_near_stay(&self, stay: &Stay, marks: &mut Marks) -> Result<(), Memory>
        requires { stay.now.cell < 4096 }
        ensures { OnOk result ((item : ℕ) → IsMarked marks.new item
            ↔ (IsMarked marks.old item ⊎ IsNearIn (list_at self.now stay.now.cell) stay.now item)) }
    {
        match self.cells.get(stay.cell) {
            Some(list) => mark_near(list.items(), stay, marks),
            None => Ok(()),
        }
    }

    /// The items that are near a cover, rising, each once: those that share a cell with it in a common second.
    ///
    /// While it looks, it keeps a byte for each number up to the greatest item that it meets, and some more.
    pub fn near(&self, cover: &Cover) -> Result<Vec<u32>, Memory>
        requires { AreInGrid cover.now }
        ensures { IfOk result (λ items. AreNear self.now cover.now items.items) }
    {
        let mut marks = Marks::make(self.alloc);
        for stay in cover.stays() {
            self.mark_near_stay(stay, &mut marks)?;
        }
        marks.numbers()
    }
}

/// What is placed in a list, but for an item.
fn others(alloc: Global, item: u32, list: &[Placed]) -> Result<Listed<Placed>, Memory>
    ensures { IfOk result (λ left. left ≡ others item list.now) }
{
    let mut left = Listed::make(alloc)?;
    for placed in list {
        if placed.item != item {
            left.push(*placed)?;
        }
    }
    Ok(left)
}
