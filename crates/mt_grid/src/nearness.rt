//! Which items of one cell are near a stay in it.
ghost use Rattle.std.specs.Prelude.{◌↔◌, ◌⊎◌, ℕ, OnOk};
ghost use Rattle.mt_grid.specs.Lists.{IsItemOf, IsNearIn};
ghost use Rattle.mt_grid.specs.Private.Marks.{IsMarked};

use crate::marks::Marks;
use crate::placed::Placed;
use mt_base::Memory;
use mt_cover::Stay;

/// Marks the item of what is placed, where it has a second in common with a stay.
fn mark_if_near(placed: &Placed, stay: &Stay, marks: &mut Marks) -> Result<(), Memory>
    ensures { OnOk result ((item : ℕ) → IsMarked marks.new item
        ↔ (IsMarked marks.old item ⊎ IsItemOf placed.now stay.now item)) }
{
    marks.mark(placed.item, stay.overlaps(placed.from, placed.to))
}

/// Marks the items of a cell's list that are near a stay in that cell.
pub(crate) fn mark_near(list: &[Placed], stay: &Stay, marks: &mut Marks) -> Result<(), Memory>
    ensures { OnOk result ((item : ℕ) → IsMarked marks.new item
        ↔ (IsMarked marks.old item ⊎ IsNearIn list.now stay.now item)) }
{
    for placed in list {
        mark_if_near(placed, stay, marks)?;
    }
    Ok(())
}
