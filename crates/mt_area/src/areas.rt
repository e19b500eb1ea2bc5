ghost use Rattle.std.specs.Prelude.{◌≡◌, ◌↔◌, [], ◌∷◌, ◌++◌, Ok, OnOk, OnErr, IsTrue, All};
ghost use Rattle.mt_base.specs.Area.{IsBoundedArea};
ghost use Rattle.mt_area.specs.Adding.{IsAnswer, IsTaken};

use crate::area_no::AreaNo;
use crate::shape::has_right_shape;
use mt_base::{Area, FixName, Memory};
use std::alloc::Global;
use std::marker::Model;

/// How many areas there may be.
const MOST: usize = 256;

/// Restricted areas, seen as their list in the order in which they were added. Each has 3 to 16 corners, and its numbers are within their bounds.
#[derive(Drop)]
pub struct Areas {
    areas: Vec<Area>,
}

impl Model for Areas {
    ghost use Rattle.std.specs.Prelude.{List, All};
    ghost use Rattle.mt_base.specs.declared.area.Area.{Area};
    ghost use Rattle.mt_base.specs.Area.{IsBoundedArea};

    ghost Value = { List Area };

    ghost view = { λ a. a.areas.items };

    ghost invariant = { λ a. All IsBoundedArea a.areas.items };
}

impl Areas {
    /// No area. It takes no memory; what is added later comes from `alloc`.
    pub fn make(alloc: Global) -> Result<Areas, Memory>
        ensures { OnOk result (result ≡ Ok []) }
    {
        Ok(Areas {
            areas: Vec::new(alloc),
        })
    }

    /// Puts an area after the others. `Taken` exactly where one of that name stands, else `Shape` exactly where its shape isn't right, else
    /// `Full` exactly where 256 areas stand, else `Memory` where an allocation was refused. On an error the areas stay as they were.
    ///
    /// The shape is right where the bottom is below the top, the hours have a second, and the corners go round counterclockwise with no three on
    /// one line and none inside the others. It asks that the area has 3 to 16 corners in the plane, levels up to 600, and hours from by second
    /// 10,000,000 to by 10,014,400.
    pub fn add(&mut self, area: Area) -> Result<(), AreaNo>
        requires { IsBoundedArea area }
        ensures answer { IsAnswer self.old area result }
        ensures ok { OnOk result (self.new ≡ self.old ++ area ∷ []) }
        ensures err { OnErr result (self.new ≡ self.old) }
    {
        self.check(&area)?;
        self.areas.push(area)?;
        Ok(())
    }

    // Whether an area may be added, and if not, why.
    fn check(&self, area: &Area) -> Result<(), AreaNo>
        requires { IsBoundedArea area.now }
        ensures { IsAnswer self.now area.now result }
    {
        if is_taken(&self.areas, area.name) {
            return Err(AreaNo::Taken);
        }
        if !has_right_shape(area) {
            return Err(AreaNo::Shape);
        }
        if self.areas.len() >= MOST {
            return Err(AreaNo::Full);
        }
        Ok(())
    }

    /// The areas, in the order in which they were added. That the numbers of each are within their bounds is said here too.
    pub fn items(&self) -> &[Area]
        ensures items { result.now ≡ self.now }
        ensures kept { All IsBoundedArea self.now }
    {
        &self.areas
    }
}

/// Whether an area of that name stands.
fn is_taken(areas: &[Area], name: FixName) -> bool
    ensures { IsTrue result ↔ IsTaken areas.now name }
{
    for area in areas {
        if area.name == name {
            return true;
        }
    }
    false
}
