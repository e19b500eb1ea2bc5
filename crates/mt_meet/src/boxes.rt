//! Where 64 items are in a window of the clock.
ghost use Rattle.std.specs.Prelude.{◌≡◌, ◌<◌, ◌≢◌, ◌≤ℤ◌, ℕ, IsTrue, option_copied};
ghost use Rattle.mt_meet.specs.Private.Stepping.{Cross, nowhere};
ghost use Rattle.std.specs.Int.{bit_at};
ghost use Rattle.mt_meet.specs.Private.Boxing.{CrossesIn, bounds_at, IsPartMarked};

use crate::marked_parts::MarkedParts;
use crate::steps::Bounds;

/// How many items have their bounds side by side.
pub(crate) const ITEMS: u32 = 64;

/// The bounds of 64 items in a window of the clock, side by side, so that they are compared at once.
#[derive(Clone, Copy)]
pub(crate) struct Boxes {
    west: [i16; ITEMS as usize],
    east: [i16; ITEMS as usize],
    south: [i16; ITEMS as usize],
    north: [i16; ITEMS as usize],
    low: [i16; ITEMS as usize],
    high: [i16; ITEMS as usize],
}

// Whether two ranges of steps have one in common.
#[inline(always)]
fn share(low: &i16, high: &i16, other_low: &i16, other_high: &i16) -> bool
    ensures { low.now ≤ℤ other_high.now → other_low.now ≤ℤ high.now → IsTrue result }
{
    (*low <= *other_high) & (*other_low <= *high)
}

impl Boxes {
    /// Those of items that are nowhere.
    pub(crate) fn empty() -> Boxes
        ensures { (place : ℕ) → place < 64 → bounds_at result place ≡ nowhere }
    {
        Boxes {
            west: [32_767; ITEMS as usize],
            east: [-1; ITEMS as usize],
            south: [32_767; ITEMS as usize],
            north: [-1; ITEMS as usize],
            low: [32_767; ITEMS as usize],
            high: [-1; ITEMS as usize],
        }
    }

    /// Those of the item at a place.
    pub(crate) fn at(&self, place: u32) -> Bounds
        requires { place < 64 }
        ensures { result ≡ bounds_at self.now place }
    {
        let place = place as usize;
        Bounds {
            west: self.west[place],
            east: self.east[place],
            south: self.south[place],
            north: self.north[place],
            low: self.low[place],
            high: self.high[place],
        }
    }

    /// Replaces those of the item at a place.
    pub(crate) fn put(&mut self, place: u32, bounds: Bounds)
        requires { place < 64 }
        ensures own { bounds_at self.new place ≡ bounds }
        ensures others { (other : ℕ) → other ≢ place → bounds_at self.new other ≡ bounds_at self.old other }
    {
        let place = place as usize;
        self.west[place] = bounds.west;
        self.east[place] = bounds.east;
        self.south[place] = bounds.south;
        self.north[place] = bounds.north;
        self.low[place] = bounds.low;
        self.high[place] = bounds.high;
    }

    // Whether the item at a place has a step in common with some bounds, east, north and in height.
    #[inline(always)]
    fn crosses(&self, place: usize, own: &Bounds) -> bool
        requires { place < 64 }
        ensures { Cross own.now (bounds_at self.now place) → IsTrue result }
    {
        share(&own.west, &own.east, &self.west[place], &self.east[place])
            & share(
                &own.south,
                &own.north,
                &self.south[place],
                &self.north[place],
            )
            & share(&own.low, &own.high, &self.low[place], &self.high[place])
    }

    /// Marks some parts for the items that have a step in common with some bounds, east, north and in height.
    pub(crate) fn mark_crossing(&self, own: &Bounds, parts: u16, marks: &mut MarkedParts)
        ensures kept { (place part : ℕ) → IsPartMarked marks.old place part → IsPartMarked marks.new place part }
        ensures own { (place part : ℕ) → place < 64 → Cross own.now (bounds_at self.now place) → bit_at parts part ≡ 1
            → IsPartMarked marks.new place part }
    {
        for place in 0..ITEMS as usize {
            marks.add(place, parts, self.crosses(place, own));
        }
    }
}

/// Marks some parts for the items that have a step in common with some bounds, where there are boxes.
pub(crate) fn mark_in(boxes: Option<&Boxes>, own: &Bounds, parts: u16, marks: &mut MarkedParts)
    ensures kept { (place part : ℕ) → IsPartMarked marks.old place part → IsPartMarked marks.new place part }
    ensures own { (place part : ℕ) → place < 64 → CrossesIn own.now (option_copied boxes.entry) place → bit_at parts part ≡ 1
        → IsPartMarked marks.new place part }
{
    if let Some(boxes) = boxes {
        boxes.mark_crossing(own, parts, marks);
    }
}
