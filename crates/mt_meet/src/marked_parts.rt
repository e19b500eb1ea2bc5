//! In which parts of a subject's time items may be met.
ghost use Rattle.mt_meet.specs.Private.Boxing.{IsCrossedIn, IsPartMarked, no_window};
ghost use Rattle.std.specs.Prelude.{◌≡◌, ◌<◌, ℕ, IsTrue, get_or, length, replicate};
ghost use Rattle.std.specs.Int.{bit_at};

use crate::boxes::{Boxes, ITEMS, mark_in};
use crate::subject::Window;
use mt_paged::Paged;

/// For each of 64 items in which of 16 parts of a subject's time it may be met: a bit for each part.
#[derive(Clone, Copy)]
pub struct MarkedParts {
    pub(crate) parts: [u16; ITEMS as usize],
}

impl MarkedParts {
    /// No part is marked.
    pub(crate) fn none() -> MarkedParts
        ensures { result.parts ≡ replicate 64 0 }
    {
        MarkedParts {
            parts: [0; ITEMS as usize],
        }
    }

    /// Marks the parts that have a bit, for the item at a place, where it is to be marked.
    #[inline(always)]
    pub(crate) fn add(&mut self, place: usize, parts: u16, marked: bool)
        requires { place < 64 }
        ensures kept { (other part : ℕ) → IsPartMarked self.old other part → IsPartMarked self.new other part }
        ensures own { IsTrue marked → (part : ℕ) → bit_at parts part ≡ 1 → IsPartMarked self.new place part }
    {
        self.parts[place] |= if marked { parts } else { 0 };
    }
}

/// Marks the parts of a subject's time in which the items of a page have steps in common with it in some window.
pub(crate) fn mark_page(page: &Paged<Boxes>, windows: &[Window], marks: &mut MarkedParts)
    requires full { length page.now ≡ 64 }
    requires few { (number : ℕ) → number < length windows.now → (get_or windows.now number no_window).remainder < 64 }
    ensures { (place number part : ℕ) → place < 64 → number < length windows.now → IsCrossedIn page.now (get_or windows.now number no_window) place
        → bit_at (get_or windows.now number no_window).part part ≡ 1 → IsPartMarked marks.new place part }
{
    for number in 0..windows.len() {
        let window = &windows[number];
        mark_in(
            page.get(window.remainder),
            &window.bounds,
            window.part,
            marks,
        );
    }
}
