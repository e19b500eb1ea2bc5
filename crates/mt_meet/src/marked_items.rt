//! Which items of a page are marked.
ghost use Rattle.std.specs.Prelude.{◌≡◌, ◌≢◌, ◌≤◌, ◌<◌, ◌+◌, ◌%◌, ℕ, get_or, length, replicate};
ghost use Rattle.std.specs.Int.{bit_at};
ghost use Rattle.mt_meet.specs.Private.Boxing.{IsCrossedIn, IsPartMarked, no_window};
ghost use Rattle.mt_meet.specs.Private.Marking.{HaveBits};

use crate::boxes::{Boxes, ITEMS};
use crate::marked_parts::{MarkedParts, mark_page};
use crate::subject::Window;
use mt_paged::Paged;
use std::marker::Model;

/// The marked parts of the 64 items of a page, with a bit for each item that has one, so that the next of these is found at once.
#[derive(Drop)]
pub struct MarkedItems {
    marks: MarkedParts,
    items: u64,
}

impl Model for MarkedItems {
    ghost use Rattle.mt_meet.specs.Private.Marking.{HaveBits};
    ghost use Rattle.mt_meet.specs.declared.marked_parts.MarkedParts.{MarkedParts};

    ghost Value = { MarkedParts };

    ghost view = { λ s. s.marks };

    ghost invariant = { λ s. HaveBits s.marks s.items };
}

// A byte for each item of a page: where it has a marked part, with the bit of its place among eight.
fn bits_of_bytes(marks: &MarkedParts) -> [u8; ITEMS as usize]
    ensures { (place : ℕ) → place < 64 → get_or marks.now.parts place 0 ≢ 0 → bit_at (get_or result place 0) (place % 8) ≡ 1 }
{
    let mut bits = [0; ITEMS as usize];
    for place in 0..ITEMS as usize {
        bits[place] = if marks.parts[place] != 0 {
            1 << (place % 8)
        } else {
            0
        };
    }
    bits
}

// All bits that eight bytes have.
#[inline(always)]
fn bits_of_eight(bytes: &[u8; ITEMS as usize], from: usize) -> u8
    requires { from ≤ 56 }
    ensures { (place bit : ℕ) → from ≤ place → place < from + 8 → bit_at (get_or bytes.now place 0) bit ≡ 1 → bit_at result bit ≡ 1 }
{
    let mut all = 0;
    for place in from..from + 8 {
        all |= bytes[place];
    }
    all
}

// A bit for each item of a page that has a marked part.
fn bits_of(marks: &MarkedParts) -> u64
    ensures { HaveBits marks.now result }
{
    let bytes = bits_of_bytes(marks);
    let mut items = 0;
    for group in 0..8 {
        items = 256 * items + u64::from(bits_of_eight(&bytes, 56 - 8 * group));
    }
    items
}

impl MarkedItems {
    /// None is marked.
    pub(crate) fn none() -> MarkedItems
        ensures { result.parts ≡ replicate 64 0 }
    {
        MarkedItems {
            marks: MarkedParts::none(),
            items: 0,
        }
    }

    /// None is marked any more.
    pub(crate) fn clear(&mut self)
        ensures { (place : ℕ) → get_or self.new.parts place 0 ≡ 0 }
    {
        if self.items != 0 {
            *self = MarkedItems::none();
        }
    }

    /// Those parts of a subject's time are marked in which the items of a page have steps in common with it in some window.
    pub(crate) fn mark(&mut self, page: &Paged<Boxes>, windows: &[Window])
        requires full { length page.now ≡ 64 }
        requires few { (number : ℕ) → number < length windows.now → (get_or windows.now number no_window).remainder < 64 }
        ensures { (place number part : ℕ) → place < 64 → number < length windows.now → IsCrossedIn page.now (get_or windows.now number no_window) place
            → bit_at (get_or windows.now number no_window).part part ≡ 1 → IsPartMarked self.new place part }
    {
        self.marks = MarkedParts::none();
        mark_page(page, windows, &mut self.marks);
        self.items = bits_of(&self.marks);
    }

    /// The marked parts of the item at a place.
    #[inline(always)]
    pub(crate) fn parts(&self, place: u32) -> u16
        requires { place < 64 }
        ensures { result ≡ get_or self.now.parts place 0 }
    {
        self.marks.parts[place as usize]
    }

    /// The first place from one on whose item has a marked part; 64 or more where there is none.
    #[inline(always)]
    pub(crate) fn next(&self, from: u32) -> u32
        requires { from ≤ 64 }
        ensures on { from ≤ result }
        ensures few { result ≤ 128 }
        ensures none { (place : ℕ) → from ≤ place → place < result → get_or self.now.parts place 0 ≡ 0 }
    {
        if from == ITEMS {
            return ITEMS;
        }
        from + (self.items >> from).trailing_zeros()
    }
}
