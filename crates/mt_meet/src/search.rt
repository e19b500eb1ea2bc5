//! How far a search through the items of a table has come.
ghost use Rattle.std.specs.Prelude.{◌≡◌, ◌≤◌, ◌<◌, ◌+◌, ◌*◌, ◌/◌, ◌%◌, ℕ, None, get_or};

use crate::marked_items::MarkedItems;

/// How far a search through the items of a table has come: which item is next; and the number of the 128 items that were marked last, with the marks
/// of the even ones and of the odd ones.
#[derive(Drop)]
pub struct Search {
    pub(crate) from: u32,
    pub(crate) block: Option<u32>,
    pub(crate) even: MarkedItems,
    pub(crate) odd: MarkedItems,
}

impl Search {
    /// One that begins.
    pub fn begin() -> Search
        ensures from { result.from ≡ 0 }
        ensures unmarked { result.block ≡ None }
    {
        Search {
            from: 0,
            block: None,
            even: MarkedItems::none(),
            odd: MarkedItems::none(),
        }
    }

    /// The marked parts of the item at a place of the 128 that were marked last.
    #[inline(always)]
    pub(crate) fn parts(&self, place: u32) -> u16
        requires { place < 128 }
        ensures even { place % 2 ≡ 0 → result ≡ get_or self.now.even.parts (place / 2) 0 }
        ensures odd { place % 2 ≡ 1 → result ≡ get_or self.now.odd.parts (place / 2) 0 }
    {
        let marks = if place % 2 == 0 {
            &self.even
        } else {
            &self.odd
        };
        marks.parts(place / 2)
    }

    /// The first place from one on, of the 128 that were marked last, whose item has a marked part; 128 or more where there is none.
    #[inline(always)]
    pub(crate) fn next_marked(&self, from: u32) -> u32
        requires { from ≤ 128 }
        ensures on { from ≤ result }
        ensures even { (place : ℕ) → from ≤ place → place < result → place % 2 ≡ 0 → get_or self.now.even.parts (place / 2) 0 ≡ 0 }
        ensures odd { (place : ℕ) → from ≤ place → place < result → place % 2 ≡ 1 → get_or self.now.odd.parts (place / 2) 0 ≡ 0 }
    {
        let even = 2 * self.even.next(from.div_ceil(2));
        let odd = 2 * self.odd.next(from / 2) + 1;
        even.min(odd)
    }
}
