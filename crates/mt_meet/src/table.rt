//! The slices of many trajectories.
ghost use Rattle.std.specs.Prelude.{◌≡◌, ◌≤◌, ◌<◌, ◌+◌, ◌-◌, ◌*◌, ◌/◌, ◌%◌, false, ℕ, Some, None, get_or, length, replicate, slice_set, IfOk, IfSome, option_copied, option_map};
ghost use Rattle.std.specs.Arc.{arc_value};
ghost use Rattle.std.specs.Int.{div_ceil};
ghost use Rattle.mt_meet.specs.Meeting.{AreMet, IsMetAt, IsNextMet};
ghost use Rattle.mt_meet.specs.Private.Boxing.{AreSlicesIn, HasNoSecond};
ghost use Rattle.mt_meet.specs.Private.Searching.{IsNextBetween};
ghost use Rattle.mt_meet.specs.Searching.{MeetOnlyMarked, MeetsOnlyIn, IsSearched};

use crate::boxes::{Boxes, ITEMS};
use crate::marked_items::MarkedItems;
use crate::meeting::meet_within;
use crate::search::Search;
use crate::subject::Subject;
use crate::windows::with_item;
use mt_base::{Memory, Second};
use mt_cover::Slices;
use mt_paged::Paged;
use std::alloc::Global;
use std::marker::Model;
use std::sync::Arc;

// How many items in a row have two pages: one for the even ones, one for the odd ones.
const BLOCK: u32 = 2 * ITEMS;

/// An item whose slices meet some others, and the first and the last second in which they do.
#[derive(Clone, Copy)]
pub struct Met {
    /// The item.
    pub item: u32,
    /// The first second.
    pub first: Second,
    /// The last second.
    pub last: Second,
}

/// The slices of items, each of which may have none. They stand in pages that tables share. Beside them stand the steps in which they lie in each
/// window of the clock, those of 64 items side by side, so that most items are passed over 64 at a time.
#[derive(Drop)]
pub struct SliceTable {
    alloc: Global,
    count: u32,
    slices: Paged<Slices>,
    pages: Paged<Paged<Boxes>>,
}

impl Model for SliceTable {
    ghost use Rattle.std.specs.Prelude.{List, Option};
    ghost use Rattle.mt_cover.specs.Sliced.{Sliced};
    ghost use Rattle.mt_meet.specs.Private.Boxing.{AreBoxesKept};

    ghost Value = { List (Option Sliced) };

    ghost view = { λ s. s.slices };

    ghost invariant = { λ s. AreBoxesKept s.count s.slices s.pages };
}

impl SliceTable {
    /// That of so many items, each of which has none.
    pub fn make(alloc: Global, count: u32) -> Result<SliceTable, Memory>
        ensures { IfOk result (λ table. table ≡ replicate count None) }
    {
        Ok(SliceTable {
            alloc,
            count,
            slices: Paged::make(alloc, count)?,
            pages: Paged::make(alloc, 2 * count.div_ceil(BLOCK))?,
        })
    }

    /// The same once more. It copies no list.
    pub fn share(&self) -> Result<SliceTable, Memory>
        ensures { IfOk result (λ table. table ≡ self.now) }
    {
        Ok(SliceTable {
            alloc: self.alloc,
            count: self.count,
            slices: self.slices.share()?,
            pages: self.pages.share()?,
        })
    }

    /// The table with other slices of an item, or none, which it shares. This table stays. Where it has none before and after, no list is copied; else
    /// the page of the item is.
    pub fn set(&self, item: u32, slices: Option<Arc<Slices>>) -> Result<SliceTable, Memory>
        requires { item < length self.now }
        ensures { IfOk result (λ table. table ≡ slice_set self.now item (option_map arc_value slices)) }
    {
        if slices.is_none() && self.slices.get(item).is_none() {
            return self.share();
        }
        let (number, place) = (2 * (item / BLOCK) + item % 2, item % BLOCK / 2);
        let page = with_item(
            self.alloc,
            self.pages.get(number),
            place,
            self.slices.get(item),
            seen(slices.as_ref()),
        )?;
        Ok(SliceTable {
            alloc: self.alloc,
            count: self.count,
            slices: self.slices.set(item, slices)?,
            pages: with_page(self.alloc, &self.pages, number, page)?,
        })
    }

    // The seconds in which the slices of an item meet some, where there is one. They meet in no second but those of some parts.
    fn met_at(&self, item: u32, subject: &Subject, parts: u16) -> Option<Met>
        requires { MeetsOnlyIn subject.now self.now item parts }
        ensures { IsMetAt subject.now.rules subject.now.sliced self.now item result }
    {
        if item >= self.count {
            return None;
        }
        let (mine, theirs) = (subject.slices(), self.slices.get(item)?);
        let (from, to) = subject.between(parts);
        let begin = from.max(mine.from()).max(theirs.from());
        let end = to.min(mine.to()).min(theirs.to());
        if begin >= end {
            return None;
        }
        let (first, last) = meet_within(mine, theirs, &subject.rules, begin, end)?;
        Some(Met { item, first, last })
    }

    // Marks the items of a page: they meet in no second but those of the marked parts.
    fn mark_items(&self, number: u32, subject: &Subject, marks: &mut MarkedItems)
        requires { number < 2 * div_ceil (length self.now) 128 }
        ensures { MeetOnlyMarked subject.now self.now number marks.new }
    {
        match self.pages.get(number) {
            Some(page) => marks.mark(page, &subject.windows),
            None => marks.clear(),
        }
    }

    // Marks 128 items, unless they are marked already.
    fn mark(&self, search: &mut Search, block: u32, subject: &Subject)
        requires block { block < div_ceil (length self.now) 128 }
        requires few { block < 33554432 }
        requires searched { IsSearched subject.now self.now search.old }
        ensures even { MeetOnlyMarked subject.now self.now (2 * block) search.new.even }
        ensures odd { MeetOnlyMarked subject.now self.now (2 * block + 1) search.new.odd }
        ensures searched { IsSearched subject.now self.now search.new }
        ensures from { search.new.from ≡ search.old.from }
    {
        if search.block != Some(block) {
            self.mark_items(2 * block, subject, &mut search.even);
            self.mark_items(2 * block + 1, subject, &mut search.odd);
            search.block = Some(block);
        }
    }

    // The first of 128 items, from a place on, whose slices meet some: from mark to mark.
    fn next_in(&self, block: u32, from: u32, search: &Search, subject: &Subject) -> Option<Met>
        requires few { block < 33554432 }
        requires within { from ≤ 128 }
        requires even { MeetOnlyMarked subject.now self.now (2 * block) search.now.even }
        requires odd { MeetOnlyMarked subject.now self.now (2 * block + 1) search.now.odd }
        ensures { IsNextBetween subject.now self.now (128 * block + from) (128 * block + 128) result }
    {
        let mut place = search.next_marked(from);
        while place < BLOCK {
            let parts = search.parts(place);
            if let Some(met) = self.met_at(BLOCK * block + place, subject, parts) {
                return Some(met);
            }
            place = search.next_marked(place + 1);
        }
        None
    }

    // Whether 128 items may have slices: else none of them has a second.
    fn has_some(&self, block: u32) -> bool
        requires block { block < div_ceil (length self.now) 128 }
        requires few { block < 33554432 }
        ensures { result ≡ false → (item : ℕ) → item / 128 ≡ block → HasNoSecond (get_or self.now item None) }
    {
        self.pages.get(2 * block).is_some() || self.pages.get(2 * block + 1).is_some()
    }

    // The next of 128 items, in a search that has come to them, whose slices meet some.
    fn next_of(&self, block: u32, search: &mut Search, subject: &Subject) -> Option<Met>
        requires block { block < div_ceil (length self.now) 128 }
        requires few { block < 33554432 }
        requires begun { search.old.from ≤ 128 * block + 128 }
        requires searched { IsSearched subject.now self.now search.old }
        ensures next { IsNextBetween subject.now self.now (128 * block + (search.old.from - 128 * block)) (128 * block + 128) result }
        ensures searched { IsSearched subject.now self.now search.new }
        ensures from { search.new.from ≡ search.old.from }
    {
        if !self.has_some(block) {
            return None;
        }
        self.mark(search, block, subject);
        let from = search.from.saturating_sub(BLOCK * block);
        self.next_in(block, from, search, subject)
    }

    /// The next of the items, in a search through them, whose slices meet some, with the first and the last second in which they do; `None` exactly
    /// where no other does. It takes no memory.
    pub fn next_meeting(&self, search: &mut Search, subject: &Subject) -> Option<Met>
        requires { IsSearched subject.now self.now search.old }
        ensures next { IsNextMet subject.now.rules subject.now.sliced self.now search.old.from result }
        ensures searched { IsSearched subject.now self.now search.new }
        ensures on { IfSome result (λ met. search.new.from ≡ met.item + 1) }
    {
        for block in search.from / BLOCK..self.count.div_ceil(BLOCK) {
            if let Some(met) = self.next_of(block, search, subject) {
                search.from = met.item + 1;
                return Some(met);
            }
        }
        None
    }

    /// The items whose slices meet some, rising, each once, with the first and the last second in which they do.
    pub fn meeting(&self, subject: &Subject) -> Result<Vec<Met>, Memory>
        ensures { IfOk result (λ met. AreMet subject.now.rules subject.now.sliced self.now met.items) }
    {
        let mut list = Vec::new(self.alloc);
        let mut search = Search::begin();
        while let Some(met) = self.next_meeting(&mut search, subject) {
            list.push(met)?;
        }
        Ok(list)
    }
}

// Pages with another one of a number. Those before stay.
fn with_page(
    alloc: Global,
    all: &Paged<Paged<Boxes>>,
    number: u32,
    page: Paged<Boxes>,
) -> Result<Paged<Paged<Boxes>>, Memory>
    requires { number < length all.now }
    ensures { IfOk result (λ after. after ≡ slice_set all.now number (Some page)) }
{
    all.set(number, Some(Arc::new(alloc, page)?))
}

// What stands for an item, to be looked at: slices, if anything.
fn seen(slices: Option<&Arc<Slices>>) -> Option<&Slices>
    ensures same { option_copied result ≡ option_map arc_value (option_copied slices.entry) }
    ensures kept { AreSlicesIn (option_copied result) }
{
    let slices = slices?;
    slices.keeps();
    Some(slices)
}
