ghost use Rattle.std.specs.Prelude.{◌≡◌, ◌<◌, length, replicate, None, IfOk, OnOk, OnErr, slice_index_or, slice_set};
ghost use Rattle.std.specs.Arc.{arc_value};
ghost use Rattle.std.specs.Option.{option_copied, option_map};

use crate::page::{PLACES, Page, empty_pages, replace_place};
use mt_memory::Memory;
use std::alloc::Global;
use std::marker::Model;
use std::sync::Arc;

/// A list of places, each empty or with an item, in pages of 32 places that lists share.
///
/// A list that is shared costs nothing but a count. One that is changed then copies the table of its pages, and each page at the first
/// change of a place in it; the lists that it was shared with stay as they were.
#[derive(Drop)]
pub struct Paged<T: Drop> {
    alloc: Global,
    count: u32,
    pages: Arc<Vec<Arc<Page<T>>>>,
}

impl<T: Drop> Model for Paged<T> {
    ghost use Rattle.std.specs.Prelude.{List, Option, take};
    ghost use Rattle.std.specs.Arc.{arc_value};
    ghost use Rattle.mt_paged.specs.Private.Pages.{AreRows, rows_joined, rows};

    ghost Value = { List (Option T) };

    ghost view = { λ s. take s.count (rows_joined (rows (arc_value s.pages).items)) };

    ghost invariant = { λ s. AreRows s.count (rows (arc_value s.pages).items) };
}

impl<T: Drop> Paged<T> {
    /// The list of n empty places.
    pub fn make(alloc: Global, n: u32) -> Result<Paged<T>, Memory>
        ensures { IfOk result (λ list. list ≡ replicate n None) }
    {
        let pages = empty_pages(alloc, n.div_ceil(PLACES) as usize, PLACES as usize)?;
        Ok(Paged {
            alloc,
            count: n,
            pages: Arc::new(alloc, pages)?,
        })
    }

    /// What stands at a place, counted from 0; `None` exactly where it is empty. It takes no memory.
    pub fn get(&self, place: u32) -> Option<&T>
        requires { place < length self.now }
        ensures { option_copied result ≡ slice_index_or self.now place None }
    {
        let page = &self.pages[(place / PLACES) as usize];
        match &page[(place % PLACES) as usize] {
            Some(item) => Some(&**item),
            None => None,
        }
    }

    /// Replaces what stands at a place. Lists that were shared with this one stay, and on an error this one does too.
    pub fn replace(&mut self, place: u32, item: Option<Arc<T>>) -> Result<(), Memory>
        requires { place < length self.old }
        ensures ok { OnOk result (self.new ≡ slice_set self.old place (option_map arc_value item)) }
        ensures err { OnErr result (self.new ≡ self.old) }
    {
        let pages = Arc::make_mut(&mut self.pages)?;
        let page = &mut pages[(place / PLACES) as usize];
        replace_place(page, (place % PLACES) as usize, item)
    }

    /// The list with another item at a place. This list stays. It copies one page and the table of pages; for several places at once,
    /// `share` the list and `replace` them in the new one, which copies the table once.
    pub fn set(&self, place: u32, item: Option<Arc<T>>) -> Result<Paged<T>, Memory>
        requires { place < length self.now }
        ensures { IfOk result (λ list. list ≡ slice_set self.now place (option_map arc_value item)) }
    {
        let mut list = self.share()?;
        list.replace(place, item)?;
        Ok(list)
    }

    /// The same list once more: nothing is copied, all pages are shared.
    pub fn share(&self) -> Result<Paged<T>, Memory>
        ensures { IfOk result (λ list. list ≡ self.now) }
    {
        Ok(Paged {
            alloc: self.alloc,
            count: self.count,
            pages: Arc::try_clone(&self.pages)?,
        })
    }
}
