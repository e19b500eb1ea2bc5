//! Pages, each of so many places, which lists share.
ghost use Rattle.std.specs.Prelude.{◌≡◌, ◌<◌, None, length, replicate, slice_set, IfOk, OnOk, OnErr};
ghost use Rattle.std.specs.Arc.{arc_value};
ghost use Rattle.std.specs.Option.{option_map};
ghost use Rattle.mt_paged.specs.Private.Pages.{row, rows};

use mt_memory::Memory;
use std::alloc::Global;
use std::sync::Arc;

/// The places of a page, each empty or with a shared item. They stand beside the count of those who share them: to let them go clears nothing.
pub(crate) type Page<T> = Vec<Option<Arc<T>>>;

/// How many places a page has.
pub(crate) const PLACES: u32 = 32;

/// So many pages, of so many empty places each. They are one page, shared.
pub(crate) fn empty_pages<T: Drop>(
    alloc: Global,
    number: usize,
    size: usize,
) -> Result<Vec<Arc<Page<T>>>, Memory>
    ensures { IfOk result (λ pages. rows pages.items ≡ replicate number (replicate size None)) }
{
    let page = Arc::new(alloc, vec![in alloc; None; size]?)?;
    Ok(vec![in alloc; page; number]?)
}

/// Replaces a place of a page: in the page itself where nobody shares it, else in a copy that takes its stead.
pub(crate) fn replace_place<T: Drop>(
    page: &mut Arc<Page<T>>,
    place: usize,
    item: Option<Arc<T>>,
) -> Result<(), Memory>
    requires { place < length (row page.old) }
    ensures ok { OnOk result (row page.new ≡ slice_set (row page.old) place (option_map arc_value item)) }
    ensures err { OnErr result (row page.new ≡ row page.old) }
{
    let own = Arc::make_mut(page)?;
    own[place] = item;
    Ok(())
}
