//! Where items are in the windows of the clock: in which steps their slices lie.
ghost use Rattle.std.specs.Prelude.{◌≡◌, ◌≢◌, ◌≤◌, ◌<◌, ◌+◌, ◌/◌, ℕ, None, Some, get_or, length, unwrap_or, IfOk, OnOk, option_copied};
ghost use Rattle.mt_cover.specs.Sliced.{Have, HaveWindow};
ghost use Rattle.mt_meet.specs.Private.Boxing.{IsBoxed, HasAllWindows, bounds_in, boxes_in};
ghost use Rattle.mt_meet.specs.Private.Stepping.{nowhere};

use crate::boxes::Boxes;
use crate::steps::{Bounds, boxed, nowhere};
use mt_base::Memory;
use mt_cover::{CLOCK_WINDOW, Slices};
use mt_paged::Paged;
use std::alloc::Global;
use std::sync::Arc;

/// By which number the windows are told apart: no trajectory has seconds in as many.
pub(crate) const WINDOWS: u32 = 64;

// The bounds of the item at a place of a page in a window.
fn bounds_in(boxes: Option<&Boxes>, place: u32) -> Bounds
    requires { place < 64 }
    ensures { result ≡ bounds_in (option_copied boxes.entry) place }
{
    match boxes {
        Some(boxes) => boxes.at(place),
        None => nowhere(),
    }
}

/// The first window that has seconds of some slices, and the one after the last.
pub(crate) fn windows_of(slices: &Slices) -> (u32, u32)
    ensures all { (k : ℕ) → Have slices.now k → (result.0 ≤ k / 256) × (k / 256 < result.1) }
    ensures have { (window : ℕ) → result.0 ≤ window → window < result.1 → HaveWindow slices.now window × (window ≤ 40000) }
    ensures few { result.1 ≤ result.0 + 64 }
{
    slices.keeps();
    if slices.from() >= slices.to() {
        return (0, 0);
    }
    (
        slices.from() / CLOCK_WINDOW,
        slices.to().div_ceil(CLOCK_WINDOW),
    )
}

// Replaces the bounds of the item at a place in a window, or takes them away, where they change.
fn put_bounds(
    alloc: Global,
    page: &mut Paged<Boxes>,
    window: u32,
    place: u32,
    bounds: Option<Bounds>,
) -> Result<(), Memory>
    requires window { window < length page.old }
    requires place { place < 64 }
    ensures number { OnOk result (length page.new ≡ length page.old) }
    ensures own { OnOk result (bounds_in (get_or page.new window None) place ≡ unwrap_or bounds nowhere) }
    ensures beside { OnOk result ((other : ℕ) → other < 64 → other ≢ place → bounds_in (get_or page.new window None) other ≡ bounds_in (get_or page.old window None) other) }
    ensures elsewhere { OnOk result ((other : ℕ) → other ≢ window → get_or page.new other None ≡ get_or page.old other None) }
{
    let before = page.get(window);
    if before.is_none() && bounds.is_none() {
        return Ok(());
    }
    let bounds = bounds.unwrap_or(nowhere());
    if bounds_in(before, place) == bounds {
        return Ok(());
    }
    let mut boxes = match before {
        Some(boxes) => *boxes,
        None => Boxes::empty(),
    };
    boxes.put(place, bounds);
    page.replace(window, Some(Arc::new(alloc, boxes)?))
}

// Whether a window is none from one on and before another.
fn is_outside(window: u32, others: (u32, u32)) -> bool {
    window < others.0 || window >= others.1
}

// Takes away the bounds at a place of a page in the windows of some slices, but for those from one on and before another.
fn clear(
    alloc: Global,
    page: &mut Paged<Boxes>,
    place: u32,
    slices: &Slices,
    others: (u32, u32),
) -> Result<(), Memory>
    requires full { length page.old ≡ 64 }
    requires place { place < 64 }
    ensures full { OnOk result (length page.new ≡ 64) }
    ensures beside { OnOk result ((remainder other : ℕ) → other < 64 → other ≢ place
        → bounds_in (get_or page.new remainder None) other ≡ bounds_in (get_or page.old remainder None) other) }
{
    let (first, past) = windows_of(slices);
    for window in first..past {
        if is_outside(window, others) {
            put_bounds(alloc, page, window % WINDOWS, place, None)?;
        }
    }
    Ok(())
}

// Puts the bounds of some slices at a place of a page, in their windows.
fn put_slices(
    alloc: Global,
    page: &mut Paged<Boxes>,
    place: u32,
    slices: &Slices,
) -> Result<(), Memory>
    requires full { length page.old ≡ 64 }
    requires place { place < 64 }
    ensures full { OnOk result (length page.new ≡ 64) }
    ensures own { OnOk result (IsBoxed (Some slices.now) (λ remainder. get_or page.new remainder None) place) }
    ensures beside { OnOk result ((remainder other : ℕ) → other < 64 → other ≢ place
        → bounds_in (get_or page.new remainder None) other ≡ bounds_in (get_or page.old remainder None) other) }
{
    let (first, past) = windows_of(slices);
    for window in first..past {
        let bounds = boxed(slices.rvsm(), &slices.over_window(window));
        put_bounds(alloc, page, window % WINDOWS, place, Some(bounds))?;
    }
    Ok(())
}

// Takes away the bounds at a place of a page that an item's slices had, and puts those of others, if any.
fn put_item(
    alloc: Global,
    page: &mut Paged<Boxes>,
    place: u32,
    before: Option<&Slices>,
    slices: Option<&Slices>,
) -> Result<(), Memory>
    requires full { length page.old ≡ 64 }
    requires place { place < 64 }
    ensures full { OnOk result (length page.new ≡ 64) }
    ensures own { OnOk result (IsBoxed (option_copied slices.entry) (λ remainder. get_or page.new remainder None) place) }
    ensures beside { OnOk result ((remainder other : ℕ) → other < 64 → other ≢ place
        → bounds_in (get_or page.new remainder None) other ≡ bounds_in (get_or page.old remainder None) other) }
{
    let others = match slices {
        Some(slices) => windows_of(slices),
        None => (0, 0),
    };
    if let Some(before) = before {
        clear(alloc, page, place, before, others)?;
    }
    match slices {
        Some(slices) => put_slices(alloc, page, place, slices),
        None => Ok(()),
    }
}

// A page once more; where it is absent, one without boxes.
fn share_page(alloc: Global, page: Option<&Paged<Boxes>>) -> Result<Paged<Boxes>, Memory>
    requires full { HasAllWindows (option_copied page) }
    ensures full { IfOk result (λ same. length same ≡ 64) }
    ensures same { IfOk result (λ same. (remainder : ℕ) → remainder < 64 → get_or same remainder None ≡ boxes_in (option_copied page.entry) remainder) }
{
    match page {
        Some(page) => Ok(page.share()?),
        None => Ok(Paged::make(alloc, WINDOWS)?),
    }
}

/// A page, which may be absent, with the bounds of other slices of an item at a place, or of none. The page itself stays.
pub(crate) fn with_item(
    alloc: Global,
    page: Option<&Paged<Boxes>>,
    place: u32,
    before: Option<&Slices>,
    slices: Option<&Slices>,
) -> Result<Paged<Boxes>, Memory>
    requires full { HasAllWindows (option_copied page) }
    requires place { place < 64 }
    ensures full { IfOk result (λ after. length after ≡ 64) }
    ensures own { IfOk result (λ after. IsBoxed (option_copied slices.entry) (λ remainder. get_or after remainder None) place) }
    ensures beside { IfOk result (λ after. (remainder other : ℕ) → remainder < 64 → other < 64 → other ≢ place
        → bounds_in (get_or after remainder None) other ≡ bounds_in (boxes_in (option_copied page.entry) remainder) other) }
{
    let mut after = share_page(alloc, page)?;
    put_item(alloc, &mut after, place, before, slices)?;
    Ok(after)
}
