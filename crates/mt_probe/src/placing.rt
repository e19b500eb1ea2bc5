//! The slices of trajectories in a table.
ghost use Rattle.std.specs.Prelude.{◌≡◌, ◌<◌, ◌+◌, ◌*◌, None, Some, IfOk, IfSome, get_or, length, option_copied, slice_set, true};
ghost use Rattle.std.specs.Arc.{arc_value};
ghost use Rattle.mt_base.specs.declared.conflict.Kind.TheVariants.{Actual, Tentative};
ghost use Rattle.mt_base.specs.Bounds.{AreWithinBounds};
ghost use Rattle.mt_cover.specs.Sliced.{slices_of};
ghost use Rattle.mt_track.specs.Laid.{IsStrand};
ghost use Rattle.mt_probe.specs.Private.Boxed.{AreLaid, AreSlicesOf, HasSlicesOf, slices_made, table_with};
ghost use Rattle.mt_probe.specs.Putting.{made_beside};

use crate::flight::{Flight, Made};
use mt_base::{Kind, Memory, Rules};
use mt_cover::{Slices, slices};
use mt_meet::SliceTable;
use mt_track::Strand;
use std::alloc::Global;
use std::sync::Arc;

// The slices of a strand, where they are given or else made. What every strand keeps is said too.
fn strand_slices(
    alloc: Global,
    rules: &Rules,
    strand: &Strand,
    given: Option<Arc<Slices>>,
) -> Result<Arc<Slices>, Memory>
    requires rules { AreWithinBounds rules.now }
    requires given { IfSome given (λ s. arc_value s ≡ slices_of rules.now strand.now) }
    ensures slices { IfOk result (λ s. arc_value s ≡ slices_of rules.now strand.now) }
    ensures laid { IsStrand strand.now }
{
    strand.keeps();
    match given {
        Some(given) => Ok(given),
        None => Ok(Arc::new(alloc, slices(alloc, strand, rules)?)?),
    }
}

// Slices that are given, for the trajectory that a flight flies and for its tentative one: they are those of the one that was made.
fn shared_out(
    stays: Option<Kind>,
    given: Option<Arc<Slices>>,
) -> (Option<Arc<Slices>>, Option<Arc<Slices>>)
    ensures flown { IfSome result.0 (λ s. (given ≡ Some s) × (made_beside stays ≡ Actual)) }
    ensures marked { IfSome result.1 (λ s. (given ≡ Some s) × (made_beside stays ≡ Tentative)) }
{
    match stays {
        Some(Kind::Actual) => (None, given),
        _ => (given, None),
    }
}

// Whether it is that kind of trajectory that stays.
fn is_kept(stays: Option<Kind>, kind: Kind) -> bool
    ensures { result ≡ true → stays ≡ Some kind }
{
    match stays {
        Some(other) => other == kind,
        None => false,
    }
}

// The table with the slices of a trajectory at an item, or with none. Where these stand there, the table stays. They may be given.
fn with_made(
    alloc: Global,
    rules: &Rules,
    table: &SliceTable,
    item: u32,
    made: Option<&Made>,
    stays: bool,
    given: Option<Arc<Slices>>,
) -> Result<SliceTable, Memory>
    requires rules { AreWithinBounds rules.now }
    requires inside { item < length table.now }
    requires kept { stays ≡ true → get_or table.now item None ≡ slices_made rules.now (option_copied made) }
    requires given { IfSome given (λ s. Some (arc_value s) ≡ slices_made rules.now (option_copied made)) }
    ensures table { IfOk result (λ after. after ≡ slice_set table.now item (slices_made rules.now (option_copied made.entry))) }
    ensures laid { IfOk result (λ after. IfSome (option_copied made.entry) (λ m. IsStrand (arc_value m.strand))) }
{
    let Some(made) = made else {
        return table.set(item, None);
    };
    if stays {
        made.strand.keeps();
        return table.share();
    }
    let slices = strand_slices(alloc, rules, &made.strand, given)?;
    table.set(item, Some(slices))
}

// The table with the slices of a flight at a place, where those of one kind may stay. Those of the kind that was made may be given.
fn with_flight(
    alloc: Global,
    rules: &Rules,
    table: &SliceTable,
    slot: u32,
    flight: &Flight,
    stays: Option<Kind>,
    slices: Option<Arc<Slices>>,
) -> Result<SliceTable, Memory>
    requires rules { AreWithinBounds rules.now }
    requires few { slot < 1024 }
    requires inside { 2 * slot + 1 < length table.now }
    requires kept { IfSome stays (HasSlicesOf rules.now table.now slot (Some flight.now)) }
    requires made { IfSome slices (λ s. AreSlicesOf rules.now (made_beside stays) (Some flight.now) (arc_value s)) }
    ensures table { IfOk result (λ after. after ≡ table_with rules.now slot (Some flight.now) table.now) }
    ensures laid { IfOk result (λ after. AreLaid flight.now) }
{
    let (flown, marked) = shared_out(stays, slices);
    let kept = is_kept(stays, Kind::Actual);
    let after = with_made(
        alloc,
        rules,
        table,
        2 * slot,
        Some(&flight.actual),
        kept,
        flown,
    )?;
    let kept = is_kept(stays, Kind::Tentative);
    with_made(
        alloc,
        rules,
        &after,
        2 * slot + 1,
        flight.mark.as_ref(),
        kept,
        marked,
    )
}

/// The table with the slices of what is put at a place in the stead of those of what was there. Those of one kind may be said to stay, and
/// those of the kind that was made may be given.
pub(crate) fn moved(
    alloc: Global,
    rules: &Rules,
    table: &SliceTable,
    slot: u32,
    new: Option<&Flight>,
    stays: Option<Kind>,
    slices: Option<Arc<Slices>>,
) -> Result<SliceTable, Memory>
    requires rules { AreWithinBounds rules.now }
    requires few { slot < 1024 }
    requires inside { 2 * slot + 1 < length table.now }
    requires kept { IfSome stays (HasSlicesOf rules.now table.now slot (option_copied new)) }
    requires made { IfSome slices (λ s. AreSlicesOf rules.now (made_beside stays) (option_copied new) (arc_value s)) }
    ensures table { IfOk result (λ after. after ≡ table_with rules.now slot (option_copied new.entry) table.now) }
    ensures laid { IfOk result (λ after. IfSome (option_copied new.entry) AreLaid) }
{
    match new {
        Some(flight) => with_flight(alloc, rules, table, slot, flight, stays, slices),
        None => table.set(2 * slot, None)?.set(2 * slot + 1, None),
    }
}
