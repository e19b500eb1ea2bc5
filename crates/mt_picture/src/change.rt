//! What the kept conflicts change by where a flight is put into a slot.
ghost use Rattle.std.specs.Prelude.{◌≡◌, ◌<◌, List, None, Option, Some, IfOk, IfSome, IsSome, length, option_copied, true};
ghost use Rattle.std.specs.Arc.{arc_value};
ghost use Rattle.mt_base.specs.Picture.{NamedTrajectory};
ghost use Rattle.mt_cover.specs.Sliced.{slices_of};
ghost use Rattle.mt_track.specs.Named.{named};
ghost use Rattle.mt_kept.specs.Finds.{Agree, AreFindsAt};
ghost use Rattle.mt_probe.specs.declared.flight.Flight.{Flight};
ghost use Rattle.mt_probe.specs.Prepared.{kind_made};
ghost use Rattle.mt_probe.specs.Shot.{flight_at, made_of};
ghost use Rattle.mt_picture.specs.Private.Asking.{WasAsked, WasAskedOf};
ghost use Rattle.mt_picture.specs.Private.Brought.{BringsNew, IsChangeFor};
ghost use Rattle.mt_picture.specs.Private.Places.{all_places, first_of, other_kind, place_in, place_kind, places_put, second_of};
ghost use Rattle.mt_picture.specs.Private.Stamps.{HaveStood};
ghost use Rattle.mt_picture.specs.Private.Known.{IsPreps};

use crate::candidates::candidates;
use crate::entering::Entering;
use crate::held::Parts;
use crate::places::place_of;
use mt_base::{Kind, Memory, Tally};
use mt_cover::Slices;
use mt_kept::{OpenPair, PlaceChange};
use mt_probe::{Flight, Made, kind_made};
use mt_track::Item;
use std::alloc::Global;
use std::sync::Arc;

/// What the kept conflicts change by where a flight is put into a slot.
#[derive(Drop)]
pub(crate) struct SlotChange {
    /// What comes into the places that change.
    pub(crate) changes: Vec<PlaceChange>,
    /// The pairs of these places.
    pub(crate) finds: Vec<OpenPair>,
    /// The kind of trajectory that the slot has as before, where there is one.
    pub(crate) stays: Option<Kind>,
    /// The slices of the new trajectory, where they are at hand.
    pub(crate) slices: Option<Arc<Slices>>,
}

// The kind that a trajectory hasn't.
fn other_kind(kind: Kind) -> Kind
    ensures { result ≡ other_kind kind }
{
    match kind {
        Kind::Actual => Kind::Tentative,
        Kind::Tentative => Kind::Actual,
    }
}

// What a flight has of a kind.
fn made_of(flight: &Flight, kind: Kind) -> Option<&Made>
    ensures { option_copied result ≡ made_of flight.now kind }
{
    match kind {
        Kind::Actual => Some(&flight.actual),
        Kind::Tentative => flight.mark.as_ref(),
    }
}

// The trajectory of a kind of a flight, which has one, as an item.
fn item_of(flight: &Flight, kind: Kind) -> Result<Item, Memory>
    requires { IsSome (place_kind kind (Some flight.now)) }
    ensures { IfOk result (λ item. place_kind kind (Some flight.now) ≡ Some (named item)) }
{
    let Some(made) = made_of(flight, kind) else {
        unreachable!()
    };
    let strand = Arc::try_clone(&made.strand)?;
    Ok(Item {
        call: flight.card.call,
        kind,
        strand,
    })
}

// The pairs of an item that is new in a place. What the prep found is used where it is known to be of use.
fn new_finds(
    alloc: Global,
    held: &Parts,
    place: u32,
    item: &Item,
    entering: &Entering,
    tests: &mut Tally,
) -> Result<Vec<OpenPair>, Memory>
    requires setup { entering.now.prep.now.setup ≡ held.now.snapshot.setup }
    requires call { (named item.now).call ≡ entering.now.prep.now.card.call }
    requires known { IsPreps entering.now.prep.now entering.now.known (named item.now).path }
    requires stood { HaveStood held.now.snapshot entering.now.prep.now }
    ensures counted { WasAsked held.now.snapshot entering.entry.now.prep.now entering.entry.now.known place (named item.now) tests.old tests.new }
    ensures finds { IfOk result (λ finds. (after : List (Option NamedTrajectory)) → Agree (all_places held.now.snapshot.slots) after place (named item.now)
        → AreFindsAt held.now.snapshot.setup.rules after held.now.snapshot.now place finds.items) }
{
    held.keeps();
    let snapshot = held.snapshot();
    let Entering { prep, known, .. } = *entering;
    let candidates = candidates(alloc, snapshot, held.history(), &item.strand, prep, known)?;
    held.kept().gather(alloc, place, item, &candidates, tests)
}

// The slices of the trajectory that is new, where they were made when it was prepared.
fn slices_at_hand(entering: &Entering) -> Result<Option<Arc<Slices>>, Memory>
    ensures { IfOk result (λ slices. IfSome slices (λ s. entering.now.known ≡ true
        × arc_value s ≡ slices_of entering.now.prep.now.setup.rules entering.now.prep.now.strand)) }
{
    if entering.known {
        let slices = Arc::try_clone(entering.prep.slices())?;
        return Ok(Some(slices));
    }
    Ok(None)
}

// The change for a flight of which a trajectory is new, with the pairs of that and perhaps its slices. The other place changes only where it is
// emptied.
fn slot_change(
    alloc: Global,
    held: &Parts,
    slot: u32,
    flight: &Flight,
    item: Item,
    finds: Vec<OpenPair>,
    slices: Option<Arc<Slices>>,
) -> Result<SlotChange, Memory>
    requires slot { slot < length held.now.snapshot.slots }
    requires item { place_kind item.kind (Some flight.now) ≡ Some (named item) }
    requires other { (m : NamedTrajectory) → place_kind (other_kind item.kind) (Some flight.now) ≡ Some m
        → place_kind (other_kind item.kind) (flight_at held.now.snapshot slot) ≡ Some m }
    requires finds { AreFindsAt held.now.snapshot.setup.rules (places_put held.now.snapshot slot (Some flight.now)) held.now.snapshot.now
        (place_in slot item.kind) finds.items }
    requires slices { IfSome slices (λ s. arc_value s ≡ slices_of held.now.snapshot.setup.rules (named item).path) }
    ensures change { IfOk result (IsChangeFor held.now.snapshot slot (Some flight.now)) }
    ensures finds { IfOk result (λ change. change.finds ≡ finds) }
{
    held.keeps();
    let other = other_kind(item.kind);
    let mut changes = Vec::new(alloc);
    changes.push(PlaceChange {
        place: place_of(slot, item.kind),
        item: Some(item),
    })?;
    if made_of(flight, other).is_some() {
        return Ok(SlotChange {
            changes,
            finds,
            stays: Some(other),
            slices,
        });
    }
    if held.snapshot().strand(slot, other).is_some() {
        changes.push(PlaceChange {
            place: place_of(slot, other),
            item: None,
        })?;
    }
    Ok(SlotChange {
        changes,
        finds,
        stays: None,
        slices,
    })
}

/// The change of the kept conflicts for a flight that is put into a slot, an empty one or the one that it has already, with a new trajectory
/// of the kind that a command makes; of the other kind it has what it had, or nothing. What the prep found is used where it is known to be of use.
pub(crate) fn change_for(
    alloc: Global,
    held: &Parts,
    slot: u32,
    flight: &Flight,
    entering: &Entering,
    tests: &mut Tally,
) -> Result<SlotChange, Memory>
    requires { BringsNew held.now.snapshot slot flight.now (kind_made entering.now.command.now) entering.now.prep.now entering.now.known }
    ensures change { IfOk result (IsChangeFor held.now.snapshot slot (Some flight.now)) }
    ensures finds { IfOk result (λ change. AreFindsAt held.now.snapshot.setup.rules (places_put held.now.snapshot slot (Some flight.now))
        held.now.snapshot.now (place_in slot (kind_made entering.entry.now.command.now)) change.finds.items) }
    ensures counted { (m : NamedTrajectory) → place_kind (kind_made entering.entry.now.command.now) (Some flight.now) ≡ Some m
        → WasAskedOf held.now.snapshot entering.entry.now.prep.now entering.entry.now.known m tests.old tests.new }
{
    held.keeps();
    let kind = kind_made(entering.command);
    let item = item_of(flight, kind)?;
    let finds = new_finds(alloc, held, place_of(slot, kind), &item, entering, tests)?;
    let slices = slices_at_hand(entering)?;
    slot_change(alloc, held, slot, flight, item, finds, slices)
}

/// The change of the kept conflicts for a flight whose tentative trajectory is taken away. It makes no test.
pub(crate) fn change_bare(alloc: Global, held: &Parts, slot: u32) -> Result<SlotChange, Memory>
    requires { slot < length held.now.snapshot.slots }
    ensures { IfOk result (λ change. (f : Flight) → first_of (Some f) ≡ first_of (flight_at held.now.snapshot slot) → second_of (Some f) ≡ None
        → IsChangeFor held.now.snapshot slot (Some f) change) }
{
    held.keeps();
    let mut changes = Vec::new(alloc);
    changes.push(PlaceChange {
        place: place_of(slot, Kind::Tentative),
        item: None,
    })?;
    Ok(SlotChange {
        changes,
        finds: Vec::new(alloc),
        stays: Some(Kind::Actual),
        slices: None,
    })
}

/// The change of the kept conflicts for a slot that is emptied.
pub(crate) fn change_none(alloc: Global, held: &Parts, slot: u32) -> Result<SlotChange, Memory>
    requires { slot < length held.now.snapshot.slots }
    ensures { IfOk result (IsChangeFor held.now.snapshot slot None) }
{
    held.keeps();
    let mut changes = Vec::new(alloc);
    changes.push(PlaceChange {
        place: place_of(slot, Kind::Actual),
        item: None,
    })?;
    changes.push(PlaceChange {
        place: place_of(slot, Kind::Tentative),
        item: None,
    })?;
    Ok(SlotChange {
        changes,
        finds: Vec::new(alloc),
        stays: None,
        slices: None,
    })
}
