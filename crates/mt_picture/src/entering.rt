//! Entering a command that names a flight: what it leaves in the flight's slot.
ghost use Rattle.std.specs.Prelude.{◌≡◌, ◌<◌, ◌+◌, ◌^◌, None, Some, IfOk, length, option_and_then, option_map, false, true};
ghost use Rattle.std.specs.Arc.{arc_value};
ghost use Rattle.mt_base.specs.Bounds.{IsBoundedCommand};
ghost use Rattle.mt_base.specs.Complete.{IsComplete};
ghost use Rattle.mt_base.specs.Effect.{verdict_in};
ghost use Rattle.mt_base.specs.Picture.{NamedTrajectory};
ghost use Rattle.mt_probe.specs.Prepared.{IsSlotNamed, kind_made, path_made};
ghost use Rattle.mt_probe.specs.Shot.{flight_at, made_of};
ghost use Rattle.mt_probe.specs.Shot.{state_in_shot as state_in};
ghost use Rattle.mt_picture.specs.Private.Asking.{WasAskedFor, WasAskedOf};
ghost use Rattle.mt_picture.specs.Private.Brought.{BringsNew, IsEnterable, IsPreparedNow};
ghost use Rattle.mt_picture.specs.Private.Effects.{IsDrop};
ghost use Rattle.mt_picture.specs.Private.Entries.{IsRemaking, IsReport, IsWithdrawal, is_probed};
ghost use Rattle.mt_picture.specs.Stamps.{IsFiling};
ghost use Rattle.mt_picture.specs.Private.Holding.{AddsEntry, AddsOrStops, EntersOrStops, IsPassed, entry_now};
ghost use Rattle.mt_picture.specs.Private.Places.{place_kind};
ghost use Rattle.mt_picture.specs.Private.Putting.{IsFirstOf, IsKeptFlight, IsFlightPut, IsRemade};

use crate::change::{change_bare, change_for, change_none};
use crate::held::Parts;
use crate::hits::first_hit;
use mt_base::{Callsign, Command, Entry, Hit, Kind, Memory, Record, Tally, Verdict};
use mt_probe::{Altered, Flight, Made, Prep, altered_flight, kind_made, strand_of};
use mt_track::Strand;
use std::alloc::Global;
use std::sync::Arc;

/// A command that makes a trajectory, as it is entered.
#[derive(Clone, Copy)]
pub(crate) struct Entering<'a> {
    /// The actor.
    pub(crate) who: u32,
    /// The command.
    pub(crate) command: &'a Command,
    /// Its prep.
    pub(crate) prep: &'a Prep,
    /// Whether what the prep found is known to be of use.
    pub(crate) known: bool,
}

// The callsign of a flight.
fn callsign(flight: &Flight) -> Callsign
    ensures { result ≡ flight.now.card.call }
{
    flight.card.call
}

// Whether a command accepts what was probed.
fn is_probed(command: &Command) -> bool
    ensures { result ≡ is_probed command.now }
{
    match command {
        Command::Accept { .. } => true,
        _ => false,
    }
}

// Enters a command that leaves this flight in a slot with a new trajectory of the kind that it makes; or gives the first hit, where it was probed
// and has one, and leaves all as it was. What the prep found is used where it is known to be of use.
fn put_made(
    held: &mut Parts,
    alloc: Global,
    slot: u32,
    flight: Flight,
    entry: Entry,
    entering: &Entering,
    tests: &mut Tally,
) -> Result<Option<Hit>, Memory>
    requires counted { held.old.snapshot.version < 2 ^ 40 }
    requires put { IsFlightPut held.old.snapshot slot flight entry }
    requires complete { IsComplete entry }
    requires new { BringsNew held.old.snapshot slot flight (kind_made entering.now.command.now) entering.now.prep.now entering.now.known }
    ensures entered { AddsOrStops held.old held.new entry result }
    ensures hits { IfOk result (λ first. is_probed entering.entry.now.command.now ≡ true
        → IsFirstOf held.old.snapshot.setup (state_in held.old.snapshot) flight.card.call (arc_value flight.actual.strand) first) }
    ensures free { IfOk result (λ first. is_probed entering.entry.now.command.now ≡ false → first ≡ None) }
    ensures counted { (m : NamedTrajectory) → place_kind (kind_made entering.entry.now.command.now) (Some flight) ≡ Some m
        → WasAskedOf held.old.snapshot entering.entry.now.prep.now entering.entry.now.known m tests.old tests.new }
{
    held.keeps();
    let now = held.snapshot().now();
    let call = callsign(&flight);
    let change = change_for(alloc, held, slot, &flight, entering, tests)?;
    let probed = is_probed(entering.command);
    let first = first_hit(alloc, &change.finds, call, now, probed)?;
    if first.is_some() {
        return Ok(first);
    }
    held.put(slot, Some(flight), entry, change)?;
    Ok(None)
}

// The trajectory that a command makes of a flight: the prep's, where that is known to be of use, or a new one.
fn strand_for(
    alloc: Global,
    held: &Parts,
    entering: &Entering,
    card: &Record,
) -> Result<Arc<Strand>, Memory>
    requires prepared { IsPreparedNow held.now.snapshot entering.now card.now }
    ensures made { IfOk result (λ strand. path_made held.now.snapshot.setup card.now (kind_made entering.entry.now.command.now)
        ≡ Some (arc_value strand)) }
    ensures known { IfOk result (λ strand. entering.entry.now.known ≡ true → arc_value strand ≡ entering.entry.now.prep.now.strand) }
{
    let Entering {
        command,
        prep,
        known,
        ..
    } = *entering;
    prep.keeps();
    if known {
        Ok(Arc::try_clone(prep.strand())?)
    } else {
        strand_of(alloc, held.snapshot(), card, kind_made(command))
    }
}

// The trajectory of a kind of the flight in a slot once more, with its stamp.
fn made_again(held: &Parts, slot: u32, kind: Kind) -> Result<Option<Made>, Memory>
    ensures strand { IfOk result (λ again. option_map (λ m. arc_value m.strand) again
        ≡ option_map (λ m. arc_value m.strand) (option_and_then (λ f. made_of f kind) (flight_at held.now.snapshot slot))) }
    ensures stamp { IfOk result (λ again. option_map (λ m. m.stamp) again
        ≡ option_map (λ m. m.stamp) (option_and_then (λ f. made_of f kind) (flight_at held.now.snapshot slot))) }
{
    let snapshot = held.snapshot();
    let Some(strand) = snapshot.strand(slot, kind) else {
        return Ok(None);
    };
    let Some(stamp) = snapshot.stamp(slot, kind) else {
        return Ok(None);
    };
    let strand = Arc::try_clone(strand)?;
    Ok(Some(Made { strand, stamp }))
}

// The entry of a command.
fn entry_of(alloc: Global, held: &Parts, who: u32, command: &Command) -> Result<Entry, Memory>
    requires { IsBoundedCommand command.now }
    ensures entry { IfOk result (λ entry. entry ≡ entry_now held.now.snapshot who command.now) }
    ensures complete { IfOk result IsComplete }
{
    held.keeps();
    command.keeps();
    let command = command.filled(alloc, held.snapshot().now())?;
    Ok(Entry { who, command })
}

/// Files a flight in an empty slot.
pub(crate) fn file(
    held: &mut Parts,
    alloc: Global,
    slot: u32,
    entering: &Entering,
    card: Record,
    tests: &mut Tally,
) -> Result<Option<Hit>, Memory>
    requires slot { slot < length held.old.snapshot.slots }
    requires free { flight_at held.old.snapshot slot ≡ None }
    requires filing { IsFiling entering.now.command.now }
    requires enterable { IsEnterable held.old.snapshot entering.now card }
    ensures entered { EntersOrStops held.old held.new entering.entry.now.who entering.entry.now.command.now result }
    ensures counted { WasAskedFor held.old.snapshot entering.entry.now tests.old tests.new }
{
    held.keeps();
    let version = held.snapshot().version();
    let strand = strand_for(alloc, held, entering, &card)?;
    let entry = entry_of(alloc, held, entering.who, entering.command)?;
    let flight = Flight {
        card,
        filed: version + 1,
        named: version + 1,
        actual: Made {
            strand,
            stamp: version + 1,
        },
        mark: None,
    };
    put_made(held, alloc, slot, flight, entry, entering, tests)
}

// The flight in a slot with another record, as an entry leaves it that names it now, and with all else that it has.
fn kept_flight(held: &Parts, slot: u32, card: Record) -> Result<Flight, Memory>
    requires counted { held.now.snapshot.version < 2 ^ 40 }
    requires there { option_map (λ f. f.card.call) (flight_at held.now.snapshot slot) ≡ Some card.call }
    ensures { IfOk result (IsKeptFlight (flight_at held.now.snapshot slot) (held.now.snapshot.version + 1) card) }
{
    let snapshot = held.snapshot();
    let Some(filed) = snapshot.filed(slot) else {
        unreachable!()
    };
    let Some(actual) = made_again(held, slot, Kind::Actual)? else {
        unreachable!()
    };
    let mark = made_again(held, slot, Kind::Tentative)?;
    Ok(Flight {
        card,
        filed,
        named: snapshot.version() + 1,
        actual,
        mark,
    })
}

// The flight in a slot with a new trajectory, as a command leaves it.
fn remade(
    held: &Parts,
    slot: u32,
    command: &Command,
    card: Record,
    strand: Arc<Strand>,
) -> Result<Flight, Memory>
    requires counted { held.now.snapshot.version < 2 ^ 40 }
    requires there { option_map (λ f. f.card.call) (flight_at held.now.snapshot slot) ≡ Some card.call }
    ensures { IfOk result (IsRemade (flight_at held.now.snapshot slot) (held.now.snapshot.version + 1) command.now card (arc_value strand)) }
{
    let stamp = held.snapshot().version() + 1;
    let mut flight = kept_flight(held, slot, card)?;
    let made = Made { strand, stamp };
    match command {
        Command::Tentative { .. } => {
            flight.mark = Some(made);
            Ok(flight)
        }
        Command::Commit { .. } => {
            flight.actual = made;
            flight.mark = None;
            Ok(flight)
        }
        _ => {
            flight.actual = made;
            Ok(flight)
        }
    }
}

/// Renews, clears or marks the flight in a slot, or commits its tentative clearance; or gives the first hit, where the command was probed and
/// has one, and leaves all as it was.
pub(crate) fn remake(
    held: &mut Parts,
    alloc: Global,
    slot: u32,
    entering: &Entering,
    card: Record,
    tests: &mut Tally,
) -> Result<Option<Hit>, Memory>
    requires there { option_map (λ f. f.card.call) (flight_at held.old.snapshot slot) ≡ Some card.call }
    requires remaking { IsRemaking entering.now.command.now }
    requires enterable { IsEnterable held.old.snapshot entering.now card }
    ensures entered { EntersOrStops held.old held.new entering.entry.now.who entering.entry.now.command.now result }
    ensures counted { WasAskedFor held.old.snapshot entering.entry.now tests.old tests.new }
{
    held.keeps();
    let strand = strand_for(alloc, held, entering, &card)?;
    let entry = entry_of(alloc, held, entering.who, entering.command)?;
    let flight = remade(held, slot, entering.command, card, strand)?;
    put_made(held, alloc, slot, flight, entry, entering, tests)
}

/// Enters the report of the flight in a slot, and gives the verdict on it.
pub(crate) fn report(
    held: &mut Parts,
    alloc: Global,
    slot: u32,
    who: u32,
    command: &Command,
) -> Result<Option<Verdict>, Memory>
    requires passed { IsPassed held.old.snapshot who command.now }
    requires named { IsSlotNamed held.old.snapshot command.now (Some slot) }
    requires reports { IsReport command.now }
    requires bounded { IsBoundedCommand command.now }
    ensures entered { AddsEntry held.old held.new (entry_now held.old.snapshot who command.now) result }
    ensures verdict { IfOk result (λ verdict. verdict ≡ verdict_in held.old.snapshot.setup (state_in held.old.snapshot) command.now) }
{
    held.keeps();
    let Altered { card, verdict } = altered_flight(alloc, held.snapshot(), slot, who, command)?;
    let flight = kept_flight(held, slot, card)?;
    let entry = entry_of(alloc, held, who, command)?;
    held.put_card(slot, flight, entry)?;
    Ok(verdict)
}

/// Withdraws the tentative clearance of the flight in a slot.
pub(crate) fn withdraw(
    held: &mut Parts,
    alloc: Global,
    slot: u32,
    who: u32,
    command: &Command,
) -> Result<(), Memory>
    requires passed { IsPassed held.old.snapshot who command.now }
    requires named { IsSlotNamed held.old.snapshot command.now (Some slot) }
    requires withdraws { IsWithdrawal command.now }
    requires bounded { IsBoundedCommand command.now }
    ensures { AddsEntry held.old held.new (entry_now held.old.snapshot who command.now) result }
{
    held.keeps();
    let card = altered_flight(alloc, held.snapshot(), slot, who, command)?.card;
    let mut flight = kept_flight(held, slot, card)?;
    flight.mark = None;
    let entry = entry_of(alloc, held, who, command)?;
    let change = change_bare(alloc, held, slot)?;
    held.put(slot, Some(flight), entry, change)
}

/// Takes away the flight in a slot.
pub(crate) fn remove(
    held: &mut Parts,
    alloc: Global,
    slot: u32,
    who: u32,
    command: &Command,
) -> Result<(), Memory>
    requires passed { IsPassed held.old.snapshot who command.now }
    requires named { IsSlotNamed held.old.snapshot command.now (Some slot) }
    requires drops { IsDrop command.now }
    requires bounded { IsBoundedCommand command.now }
    ensures { AddsEntry held.old held.new (entry_now held.old.snapshot who command.now) result }
{
    held.keeps();
    let entry = entry_of(alloc, held, who, command)?;
    let change = change_none(alloc, held, slot)?;
    held.put(slot, None, entry, change)
}
