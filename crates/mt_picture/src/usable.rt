//! Whether a prep of an earlier version is of use.
ghost use Rattle.std.specs.Prelude.{◌≡◌, false, true, is_some, option_and_then, option_map, IfSome};
ghost use Rattle.mt_base.specs.Decision.{filled};
ghost use Rattle.mt_base.specs.Picture.{flight_of};
ghost use Rattle.mt_probe.specs.Prepared.{IsSlotNamed};
ghost use Rattle.mt_probe.specs.Shot.{flight_at};
ghost use Rattle.mt_probe.specs.Shot.{state_in_shot as state_in};
ghost use Rattle.mt_picture.specs.Private.Holding.{held_story};
ghost use Rattle.mt_picture.specs.Story.{IsFlightNamedAfter, IsPrepFor, IsUsable};

use crate::held::Parts;
use mt_base::{Callsign, Command};
use mt_probe::{Prep, Snapshot};

// Whether there is a flight of that callsign, in that slot, and an entry after a version names it: by the version of the last that does.
fn is_flight_named_after(held: &Parts, slot: Option<u32>, version: u64, call: Callsign) -> bool
    requires there { IfSome slot (λ k. is_some (flight_at held.now.snapshot k) ≡ true) }
    requires flight { flight_of (state_in held.now.snapshot).records call ≡ option_map (λ f. f.card) (option_and_then (flight_at held.now.snapshot) slot) }
    ensures named { result ≡ true → IsFlightNamedAfter (held_story held.now) version call }
    ensures unnamed { result ≡ false → ¬ IsFlightNamedAfter (held_story held.now) version call }
{
    held.keeps();
    let Some(slot) = slot else {
        return false;
    };
    let Some(last) = held.snapshot().named(slot) else {
        return false;
    };
    version < last
}

// Whether a moment that a command leaves open is that of its prep.
fn is_same_moment(snapshot: &Snapshot, command: &Command, prep: &Prep) -> bool
    ensures same { result ≡ true → filled prep.now.state.now command.now ≡ filled snapshot.now.now command.now }
    ensures other { filled prep.now.state.now command.now ≡ filled snapshot.now.now command.now → result ≡ true }
{
    match command {
        Command::Clear { eff, .. } => eff.is_some() || prep.now() == snapshot.now(),
        Command::Tentative { eff, .. } => eff.is_some() || prep.now() == snapshot.now(),
        _ => true,
    }
}

/// Whether a prep is usable. It asks that the slot is that of the flight that the command names.
pub(crate) fn is_usable(
    held: &Parts,
    slot: Option<u32>,
    who: u32,
    command: &Command,
    prep: &Prep,
) -> bool
    requires named { IsSlotNamed held.now.snapshot command.now slot }
    requires prepared { IsPrepFor (held_story held.now) who command.now prep.now }
    ensures usable { result ≡ true → IsUsable (held_story held.now) command.now prep.now }
    ensures unusable { result ≡ false → ¬ IsUsable (held_story held.now) command.now prep.now }
{
    prep.keeps();
    let Some(call) = command.call() else {
        return false;
    };
    if is_flight_named_after(held, slot, prep.version(), call) {
        return false;
    }
    is_same_moment(held.snapshot(), command, prep)
}
