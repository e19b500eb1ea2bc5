//! Entering a command that passes its checks.
ghost use Rattle.std.specs.Prelude.{◌≡◌, IfOk, None, Some, option_copied};
ghost use Rattle.mt_base.specs.Bounds.{IsBoundedCommand};
ghost use Rattle.mt_base.specs.Effect.{verdict_in};
ghost use Rattle.mt_probe.specs.Prepared.{IsLeftByEntry, IsSlotNamed, MakesStrand};
ghost use Rattle.mt_probe.specs.Shot.{state_in_shot as state_in};
ghost use Rattle.mt_picture.specs.Asked.{IsWithinBound, IsWithinPreps};
ghost use Rattle.mt_picture.specs.Private.Effects.{HasVerdict, IsEffectOn};
ghost use Rattle.mt_picture.specs.Private.Holding.{AddsEntry, EntersOrStops, Goes, IsPassed, entry_now, held_story};
ghost use Rattle.mt_picture.specs.Story.{IsPrepGivenFor, IsPrepFor};

use crate::effect::Effect;
use crate::entering::{Entering, file, remake, remove, report, withdraw};
use crate::held::Parts;
use crate::usable::is_usable;
use mt_base::{Command, Hit, Memory, Record, Tally, Verdict};
use mt_probe::{Prep, left_of};
use std::alloc::Global;

/// What came of a command that passes its checks.
#[derive(Clone, Copy)]
pub(crate) enum Upshot {
    /// It was entered; the verdict is that on a report.
    Entered(Option<Verdict>),
    /// It was probed, and this is its first hit: all is as it was.
    Stopped(Hit),
}

// The flight as the entry of a command leaves it. A prep of this version has it.
fn card_left(
    held: &Parts,
    alloc: Global,
    slot: Option<u32>,
    who: u32,
    command: &Command,
    prep: &Prep,
) -> Result<Record, Memory>
    requires named { IsSlotNamed held.now.snapshot command.now slot }
    requires passed { IsPassed held.now.snapshot who command.now }
    requires bounded { IsBoundedCommand command.now }
    requires prepared { IsPrepFor (held_story held.now) who command.now prep.now }
    ensures { IfOk result (IsLeftByEntry held.now.snapshot.setup (state_in held.now.snapshot) who command.now) }
{
    held.keeps();
    let snapshot = held.snapshot();
    if prep.version() == snapshot.version() {
        prep.card().copy(alloc)
    } else {
        left_of(alloc, snapshot, slot, who, command)
    }
}

// Enters a command that makes a trajectory.
fn enter_strand<'a>(
    held: &mut Parts,
    alloc: Global,
    who: u32,
    command: &'a Command,
    effect: Effect,
    prep: &'a Prep,
    tests: &mut Tally,
) -> Result<Option<Hit>, Memory>
    requires passed { IsPassed held.old.snapshot who command.now }
    requires effect { IsEffectOn held.old.snapshot command.now effect }
    requires bounded { IsBoundedCommand command.now }
    requires prepared { IsPrepFor (held_story held.old) who command.now prep.now }
    ensures entered { EntersOrStops held.old held.new who command.now result }
    ensures counted { IsWithinPreps (held_story held.old) who command.now (Some prep.now) tests.old tests.new }
{
    held.keeps();
    prep.keeps();
    let named = effect.slot();
    let card = card_left(held, alloc, named, who, command, prep)?;
    let known = is_usable(held, named, who, command, prep);
    let entering = Entering {
        who,
        command,
        prep,
        known,
    };
    match effect {
        Effect::File(slot) => file(held, alloc, slot, &entering, card, tests),
        Effect::Remake(slot) => remake(held, alloc, slot, &entering, card, tests),
        _ => unreachable!(),
    }
}

// Enters a command that makes no trajectory, and gives the verdict on a report.
fn enter_plain(
    held: &mut Parts,
    alloc: Global,
    who: u32,
    command: &Command,
    effect: Effect,
    tests: &mut Tally,
) -> Result<Option<Verdict>, Memory>
    requires passed { IsPassed held.old.snapshot who command.now }
    requires effect { IsEffectOn held.old.snapshot command.now effect }
    requires bounded { IsBoundedCommand command.now }
    requires plain { MakesStrand command.now → ⊥ }
    ensures entered { AddsEntry held.old held.new (entry_now held.old.snapshot who command.now) result }
    ensures verdict { IfOk result (λ verdict. verdict ≡ verdict_in held.old.snapshot.setup (state_in held.old.snapshot) command.now) }
    ensures counted { IsWithinBound (held_story held.old) who command.now None tests.old tests.new }
{
    held.keeps();
    match effect {
        Effect::Report(slot) => report(held, alloc, slot, who, command),
        Effect::Withdraw(slot) => {
            withdraw(held, alloc, slot, who, command)?;
            Ok(None)
        }
        Effect::Remove(slot) => {
            remove(held, alloc, slot, who, command)?;
            Ok(None)
        }
        Effect::Tick(now) => {
            held.tick(alloc, who, now, tests)?;
            Ok(None)
        }
        _ => unreachable!(),
    }
}

/// Enters a command that passes its checks, whose effect was worked out; or gives the first hit, where it was probed and has one, and leaves all as
/// it was.
pub(crate) fn enter(
    held: &mut Parts,
    alloc: Global,
    who: u32,
    command: &Command,
    effect: Effect,
    prep: Option<&Prep>,
    tests: &mut Tally,
) -> Result<Upshot, Memory>
    requires passed { IsPassed held.old.snapshot who command.now }
    requires effect { IsEffectOn held.old.snapshot command.now effect }
    requires bounded { IsBoundedCommand command.now }
    requires prepared { IsPrepGivenFor (held_story held.old) who command.now (option_copied prep) }
    ensures entered { Goes held.old held.new who command.now result }
    ensures verdict { IfOk result (HasVerdict (verdict_in held.old.snapshot.setup (state_in held.old.snapshot) command.now)) }
    ensures counted { IsWithinBound (held_story held.old) who command.now (option_copied prep.entry) tests.old tests.new }
{
    let Some(prep) = prep else {
        let verdict = enter_plain(held, alloc, who, command, effect, tests)?;
        return Ok(Upshot::Entered(verdict));
    };
    match enter_strand(held, alloc, who, command, effect, prep, tests)? {
        Some(hit) => Ok(Upshot::Stopped(hit)),
        None => Ok(Upshot::Entered(None)),
    }
}
