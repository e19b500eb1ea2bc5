//! What is decided of a command on a snapshot.
ghost use Rattle.std.specs.Prelude.{◌≡◌, Err, IfErr, IfOk};
ghost use Rattle.mt_base.specs.Checks.{judged};
ghost use Rattle.mt_base.specs.Decision.{checks, look_at};
ghost use Rattle.mt_probe.specs.Shot.{state_in_shot as state_in};
ghost use Rattle.mt_picture.specs.Private.Effects.{IsEffectOn};
ghost use Rattle.mt_picture.specs.Private.Holding.{IsPassed};

use crate::effect::{Effect, effect_in};
use mt_base::{Command, Refusal};
use mt_probe::{Snapshot, judge_on, slot_named};

/// What an actor's command does on a snapshot, or its first refusal, but for one that was probed and is no longer free.
pub(crate) fn decide(snapshot: &Snapshot, who: u32, command: &Command) -> Result<Effect, Refusal>
    ensures passed { IfOk result (λ effect. IsPassed snapshot.now who command.now) }
    ensures effect { IfOk result (IsEffectOn snapshot.now command.now) }
    ensures refused { IfErr result (λ refusal. judged (checks snapshot.now.setup (look_at (state_in snapshot.now) command.now) who command.now) (tt {0})
        ≡ Err refusal) }
{
    snapshot.keeps();
    let slot = slot_named(snapshot, command);
    let (held, entries) = (snapshot.flights(), snapshot.version());
    judge_on(snapshot, slot, who, command, held, entries)?;
    match command {
        Command::Plan { .. } | Command::External { .. } => {
            let Some(free) = snapshot.free() else {
                unreachable!()
            };
            Ok(Effect::File(free))
        }
        Command::Tick { now } => Ok(Effect::Tick(*now)),
        _ => {
            let Some(slot) = slot else { unreachable!() };
            Ok(effect_in(slot, command))
        }
    }
}
