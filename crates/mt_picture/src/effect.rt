//! What a command does that passes its checks.
ghost use Rattle.std.specs.Prelude.{◌≡◌, Some};
ghost use Rattle.mt_probe.specs.Shot.{Shot};
ghost use Rattle.mt_picture.specs.Private.Effects.{Does, IsOfFlight, slot_by};

use mt_base::{Command, Second};

/// What a command does that passes its checks. It is worked out once, where the command is decided.
#[derive(Clone, Copy)]
pub(crate) enum Effect {
    /// It files a flight in this slot, which is free.
    File(u32),
    /// It makes a trajectory of the flight in this slot.
    Remake(u32),
    /// It reports of the flight in this slot.
    Report(u32),
    /// It withdraws the tentative clearance of the flight in this slot.
    Withdraw(u32),
    /// It takes away the flight in this slot.
    Remove(u32),
    /// It moves the moment to this second.
    Tick(Second),
}

impl Effect {
    /// The slot of the flight that the command names; `None` where it names none that is there.
    pub(crate) fn slot(&self) -> Option<u32>
        ensures { result ≡ slot_by self.now }
    {
        match self {
            Effect::Remake(slot) => Some(*slot),
            Effect::Report(slot) => Some(*slot),
            Effect::Withdraw(slot) => Some(*slot),
            Effect::Remove(slot) => Some(*slot),
            Effect::File(_) => None,
            Effect::Tick(_) => None,
        }
    }
}

/// What a command does to the flight in a slot, which it names.
pub(crate) fn effect_in(slot: u32, command: &Command) -> Effect
    requires { IsOfFlight command.now }
    ensures slot { slot_by result ≡ Some slot }
    ensures does { (shot : Shot) → Does shot command.now result }
{
    match command {
        Command::Drop { .. } => Effect::Remove(slot),
        Command::Report { .. } => Effect::Report(slot),
        Command::Withdraw { .. } => Effect::Withdraw(slot),
        Command::Renew { .. }
        | Command::Clear { .. }
        | Command::Accept { .. }
        | Command::Tentative { .. }
        | Command::Commit { .. } => Effect::Remake(slot),
        Command::Plan { .. } | Command::External { .. } | Command::Tick { .. } => unreachable!(),
    }
}
