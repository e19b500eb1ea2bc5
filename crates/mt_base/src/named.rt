//! The names in a value are names: its types say so of each, and these functions of all. They do nothing; callers' proofs go by their contracts.
ghost use Rattle.std.specs.Prelude.{All};
ghost use Rattle.mt_base.specs.Complete.{HasNames, IsNamedClearance};
ghost use Rattle.mt_base.specs.Name.{IsFixName};

use crate::clearance::Clearance;
use crate::command::Command;
use crate::fix_name::FixName;

fn are_named(names: &[FixName])
    ensures { All IsFixName names.now }
{
    let Some((name, rest)) = names.split_first() else {
        return;
    };
    name.keeps();
    are_named(rest);
}

fn clearance_is_named(clearance: &Clearance)
    ensures { IsNamedClearance clearance.now }
{
    if let Clearance::Direct(fix) = clearance {
        fix.keeps();
    }
}

impl Command {
    /// Each name in the command is one (`HasNames`). It does nothing.
    pub fn keeps(&self)
        ensures { HasNames self.now }
    {
        match self {
            Command::Plan {
                call,
                kind,
                route,
                ..
            } => {
                call.keeps();
                kind.keeps();
                are_named(route.items());
            }
            Command::Clear {
                call,
                clearance,
                ..
            }
            | Command::Accept {
                call,
                clearance,
                ..
            }
            | Command::Tentative {
                call,
                clearance,
                ..
            } => {
                call.keeps();
                clearance_is_named(clearance);
            }
            Command::External { call, .. }
            | Command::Drop { call }
            | Command::Report { call, .. }
            | Command::Renew { call }
            | Command::Withdraw { call, .. }
            | Command::Commit { call } => {
                call.keeps();
            }
            Command::Tick { .. } => {}
        }
    }
}
