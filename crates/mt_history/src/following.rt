//! An entry put after the history of a picture.
ghost use Rattle.std.specs.Prelude.{◌≡◌, ◌↔◌, IfErr, IfOk, IsTrue, OnErr, OnOk, length};
ghost use Rattle.mt_base.specs.Bounds.{IsBoundedCommand};
ghost use Rattle.mt_base.specs.History.{IsInTime, IsReplayable};
ghost use Rattle.mt_picture.specs.Story.{IsEntered, IsPrepGivenFor, IsCommandRefused};
ghost use Rattle.mt_history.specs.Followed.{HasFollowed, IsNotFollowed};
ghost use Rattle.mt_history.specs.Rebuilt.{IsReadyToDecide};

use mt_base::{Command, Entered, Entry, Refusal, Tally};
use mt_board::No;
use mt_picture::Picture;
use mt_probe::{Prep, makes_strand, prepare};
use std::alloc::Global;

/// Why an entry is not followed.
#[derive(Clone, Copy, PartialEq, Eq)]
pub enum FollowNo {
    /// It is an acceptance that names a version above the one now.
    Late {
        /// The version now.
        version: u64,
    },
    /// Its command is refused, on the state of the history.
    Illegal {
        /// The version now.
        version: u64,
        /// The refusal.
        refusal: Refusal,
    },
    /// There wasn't enough memory.
    Memory,
}

// Whether a command at a place is no acceptance that names a version above it.
fn is_in_time(at: u64, command: &Command) -> bool
    ensures { IsTrue result ↔ IsInTime at command.now }
{
    match command {
        Command::Accept { probed, .. } => *probed <= at,
        _ => true,
    }
}

// What is prepared for a command on the state now, where it makes a trajectory; or why it is refused.
fn prepared(
    alloc: Global,
    picture: &Picture,
    who: u32,
    command: &Command,
    tests: &mut Tally,
) -> Result<Option<Prep>, No>
    requires { IsBoundedCommand command.now }
    ensures given { IfOk result (IsPrepGivenFor picture.now who command.now) }
    ensures refused { IfErr result (IsCommandRefused picture.now who command.now) }
{
    if !makes_strand(command) {
        return Ok(None);
    }
    let now = picture.snapshot()?;
    let (tables, rules) = (now.tables(), now.rules());
    match prepare(alloc, &now, tables, rules, who, command, tests) {
        Ok(prep) => Ok(Some(prep)),
        Err(no) => Err(no),
    }
}

// Enters a command, prepared on the state now; or says why it is refused.
fn enter(
    alloc: Global,
    picture: &mut Picture,
    who: u32,
    command: &Command,
    tests: &mut Tally,
) -> Result<Entered, No>
    requires bounded { IsBoundedCommand command.now }
    requires in_time { IsInTime (length picture.old.history) command.now }
    ensures entered { IfOk result (IsEntered picture.old picture.new who command.now) }
    ensures refused { IfErr result (IsCommandRefused picture.old who command.now) }
    ensures unchanged { OnErr result (picture.new ≡ picture.old) }
    ensures replayable { OnOk result (IsReplayable picture.old.setup picture.old.history → IsReplayable picture.new.setup picture.new.history) }
{
    let prep = prepared(alloc, picture, who, command, tests)?;
    picture.publish(alloc, who, command, prep.as_ref(), tests)
}

/// Puts an entry after the history of a picture, where it is what is decided of its command, asked for by who made it, on the state of that
/// history; or says why not, and changes nothing. An acceptance that names a version above the one now is told before any refusal. Whether its
/// clearance was free on the version that it names isn't tested again.
///
/// The command is prepared on the state now and published, so an entry costs what a command costs that is asked for. It asks that the
/// numbers of the entry are within their bounds, and that its clearance says from when it holds, as those do that
/// [`read_all`](crate::read_all) gives.
pub fn follow_entry(
    alloc: Global,
    picture: &mut Picture,
    entry: &Entry,
    tests: &mut Tally,
) -> Result<Entered, FollowNo>
    requires { IsReadyToDecide entry.now }
    ensures followed { IfOk result (HasFollowed picture.old entry.now picture.new) }
    ensures no { IfErr result (IsNotFollowed picture.old entry.now) }
    ensures unchanged { OnErr result (picture.new ≡ picture.old) }
    ensures replayable { OnOk result (IsReplayable picture.old.setup picture.old.history → IsReplayable picture.new.setup picture.new.history) }
{
    let version = picture.version();
    if !is_in_time(version, &entry.command) {
        return Err(FollowNo::Late { version });
    }
    match enter(alloc, picture, entry.who, &entry.command, tests) {
        Ok(entered) => Ok(entered),
        Err(No::Refused { refusal, .. }) => Err(FollowNo::Illegal { version, refusal }),
        Err(No::Memory) => Err(FollowNo::Memory),
    }
}
