//! The picture that entries rebuild.
ghost use Rattle.std.specs.Prelude.{◌≡◌, ◌++◌, ◌∷◌, [], All, IfErr, IfOk, OnOk};
ghost use Rattle.std.specs.Arc.{arc_value};
ghost use Rattle.mt_base.specs.Bounds.{AreWithinBounds};
ghost use Rattle.mt_base.specs.History.{IsReplayable};
ghost use Rattle.mt_base.specs.Tables.{setup_with};
ghost use Rattle.mt_history.specs.declared.rebuilding.Wrong.TheVariants as wrongs;
ghost use Rattle.mt_history.specs.Rebuilt.{IsReadyToDecide, IsWrong};
ghost use Rattle.mt_history.specs.Private.Rebuilt.{IsWrongNext};

use crate::following::{FollowNo, follow_entry};
use mt_base::{Entries, Entry, Refusal, Rules, Tally};
use mt_memory::Memory;
use mt_picture::Picture;
use mt_tables::Tables;
use std::alloc::Global;
use std::sync::Arc;
use std::thread::Threads;

/// Why entries rebuild no picture.
#[derive(Clone, Copy, PartialEq, Eq)]
pub enum Wrong {
    /// The command of an entry is refused, on the state of the entries before it; these can be replayed.
    Illegal {
        /// The entry's place, counted from 0.
        at: u64,
        /// The refusal.
        refusal: Refusal,
    },
    /// An entry is an acceptance that names a version above its place; the entries before it can be replayed.
    Late {
        /// The entry's place, counted from 0.
        at: u64,
    },
    /// There wasn't enough memory.
    Memory,
}

impl From<Memory> for Wrong {
    ghost from_gives = { λ _ e. e ≡ wrongs.Memory };

    fn from(_: Memory) -> Wrong {
        Wrong::Memory
    }
}

impl From<FollowNo> for Wrong {
    ghost use Rattle.mt_history.specs.Rebuilt.{wrong_of};

    ghost from_gives = { λ no e. e ≡ wrong_of no };

    fn from(no: FollowNo) -> Wrong {
        match no {
            FollowNo::Late { version } => Wrong::Late { at: version },
            FollowNo::Illegal { version, refusal } => Wrong::Illegal {
                at: version,
                refusal,
            },
            FollowNo::Memory => Wrong::Memory,
        }
    }
}

// Puts an entry after the history of a picture; or says what is wrong with it there.
fn put(alloc: Global, picture: &mut Picture, entry: &Entry, tests: &mut Tally) -> Result<(), Wrong>
    requires { IsReadyToDecide entry.now }
    ensures ok { OnOk result (picture.new ≡ record { setup = picture.old.setup; history = picture.old.history ++ entry.now ∷ [] }) }
    ensures replayable { OnOk result (IsReplayable picture.old.setup picture.old.history → IsReplayable picture.new.setup picture.new.history) }
    ensures wrong { IfErr result (IsWrongNext picture.old entry.now) }
{
    match follow_entry(alloc, picture, entry, tests) {
        Ok(_) => Ok(()),
        Err(no) => Err(Wrong::from(no)),
    }
}

// Puts entries into the opening picture, in order, up to the first that is wrong.
fn put_all(
    alloc: Global,
    picture: &mut Picture,
    entries: &[Entry],
    tests: &mut Tally,
) -> Result<(), Wrong>
    requires opening { picture.old.history ≡ [] }
    requires ready { All IsReadyToDecide entries.now }
    ensures ok { OnOk result (picture.new ≡ record { setup = picture.old.setup; history = entries.now }) }
    ensures replayable { OnOk result (IsReplayable picture.old.setup entries.now) }
    ensures wrong { IfErr result (IsWrong picture.old.setup entries.now) }
{
    // (A `?` in this loop is a form that the prover has no plan for.)
    for entry in entries {
        match put(alloc, picture, entry, tests) {
            Ok(()) => {}
            Err(wrong) => return Err(wrong),
        }
    }
    Ok(())
}

/// The picture of a history of these entries, under these rules and tables, where they can be replayed; or the first place at which they
/// can't, and why. The entries go into a picture one by one, each decided on the state of those before it and entered as a command is that is
/// asked for, so what is published is what was published then. Whether the clearance of an acceptance was free on the version that it names
/// isn't tested again.
///
/// It asks that the rules and the numbers of the entries are within their bounds, and that each clearance in them says from when it holds, as
/// those do that [`read_all`](crate::read_all) gives.
pub fn rebuild<R: Threads + Sync>(
    rt: &R,
    alloc: Global,
    rules: Rules,
    tables: Arc<Tables>,
    entries: &Entries,
) -> Result<Picture, Wrong>
    requires rules { AreWithinBounds rules }
    requires ready { All IsReadyToDecide entries.now }
    ensures rebuilt { IfOk result (λ picture. picture ≡ record { setup = setup_with rules (arc_value tables); history = entries.now }) }
    ensures replayable { OnOk result (IsReplayable (setup_with rules (arc_value tables)) entries.now) }
    ensures wrong { IfErr result (IsWrong (setup_with rules (arc_value tables)) entries.now) }
{
    let mut tests = Tally::new(rt);
    let mut picture = Picture::make(alloc, rules, tables)?;
    put_all(alloc, &mut picture, entries.items(), &mut tests)?;
    Ok(picture)
}
