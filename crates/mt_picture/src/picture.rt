//! The kept picture.
ghost use Rattle.std.specs.Prelude.{◌≡◌, [], All, IfErr, IfOk, OnErr, OnOk, length, option_copied, slice_get};
ghost use Rattle.std.specs.Arc.{arc_value};
ghost use Rattle.mt_base.specs.Bounds.{AreWithinBounds, IsBoundedCommand};
ghost use Rattle.mt_base.specs.Complete.{IsComplete};
ghost use Rattle.mt_base.specs.Effect.{state_of};
ghost use Rattle.mt_base.specs.History.{IsInTime, IsLegal, IsReplayable, WasFree};
ghost use Rattle.mt_base.specs.Picture.{IsPublished};
ghost use Rattle.mt_probe.specs.Shot.{state_in_shot as state_in};
ghost use Rattle.mt_picture.specs.Asked.{IsWithinBound};
ghost use Rattle.mt_picture.specs.Stamps.{AreNamedLast, AreStamped, HaveFilings};
ghost use Rattle.mt_picture.specs.Story.{IsEntered, IsPrepGivenFor, IsCommandRefused};

use crate::deciding::decide;
use crate::enter::{Upshot, enter};
use crate::held::Parts;
use mt_base::{Command, Conflict, Entered, Entry, Memory, Refusal, Rules, Second, Tally};
use mt_board::No;
use mt_probe::{Prep, Snapshot};
use mt_tables::Tables;
use std::alloc::Global;
use std::marker::Model;
use std::sync::Arc;

/// The kept picture: its history, the snapshot now, and the conflicts that are published of it.
#[derive(Drop)]
pub struct Picture {
    held: Parts,
}

impl Model for Picture {
    ghost use Rattle.mt_picture.specs.Private.Holding.{held_story};
    ghost use Rattle.mt_picture.specs.Story.{Story};

    ghost Value = { Story };

    ghost view = { λ p. held_story p.held };
}

impl Picture {
    /// The opening picture, of an empty history.
    pub fn make(alloc: Global, rules: Rules, tables: Arc<Tables>) -> Result<Picture, Memory>
        requires { AreWithinBounds rules }
        ensures { IfOk result (λ picture. picture ≡ record { setup = record { rules = rules; tables = arc_value tables }; history = [] }) }
    {
        Ok(Picture {
            held: Parts::opening(alloc, rules, tables)?,
        })
    }

    /// The snapshot now, which stands for the state of the history. Each trajectory has the version of the entry that made it, and each flight that
    /// of the one that filed it and of the last that names it. It copies no list.
    pub fn snapshot(&self) -> Result<Snapshot, Memory>
        ensures setup { IfOk result (λ shot. shot.setup ≡ self.now.setup) }
        ensures state { IfOk result (λ shot. state_in shot ≡ state_of self.now.setup self.now.history) }
        ensures stamped { IfOk result (λ shot. AreStamped self.now.setup self.now.history shot.slots) }
        ensures filed { IfOk result (λ shot. HaveFilings self.now.setup self.now.history shot.slots) }
        ensures named { IfOk result (λ shot. AreNamedLast self.now.history shot.slots) }
    {
        self.held.keeps();
        self.held.snapshot().share()
    }

    /// The version: how many entries there are.
    pub fn version(&self) -> u64
        ensures { result ≡ length self.now.history }
    {
        self.held.snapshot().version()
    }

    /// How many flights there are.
    pub fn flights(&self) -> u32
        ensures { result ≡ length (state_of self.now.setup self.now.history).records }
    {
        self.held.snapshot().flights()
    }

    /// The moment.
    pub fn now(&self) -> Second
        ensures { result ≡ (state_of self.now.setup self.now.history).now }
    {
        self.held.snapshot().now()
    }

    /// What is published: each conflict, in the window of 1,200 seconds from the moment, of two trajectories of different flights of the state
    /// of the history, and no other, once, in the order of publishing.
    pub fn published(&self) -> &[Conflict]
        ensures { IsPublished self.now.setup (state_of self.now.setup self.now.history) result.now }
    {
        self.held.published()
    }

    /// The entry at a place of the history, counted from 0; `None` exactly where there are no more entries than that.
    pub fn entry(&self, place: u64) -> Option<&Entry>
        ensures { option_copied result ≡ slice_get self.now.history place }
    {
        self.held.history().get(place as usize)
    }

    /// The history. What every picture keeps is said here too: its entries are complete.
    pub fn entries(&self) -> &[Entry]
        ensures history { result.now ≡ self.now.history }
        ensures complete { All IsComplete self.now.history }
    {
        self.held.keeps();
        self.held.history()
    }

    /// The rules are within their bounds, and each entry is complete. It does nothing.
    pub fn keeps(&self)
        ensures bounded { AreWithinBounds self.now.setup.rules }
        ensures complete { All IsComplete self.now.history }
    {
        self.rules();
        self.entries();
    }

    /// The rules.
    pub fn rules(&self) -> Rules
        ensures rules { result ≡ self.now.setup.rules }
        ensures kept { AreWithinBounds result }
    {
        *self.held.snapshot().rules()
    }

    /// The tables.
    pub fn tables(&self) -> &Tables
        ensures { result.now ≡ self.now.setup.tables }
    {
        self.held.snapshot().tables()
    }

    /// Decides a command of an actor on the state now, and enters it where it isn't refused: then the history is longer by its entry, and it is
    /// answered the version with it and, of a report, the verdict. Where it is refused, for the first reason and at the version now, or where
    /// memory is wanted, all stays as it was. The last reason is that what was probed is no longer free of conflicts: it names the first.
    ///
    /// It asks that the numbers of the command are within their bounds, and that no acceptance names a probe of a later version. A prep is given
    /// exactly where the command makes a trajectory; it is of this command, for a tentative clearance of this actor too, and its state is that of
    /// the first entries of this picture's history, as many as its version says.
    ///
    /// At most two pairs are tested for each trajectory of another flight that is near the new one. Where the prep is usable, these are only those
    /// that were made after it, and one more test is made for each that was there before and whose conflict with the new one straddles an edge of
    /// the window. A tick makes at most as many tests as pairs straddle an edge of its window; a command that makes no trajectory, or leaves none
    /// now, makes none.
    pub fn publish(
        &mut self,
        alloc: Global,
        who: u32,
        command: &Command,
        prep: Option<&Prep>,
        tests: &mut Tally,
    ) -> Result<Entered, No>
        requires bounded { IsBoundedCommand command.now }
        requires in_time { IsInTime (length self.old.history) command.now }
        requires prepared { IsPrepGivenFor self.old who command.now (option_copied prep) }
        ensures entered { IfOk result (IsEntered self.old self.new who command.now) }
        ensures refused { IfErr result (IsCommandRefused self.old who command.now) }
        ensures unchanged { OnErr result (self.new ≡ self.old) }
        ensures replayable { OnOk result (IsReplayable self.old.setup self.old.history → IsReplayable self.new.setup self.new.history) }
        ensures legal { OnOk result (IsLegal self.old.setup self.old.history → WasFree self.old.setup self.old.history command.now
            → IsLegal self.new.setup self.new.history) }
        ensures counted { IsWithinBound self.old who command.now (option_copied prep.entry) tests.old tests.new }
    {
        let snapshot = self.held.snapshot();
        let version = snapshot.version();
        let effect = match decide(snapshot, who, command) {
            Ok(effect) => effect,
            Err(refusal) => return Err(No::Refused { refusal, version }),
        };
        let verdict = match enter(&mut self.held, alloc, who, command, effect, prep, tests)? {
            Upshot::Entered(verdict) => verdict,
            Upshot::Stopped(hit) => {
                return Err(No::Refused {
                    refusal: Refusal::Stale { first: hit },
                    version,
                });
            }
        };
        Ok(Entered {
            version: self.held.snapshot().version(),
            verdict,
        })
    }
}
