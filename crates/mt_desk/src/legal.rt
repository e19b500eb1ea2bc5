//! The value behind a desk's turn.
ghost use Rattle.std.specs.Prelude.{◌≡◌, ◌-◌, [], drop, length, take, IfOk, IfErr, OnErr, option_copied};
ghost use Rattle.mt_base.specs.Effect.{state_of};
ghost use Rattle.mt_base.specs.History.{IsInTime, WasFree};
ghost use Rattle.mt_base.specs.Picture.{IsPublished};
ghost use Rattle.mt_change.specs.Altered.{IsBoundedBesides};
ghost use Rattle.mt_picture.specs.Story.{IsEntered, IsPrepGivenFor, IsCommandRefused};
ghost use Rattle.mt_probe.specs.Shot.{state_in_shot as state_in};
ghost use Rattle.mt_desk.specs.Private.Taken.{IsLegalStory};

use crate::home::Fixed;
use mt_base::{Command, Conflicts, Entered, Entries, Entry, Memory, Tally};
use mt_board::No;
use mt_picture::Picture;
use mt_probe::{Prep, Snapshot};
use mt_turn::Recorded;
use std::alloc::Global;
use std::marker::Model;

/// A kept picture whose history is legal, by rules that are within their bounds. What it publishes is, at every version, the conflicts of the
/// state of that history: `Picture::published` says so of each picture, so also of this one whenever a seat leaves the turn.
#[derive(Drop)]
pub struct Legal {
    picture: Picture,
}

impl Model for Legal {
    ghost use Rattle.mt_picture.specs.Story.{Story};
    ghost use Rattle.mt_desk.specs.Private.Taken.{IsLegalStory};

    ghost Value = { Story };

    ghost view = { λ l. l.picture };

    ghost invariant = { λ l. IsLegalStory l.picture };
}

impl Recorded for Legal {
    type Entry = Entry;

    type Fixed = Fixed;

    ghost history = { λ l. l.history };

    ghost number = { λ e. e.who };

    ghost fixed = { λ l. l.setup };

    fn count(&self) -> u64 {
        self.picture.version()
    }
}

impl Legal {
    // A picture without entries.
    pub(crate) fn of(picture: Picture) -> Legal
        requires { picture.history ≡ [] }
        ensures { result ≡ picture }
    {
        picture.keeps();
        Legal { picture }
    }

    // The picture.
    pub(crate) fn into_picture(self) -> Picture
        ensures same { result ≡ self }
        ensures kept { IsLegalStory result }
    {
        let Legal { picture } = self;
        picture
    }

    // The number of entries. What the value keeps is said here too.
    pub(crate) fn version(&self) -> u64
        ensures version { result ≡ length self.now.history }
        ensures kept { IsLegalStory self.now }
    {
        self.picture.version()
    }

    // The history is legal. It does nothing.
    pub(crate) fn keeps(&self)
        ensures { IsLegalStory self.now }
    {
        self.version();
    }

    // The snapshot now.
    pub(crate) fn snapshot(&self) -> Result<Snapshot, Memory>
        ensures setup { IfOk result (λ shot. shot.setup ≡ self.now.setup) }
        ensures state { IfOk result (λ shot. state_in shot ≡ state_of self.now.setup self.now.history) }
    {
        self.picture.snapshot()
    }

    // What is published, as it is kept.
    pub(crate) fn published(&self, alloc: Global) -> Result<Conflicts, Memory>
        ensures { IfOk result (IsPublished self.now.setup (state_of self.now.setup self.now.history)) }
    {
        Conflicts::of_items(alloc, self.picture.published())
    }

    // The entries from number `from` up to number `to`, without it.
    pub(crate) fn part(&self, alloc: Global, from: u64, to: u64) -> Result<Entries, Memory>
        ensures { IfOk result (λ part. part ≡ take (to - from) (drop from self.now.history)) }
    {
        Entries::part(alloc, self.picture.entries(), from, to)
    }

    // Decides a command of a seat, and enters it unless it is refused. An acceptance is to name a version that is none of the future, where it
    // was free.
    pub(crate) fn publish(
        &mut self,
        alloc: Global,
        who: u32,
        command: &Command,
        prep: Option<&Prep>,
        tests: &mut Tally,
    ) -> Result<Entered, No>
        requires bounded { IsBoundedBesides command.now }
        requires in_time { IsInTime (length self.old.history) command.now }
        requires free { WasFree self.old.setup self.old.history command.now }
        requires prepared { IsPrepGivenFor self.old who command.now (option_copied prep) }
        ensures entered { IfOk result (IsEntered self.old self.new who command.now) }
        ensures refused { IfErr result (IsCommandRefused self.old who command.now) }
        ensures unchanged { OnErr result (self.new ≡ self.old) }
    {
        self.picture.publish(alloc, who, command, prep, tests)
    }
}
