//! Lines that change the picture.
ghost use Rattle.std.specs.Prelude.{◌≡◌, ◌⊎◌, ◌≤◌, length, IfErr, IfOk, OnErr};
ghost use Rattle.mt_base.specs.Bounds.{IsAskedFor, IsBoundedCommand};
ghost use Rattle.mt_write.specs.declared.reply.Reply.TheVariants as replies;
ghost use Rattle.mt_lines.specs.Fit.{IsFit};
ghost use Rattle.mt_picture.specs.Story.{IsEntered, IsPrepGivenFor, IsCommandRefused as IsDenied};
ghost use Rattle.mt_world.specs.Private.Sound.{story_of};
ghost use Rattle.mt_board.specs.Book.{probe_at};
ghost use Rattle.mt_picture.specs.Asked.{IsWithinBound};
ghost use Rattle.mt_world.specs.Counted.{WereTestsOfAcceptance, WereTestsOfChange, WereTestsOfPrep};
ghost use Rattle.mt_world.specs.World.{IsAccepted, IsCommandAnswered, IsRefused, actor_of, picture_of, setup_of};

use crate::centre::Centre;
use mt_base::{Command, Entered, Refusal, Tally};
use mt_board::{No, Probed};
use mt_lines::reply_to_change;
use mt_probe::{Prep, makes_strand, prepare};
use mt_write::Reply;

impl Centre {
    // Decides a command, and enters it unless it is refused.
    pub(crate) fn change(&mut self, who: u32, command: &Command, tests: &mut Tally) -> Reply
        requires bounded { IsBoundedCommand command.now }
        requires asked { IsAskedFor command.now }
        ensures answered { IsCommandAnswered self.old who command.now result self.new ⊎ IsRefused self.old replies.Memory result self.new }
        ensures fit { IsFit result }
        ensures tested { WereTestsOfChange self.old (picture_of self.old) who who command.now tests.old tests.new }
    {
        reply_to_change(self.enter(who, command, tests))
    }

    // Enters a command, or says why not; it is prepared on the state now, where it makes a trajectory.
    pub(crate) fn enter(
        &mut self,
        who: u32,
        command: &Command,
        tests: &mut Tally,
    ) -> Result<Entered, No>
        requires bounded { IsBoundedCommand command.now }
        requires asked { IsAskedFor command.now }
        ensures entered { IfOk result (IsEntered (story_of self.old) (story_of self.new) who command.now) }
        ensures refused { IfErr result (IsDenied (story_of self.old) who command.now) }
        ensures unchanged { OnErr result (self.new ≡ self.old) }
        ensures kept { self.new ≡ record self.old { history = self.new.history } }
        ensures tested { WereTestsOfChange self.old (picture_of self.old) who who command.now tests.old tests.new }
    {
        let prep = self.prepared(who, command, tests)?;
        self.publish(who, command, &prep, tests)
    }

    // What is prepared for a command on the state now, where it makes a trajectory; or why it is refused.
    fn prepared(&self, who: u32, command: &Command, tests: &mut Tally) -> Result<Option<Prep>, No>
        requires bounded { IsBoundedCommand command.now }
        requires asked { IsAskedFor command.now }
        ensures given { IfOk result (IsPrepGivenFor (story_of self.now) who command.now) }
        ensures refused { IfErr result (IsDenied (story_of self.now) who command.now) }
        ensures tested { (tests.new ≡ tests.old) ⊎ WereTestsOfPrep (setup_of self.now) (picture_of self.now) who command.now tests.old tests.new }
    {
        if !makes_strand(command) {
            return Ok(None);
        }
        let now = self.picture.snapshot()?;
        let (tables, rules) = (now.tables(), now.rules());
        match prepare(self.alloc, &now, tables, rules, who, command, tests) {
            Ok(prep) => Ok(Some(prep)),
            Err(no) => Err(no),
        }
    }

    // Enters a command with what is prepared for it.
    fn publish(
        &mut self,
        who: u32,
        command: &Command,
        prep: &Option<Prep>,
        tests: &mut Tally,
    ) -> Result<Entered, No>
        requires bounded { IsBoundedCommand command.now }
        requires asked { IsAskedFor command.now }
        requires prepared { IsPrepGivenFor (story_of self.old) who command.now prep.now }
        ensures entered { IfOk result (IsEntered (story_of self.old) (story_of self.new) who command.now) }
        ensures refused { IfErr result (IsDenied (story_of self.old) who command.now) }
        ensures unchanged { OnErr result (self.new ≡ self.old) }
        ensures kept { self.new ≡ record self.old { history = self.new.history } }
        ensures tested { IsWithinBound (story_of self.old) who command.now prep.now tests.old tests.new }
    {
        self.picture
            .publish(self.alloc, who, command, prep.as_ref(), tests)
    }

    // A refusal at the version now.
    pub(crate) fn refused(&self, refusal: Refusal) -> Reply
        ensures answered { result ≡ replies.Refused refusal (length self.now.history) }
        ensures fit { IsFit result }
    {
        Reply::Refused {
            refusal,
            version: self.version(),
        }
    }

    // Enters a probe of an actor's book, if it is free still.
    pub(crate) fn accept(&mut self, who: u32, number: u64, tests: &mut Tally) -> Reply
        requires { who ≤ 15 }
        ensures answered { IsAccepted self.old who number result self.new ⊎ IsRefused self.old replies.Memory result self.new }
        ensures fit { IsFit result }
        ensures tested { WereTestsOfAcceptance self.old who (probe_at (actor_of self.old who).book number) tests.old tests.new }
    {
        let Some(probe) = self.actors[who as usize].book.get(number) else {
            return self.refused(Refusal::NoProbe);
        };
        if !probe.hits().is_empty() {
            return self.refused(Refusal::NotFree);
        }
        let Ok(prep) = probe.prep(self.alloc, tests) else {
            return Reply::Memory;
        };
        let command = prep.command();
        reply_to_change(
            self.picture
                .publish(self.alloc, who, command, Some(&prep), tests),
        )
    }
}
