//! Settling: new trajectories for the flights that are due.
ghost use Rattle.std.specs.Prelude.{◌≡◌, ◌⊎◌, ◌++◌, ℕ, List, IfOk, OnOk, OnErr};
ghost use Rattle.mt_base.specs.declared.command.Command.TheVariants.{Renew};
ghost use Rattle.mt_base.specs.Settled.{AreRenewed, IsPassedOver, IsRenewed, due_calls};
ghost use Rattle.mt_board.specs.Short.{AreFewCalls};
ghost use Rattle.mt_read.specs.declared.request.Request.TheVariants as requests;
ghost use Rattle.mt_lines.specs.Fit.{IsFit};
ghost use Rattle.mt_world.specs.Counted.{WereTestsOfChange, WereTestsOfSettling};
ghost use Rattle.mt_world.specs.Private.Renewed.{WereTestsOfSome};
ghost use Rattle.mt_world.specs.World.{IsSettling, IsStarved, picture_of, setup_of};

use crate::centre::Centre;
use mt_base::{Calls, Callsign, Command, Memory, Tally};
use mt_board::No;
use mt_snapshot::due;
use mt_write::Reply;

impl Centre {
    // Renews the flights that are due, and tells those that are due then.
    pub(crate) fn settle(&mut self, who: u32, tests: &mut Tally) -> Reply
        ensures answered { IsSettling self.old who result self.new ⊎ IsStarved self.old who requests.Settle result self.new }
        ensures fit { IsFit result }
        ensures tested { WereTestsOfSettling self.old who tests.old tests.new }
    {
        let Ok(calls) = self.due_now() else {
            return Reply::Memory;
        };
        if let Err(Memory) = self.renew_all(who, calls.items(), tests) {
            return Reply::Memory;
        }
        match self.due_now() {
            Ok(left) => Reply::Settled {
                left,
                version: self.version(),
            },
            Err(Memory) => Reply::Memory,
        }
    }

    // The callsigns of the flights that are due now.
    fn due_now(&self) -> Result<Calls, Memory>
        ensures exact { IfOk result (λ calls. calls ≡ due_calls (picture_of self.now).records) }
        ensures short { IfOk result AreFewCalls }
    {
        due(self.alloc, &self.picture.snapshot()?)
    }

    // Renews some flights, one after the other. Where memory is wanted, those before stay renewed.
    fn renew_all(&mut self, who: u32, calls: &[Callsign], tests: &mut Tally) -> Result<(), Memory>
        ensures kept { self.new ≡ record self.old { history = self.new.history } }
        ensures ok { OnOk result (AreRenewed (setup_of self.old) who calls.now self.old.history self.new.history) }
        ensures err { OnErr result ((done : List (List ℕ)) × (left : List (List ℕ)) × (calls.now ≡ done ++ left)
            × AreRenewed (setup_of self.old) who done self.old.history self.new.history) }
        ensures tested { WereTestsOfSome self.old who calls.now tests.old tests.new }
    {
        let Some((call, rest)) = calls.split_first() else {
            return Ok(());
        };
        self.renew(who, *call, tests)?;
        self.renew_all(who, rest, tests)
    }

    // Renews a flight, as is decided now; a renewal that is refused is passed over. Where memory is wanted, nothing changes.
    fn renew(&mut self, who: u32, call: Callsign, tests: &mut Tally) -> Result<(), Memory>
        ensures kept { self.new ≡ record self.old { history = self.new.history } }
        ensures ok { OnOk result (IsRenewed (setup_of self.old) who call self.old.history self.new.history
            ⊎ IsPassedOver (setup_of self.old) who call self.old.history self.new.history) }
        ensures err { OnErr result (self.new ≡ self.old) }
        ensures tested { WereTestsOfChange self.old (picture_of self.old) who who (Renew call) tests.old tests.new }
    {
        match self.enter(who, &Command::Renew { call }, tests) {
            Ok(_) | Err(No::Refused { .. }) => Ok(()),
            Err(No::Memory) => Err(Memory),
        }
    }
}
