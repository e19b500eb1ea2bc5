//! Lines that speak of the version that an actor has taken.
ghost use Rattle.std.specs.Prelude.{◌≡◌, ◌⊎◌, ◌≤◌, length, IfErr, IfOk, IfSome};
ghost use Rattle.mt_base.specs.Bounds.{IsBoundedClearance};
ghost use Rattle.mt_base.specs.Tally.{raised};
ghost use Rattle.mt_board.specs.Book.{with_probe};
ghost use Rattle.mt_probe.specs.Hits.{told_of};
ghost use Rattle.mt_write.specs.declared.reply.Reply.TheVariants as replies;
ghost use Rattle.mt_lines.specs.Fit.{IsFit};
ghost use Rattle.mt_world.specs.Private.Sound.{IsKeptOf, IsProbeOf, IsUnprobedOf};
ghost use Rattle.mt_probe.specs.Tests.{WereAtLeast};
ghost use Rattle.mt_world.specs.Counted.{WereEnough, WereTestsOfTry};
ghost use Rattle.mt_world.specs.World.{IsGiven, IsProbeAnswered, IsRefused, actor_of, setup_of, with_all_taken, with_book};

use crate::centre::Centre;
use mt_base::{Callsign, Clearance, Second, Tally};
use mt_board::{No, Probed};
use mt_lines::refused;
use mt_probe::{Probe, what_if};
use mt_write::Reply;

impl Centre {
    // An actor takes the version now.
    pub(crate) fn take(&mut self, who: u32) -> Reply
        requires { who ≤ 15 }
        ensures answered { IsGiven (replies.Taken (length self.old.history)) (with_all_taken self.old who) result self.new
            ⊎ IsRefused self.old replies.Memory result self.new }
        ensures fit { IsFit result }
    {
        let Ok(taken) = self.picture.snapshot() else {
            return Reply::Memory;
        };
        self.actors[who as usize].taken = taken;
        Reply::Taken {
            version: self.version(),
        }
    }

    // What would follow from a clearance on the snapshot that an actor has taken; it is put in the actor's book.
    pub(crate) fn probe(
        &mut self,
        who: u32,
        call: Callsign,
        clearance: Clearance,
        eff: Option<Second>,
        tests: &mut Tally,
    ) -> Reply
        requires who { who ≤ 15 }
        requires clearance { IsBoundedClearance clearance }
        requires early { IfSome eff (λ second. second ≤ 10000000) }
        ensures answered { IsProbeAnswered self.old who call clearance eff result self.new ⊎ IsRefused self.old replies.Memory result self.new }
        ensures fit { IsFit result }
        ensures tested { WereTestsOfTry self.old who call clearance eff tests.old tests.new }
        ensures enough { WereEnough result tests.old tests.new }
    {
        match self.try_clearance(who, call, clearance, eff, tests) {
            Ok(probe) => {
                let Ok(conflicts) = probe.found().copy(self.alloc) else {
                    return Reply::Memory;
                };
                let (eff, version) = (probe.eff(), probe.version());
                let number = self.keep(who, probe);
                Reply::Probe {
                    conflicts,
                    eff,
                    probe: number,
                    version,
                }
            }
            Err(no) => refused(no),
        }
    }

    // What would follow from a clearance on the snapshot that an actor has taken.
    fn try_clearance(
        &self,
        who: u32,
        call: Callsign,
        clearance: Clearance,
        eff: Option<Second>,
        tests: &mut Tally,
    ) -> Result<Probe, No>
        requires who { who ≤ 15 }
        requires clearance { IsBoundedClearance clearance }
        requires early { IfSome eff (λ second. second ≤ 10000000) }
        ensures probe { IfOk result (IsProbeOf self.now who call clearance eff) }
        ensures kept { IfOk result (IsKeptOf (setup_of self.now) self.now.history) }
        ensures refused { IfErr result (IsUnprobedOf self.now who call clearance eff) }
        ensures tested { WereTestsOfTry self.now who call clearance eff tests.old tests.new }
        ensures enough { IfOk result (λ p. WereAtLeast (length p.hits) tests.old tests.new) }
    {
        let taken = &self.actors[who as usize].taken;
        let (tables, rules) = (taken.tables(), taken.rules());
        what_if(
            self.alloc, taken, tables, rules, call, clearance, eff, tests,
        )
    }

    // Puts a probe in an actor's book; its number.
    fn keep(&mut self, who: u32, probe: Probe) -> u64
        requires who { who ≤ 15 }
        requires kept { IsKeptOf (setup_of self.old) self.old.history probe }
        ensures kept { self.new ≡ with_book self.old who (with_probe (actor_of self.old who).book (told_of probe)) }
        ensures number { result ≡ raised (actor_of self.old who).book.count }
    {
        self.actors[who as usize].book.put(probe)
    }
}
