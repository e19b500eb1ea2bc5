//! Advice on the version that an actor has taken.
ghost use Rattle.std.specs.Prelude.{◌≡◌, ◌⊎◌, ◌≤◌, All, map, IfErr, IfOk};
ghost use Rattle.mt_probe.specs.Hits.{told_of};
ghost use Rattle.mt_write.specs.Short.{IsShortAdvised};
ghost use Rattle.mt_write.specs.declared.reply.Reply.TheVariants as replies;
ghost use Rattle.mt_lines.specs.Fit.{IsFit};
ghost use Rattle.mt_board.specs.Book.{with_all};
ghost use Rattle.mt_world.specs.Private.Sound.{IsAdvisedOf, IsKeptOf, IsUnadvisedOf, clearances_of};
ghost use Rattle.mt_world.specs.World.{IsAdviceAnswered, IsRefused, actor_of, items_from, setup_of, with_book};

use crate::centre::Centre;
use mt_base::{Callsign, Memory};
use mt_board::{Advised, No, Probed};
use mt_lines::refused;
use mt_probe::Probe;
use mt_snapshot::advise;
use mt_write::{AdviceItem, AdviceList, Reply};
use std::alloc::Global;
use std::thread::Threads;

// The clearances of some probes, each with the number that its probe gets after so many.
fn items_from(alloc: Global, count: u64, probes: &[Probe]) -> Result<AdviceList, Memory>
    ensures exact { IfOk result (λ items. items ≡ items_from count (clearances_of probes.now)) }
    ensures short { IfOk result (All IsShortAdvised) }
{
    let mut items = AdviceList::make(alloc)?;
    let mut number = count;
    for probe in probes {
        number = number.saturating_add(1);
        items.push(AdviceItem::of(probe.clearance(), number))?;
    }
    Ok(items)
}

impl Centre {
    // The advice for a flight on the snapshot that an actor has taken; each advised clearance is put in the actor's book.
    pub(crate) fn advise<R: Threads + Sync>(&mut self, rt: &R, who: u32, call: Callsign) -> Reply
        requires { who ≤ 15 }
        ensures answered { IsAdviceAnswered self.old who call result self.new ⊎ IsRefused self.old replies.Memory result self.new }
        ensures fit { IsFit result }
    {
        match self.try_all(rt, who, call) {
            Ok(
                Advised {
                    version,
                    eff,
                    probes,
                },
            ) => {
                call.keeps();
                let count = self.actors[who as usize].book.count();
                let Ok(advice) = items_from(self.alloc, count, &probes) else {
                    return Reply::Memory;
                };
                self.keep_all(who, probes);
                Reply::Advice {
                    advice,
                    call,
                    eff,
                    version,
                }
            }
            Err(no) => refused(no),
        }
    }

    // The clearances of a flight that are free on the snapshot that an actor has taken.
    fn try_all<R: Threads + Sync>(
        &self,
        rt: &R,
        who: u32,
        call: Callsign,
    ) -> Result<Advised<Probe>, No>
        requires { who ≤ 15 }
        ensures advised { IfOk result (λ a. IsAdvisedOf self.now who call a.eff a.version a.probes.items) }
        ensures kept { IfOk result (λ a. All (IsKeptOf (setup_of self.now) self.now.history) a.probes.items) }
        ensures refused { IfErr result (IsUnadvisedOf self.now who call) }
    {
        advise(rt, self.alloc, &self.actors[who as usize].taken, call)
    }

    // Puts probes in an actor's book, in order.
    fn keep_all(&mut self, who: u32, probes: Vec<Probe>)
        requires who { who ≤ 15 }
        requires kept { All (IsKeptOf (setup_of self.old) self.old.history) probes.items }
        ensures { self.new ≡ with_book self.old who (with_all (actor_of self.old who).book (map told_of probes.items)) }
    {
        self.actors[who as usize].book.put_all(probes);
    }
}
