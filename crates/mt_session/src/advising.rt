//! Advice.
ghost use Rattle.std.specs.Prelude.{◌≡◌, ◌⊎◌, All, map, IfOk, IfErr};
ghost use Rattle.std.specs.Thread.{IsSync};
ghost use Rattle.mt_board.specs.Probing.{IsAdvised, IsNotAdvised};
ghost use Rattle.mt_lines.specs.Fit.{IsFit};
ghost use Rattle.mt_write.specs.Short.{IsShortAdvised};
ghost use Rattle.mt_board.specs.Book.{with_all};
ghost use Rattle.mt_session.specs.Private.Keeping.{ArePast, StaysOn};
ghost use Rattle.mt_session.specs.Served.{IsAdviceDenied, IsAdvisedTo, IsLooked, probe_items_from};
ghost use Rattle.mt_session.specs.Session.{with_seat};

use crate::serving::Serving;
use mt_base::{Callsign, Memory};
use mt_board::{Advised, Board, No, Probed};
use mt_io::Gate;
use mt_lines::refused;
use mt_wire::{AdviceItem, AdviceList, Reply};
use std::alloc::Global;
use std::sync::Wait;
use std::thread::Threads;

// The clearances of some probes, each with the number that its probe gets after so many.
fn items_from<P: Probed>(alloc: Global, count: u64, probes: &[P]) -> Result<AdviceList, Memory>
    ensures exact { IfOk result (λ items. items ≡ probe_items_from count (map P.told probes.now)) }
    ensures short { IfOk result (All IsShortAdvised) }
{
    let mut items = AdviceList::make(alloc)?;
    let mut number = count;
    for probe in probes {
        number = number.saturating_add(1);
        items.push(AdviceItem::of(probe.clearance(), number))?;
    }
    Ok(items)
}

impl<B: Board> Serving<B> {
    // Asks for advice.
    fn ask_advice<R: Threads + Wait + Sync, G: Gate>(
        &mut self,
        rt: &R,
        call: Callsign,
        gate: &G,
    ) -> Result<Advised<B::Probe>, No>
        requires sync { IsSync R.row }
        ensures advised { IfOk result (λ a. IsAdvised self.old.session.seat self.new.session.seat call a.eff a.version (map B.Probe.told a.probes.items)) }
        ensures past { IfOk result (λ a. ArePast B.Probe.told B.Probe.fixed B.Probe.state self.new.session.seat a.probes.items) }
        ensures denied { IfErr result (IsNotAdvised self.old.session.seat self.new.session.seat call) }
        ensures kept { self.new.session ≡ with_seat self.old.session self.new.session.seat }
        ensures on { StaysOn self.old self.new }
    {
        self.board.advise(rt, call, gate)
    }

    // Puts probes in the book, in order.
    fn keep_all(&mut self, probes: Vec<B::Probe>)
        requires { ArePast B.Probe.told B.Probe.fixed B.Probe.state self.old.session.seat probes.items }
        ensures kept { self.new.session ≡ record self.old.session { book = with_all self.old.session.book (map B.Probe.told probes.items) } }
        ensures on { StaysOn self.old self.new }
    {
        self.book.put_all(probes);
    }

    // Tells the clearances of a flight that are free of conflicts, and puts a probe of each in the book.
    pub(crate) fn advise<R: Threads + Wait + Sync, G: Gate>(
        &mut self,
        rt: &R,
        alloc: Global,
        call: Callsign,
        gate: &G,
    ) -> Reply
        requires sync { IsSync R.row }
        ensures advised { (IsAdvisedTo self.old.session call result self.new.session ⊎ IsAdviceDenied self.old.session call result self.new.session)
            ⊎ IsLooked self.old.session result self.new.session }
        ensures on { StaysOn self.old self.new }
        ensures fit { IsFit result }
    {
        match self.ask_advice(rt, call, gate) {
            Ok(
                Advised {
                    version,
                    eff,
                    probes,
                },
            ) => {
                call.keeps();
                let Ok(advice) = items_from(alloc, self.count(), &probes) else {
                    return Reply::Memory;
                };
                self.keep_all(probes);
                Reply::Advice {
                    advice,
                    call,
                    eff,
                    version,
                }
            }
            Err(no) => refused(no),
        }
    }
}
