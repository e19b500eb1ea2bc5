//! Acceptances of probes.
ghost use Rattle.std.specs.Prelude.{◌⊎◌};
ghost use Rattle.std.specs.Thread.{IsSync};
ghost use Rattle.mt_lines.specs.Fit.{IsFit};
ghost use Rattle.mt_board.specs.Book.{probe_at};
ghost use Rattle.mt_session.specs.Private.Keeping.{StaysOn};
ghost use Rattle.mt_session.specs.Served.{IsAcceptanceAnswered, IsLooked};

use crate::serving::Serving;
use mt_base::Refusal;
use mt_board::{Board, Probed};
use mt_io::Gate;
use mt_lines::reply_to_change;
use mt_wire::Reply;
use std::sync::Wait;
use std::thread::Threads;

impl<B: Board> Serving<B> {
    // Accepts the probe of a number, where it had no hits.
    pub(crate) fn accept<R: Threads + Wait + Sync, G: Gate>(
        &mut self,
        rt: &R,
        number: u64,
        gate: &G,
    ) -> Reply
        requires sync { IsSync R.row }
        ensures accepted { IsAcceptanceAnswered self.old.session (probe_at self.old.session.book number) result self.new.session
            ⊎ IsLooked self.old.session result self.new.session }
        ensures on { StaysOn self.old self.new }
        ensures fit { IsFit result }
    {
        let Some(probe) = self.book.get(number) else {
            return self.refuse_number(rt, Refusal::NoProbe);
        };
        if !probe.hits().is_empty() {
            return self.refuse_number(rt, Refusal::NotFree);
        }
        reply_to_change(self.board.accept(rt, probe, gate))
    }
}
