//! Probes.
ghost use Rattle.std.specs.Prelude.{◌≡◌, ◌⊎◌, ◌≤◌, IfOk, IfErr, IfSome, true};
ghost use Rattle.std.specs.Thread.{IsSync};
ghost use Rattle.mt_base.specs.Bounds.{IsBoundedClearance};
ghost use Rattle.mt_base.specs.Name.{is_name};
ghost use Rattle.mt_board.specs.Probing.{IsNotProbed, IsPast, IsProbed};
ghost use Rattle.mt_board.specs.Short.{AreShortHits};
ghost use Rattle.mt_lines.specs.Fit.{AreBrief, IsFit};
ghost use Rattle.mt_write.specs.Short.{IsShortHit};
ghost use Rattle.mt_session.specs.Private.Keeping.{StaysOn};
ghost use Rattle.mt_session.specs.Served.{IsLooked, IsTriedBy};
ghost use Rattle.mt_session.specs.Session.{with_seat};

use crate::serving::Serving;
use mt_base::{Callsign, Clearance, Hit, Hits, Memory, Second};
use mt_board::{Board, No, Probed};
use mt_io::Gate;
use mt_lines::refused;
use mt_wire::Reply;
use std::alloc::Global;
use std::sync::Wait;
use std::thread::Threads;

// A hit with a flight of some callsign.
fn hit_of(with: Callsign, first: Second, last: Second) -> Hit
    requires { is_name 1 7 with ≡ true }
    ensures is { result ≡ record { with = with; first = first; last = last } }
    ensures short { IsShortHit result }
{
    Hit { with, first, last }
}

// The same hits, of each of which it is said that its line is short.
fn short_hits(alloc: Global, hits: &[Hit]) -> Result<Hits, Memory>
    requires { AreShortHits hits.now }
    ensures same { IfOk result (λ copy. copy ≡ hits.now) }
    ensures brief { IfOk result AreBrief }
{
    let mut copy = Hits::make(alloc)?;
    for hit in hits {
        copy.push(hit_of(hit.with, hit.first, hit.last))?;
    }
    Ok(copy)
}

impl<B: Board> Serving<B> {
    // Tries a clearance.
    fn what_if<R: Threads + Wait + Sync, G: Gate>(
        &mut self,
        rt: &R,
        call: Callsign,
        clearance: Clearance,
        eff: Option<Second>,
        gate: &G,
    ) -> Result<B::Probe, No>
        requires sync { IsSync R.row }
        requires clearance { IsBoundedClearance clearance }
        requires early { IfSome eff (λ second. second ≤ 10000000) }
        ensures probed { IfOk result (λ p. IsProbed self.old.session.seat self.new.session.seat call clearance eff (B.Probe.told p)) }
        ensures past { IfOk result (λ p. IsPast self.new.session.seat (B.Probe.fixed p) (B.Probe.state p) (B.Probe.told p).version) }
        ensures denied { IfErr result (IsNotProbed self.old.session.seat self.new.session.seat call clearance eff) }
        ensures kept { self.new.session ≡ with_seat self.old.session self.new.session.seat }
        ensures on { StaysOn self.old self.new }
    {
        self.board.what_if(rt, call, clearance, eff, gate)
    }

    // Tells what would follow from a clearance, and puts the probe in the book.
    pub(crate) fn probe<R: Threads + Wait + Sync, G: Gate>(
        &mut self,
        rt: &R,
        alloc: Global,
        call: Callsign,
        clearance: Clearance,
        eff: Option<Second>,
        gate: &G,
    ) -> Reply
        requires sync { IsSync R.row }
        requires clearance { IsBoundedClearance clearance }
        requires early { IfSome eff (λ second. second ≤ 10000000) }
        ensures probed { IsTriedBy self.old.session call clearance eff result self.new.session ⊎ IsLooked self.old.session result self.new.session }
        ensures on { StaysOn self.old self.new }
        ensures fit { IsFit result }
    {
        match self.what_if(rt, call, clearance, eff, gate) {
            Ok(probe) => {
                let Ok(conflicts) = short_hits(alloc, probe.hits()) else {
                    return Reply::Memory;
                };
                let (eff, version) = (probe.eff(), probe.version());
                let number = self.keep(probe);
                Reply::Probe {
                    conflicts,
                    eff,
                    probe: number,
                    version,
                }
            }
            Err(no) => refused(no),
        }
    }
}
