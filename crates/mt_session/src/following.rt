//! What follows the reply to a report.
ghost use Rattle.std.specs.Prelude.{◌≡◌, Option};
ghost use Rattle.std.specs.Thread.{IsSync};
ghost use Rattle.mt_session.specs.Following.{IsRenewalDone, due_if, reported};
ghost use Rattle.mt_session.specs.Private.Keeping.{StaysOn};

use crate::serving::Serving;
use mt_base::{Callsign, Command, Verdict};
use mt_board::Board;
use mt_io::Gate;
use mt_workers::{Job, Outbox};
use std::sync::Wait;
use std::thread::Threads;

/// The flight that a command reports.
pub(crate) fn reported(command: &Command) -> Option<Callsign>
    ensures { result ≡ reported command.now }
{
    match command {
        Command::Report { call, .. } => Some(*call),
        _ => None,
    }
}

/// It, where the verdict has a flag.
pub(crate) fn due_if(call: Option<Callsign>, verdict: Option<Verdict>) -> Option<Callsign>
    ensures { result ≡ due_if call verdict }
{
    match verdict {
        Some(verdict) if verdict.is_flagged() => call,
        _ => None,
    }
}

impl<B: Board> Serving<B> {
    // Hands a job to the outbox, where there is one. A job that comes back is done here.
    pub(crate) fn follow<R: Threads + Wait + Sync, O: Outbox, G: Gate>(
        &mut self,
        rt: &R,
        job: Option<Callsign>,
        jobs: &mut O,
        gate: &G,
    )
        requires sync { IsSync R.row }
        ensures done { IsRenewalDone job (record { session = self.old.session; jobs = O.jobs jobs.old }) (record { session = self.new.session; jobs = O.jobs jobs.new }) }
        ensures on { StaysOn self.old self.new }
    {
        let Some(call) = job else {
            return;
        };
        if let Err(job) = jobs.hand(rt, Job { call }) {
            let _renewed = self.change(rt, Command::Renew { call: job.call }, gate);
        }
    }
}
