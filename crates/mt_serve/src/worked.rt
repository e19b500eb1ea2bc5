//! A worker on a thread of its own.
ghost use Rattle.std.specs.Prelude.{◌≡◌, false, true};
ghost use Rattle.std.specs.Result.{is_ok};
ghost use Rattle.mt_serve.specs.Working.{HasWorkedInSeat};

use mt_desk::Seat;
use mt_workers::JobReceiver;
use std::marker::Model;
use std::snapshot::Snapshot;
use std::thread::{Promise, PromisedHandle};

/// What a worker gives back: its seat, its end of the channel, and whether it was left out.
#[derive(Drop)]
pub struct Shift {
    pub(crate) seat: Seat,
    pub(crate) jobs: JobReceiver,
    pub(crate) left_out: bool,
}

/// What a worker was given. It is the promise of its thread: the seat that it gives back follows from that as `HasWorkedInSeat` says, and unless it
/// was left out it worked until no job would come.
#[derive(Drop)]
pub struct Post {
    pub(crate) seat: Snapshot<Seat>,
}

impl Promise<Shift> for Post {
    ghost kept_by = { λ p r. HasWorkedInSeat p.seat.value r.seat × (r.left_out ≡ false → r.jobs ≡ true) };
}

/// A worker on a thread of its own, or one for which none could be started, as the seat that it was given.
#[derive(Drop)]
pub struct Working {
    pub(crate) given: Post,
    pub(crate) state: Result<PromisedHandle<Shift, Post>, Seat>,
}

impl Working {
    /// Whether a thread was started for it.
    pub(crate) fn is_started(&self) -> bool
        ensures { result ≡ self.now.is_started }
    {
        self.state.is_ok()
    }
}

impl Model for Working {
    ghost use Rattle.std.specs.Prelude.{◌≡◌, MatchResult};
    ghost use Rattle.std.specs.Result.{is_ok};
    ghost use Rattle.mt_serve.specs.Private.Working.{Begun};
    ghost use Rattle.mt_serve.specs.Working.{HasWorkedInSeat};

    ghost Value = { Begun };

    ghost view = { λ s. record { seat = s.given.seat.value; is_started = is_ok s.state } };

    ghost invariant = { λ s. MatchResult s.state (λ h. h.promise.seat.value ≡ s.given.seat.value) (λ b. HasWorkedInSeat s.given.seat.value b) };
}

/// A worker that is over: the seat that it was given, the one that it gave back, and, where a thread was started for it, its end of the channel,
/// which has said that no job will come.
#[derive(Drop)]
pub struct Rested {
    pub(crate) given: Post,
    pub(crate) seat: Seat,
    pub(crate) jobs: Option<JobReceiver>,
}

impl Model for Rested {
    ghost use Rattle.std.specs.Prelude.{◌≡◌, IfSome, is_some, true};
    ghost use Rattle.mt_serve.specs.Working.{HasWorkedInSeat, Worked};

    ghost Value = { Worked };

    ghost view = { λ d. record { from = d.given.seat.value; seat = d.seat; has_worked = is_some d.jobs } };

    ghost invariant = { λ d. HasWorkedInSeat d.given.seat.value d.seat × IfSome d.jobs (λ jobs. jobs ≡ true) };
}
