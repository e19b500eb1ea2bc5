//! A session on a thread of its own.
ghost use Rattle.mt_serve.specs.Serving.{HasServed};

use mt_desk::Seat;
use mt_io::Duplex;
use mt_session::Outcome;
use std::marker::Model;
use std::snapshot::Snapshot;
use std::thread::{Promise, PromisedHandle};

/// What a session gives back.
#[derive(Drop)]
pub struct Back<L> {
    /// The link.
    pub link: L,
    /// The seat.
    pub seat: Seat,
    /// How the session ended.
    pub outcome: Outcome,
}

/// What a session was given. It is the promise of its thread: what it gives back follows from that as `HasServed` says.
#[derive(Drop)]
pub struct Given<L> {
    pub(crate) link: Snapshot<L>,
    pub(crate) seat: Snapshot<Seat>,
    pub(crate) has_channel: bool,
}

impl<L: Duplex> Promise<Back<L>> for Given<L> {
    ghost kept_by = { λ p r. HasServed L.Source L.Sink p.link.value p.seat.value p.has_channel r.link r.seat r.outcome };
}

/// A session that is over, as what it was given and what it gave back.
#[derive(Drop)]
pub struct Done<L: Duplex> {
    pub(crate) given: Given<L>,
    pub(crate) back: Back<L>,
}

impl<L: Duplex> Model for Done<L> {
    ghost use Rattle.mt_serve.specs.Serving.{HasServed};
    ghost use Rattle.mt_serve.specs.Sitting.{SessionRun};

    ghost Value = { SessionRun L };

    ghost view = { λ d. record {
      from = record { link = d.given.link.value; seat = d.given.seat.value; has_channel = d.given.has_channel };
      link = d.back.link;
      seat = d.back.seat;
      outcome = d.back.outcome;
    } };

    ghost invariant = { λ d. HasServed L.Source L.Sink d.given.link.value d.given.seat.value d.given.has_channel d.back.link d.back.seat d.back.outcome };
}

/// A session on a thread of its own, or one that the caller has served, as what it was given.
#[derive(Drop)]
pub struct Sitting<L: Duplex> {
    pub(crate) given: Given<L>,
    pub(crate) state: Result<PromisedHandle<Back<L>, Given<L>>, Back<L>>,
}

impl<L: Duplex> Model for Sitting<L> {
    ghost use Rattle.std.specs.Prelude.{◌≡◌, MatchResult};
    ghost use Rattle.mt_serve.specs.Serving.{HasServed};
    ghost use Rattle.mt_serve.specs.Sitting.{SessionStart};

    ghost Value = { SessionStart L };

    ghost view = { λ s. record { link = s.given.link.value; seat = s.given.seat.value; has_channel = s.given.has_channel } };

    ghost invariant = { λ s. MatchResult s.state
        (λ h. (h.promise.link.value ≡ s.given.link.value) × (h.promise.seat.value ≡ s.given.seat.value) × (h.promise.has_channel ≡ s.given.has_channel))
        (λ b. HasServed L.Source L.Sink s.given.link.value s.given.seat.value s.given.has_channel b.link b.seat b.outcome) };
}
