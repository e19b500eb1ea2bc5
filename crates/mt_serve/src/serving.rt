//! Sessions begun and ended.
ghost use Rattle.std.specs.Prelude.{◌≡◌, is_some};
ghost use Rattle.std.specs.Thread.{IsSync};
ghost use Rattle.mt_desk.specs.Desk.{IsSeatOfDesk};
ghost use Rattle.mt_serve.specs.Serving.{HasServed};

use crate::sitting::{Back, Done, Given, Sitting};
use mt_desk::{Desk, Seat};
use mt_io::{Duplex, Gate};
use mt_session::session;
use mt_workers::JobSender;
use std::snapshot::Snapshot;
use std::sync::Wait;
use std::thread::{Scope, Threads};

// Serves a link.
fn serve_one<L: Duplex, R: Threads + Wait + Sync, G: Gate>(
    rt: &R,
    desk: &Desk,
    seat: Seat,
    mut link: L,
    jobs: Option<JobSender>,
    gate: &G,
) -> Back<L>
    requires sync { IsSync R.row }
    requires ready { IsSeatOfDesk desk.now seat }
    ensures { HasServed L.Source L.Sink link seat (is_some jobs) result.link result.seat result.outcome }
{
    let alloc = desk.alloc();
    let hand = desk.hand(seat);
    let (hand, outcome) = match jobs {
        Some(mut sender) => session(rt, alloc, hand, &mut link, Some(&mut sender), gate),
        None => session(rt, alloc, hand, &mut link, None::<&mut JobSender>, gate),
    };
    Back {
        link,
        seat: hand.back(),
        outcome,
    }
}

/// Starts a session on a thread of its own; where none can be started, it is served here. It hands its jobs to the channel, where there is one.
pub(crate) fn begin<'s, E, L: Duplex + Send + Drop + 's, R: Threads + Wait + Sync, G: Gate + Sync>(
    scope: &Scope<'s, E>,
    rt: &'s R,
    desk: &'s Desk,
    seat: Seat,
    link: L,
    jobs: Option<JobSender>,
    gate: &'s G,
) -> Sitting<L>
    requires sync { IsSync R.row }
    requires ready { IsSeatOfDesk desk.now seat }
    ensures { result ≡ record { link = link; seat = seat; has_channel = is_some jobs } }
{
    let has_channel = jobs.is_some();
    let promise = Given {
        link: Snapshot::of(&link),
        seat: Snapshot::of(&seat),
        has_channel,
    };
    let given = Given {
        link: Snapshot::of(&link),
        seat: Snapshot::of(&seat),
        has_channel,
    };
    match scope.spawn_with(
        promise,
        move ||
            requires { IsSync R.row × IsSeatOfDesk desk.now seat }
        { serve_one(rt, desk, seat, link, jobs, gate) },
    ) {
        Ok(handle) => Sitting {
            given,
            state: Ok(handle),
        },
        Err(refused) => {
            let back = (refused.value)();
            Sitting {
                given,
                state: Err(back),
            }
        }
    }
}

/// Waits for a session.
pub(crate) fn finish<L: Duplex, R: Threads>(rt: &R, sitting: Sitting<L>) -> Done<L>
    ensures { result.from ≡ sitting }
{
    let Sitting { given, state } = sitting;
    let back = match state {
        Ok(handle) => handle.join(rt),
        Err(back) => back,
    };
    Done { given, back }
}
