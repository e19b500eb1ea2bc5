//! Workers begun and ended.
ghost use Rattle.std.specs.Prelude.{◌≡◌, ◌≤◌, [], ◌++◌, All, false, length, map, true};
ghost use Rattle.std.specs.Thread.{IsSync};
ghost use Rattle.std.specs.VecDeque.{deque_len, deque_capacity};
ghost use Rattle.mt_desk.specs.Desk.{IsSeatOfDesk};
ghost use Rattle.mt_serve.specs.Private.Working.{begun_as, seats_begun, started_of};
ghost use Rattle.mt_serve.specs.Working.{HasWorkedInSeat};

use crate::worked::{Post, Rested, Shift, Working};
use mt_desk::{Desk, Seat};
use mt_io::Gate;
use mt_workers::{JobReceiver, work};
use std::collections::VecDeque;
use std::snapshot::Snapshot;
use std::sync::Wait;
use std::sync::atomic::{AtomicU64, Ordering};
use std::thread::{Scope, Threads};

// Works until no job will come; where its place is the one that is left out, it gives its seat back at once.
fn work_at<R: Threads + Wait + Sync, G: Gate>(
    rt: &R,
    desk: &Desk,
    seat: Seat,
    jobs: JobReceiver,
    place: u64,
    left_out: &AtomicU64,
    gate: &G,
) -> Shift
    requires sync { IsSync R.row }
    requires ready { IsSeatOfDesk desk.now seat }
    ensures seat { HasWorkedInSeat seat result.seat }
    ensures worked { result.left_out ≡ false → result.jobs ≡ true }
{
    if left_out.load(Ordering::SeqCst) == place {
        return Shift {
            seat,
            jobs,
            left_out: true,
        };
    }
    let (seat, jobs) = work_in(rt, desk, seat, jobs, gate);
    Shift {
        seat,
        jobs,
        left_out: false,
    }
}

// Works in a seat until no job will come, and gives the seat and the end of the channel back.
fn work_in<R: Threads + Wait + Sync, G: Gate>(
    rt: &R,
    desk: &Desk,
    seat: Seat,
    jobs: JobReceiver,
    gate: &G,
) -> (Seat, JobReceiver)
    requires sync { IsSync R.row }
    requires ready { IsSeatOfDesk desk.now seat }
    ensures seat { HasWorkedInSeat seat result.0 }
    ensures over { result.1 ≡ true }
{
    let (hand, jobs) = work(rt, desk.hand(seat), jobs, gate);
    (hand.back(), jobs)
}

// Starts a worker on a thread of its own. Where none can be started it is left out, and it alone.
fn begin_work<'s, E, R: Threads + Wait + Sync, G: Gate + Sync>(
    scope: &Scope<'s, E>,
    rt: &'s R,
    desk: &'s Desk,
    seat: Seat,
    jobs: JobReceiver,
    place: u64,
    left_out: &'s AtomicU64,
    gate: &'s G,
) -> Working
    requires sync { IsSync R.row }
    requires ready { IsSeatOfDesk desk.now seat }
    ensures { result.seat ≡ seat }
{
    let promise = Post {
        seat: Snapshot::of(&seat),
    };
    let given = Post {
        seat: Snapshot::of(&seat),
    };
    match scope.spawn_with(
        promise,
        move ||
            requires { IsSync R.row × IsSeatOfDesk desk.now seat }
        { work_at(rt, desk, seat, jobs, place, left_out, gate) },
    ) {
        Ok(handle) => Working {
            given,
            state: Ok(handle),
        },
        Err(refused) => {
            // Its closure has the seat, and gives it back at once. No other worker has this place, so none that runs takes it for its own.
            left_out.store(place, Ordering::SeqCst);
            let shift = (refused.value)();
            Working {
                given,
                state: Err(shift.seat),
            }
        }
    }
}

// Waits for a worker. The jobs of one that had a thread are done then: were it left out, they would be done here.
fn rest<R: Threads + Wait + Sync, G: Gate>(
    rt: &R,
    desk: &Desk,
    gate: &G,
    working: Working,
) -> Rested
    requires sync { IsSync R.row }
    requires ready { IsSeatOfDesk desk.now working.seat }
    ensures { begun_as result ≡ working }
{
    let Working { given, state } = working;
    match state {
        Ok(handle) => {
            let shift = handle.join(rt);
            let (seat, jobs) = if shift.left_out {
                work_in(rt, desk, shift.seat, shift.jobs, gate)
            } else {
                (shift.seat, shift.jobs)
            };
            Rested {
                given,
                seat,
                jobs: Some(jobs),
            }
        }
        Err(seat) => Rested {
            given,
            seat,
            jobs: None,
        },
    }
}

/// Starts a worker for each receiver, with the next seat. Says for how many a thread was started.
pub(crate) fn begin_all<'s, E, R: Threads + Wait + Sync, G: Gate + Sync>(
    scope: &Scope<'s, E>,
    rt: &'s R,
    desk: &'s Desk,
    left_out: &'s AtomicU64,
    gate: &'s G,
    seats: &mut VecDeque<Seat>,
    mut receivers: VecDeque<JobReceiver>,
    workings: &mut VecDeque<Working>,
) -> u64
    requires sync { IsSync R.row }
    requires ready { All (IsSeatOfDesk desk.now) seats.old.items }
    requires room { deque_len seats.old ≤ deque_capacity workings.old }
    requires none { workings.old.items ≡ [] }
    ensures begun { seats.old.items ≡ seats_begun workings.new.items ++ seats.new.items }
    ensures ready { All (IsSeatOfDesk desk.now) seats.new.items }
    ensures started { result ≡ started_of workings.new.items }
    ensures few { length workings.new.items ≤ deque_len seats.old }
{
    let mut place = 0;
    let mut started = 0;
    while let Some(seat) = seats.pop_front() {
        let Some(jobs) = receivers.pop_front() else {
            seats.push_front_reserved(seat);
            return started;
        };
        let working = begin_work(scope, rt, desk, seat, jobs, place, left_out, gate);
        if working.is_started() {
            started += 1;
        }
        workings.push_back_reserved(working);
        place += 1;
    }
    started
}

/// Waits for all workers, in order.
pub(crate) fn rest_all<R: Threads + Wait + Sync, G: Gate>(
    rt: &R,
    desk: &Desk,
    gate: &G,
    mut workings: VecDeque<Working>,
    resteds: &mut VecDeque<Rested>,
)
    requires sync { IsSync R.row }
    requires ready { All (λ w. IsSeatOfDesk desk.now w.seat) workings.items }
    requires room { deque_len workings ≤ deque_capacity resteds.old }
    requires none { resteds.old.items ≡ [] }
    ensures { map begun_as resteds.new.items ≡ workings.items }
{
    while let Some(working) = workings.pop_front() {
        let rested = rest(rt, desk, gate, working);
        resteds.push_back_reserved(rested);
    }
}
