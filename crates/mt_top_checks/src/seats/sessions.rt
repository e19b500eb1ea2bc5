//! One session over a link in memory and a seat of a desk: reports with a flag, jobs, and a worker.
ghost use Rattle.std.specs.Thread.{IsSync};
ghost use Rattle.mt_desk.specs.Desk.{IsSeatOfDesk};

use crate::desks::opening::opened;
use crate::links::{check_held, failing_link, link};
use crate::names::callsign;
use crate::reports::{JUDGED, REPORTED};
use mt_base::Calls;
use mt_desk::{Desk, Hand, Seat};
use mt_io::{MemLink, OpenGate};
use mt_session::{Outcome, session};
use mt_workers::{MemInbox, MemOutbox, work};
use std::alloc::Global;
use std::process::Abort;
use std::sync::Wait;
use std::sync::atomic::{AtomicU64, Ordering};
use std::thread::Threads;

/// One session over a link, to its end.
fn held<'a, R: Threads + Wait + Sync + Abort>(
    rt: &R,
    alloc: Global,
    hand: Hand<'a>,
    link: &mut MemLink,
    jobs: Option<&mut MemOutbox>,
) -> Hand<'a>
    requires sync { IsSync R.row }
{
    let (hand, outcome) = session(rt, alloc, hand, link, jobs, &OpenGate);
    assert!(rt; outcome == Outcome::Ended);
    hand
}

/// As many replies were counted.
fn check_count(rt: &impl Abort, count: &AtomicU64, replies: &str) {
    assert!(rt; count.load(Ordering::SeqCst) == replies.lines().count() as u64);
}

/// One session of these lines, which are to be answered so, to its end.
fn say<'a, R: Threads + Wait + Sync + Abort>(
    rt: &R,
    alloc: Global,
    hand: Hand<'a>,
    jobs: Option<&mut MemOutbox>,
    lines: &str,
    replies: &str,
) -> Hand<'a>
    requires sync { IsSync R.row }
{
    let mut link = link(rt, alloc, lines);
    let count = link.replies().expect(rt, "memory");
    let hand = held(rt, alloc, hand, &mut link, jobs);
    check_held(rt, &link, replies);
    check_count(rt, &count, replies);
    drop(link);
    hand
}

/// The session of a flight and its report with a flag, with so many places for jobs; the seat then, and the jobs that were handed on.
fn reported<'a, R: Threads + Wait + Sync + Abort>(
    rt: &R,
    alloc: Global,
    desk: &'a Desk,
    seat: Seat,
    places: u32,
) -> (Hand<'a>, MemOutbox)
    requires sync { IsSync R.row }
    requires ready { IsSeatOfDesk desk.now seat }
{
    let mut jobs = MemOutbox::make(alloc, places).expect(rt, "memory");
    let hand = desk.hand(seat);
    let hand = say(rt, alloc, hand, Some(&mut jobs), REPORTED, JUDGED);
    (hand, jobs)
}

/// A session that lists is answered so.
fn list<'a, R: Threads + Wait + Sync + Abort>(
    rt: &R,
    alloc: Global,
    hand: Hand<'a>,
    listed: &str,
) -> Hand<'a>
    requires sync { IsSync R.row }
{
    say(rt, alloc, hand, None, "{\"do\":\"list\"}\n", listed)
}

/// One job was handed on, that of the flight.
fn check_job(rt: &impl Abort, jobs: &MemOutbox) {
    assert!(rt; jobs.taken().len() == 1);
    let job = jobs.taken().first().expect(rt, "a job");
    assert!(rt; job.call.bytes() == b"DDD1".as_slice());
}

/// A worker renews the flight.
fn renewed<'a, R: Threads + Wait + Sync + Abort>(rt: &R, alloc: Global, hand: Hand<'a>) -> Hand<'a>
    requires sync { IsSync R.row }
{
    let mut calls = Calls::make(alloc).expect(rt, "memory");
    calls.push(callsign(rt, b"DDD1")).expect(rt, "memory");
    let (hand, _jobs) = work(rt, hand, MemInbox::of(calls), &OpenGate);
    hand
}

/// What is listed after three entries, and after the renewal.
const THREE: &str = "{\"conflicts\":[],\"version\":3}\n";

const FOUR: &str = "{\"conflicts\":[],\"version\":4}\n";

#[test]
fn job_of_a_flagged_report_is_handed_on_and_done_by_a_worker(rt: HostRuntime) {
    let alloc = rt.alloc();
    let (desk, seat, _second) = opened(&rt, alloc);
    let (hand, jobs) = reported(&rt, alloc, &desk, seat, 1);
    check_job(&rt, &jobs);
    let hand = list(&rt, alloc, hand, THREE);
    let hand = renewed(&rt, alloc, hand);
    drop(list(&rt, alloc, hand, FOUR));
}

#[test]
fn flagged_report_is_renewed_here(rt: HostRuntime) {
    let alloc = rt.alloc();
    let (desk, seat, _second) = opened(&rt, alloc);
    let (hand, jobs) = reported(&rt, alloc, &desk, seat, 0);
    assert!(&rt; jobs.taken().len() == 0);
    drop(list(&rt, alloc, hand, FOUR));
}

/// Without an outbox, over a link whose first write fails: the flight is renewed only once its report was answered.
#[test]
fn flagged_report_whose_reply_is_lost_is_not_renewed(rt: HostRuntime) {
    let alloc = rt.alloc();
    let (desk, seat, _second) = opened(&rt, alloc);
    let mut first = failing_link(&rt, alloc, REPORTED, 1, u32::MAX);
    let hand = desk.hand(seat);
    let (hand, outcome) = session(
        &rt,
        alloc,
        hand,
        &mut first,
        None::<&mut MemOutbox>,
        &OpenGate,
    );
    assert!(&rt; outcome == Outcome::WriteFault);
    check_held(&rt, &first, "");
    drop(list(&rt, alloc, hand, THREE));
}
