//! Jobs from many ends to many: none is lost, none is given twice, and none comes once all senders are gone.

use crate::names::callsign;
use mt_base::Callsign;
use mt_workers::{Inbox, Job, JobReceiver, JobSender, Outbox, jobs};
use std::process::Abort;
use std::sync::Wait;
use std::thread::{Threads, join};

/// Hands the job of a flight on, and says whether it was taken; one that is given back is the same.
fn is_handed<R: Threads + Wait + Sync + Abort>(
    rt: &R,
    outbox: &mut JobSender,
    call: &Callsign,
) -> bool {
    match outbox.hand(rt, Job { call: *call }) {
        Ok(()) => true,
        Err(back) => {
            assert!(rt; back.call == *call);
            false
        }
    }
}

/// Whether the next job is that of a flight.
fn is_next<R: Threads + Wait + Sync>(rt: &R, inbox: &mut JobReceiver, call: &Callsign) -> bool {
    match inbox.next(rt) {
        Some(job) => job.call == *call,
        None => false,
    }
}

/// How many jobs come until none will.
fn count_jobs<R: Threads + Wait + Sync>(rt: &R, inbox: &mut JobReceiver) -> u64 {
    let mut count: u64 = 0;
    for _ in rt.forever() {
        if inbox.next(rt).is_none() {
            return count;
        }
        count = count.saturating_add(1);
    }
    unreachable!()
}

/// Hands the job of a flight on a hundred times; says how often it was taken.
fn hand_jobs<R: Threads + Wait + Sync + Abort>(
    rt: &R,
    outbox: &mut JobSender,
    call: &Callsign,
) -> u64 {
    let mut taken: u64 = 0;
    for _ in 0..100u32 {
        if is_handed(rt, outbox, call) {
            taken = taken.saturating_add(1);
        }
    }
    taken
}

/// Does so by two senders, of which none is left then.
fn hand_by_both<R: Threads + Wait + Sync + Abort>(
    rt: &R,
    mut first: JobSender,
    mut second: JobSender,
    call: Callsign,
) -> u64 {
    let here = hand_jobs(rt, &mut first, &call);
    here.saturating_add(hand_jobs(rt, &mut second, &call))
}

/// How many jobs come to two receivers, each on a thread of its own.
fn count_by_both<R: Threads + Wait + Sync>(
    rt: &R,
    mut first: JobReceiver,
    mut second: JobReceiver,
) -> u64 {
    let (here, there) = join(
        rt,
        || count_jobs(rt, &mut first),
        || count_jobs(rt, &mut second),
    );
    here.saturating_add(there)
}

#[test]
fn job_without_a_place_is_given_back(rt: HostRuntime) {
    let (mut outbox, mut inbox) = jobs(rt.alloc(), 1).expect(&rt, "memory");
    let (one, two) = (callsign(&rt, b"DDD1"), callsign(&rt, b"EEE1"));
    assert!(&rt; is_handed(&rt, &mut outbox, &one));
    assert!(&rt; !is_handed(&rt, &mut outbox, &two));
    assert!(&rt; is_next(&rt, &mut inbox, &one));
    assert!(&rt; is_handed(&rt, &mut outbox, &two));
    drop(outbox);
    assert!(&rt; is_next(&rt, &mut inbox, &two));
    assert!(&rt; count_jobs(&rt, &mut inbox) == 0);
}

#[test]
fn jobs_of_two_senders_come_to_two_receivers_once(rt: HostRuntime) {
    let (first, here) = jobs(rt.alloc(), 200).expect(&rt, "memory");
    let second = first.share().expect(&rt, "memory");
    let there = here.share().expect(&rt, "memory");
    let call = callsign(&rt, b"DDD1");
    let (handed, came) = join(
        &rt,
        || hand_by_both(&rt, first, second, call),
        || count_by_both(&rt, here, there),
    );
    assert!(&rt; handed == 200);
    assert!(&rt; came == 200);
}
