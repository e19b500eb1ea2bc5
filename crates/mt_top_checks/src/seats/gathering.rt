//! The replies of one session over a link in memory: they wait while whole lines are ahead, and none is held back where the session reads on.
ghost use Rattle.std.specs.Thread.{IsSync};
ghost use Rattle.mt_desk.specs.Desk.{IsSeatOfDesk};

use crate::desks::opening::opened;
use crate::links::{check_held, failing_link, link};
use mt_desk::{Desk, Hand, Seat};
use mt_io::{MemLink, OpenGate};
use mt_session::{Outcome, session};
use mt_workers::MemOutbox;
use std::alloc::Global;
use std::process::Abort;
use std::sync::Wait;
use std::thread::Threads;

/// A feed that files a flight.
const FEED: &str = r#"{"do":"hello","role":"feed"}
{"do":"external","call":"EEE1","from":0,"to":1200,"x":0,"y":1000000,"z":2100000,"vx":480}
"#;

/// What it is answered.
const FED: &str = r#"{"role":"feed"}
{"entered":1}
"#;

/// One session over a link on a picture without flights, which is to end so; and its hand.
fn over<'a, R: Threads + Wait + Sync + Abort>(
    rt: &R,
    alloc: Global,
    desk: &'a Desk,
    seat: Seat,
    link: &mut MemLink,
    end: Outcome,
) -> Hand<'a>
    requires sync { IsSync R.row }
    requires ready { IsSeatOfDesk desk.now seat }
{
    let hand = desk.hand(seat);
    let (hand, outcome) = session(rt, alloc, hand, link, None::<&mut MemOutbox>, &OpenGate);
    assert!(rt; outcome == end);
    hand
}

/// A second session is told this version.
fn check_version<'a, R: Threads + Wait + Sync + Abort>(
    rt: &R,
    alloc: Global,
    hand: Hand<'a>,
    listed: &str,
)
    requires sync { IsSync R.row }
{
    let mut second = link(rt, alloc, "{\"do\":\"list\"}\n");
    let (hand, _) = session(
        rt,
        alloc,
        hand,
        &mut second,
        None::<&mut MemOutbox>,
        &OpenGate,
    );
    check_held(rt, &second, listed);
    drop(hand);
}

/// Both lines come at once, and a second write would fail: there is none.
#[test]
fn lines_at_once_are_answered_by_one_write(rt: HostRuntime) {
    let alloc = rt.alloc();
    let (desk, seat, _second) = opened(&rt, alloc);
    let mut first = failing_link(&rt, alloc, FEED, 2, u32::MAX);
    drop(over(&rt, alloc, &desk, seat, &mut first, Outcome::Ended));
    check_held(&rt, &first, FED);
}

/// Both lines come at once, and the first write fails: both were answered before it.
#[test]
fn replies_wait_while_a_line_is_ahead(rt: HostRuntime) {
    let alloc = rt.alloc();
    let (desk, seat, _second) = opened(&rt, alloc);
    let mut first = failing_link(&rt, alloc, FEED, 1, u32::MAX);
    let hand = over(&rt, alloc, &desk, seat, &mut first, Outcome::WriteFault);
    check_version(&rt, alloc, hand, "{\"conflicts\":[],\"version\":1}\n");
}

/// The lines come byte by byte, and the first write fails: the second line wasn't read before it.
#[test]
fn no_reply_waits_for_the_next_line(rt: HostRuntime) {
    let alloc = rt.alloc();
    let (desk, seat, _second) = opened(&rt, alloc);
    let mut first = failing_link(&rt, alloc, FEED, 1, 1);
    let hand = over(&rt, alloc, &desk, seat, &mut first, Outcome::WriteFault);
    check_version(&rt, alloc, hand, "{\"conflicts\":[],\"version\":0}\n");
}
