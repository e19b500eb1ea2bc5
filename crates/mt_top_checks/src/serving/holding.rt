//! Two sessions beside each other: a gate holds each until the other has come as far as the test wants. A server that served one after the other,
//! or held the turn through a probe or an advice, would never let them; nor would a session that held a reply back while it waits for its next line:
//! seat 2 gets its lines byte by byte.
ghost use Rattle.std.specs.Thread.{IsSync};

use super::scene::{Case, SETUP, check, check_links, door_of_two};
use crate::links::{link, slow_link};
use mt_io::Gate;
use mt_top::Status;
use std::alloc::Global;
use std::process::Abort;
use std::sync::atomic::{AtomicBool, AtomicU64, Ordering};
use std::sync::{Arc, Wait};
use std::thread::Threads;

/// How often a hold looks before it gives up.
const LOOKS: u64 = 1_000_000_000;

/// Holds seat 1 in its plan until two replies were written on link 2, and in what follows its plan until three were. Holds seat 2 in its first
/// change until seat 1 has come once, and in its second until it has come twice.
#[derive(Drop)]
struct Hold {
    first: AtomicU64,
    second: AtomicU64,
    replies: Arc<AtomicU64, Global>,
    gave_up: AtomicBool,
}

impl Hold {
    /// A gate to which nobody has come, beside the count of the replies on link 2.
    fn of(replies: Arc<AtomicU64, Global>) -> Hold {
        Hold {
            first: AtomicU64::new(0),
            second: AtomicU64::new(0),
            replies,
            gave_up: AtomicBool::new(false),
        }
    }

    /// Waits until a count is as great as that.
    fn wait_for(&self, count: &AtomicU64, least: u64) {
        for _ in 0..LOOKS {
            if count.load(Ordering::SeqCst) >= least {
                return;
            }
        }
        self.gave_up.store(true, Ordering::SeqCst);
    }
}

impl Gate for Hold {
    fn between(&self, who: u32) {
        match who {
            1 => {
                let before = self.first.fetch_add(1, Ordering::SeqCst);
                self.wait_for(&self.replies, before.saturating_add(2));
            }
            2 => {
                let before = self.second.fetch_add(1, Ordering::SeqCst);
                self.wait_for(&self.first, before.saturating_add(1));
            }
            _ => {}
        }
    }
}

/// A feed that files two flights.
const FEED: &str = r#"{"do":"hello","role":"feed"}
{"do":"external","call":"EEE1","from":0,"to":1200,"x":0,"y":1000000,"z":2100000,"vx":480}
{"do":"external","call":"FFF1","from":0,"to":1200,"x":0,"y":1200000,"z":2100000,"vx":480}
{"do":"bye"}
"#;

/// What it is answered: the plan of the other link is entered between its two.
const FED: &str = r#"{"role":"feed"}
{"entered":1}
{"entered":3}
{"done":"bye"}
"#;

/// A plan, then a probe.
const PROBES: &str = r#"{"do":"hello","role":"feed"}
{"do":"plan","call":"DDD1","type":"JA1","route":["Q0","Q1"],"at":0,"level":350}
{"do":"hello","role":"position"}
{"do":"probe","call":"DDD1","level":360}
{"do":"bye"}
"#;

/// What they are answered: the probe at the version that it took before the gate, though a flight was entered meanwhile.
const PROBED: &str = r#"{"role":"feed"}
{"entered":2}
{"role":"position"}
{"conflicts":[],"eff":0,"probe":1,"version":2}
{"done":"bye"}
"#;

/// A plan, then advice.
const ASKS: &str = r#"{"do":"hello","role":"feed"}
{"do":"plan","call":"DDD1","type":"JA1","route":["Q0","Q1"],"at":0,"level":350}
{"do":"hello","role":"position"}
{"do":"advise","call":"DDD1"}
{"do":"bye"}
"#;

/// What they are answered: the advice too.
const ADVISED: &str = r#"{"role":"feed"}
{"entered":2}
{"role":"position"}
{"advice":[{"level":360,"probe":1},{"level":340,"probe":2},{"level":370,"probe":3},{"level":330,"probe":4},{"level":380,"probe":5},{"level":320,"probe":6},{"level":390,"probe":7},{"level":310,"probe":8}],"call":"DDD1","eff":0,"version":2}
{"done":"bye"}
"#;

/// What the program writes then.
const SUMMED_UP: &str = r#"{"done":"fix"}
{"done":"fix"}
{"done":"fix"}
{"done":"fix"}
{"done":"type"}
{"done":"begin"}
{"conflicts":0,"entries":3,"faulted":0,"flights":3,"sessions":2,"starved":0}
"#;

/// Two sessions, without workers.
const TWO_SESSIONS: Case = Case {
    words: "serve --sessions 2 --workers 0",
    input: SETUP,
    status: Status::Done,
    output: SUMMED_UP,
};

/// Seat 1 is held while seat 2 is fed: what it sends, and what it is answered.
fn check_held<R: Threads + Wait + Sync + Abort>(rt: &R, alloc: Global, sent: &str, answered: &str)
    requires sync { IsSync R.row }
{
    let second = slow_link(rt, alloc, FEED);
    let gate = Hold::of(second.replies().expect(rt, "memory"));
    let mut door = door_of_two(rt, alloc, link(rt, alloc, sent), second);
    check(rt, alloc, &TWO_SESSIONS, &mut door, &gate);
    check_links(rt, &door, &[answered, FED]);
    assert!(rt; !gate.gave_up.load(Ordering::SeqCst));
}

#[test]
fn gate_holds_one(rt: HostRuntime) {
    check_held(&rt, rt.alloc(), PROBES, PROBED);
}

#[test]
fn gate_holds_advice(rt: HostRuntime) {
    check_held(&rt, rt.alloc(), ASKS, ADVISED);
}
