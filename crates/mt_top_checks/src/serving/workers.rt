//! A flight that left its prediction is renewed: by a worker where there is one, else by the session that was told.

ghost use Rattle.std.specs.Thread.{IsSync};

use super::scene::{Case, SETUP, check, check_links, door_of};
use crate::links::link;
use crate::reports::{JUDGED, REPORTED};
use mt_io::Gate;
use mt_top::Status;
use std::alloc::Global;
use std::process::Abort;
use std::sync::Wait;
use std::sync::atomic::{AtomicU64, Ordering};
use std::thread::Threads;

/// Counts how often seat 2 comes, which is the worker's.
#[derive(Drop)]
struct Counting {
    worker: AtomicU64,
}

impl Gate for Counting {
    fn between(&self, who: u32) {
        if who == 2 {
            self.worker.fetch_add(1, Ordering::SeqCst);
        }
    }
}

/// What the program writes then: a fourth entry renews the flight.
const SUMMED_UP: &str = r#"{"done":"fix"}
{"done":"fix"}
{"done":"fix"}
{"done":"fix"}
{"done":"type"}
{"done":"begin"}
{"conflicts":0,"entries":4,"faulted":0,"flights":1,"sessions":1,"starved":0}
"#;

/// How often the worker comes where the program is called by these words.
fn check_renewals<R: Threads + Wait + Sync + Abort>(
    rt: &R,
    alloc: Global,
    words: &'static str,
    renewals: u64,
)
    requires sync { IsSync R.row }
{
    let gate = Counting {
        worker: AtomicU64::new(0),
    };
    let mut door = door_of(rt, alloc, link(rt, alloc, REPORTED));
    let case = Case {
        words,
        input: SETUP,
        status: Status::Done,
        output: SUMMED_UP,
    };
    check(rt, alloc, &case, &mut door, &gate);
    check_links(rt, &door, &[JUDGED]);
    assert!(rt; gate.worker.load(Ordering::SeqCst) == renewals);
}

#[test]
fn worker_renews(rt: HostRuntime) {
    check_renewals(&rt, rt.alloc(), "serve --sessions 1 --workers 1", 1);
    check_renewals(&rt, rt.alloc(), "serve --sessions 1 --workers 0", 0);
}
