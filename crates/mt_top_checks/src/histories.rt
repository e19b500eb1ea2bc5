//! A small history as text: read, rebuilt, printed, and read and rebuilt once more; and texts that say none.
ghost use Rattle.std.specs.Prelude.{All};
ghost use Rattle.mt_base.specs.Bounds.{AreWithinBounds};
ghost use Rattle.mt_history.specs.Rebuilt.{IsReadyToDecide};

use crate::names::callsign;
use crate::tables::shared_tables;
use mt_base::{Conflict, Entries, Hit, Kind, Refusal, Rules};
use mt_history::{BadHistory, Wrong, print, read_all, rebuild};
use mt_picture::Picture;
use std::alloc::Global;
use std::process::Abort;
use std::thread::Threads;

// Two plans, one far north of the other and not approved for RVSM, and an external flight that comes towards the first, one flight level
// above it. The first is marked to climb there.
const MARKED: &str =
    r#"{"at":0,"call":"DDD1","do":"plan","from":350,"level":350,"route":["Q0","Q1"],"rvsm":true,"type":"JA1","who":0}
{"at":0,"call":"III1","do":"plan","from":350,"level":350,"route":["Q2","Q3"],"rvsm":false,"type":"JA1","who":0}
{"call":"JJJ1","do":"external","from":0,"gr":0,"gw":0,"r":0,"rvsm":true,"to":1200,"vx":-480,"vy":0,"vz":0,"w":0,"who":0,"x":144000,"y":0,"z":2160000}
{"call":"DDD1","do":"tentative","eff":0,"level":360,"who":1}
"#;

// The second climbs, and the first's mark is taken away.
const WITHDRAWN: &str = r#"{"call":"III1","do":"clear","eff":0,"level":370,"who":0}
{"call":"DDD1","do":"withdraw","force":false,"who":1}
"#;

// What was printed before there were approvals, so no entry tells one. Beyond an external flight that comes towards it at flight level 420 the
// first climbs to 430, which was free by the one vertical minimum that there was.
const UNAPPROVED: &str =
    r#"{"at":0,"call":"DDD1","do":"plan","from":400,"level":400,"route":["Q0","Q1"],"type":"JA2","who":0}
{"call":"JJJ1","do":"external","from":0,"gr":0,"gw":0,"r":0,"to":1200,"vx":-480,"vy":0,"vz":0,"w":0,"who":0,"x":480000,"y":0,"z":2520000}
{"call":"DDD1","do":"accept","eff":0,"level":430,"v":2,"who":0}
"#;

// The entries that a text says.
fn entries_of(rt: &impl Abort, alloc: Global, text: &[u8]) -> Entries
    ensures { All IsReadyToDecide result }
{
    match read_all(alloc, text) {
        Ok(entries) => entries,
        Err(_) => panic!(rt; "no entries"),
    }
}

// What is rebuilt of the entries that a text says, in some rules.
fn rebuilt_in(
    rt: &(impl Abort + Threads + Sync),
    alloc: Global,
    rules: Rules,
    text: &[u8],
) -> Result<Picture, Wrong>
    requires { AreWithinBounds rules }
{
    let entries = entries_of(rt, alloc, text);
    let tables = shared_tables(rt, alloc);
    rebuild(rt, alloc, rules, tables, &entries)
}

// What is rebuilt of them in the usual rules.
fn rebuilt(
    rt: &(impl Abort + Threads + Sync),
    alloc: Global,
    text: &[u8],
) -> Result<Picture, Wrong> {
    rebuilt_in(rt, alloc, Rules::usual(), text)
}

// The conflict of the marked climb with the flight ahead.
fn conflict_ahead(rt: &impl Abort) -> Conflict {
    Conflict {
        first: 129,
        a: callsign(rt, b"DDD1"),
        b: callsign(rt, b"JJJ1"),
        ka: Kind::Tentative,
        kb: Kind::Actual,
        last: 171,
    }
}

// One text after another.
fn joined(rt: &impl Abort, alloc: Global, first: &str, last: &str) -> Vec<u8> {
    let mut text = Vec::new(alloc);
    text.extend_from_slice(first.as_bytes())
        .ok()
        .expect(rt, "memory");
    text.extend_from_slice(last.as_bytes())
        .ok()
        .expect(rt, "memory");
    text
}

// The picture that is rebuilt of the entries that a text says.
fn picture_of(rt: &(impl Abort + Threads + Sync), alloc: Global, text: &[u8]) -> Picture {
    rebuilt(rt, alloc, text).ok().expect(rt, "a picture")
}

// A picture is of that version, and these conflicts are published.
fn check_picture(rt: &impl Abort, picture: &Picture, version: u64, wanted: &[Conflict]) {
    assert!(rt; picture.version() == version);
    assert!(rt; picture.published() == wanted);
}

// A text is rebuilt to a picture of that version and these conflicts, and printed as it was; what was printed.
fn printed(
    rt: &(impl Abort + Threads + Sync),
    alloc: Global,
    text: &[u8],
    version: u64,
    wanted: &[Conflict],
) -> Vec<u8> {
    let picture = picture_of(rt, alloc, text);
    check_picture(rt, &picture, version, wanted);
    let printed = print(alloc, &picture, 0, picture.version()).expect(rt, "memory");
    drop(picture);
    assert!(rt; printed.as_slice() == text);
    printed
}

#[test]
fn a_printed_history_rebuilds_the_picture(rt: HostRuntime) {
    let alloc = rt.alloc();
    printed(&rt, alloc, MARKED.as_bytes(), 4, &[conflict_ahead(&rt)]);
    let text = joined(&rt, alloc, MARKED, WITHDRAWN);
    let again = printed(&rt, alloc, &text, 6, &[]);
    printed(&rt, alloc, &again, 6, &[]);
}

// What is wrong where this text is after the marks.
fn check_wrong(rt: &(impl Abort + Threads + Sync), alloc: Global, last: &str, wanted: Wrong) {
    let text = joined(rt, alloc, MARKED, last);
    assert!(rt; rebuilt(rt, alloc, &text).err() == Some(wanted));
}

// What is bad where an empty line is after the marks.
fn check_gap(rt: &impl Abort, alloc: Global) {
    let gap = joined(rt, alloc, MARKED, "\n");
    assert!(rt; read_all(alloc, &gap).err() == Some(BadHistory::Line(4)));
}

#[test]
fn what_is_wrong_is_named_by_its_place(rt: HostRuntime) {
    let alloc = rt.alloc();
    let held = Wrong::Illegal {
        at: 4,
        refusal: Refusal::HeldCall,
    };
    check_wrong(&rt, alloc, MARKED, held);
    let ahead = "{\"call\":\"DDD1\",\"do\":\"accept\",\"eff\":0,\"level\":360,\"v\":5,\"who\":0}\n";
    check_wrong(&rt, alloc, ahead, Wrong::Late { at: 4 });
    check_gap(&rt, alloc);
}

// The usual rules, but that the greater vertical minimum is the lesser one.
fn one_minimum(rt: &impl Abort) -> Rules
    ensures { AreWithinBounds result }
{
    let mut rules = Rules::usual();
    rules.sv2 = rules.sv;
    assert!(rt; rules.check().is_ok());
    rules
}

// By two minima the climb is refused: 960 units a second nearer, with 15 more of a margin each second, the two are too close from second 473 to 526.
fn check_refused(rt: &(impl Abort + Threads + Sync), alloc: Global) {
    let first = Hit {
        first: 473,
        with: callsign(rt, b"JJJ1"),
        last: 526,
    };
    let wanted = Wrong::Illegal {
        at: 2,
        refusal: Refusal::Stale { first },
    };
    assert!(rt; rebuilt(rt, alloc, UNAPPROVED.as_bytes()).err() == Some(wanted));
}

#[test]
fn a_history_from_before_there_were_approvals_is_rebuilt_by_one_minimum(rt: HostRuntime) {
    let alloc = rt.alloc();
    let rules = one_minimum(&rt);
    let picture = rebuilt_in(&rt, alloc, rules, UNAPPROVED.as_bytes())
        .ok()
        .expect(&rt, "a picture");
    check_picture(&rt, &picture, 3, &[]);
    check_refused(&rt, alloc);
}
