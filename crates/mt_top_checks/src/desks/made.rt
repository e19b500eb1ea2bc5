//! Commands that a seed makes, over few callsigns and fixes, so that many are refused and many meet.
ghost use Rattle.std.specs.Prelude.{◌<◌, ◌≤◌};
ghost use Rattle.mt_base.specs.Bounds.{IsAskedFor, IsBoundedClearance, IsBoundedCommand};

use super::opening::outer;
use crate::names::{callsign, fix_name, type_name};
use mt_base::{Callsign, Clearance, Command, FixName, Report, Route, Second};
use std::alloc::Global;
use std::process::Abort;

/// The last moment.
const LAST: Second = 10_000_000;

/// Numbers that a seed draws.
#[derive(Drop)]
pub struct Draw {
    state: u64,
}

impl Draw {
    /// Those of a seed.
    pub fn of(seed: u64) -> Draw {
        Draw { state: seed }
    }

    /// The next number, below so many.
    pub fn below(&mut self, count: u32) -> u32
        requires { 0 < count }
        ensures { result < count }
    {
        let next = self.state.wrapping_mul(6_364_136_223_846_793_005);
        self.state = next.wrapping_add(1_442_695_040_888_963_407);
        (self.state >> 33) as u32 % count
    }
}

/// One of 24 callsigns.
pub fn some_call(rt: &impl Abort, draw: &mut Draw) -> Callsign {
    let number = draw.below(24) as u8;
    callsign(rt, &[b'T', b'A' + number])
}

/// One of the four fixes.
fn some_fix(rt: &impl Abort, draw: &mut Draw) -> FixName {
    let number = draw.below(4) as u8;
    fix_name(rt, &[b'Q', b'0' + number])
}

/// One of six levels.
fn some_level(draw: &mut Draw) -> u32
    ensures { result ≤ 600 }
{
    300 + 10 * draw.below(6)
}

/// To a level, or direct to a fix.
pub fn some_clearance(rt: &impl Abort, draw: &mut Draw) -> Clearance
    ensures { IsBoundedClearance result }
{
    if draw.below(4) == 0 {
        return Clearance::Direct(some_fix(rt, draw));
    }
    Clearance::Level(some_level(draw))
}

/// A second soon after another.
fn soon(draw: &mut Draw, now: Second) -> Second
    ensures { result ≤ 10000000 }
{
    now.saturating_add(draw.below(60)).min(LAST)
}

/// Three fixes, of which two neighbours may be the same.
fn some_route(rt: &impl Abort, alloc: Global, draw: &mut Draw) -> Route {
    let mut route = Route::make(alloc).expect(rt, "memory");
    for _ in 0..3 {
        route.push(some_fix(rt, draw)).expect(rt, "memory");
    }
    route
}

/// A plan of a flight.
fn some_plan(
    rt: &impl Abort,
    alloc: Global,
    draw: &mut Draw,
    call: Callsign,
    now: Second,
) -> Command
    ensures bounded { IsBoundedCommand result }
    ensures asked_for { IsAskedFor result }
{
    Command::Plan {
        call,
        kind: type_name(rt, b"JA2"),
        route: some_route(rt, alloc, draw),
        at: soon(draw, now),
        from: some_level(draw),
        level: some_level(draw),
        rvsm: draw.below(4) > 0,
    }
}

/// A report of a flight.
fn some_report(draw: &mut Draw, call: Callsign, now: Second) -> Command
    ensures bounded { IsBoundedCommand result }
    ensures asked_for { IsAskedFor result }
{
    let report = Report {
        at: now.min(LAST),
        x: i64::from(draw.below(480_000)),
        y: i64::from(draw.below(500_000)),
        z: 60_000 * i64::from(30 + draw.below(6)),
    };
    Command::Report { call, report }
}

/// A command at a moment.
pub fn some_command(rt: &impl Abort, alloc: Global, draw: &mut Draw, now: Second) -> Command
    ensures bounded { IsBoundedCommand result }
    ensures asked_for { IsAskedFor result }
{
    let call = some_call(rt, draw);
    match draw.below(14) {
        0..=4 => some_plan(rt, alloc, draw, call, now),
        5 => outer(call, 30 + draw.below(6) as u8),
        6 => Command::Drop { call },
        7 => some_report(draw, call, now),
        8 => Command::Tick {
            now: soon(draw, now),
        },
        9 => Command::Renew { call },
        10 => Command::Clear {
            call,
            clearance: some_clearance(rt, draw),
            eff: None,
        },
        11 => Command::Tentative {
            call,
            clearance: some_clearance(rt, draw),
            eff: None,
        },
        12 => Command::Withdraw { call, force: false },
        _ => Command::Commit { call },
    }
}
