//! A desk with two seats, and flights for it.
ghost use Rattle.std.specs.Prelude.{◌≡◌, ◌≤◌, [], ◌∷◌};
ghost use Rattle.std.specs.Thread.{IsSync};
ghost use Rattle.mt_base.specs.Bounds.{IsAskedFor, IsBoundedCommand};
ghost use Rattle.mt_desk.specs.Desk.{IsSeatOfDesk};
ghost use Rattle.mt_top_checks.specs.Same.{IsSameHand};

use crate::tables::shared_tables;
use mt_base::{Callsign, Command, Row, Rules, Straight};
use mt_board::Board;
use mt_desk::{Desk, Hand, Seat};
use mt_io::Gate;
use mt_picture::Picture;
use std::alloc::Global;
use std::process::Abort;
use std::sync::Wait;
use std::thread::Threads;

/// At the origin, not moving.
const STILL: Row = Row {
    x: 0,
    y: 0,
    z: 0,
    r: 0,
    w: 0,
    vx: 0,
    vy: 0,
    vz: 0,
    gr: 0,
    gw: 0,
    leg: 0,
};

/// A desk over the opening picture, its first seat, and one that was split off it.
pub fn opened(rt: &impl Abort, alloc: Global) -> (Desk, Seat, Seat)
    ensures ready { IsSeatOfDesk result.0 result.1 × IsSeatOfDesk result.0 result.2 }
    ensures first { (result.1.view.number ≡ 0) × (result.1.view.gave ≡ 1 ∷ []) × (result.1.view.joined ≡ []) }
    ensures second { result.2.view.number ≡ 1 }
{
    let tables = shared_tables(rt, alloc);
    let picture = Picture::make(alloc, Rules::usual(), tables).expect(rt, "memory");
    let (desk, mut first) = match Desk::make(alloc, picture) {
        Ok(made) => made,
        Err(_) => panic!(rt; "no memory"),
    };
    let second = desk.split(&mut first);
    (desk, first, second)
}

/// Enters a command through a gate, and gives the version with it.
pub fn entered<R: Threads + Wait + Sync + Abort, G: Gate>(
    rt: &R,
    hand: &mut Hand<'_>,
    command: Command,
    gate: &G,
) -> u64
    requires sync { IsSync R.row }
    requires bounded { IsBoundedCommand command }
    requires asked_for { IsAskedFor command }
    ensures same { IsSameHand hand.old hand.new }
{
    let entered = hand.change(rt, command, gate);
    entered.ok().expect(rt, "an entry").version
}

/// An external flight that stays over the origin for 100 seconds, so many thousand feet up.
pub fn outer(call: Callsign, thousands: u8) -> Command
    requires { thousands ≤ 60 }
    ensures bounded { IsBoundedCommand result }
    ensures asked_for { IsAskedFor result }
{
    let first = Row {
        z: 60_000 * i64::from(thousands),
        ..STILL
    };
    let straight = Straight {
        from: 0,
        to: 100,
        first,
        rvsm: true,
    };
    Command::External { call, straight }
}
