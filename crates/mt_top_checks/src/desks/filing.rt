//! Two seats on threads of their own, each of which files twenty flights and reads what is published after each.
ghost use Rattle.std.specs.Prelude.{◌≡◌, ◌<◌, [], ◌∷◌};
ghost use Rattle.std.specs.Thread.{IsSync};
ghost use Rattle.mt_desk.specs.Desk.{IsSeatOfDesk};
ghost use Rattle.mt_top_checks.specs.Same.{IsSameHand, IsSameSeatNow};

use super::opening::{entered, opened, outer};
use mt_base::{Callsign, Command, Conflicts, Tally};
use mt_board::{Answer, Ask, Board};
use mt_desk::{Desk, Hand, Seat};
use mt_io::OpenGate;
use mt_picture::Picture;
use mt_snapshot::check;
use std::alloc::Global;
use std::process::Abort;
use std::sync::Wait;
use std::thread::{Threads, join};

/// How many flights each seat files.
const FLIGHTS: u8 = 20;

/// The callsign of a seat's flight of that number.
fn named(rt: &impl Abort, who: u32, number: u8) -> Callsign
    requires { number < 100 }
{
    let letter = if who == 0 { b'A' } else { b'B' };
    let text = [letter, b'0' + number / 10, b'0' + number % 10];
    Callsign::of(&text).expect(rt, "a callsign")
}

/// Reads what is published, and gives the version that it is of.
fn listed<R: Threads + Wait + Sync + Abort>(rt: &R, hand: &mut Hand<'_>) -> u64
    requires sync { IsSync R.row }
    ensures { IsSameHand hand.old hand.new }
{
    match hand.read(rt, &Ask::List) {
        Ok(Answer::List { conflicts, version }) => {
            drop(conflicts);
            version
        }
        _ => panic!(rt; "no list"),
    }
}

/// Files one flight, and reads what is published then: at that version or a later one.
fn file_one<R: Threads + Wait + Sync + Abort>(rt: &R, hand: &mut Hand<'_>, number: u8)
    requires sync { IsSync R.row }
    requires few { number < 20 }
    ensures { IsSameHand hand.old hand.new }
{
    let command = outer(named(rt, hand.number(), number), number);
    let version = entered(rt, hand, command, &OpenGate);
    assert!(rt; version <= listed(rt, hand));
}

/// Files all flights of a seat.
fn file<R: Threads + Wait + Sync + Abort>(rt: &R, desk: &Desk, seat: Seat) -> Seat
    requires sync { IsSync R.row }
    requires ready { IsSeatOfDesk desk.now seat }
    ensures ready { IsSeatOfDesk desk.now result }
    ensures same { IsSameSeatNow seat result }
{
    let mut hand = desk.hand(seat);
    for number in 0..FLIGHTS {
        file_one(rt, &mut hand, number);
    }
    hand.back()
}

/// Two threads, each with a seat.
fn file_both<R: Threads + Wait + Sync + Abort>(
    rt: &R,
    desk: &Desk,
    first: Seat,
    second: Seat,
) -> (Seat, Seat)
    requires sync { IsSync R.row }
    requires ready { IsSeatOfDesk desk.now first × IsSeatOfDesk desk.now second }
    ensures ready { IsSeatOfDesk desk.now result.0 × IsSeatOfDesk desk.now result.1 }
    ensures same { IsSameSeatNow first result.0 × IsSameSeatNow second result.1 }
{
    join(
        rt,
        move ||
            requires { IsSync R.row × IsSeatOfDesk desk.now first }
        { file(rt, desk, first) },
        move ||
            requires { IsSync R.row × IsSeatOfDesk desk.now second }
        { file(rt, desk, second) },
    )
}

/// Joins the second seat, and closes the desk.
pub fn close_both(desk: Desk, mut first: Seat, second: Seat) -> Picture
    requires ready { IsSeatOfDesk desk first × IsSeatOfDesk desk second }
    requires first { (first.view.number ≡ 0) × (first.view.gave ≡ 1 ∷ []) × (first.view.joined ≡ []) }
    requires second { second.view.number ≡ 1 }
{
    desk.join(&mut first, second);
    desk.close(first)
}

/// How many entries there are of that seat, each of which files the seat's next flight.
fn count_of(rt: &impl Abort, picture: &Picture, who: u32) -> u8 {
    let mut count = 0;
    for entry in picture.entries() {
        if entry.who == who {
            assert!(rt; count < FLIGHTS);
            let Command::External { call, .. } = &entry.command else {
                panic!(rt; "another command")
            };
            assert!(rt; *call == named(rt, who, count));
            count += 1;
        }
    }
    count
}

/// There are forty entries, twenty of each seat.
fn check_counts(rt: &impl Abort, picture: &Picture) {
    assert!(rt; picture.entries().len() == 40);
    assert!(rt; count_of(rt, picture, 0) == 20);
    assert!(rt; count_of(rt, picture, 1) == 20);
}

/// Twenty conflicts are computed from nothing, and published.
fn check_conflicts(rt: &(impl Abort + Threads + Sync), alloc: Global, picture: &Picture) {
    let snapshot = picture.snapshot().expect(rt, "memory");
    let anew: Conflicts = check(alloc, &snapshot, &mut Tally::new(rt)).expect(rt, "memory");
    drop(snapshot);
    assert!(rt; anew.items().len() == 20);
    assert!(rt; picture.published() == anew.items());
}

/// The picture in which both seats filed their flights.
fn filed_by_both<R: Threads + Wait + Sync + Abort>(rt: &R, alloc: Global) -> Picture
    requires sync { IsSync R.row }
{
    let (desk, first, second) = opened(rt, alloc);
    let (first, second) = file_both(rt, &desk, first, second);
    close_both(desk, first, second)
}

#[test]
fn two_seats(rt: HostRuntime) {
    let picture = filed_by_both(&rt, rt.alloc());
    check_counts(&rt, &picture);
    check_conflicts(&rt, rt.alloc(), &picture);
    drop(picture);
}
