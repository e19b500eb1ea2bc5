//! Seats split off the first one, and joined into it again.
ghost use Rattle.std.specs.Prelude.{◌≡◌, ◌<◌, ◌≤◌, ◌+◌, ◌-◌, ◌^◌, [], ◌∷◌, All, length};
ghost use Rattle.std.specs.VecDeque.{deque_len, deque_capacity};
ghost use Rattle.mt_desk.specs.Desk.{IsSeatOfDesk};
ghost use Rattle.mt_serve.specs.Private.Seating.{HasJoined, HasSplit, views_of};
ghost use Rattle.mt_serve.specs.Summary.{counted};
ghost use Rattle.mt_serve.specs.Private.Summary.{with_outcome};
ghost use Rattle.mt_serve.specs.Tied.{backs_of, doorway_of};
ghost use Rattle.mt_serve.specs.Private.Tied.{AreOver, HasTakenBack, ends_of};
ghost use Rattle.mt_serve.specs.Private.Working.{rests_of};
ghost use Rattle.mt_serve.specs.Working.{IsRested};
ghost use Rattle.mt_turn.specs.Views.{taker};

use crate::counts::Counts;
use crate::sitting::{Back, Done};
use crate::worked::Rested;
use mt_desk::{Desk, Seat};
use mt_io::Door;
use std::collections::VecDeque;

/// Splits so many seats off.
pub(crate) fn split_all(desk: &Desk, first: &mut Seat, seats: &mut VecDeque<Seat>, many: u32)
    requires ready { IsSeatOfDesk desk.now first.old }
    requires first { first.old.view.number ≡ 0 }
    requires few { length first.old.view.gave + many ≤ 2 ^ 31 }
    requires room { many ≤ deque_capacity seats.old }
    requires none { seats.old.items ≡ [] }
    ensures ready { IsSeatOfDesk desk.now first.new }
    ensures split { HasSplit desk.now first.old.view first.new.view seats.new.items }
    ensures many { (length seats.new.items ≡ many) × (deque_len seats.new ≡ many) }
{
    for _ in 0..many {
        let seat = desk.split(first);
        seats.push_back_reserved(seat);
    }
}

/// Joins these seats.
pub(crate) fn join_seats(desk: &Desk, first: &mut Seat, mut seats: VecDeque<Seat>)
    requires ready { IsSeatOfDesk desk.now first.old }
    requires first { first.old.view.number ≡ 0 }
    requires others { All (IsSeatOfDesk desk.now) seats.items }
    ensures ready { IsSeatOfDesk desk.now first.new }
    ensures joined { HasJoined first.old.view first.new.view (views_of seats.items) }
{
    while let Some(seat) = seats.pop_front() {
        desk.join(first, seat);
    }
}

/// Joins the workers' seats.
pub(crate) fn join_workers(desk: &Desk, first: &mut Seat, mut resteds: VecDeque<Rested>)
    requires ready { IsSeatOfDesk desk.now first.old }
    requires first { first.old.view.number ≡ 0 }
    requires others { All (λ w. IsSeatOfDesk desk.now w.from) resteds.items }
    ensures ready { IsSeatOfDesk desk.now first.new }
    ensures joined { HasJoined first.old.view first.new.view (views_of (rests_of resteds.items)) }
    ensures worked { All IsRested resteds.items }
{
    while let Some(rested) = resteds.pop_front() {
        let Rested {
            given: _,
            seat,
            jobs: _,
        } = rested;
        desk.join(first, seat);
    }
}

// Hands the link of one session back, joins its seat, and counts it by its outcome.
fn join_session<D: Door>(
    desk: &Desk,
    door: &mut D,
    first: &mut Seat,
    counts: &mut Counts,
    back: Back<D::Link>,
)
    requires ready { IsSeatOfDesk desk.now first.old }
    requires first { first.old.view.number ≡ 0 }
    requires other { IsSeatOfDesk desk.now back.seat }
    requires given { (D.count door.old).back < (D.count door.old).given }
    requires room { counts.old.sessions < 2 ^ 32 }
    requires parts { (counts.old.faulted ≤ counts.old.sessions) × (counts.old.starved ≤ counts.old.sessions) }
    ensures ready { IsSeatOfDesk desk.now first.new }
    ensures joins { first.new.view ≡ taker first.old.view back.seat.view }
    ensures door { HasTakenBack (doorway_of D.count D.still D.returned D.faults door.old)
        (doorway_of D.count D.still D.returned D.faults door.new) (back.link ∷ []) }
    ensures counted { counts.new ≡ with_outcome back.outcome counts.old }
{
    let Back {
        link,
        seat,
        outcome,
    } = back;
    counts.add(outcome);
    door.back(link);
    desk.join(first, seat);
}

/// Hands the links back, joins the sessions' seats, and counts the sessions by their outcomes.
pub(crate) fn join_sessions<D: Door>(
    desk: &Desk,
    door: &mut D,
    first: &mut Seat,
    mut dones: VecDeque<Done<D::Link>>,
) -> Counts
    requires ready { IsSeatOfDesk desk.now first.old }
    requires first { first.old.view.number ≡ 0 }
    requires others { All (λ m. IsSeatOfDesk desk.now m.from.seat) dones.items }
    requires given { length dones.items ≤ (D.count door.old).given - (D.count door.old).back }
    requires few { length dones.items ≤ 2 ^ 31 }
    ensures ready { IsSeatOfDesk desk.now first.new }
    ensures joined { HasJoined first.old.view first.new.view (views_of (ends_of dones.items)) }
    ensures served { AreOver D.Link.Source D.Link.Sink dones.items }
    ensures door { HasTakenBack (doorway_of D.count D.still D.returned D.faults door.old)
        (doorway_of D.count D.still D.returned D.faults door.new) (backs_of dones.items) }
    ensures counted { result ≡ counted dones.items }
{
    let mut counts = Counts::none();
    while let Some(done) = dones.pop_front() {
        let Done { given: _, back } = done;
        join_session(desk, door, first, &mut counts, back);
    }
    counts
}
