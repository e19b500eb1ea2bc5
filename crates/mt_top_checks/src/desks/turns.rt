//! Three seats on threads of their own, each of which takes 400 turns of one value.
ghost use Rattle.std.specs.Prelude.{◌≡◌, ◌+◌, ◌^◌, ◌≤◌, [], ◌∷◌, ◌++◌, length, MatchBool, Some};
ghost use Rattle.mt_turn.specs.declared.view.Phase.TheVariants.{Idle};
ghost use Rattle.mt_turn.specs.Lending.{AreViewsOfOneSeat};

use mt_turn::{Recorded, Seat, Turn};
use std::process::Abort;
use std::sync::Wait;
use std::thread::{Threads, join};

/// The seat that made an entry, and how many it had made before.
#[derive(Clone, Copy, Drop)]
struct Entry {
    by: u32,
    item: u32,
}

#[derive(Drop)]
struct Register {
    entries: Vec<Entry>,
}

impl Recorded for Register {
    type Entry = Entry;

    type Fixed = ();

    ghost history = { λ r. r.entries.items };

    ghost number = { λ e. e.by };

    ghost fixed = { λ _. tt };

    fn count(&self) -> u64 {
        self.entries.len() as u64
    }
}

impl Register {
    /// Adds an entry, and says whether it did.
    fn add(&mut self, entry: Entry) -> bool
        ensures { MatchBool result ((self.new.entries.items ≡ self.old.entries.items ++ entry ∷ []) × (length self.new.entries.items ≤ 2 ^ 32)) (self.new.entries.items ≡ self.old.entries.items) }
    {
        self.entries.len() < 1 << 32 && self.entries.push(entry).is_ok()
    }

    /// How many entries each of the three seats has, where each has its own in order.
    fn counts(&self) -> Option<[u32; 3]> {
        let mut next = [0; 3];
        for entry in &self.entries {
            let by = entry.by as usize;
            if by >= 3 || entry.item != next[by] || entry.item > 1000 {
                return None;
            }
            next[by] += 1;
        }
        Some(next)
    }
}

/// One turn, with an entry or without.
fn take_turn<R: Wait>(rt: &R, turn: &Turn<Register>, seat: &mut Seat<Register>, item: Option<u32>)
    requires own { seat.old.home ≡ turn.now }
    requires idle { seat.old.view.phase ≡ Idle }
    ensures own { seat.new.home ≡ turn.now }
    ensures idle { seat.new.view.phase ≡ Idle }
    ensures same { AreViewsOfOneSeat seat.old.view seat.new.view }
{
    let mut held = turn.enter(rt, seat);
    if let Some(item) = item {
        let by = seat.number();
        held.value_mut().add(Entry { by, item });
    }
    turn.leave(seat, held);
}

/// Takes 400 turns, every second one with an entry.
fn take_turns<R: Wait>(rt: &R, turn: &Turn<Register>, mut seat: Seat<Register>) -> Seat<Register>
    requires own { seat.home ≡ turn.now }
    requires idle { seat.view.phase ≡ Idle }
    ensures own { result.home ≡ turn.now }
    ensures idle { result.view.phase ≡ Idle }
    ensures same { AreViewsOfOneSeat seat.view result.view }
{
    for i in 0..400u32 {
        let item = if i % 2 == 0 { Some(i / 2) } else { None };
        take_turn(rt, turn, &mut seat, item);
    }
    seat
}

#[test]
fn three_seats_keep_each_entry_once_and_in_order(rt: HostRuntime) {
    let register = Register {
        entries: Vec::new(rt.alloc()),
    };
    let (turn, mut first) = match Turn::make(rt.alloc(), register) {
        Ok(made) => made,
        Err(_) => panic!(rt; "no memory"),
    };
    let held = turn.enter(&rt, &mut first);
    let entries = held.value().count();
    turn.leave(&mut first, held);
    assert!(rt; entries == 0);
    let second = turn.split(&mut first);
    let third = turn.split(&mut first);
    assert!(rt; first.number() == 0 && second.number() == 1 && third.number() == 2);
    let (first, (second, third)) = take_three(&rt, &turn, first, second, third);
    let register = settle(turn, first, second, third);
    assert!(rt; register.counts() == Some([200, 200, 200]));
}

/// Two threads, each with a seat.
fn take_two<R: Threads + Wait + Sync>(
    rt: &R,
    turn: &Turn<Register>,
    first: Seat<Register>,
    second: Seat<Register>,
) -> (Seat<Register>, Seat<Register>)
    requires own { (first.home ≡ turn.now) × (second.home ≡ turn.now) }
    requires idle { (first.view.phase ≡ Idle) × (second.view.phase ≡ Idle) }
    ensures own { (result.0.home ≡ turn.now) × (result.1.home ≡ turn.now) }
    ensures idle { (result.0.view.phase ≡ Idle) × (result.1.view.phase ≡ Idle) }
    ensures same { AreViewsOfOneSeat first.view result.0.view × AreViewsOfOneSeat second.view result.1.view }
{
    join(
        rt,
        move || take_turns(rt, turn, first),
        move || take_turns(rt, turn, second),
    )
}

/// Three threads, each with a seat.
fn take_three<R: Threads + Wait + Sync>(
    rt: &R,
    turn: &Turn<Register>,
    first: Seat<Register>,
    second: Seat<Register>,
    third: Seat<Register>,
) -> (Seat<Register>, (Seat<Register>, Seat<Register>))
    requires own { (first.home ≡ turn.now) × (second.home ≡ turn.now) × (third.home ≡ turn.now) }
    requires idle { (first.view.phase ≡ Idle) × (second.view.phase ≡ Idle) × (third.view.phase ≡ Idle) }
    ensures own { (result.0.home ≡ turn.now) × (result.1.0.home ≡ turn.now) × (result.1.1.home ≡ turn.now) }
    ensures idle { (result.0.view.phase ≡ Idle) × (result.1.0.view.phase ≡ Idle) × (result.1.1.view.phase ≡ Idle) }
    ensures same { AreViewsOfOneSeat first.view result.0.view × AreViewsOfOneSeat second.view result.1.0.view × AreViewsOfOneSeat third.view result.1.1.view }
{
    join(
        rt,
        move || take_turns(rt, turn, first),
        move ||
            requires { (second.home ≡ turn.now) × (third.home ≡ turn.now) × (second.view.phase ≡ Idle) × (third.view.phase ≡ Idle) }
        { take_two(rt, turn, second, third) },
    )
}

fn settle(
    turn: Turn<Register>,
    mut first: Seat<Register>,
    second: Seat<Register>,
    third: Seat<Register>,
) -> Register
    requires own { (first.home ≡ turn) × (second.home ≡ turn) × (third.home ≡ turn) }
    requires idle { (first.view.phase ≡ Idle) × (second.view.phase ≡ Idle) × (third.view.phase ≡ Idle) }
    requires root { (first.view.number ≡ 0) × (first.view.gave ≡ 1 ∷ 2 ∷ []) × (first.view.joined ≡ []) }
    requires numbers { (second.view.number ≡ 1) × (third.view.number ≡ 2) }
{
    turn.join(&mut first, second);
    turn.join(&mut first, third);
    turn.close(first)
}
