//! Links, each served by a session as it comes.
ghost use Rattle.std.specs.Prelude.{◌≡◌, ◌≤◌, [], All};
ghost use Rattle.std.specs.Thread.{IsSync};
ghost use Rattle.std.specs.VecDeque.{deque_len, deque_capacity};
ghost use Rattle.mt_desk.specs.Desk.{IsSeatOfDesk};
ghost use Rattle.mt_serve.specs.Sitting.{HaveNoChannel, starts_of};
ghost use Rattle.mt_serve.specs.Private.Sitting.{HasServedLinks, IsReadyToServe, IsSeated};
ghost use Rattle.mt_serve.specs.Tied.{doorway_of};

use crate::serving::{begin, finish};
use crate::sitting::{Done, Sitting};
use mt_desk::{Desk, Seat};
use mt_io::{Door, Failed, Gate};
use mt_workers::JobSender;
use std::collections::VecDeque;
use std::sync::Wait;
use std::thread;
use std::thread::{Scope, Threads};

// Serves each link that the door gives with the next seat, and with the next sender while there is one, until it gives none or fails. Says
// whether it failed.
fn accept<'s, E, R: Threads + Wait + Sync, D: Door, G: Gate + Sync>(
    scope: &Scope<'s, E>,
    rt: &'s R,
    desk: &'s Desk,
    gate: &'s G,
    door: &mut D,
    seats: &mut VecDeque<Seat>,
    sittings: &mut VecDeque<Sitting<D::Link>>,
    senders: &mut VecDeque<JobSender>,
) -> bool
where
    D::Link: 's,
    requires sync { IsSync R.row }
    requires ready { All (IsSeatOfDesk desk.now) seats.old.items }
    requires seated { IsSeated (D.count door.old) seats.old.items }
    requires room { deque_len seats.old ≤ deque_capacity sittings.old }
    requires none { sittings.old.items ≡ [] }
    ensures links { HasServedLinks desk.now (doorway_of D.count D.still D.returned D.faults door.old) (doorway_of D.count D.still D.returned D.faults door.new)
        seats.old.items seats.new.items sittings.new.items result }
    ensures channels { senders.old.items ≡ [] → HaveNoChannel sittings.new.items }
{
    for _ in rt.forever() {
        match door.next_link() {
            Err(Failed) => return true,
            Ok(None) => return false,
            Ok(Some(link)) => {
                let Some(seat) = seats.pop_front() else {
                    unreachable!()
                };
                let jobs = senders.pop_front();
                let sitting = begin(scope, rt, desk, seat, link, jobs, gate);
                sittings.push_back_reserved(sitting);
            }
        }
    }
    unreachable!()
}

// Waits for all sessions, in order.
fn join_all<R: Threads, D: Door>(
    rt: &R,
    mut sittings: VecDeque<Sitting<D::Link>>,
    dones: &mut VecDeque<Done<D::Link>>,
)
    requires room { deque_len sittings ≤ deque_capacity dones.old }
    requires none { dones.old.items ≡ [] }
    ensures { starts_of dones.new.items ≡ sittings.items }
{
    while let Some(sitting) = sittings.pop_front() {
        let done = finish(rt, sitting);
        dones.push_back_reserved(done);
    }
}

/// Serves each link that the door gives, each on a thread of its own, and returns when all sessions have ended. All senders are gone then.
#[tactic(auto, using(crate::proofs::Accepts::links_at))]
pub(crate) fn serve_links<R: Threads + Wait + Sync, D: Door, G: Gate + Sync>(
    rt: &R,
    desk: &Desk,
    gate: &G,
    door: &mut D,
    seats: VecDeque<Seat>,
    sittings: VecDeque<Sitting<D::Link>>,
    dones: VecDeque<Done<D::Link>>,
    senders: VecDeque<JobSender>,
) -> (VecDeque<Seat>, VecDeque<Done<D::Link>>, bool)
    requires sync { IsSync R.row }
    requires prepared { IsReadyToServe desk.now (D.count door.old) seats.items (deque_len seats) (deque_capacity sittings) (deque_capacity dones) sittings.items dones.items }
    ensures links { HasServedLinks desk.now (doorway_of D.count D.still D.returned D.faults door.old) (doorway_of D.count D.still D.returned D.faults door.new)
        seats.items result.0.items (starts_of result.1.items) result.2 }
    ensures channels { senders.items ≡ [] → HaveNoChannel (starts_of result.1.items) }
{
    let (door, seats, dones, faulted) = thread::scope(
        thread::scope_env(),
        rt,
        move |scope| -> (&mut D, VecDeque<Seat>, VecDeque<Done<D::Link>>, bool)
            requires { IsReadyToServe desk.now (D.count door.now) seats.items (deque_len seats) (deque_capacity sittings) (deque_capacity dones) sittings.items dones.items }
            ensures same { result.0.ghost_name ≡ door.entry.ghost_name }
            ensures links { HasServedLinks desk.entry.now (doorway_of D.count D.still D.returned D.faults door.entry.now) (doorway_of D.count D.still D.returned D.faults result.0.now)
                seats.items result.1.items (starts_of result.2.items) result.3 }
            ensures channels { senders.items ≡ [] → HaveNoChannel (starts_of result.2.items) }
        {
            let mut seats = seats;
            let mut sittings = sittings;
            let mut dones = dones;
            let mut senders = senders;
            let faulted = accept(
                scope,
                rt,
                desk,
                gate,
                door,
                &mut seats,
                &mut sittings,
                &mut senders,
            );
            drop(senders);
            join_all::<R, D>(rt, sittings, &mut dones);
            (door, seats, dones, faulted)
        },
    );
    take_back(door);
    (seats, dones, faulted)
}

/// What is known of a reference that a scope gave back is known of the parameter that lent it.
pub(crate) fn take_back<T>(x: &mut T)
    ensures { x.new ≡ x.old }
{}
