//! Links served by sessions, with workers beside them, over one desk.
ghost use Rattle.std.specs.Prelude.{◌≡◌, ◌≤◌, ◌+◌, ◌-◌, ◌^◌, [], ◌++◌, All, length, IfErr, IfOk};
ghost use Rattle.std.specs.Thread.{IsSync};
ghost use Rattle.std.specs.VecDeque.{deque_len, deque_capacity};
ghost use Rattle.mt_base.specs.Complete.{IsComplete};
ghost use Rattle.mt_base.specs.History.{IsLegal};
ghost use Rattle.mt_desk.specs.Desk.{IsSeatOfDesk};
ghost use Rattle.mt_serve.specs.Private.Seating.{AllSplit};
ghost use Rattle.mt_serve.specs.Sitting.{HaveNoChannel, seats_of, starts_of};
ghost use Rattle.mt_serve.specs.Private.Sitting.{HasServedLinks, IsReadyToServe};
ghost use Rattle.mt_serve.specs.Summary.{HasServedWhole, counted};
ghost use Rattle.mt_serve.specs.Tied.{IsTied, backs_of, doorway_of};
ghost use Rattle.mt_serve.specs.Private.Tied.{HasTakenBack};
ghost use Rattle.mt_serve.specs.Private.Working.{HasStaffed, IsStaffed, froms_of};
ghost use Rattle.mt_serve.specs.Working.{IsRested};

use crate::accepting::{serve_links, take_back};
use crate::counts::Counts;
use crate::room::{Room, take_room};
use crate::seating::{join_seats, join_sessions, join_workers, split_all};
use crate::sitting::Done;
use crate::worked::Rested;
use crate::working::{begin_all, rest_all};
use mt_desk::{Desk, Seat};
use mt_io::{Door, Duplex, Gate};
use mt_memory::Memory;
use mt_picture::Picture;
use mt_workers::JobSender;
use std::alloc::Global;
use std::collections::VecDeque;
use std::sync::Wait;
use std::sync::atomic::AtomicU64;
use std::thread;
use std::thread::Threads;

// What is left once all threads are over: the seats of sessions that never began, the sessions, the seats of workers that never began, the
// workers, how many of them had a thread, and whether the door failed.
#[derive(Drop)]
struct Left<L: Duplex> {
    seats: VecDeque<Seat>,
    dones: VecDeque<Done<L>>,
    hands: VecDeque<Seat>,
    resteds: VecDeque<Rested>,
    staff: u64,
    faulted: bool,
}

/// What was served: the closed picture, how the sessions ended, and whether the door failed.
#[derive(Drop)]
pub struct Served {
    /// The picture. Its history is that of all sessions and workers.
    pub picture: Picture,
    /// The sessions.
    pub counts: Counts,
    /// Whether the door failed.
    pub faulted: bool,
}

// The senders for sessions; none where no worker was started, for then nobody would take a job.
fn senders_to(alloc: Global, staff: u64, senders: VecDeque<JobSender>) -> VecDeque<JobSender>
    ensures { staff ≡ 0 → result.items ≡ [] }
{
    if staff == 0 {
        return VecDeque::new(alloc);
    }
    senders
}

// Serves the links with sessions, while workers work beside them. All threads are over when it returns.
#[tactic(auto, using(crate::proofs::Accepts::links_at))]
fn serve_beside<R: Threads + Wait + Sync, D: Door, G: Gate + Sync>(
    rt: &R,
    desk: &Desk,
    left_out: &AtomicU64,
    gate: &G,
    door: &mut D,
    seats: VecDeque<Seat>,
    hands: VecDeque<Seat>,
    room: Room<D::Link>,
) -> Left<D::Link>
    requires sync { IsSync R.row }
    requires served { IsReadyToServe desk.now (D.count door.old) seats.items (deque_len seats) (deque_capacity room.sittings) (deque_capacity room.dones) room.sittings.items room.dones.items }
    requires staffed { IsStaffed desk.now hands.items (deque_len hands) (deque_capacity room.workings) (deque_capacity room.resteds) room.workings.items room.resteds.items }
    ensures links { HasServedLinks desk.now (doorway_of D.count D.still D.returned D.faults door.old) (doorway_of D.count D.still D.returned D.faults door.new)
        seats.items result.seats.items (starts_of result.dones.items) result.faulted }
    ensures staff { HasStaffed desk.now hands.items result.hands.items result.resteds.items result.staff (deque_len hands) }
    ensures channels { result.staff ≡ 0 → HaveNoChannel (starts_of result.dones.items) }
{
    let Room {
        sittings,
        dones,
        workings,
        resteds,
        senders,
        receivers,
    } = room;
    let (door, left) = thread::scope(
        thread::scope_env(),
        rt,
        move |scope| -> (&mut D, Left<D::Link>)
            requires served { IsReadyToServe desk.now (D.count door.now) seats.items (deque_len seats) (deque_capacity sittings) (deque_capacity dones) sittings.items dones.items }
            requires staffed { IsStaffed desk.now hands.items (deque_len hands) (deque_capacity workings) (deque_capacity resteds) workings.items resteds.items }
            ensures same { result.0.ghost_name ≡ door.entry.ghost_name }
            ensures links { HasServedLinks desk.entry.now (doorway_of D.count D.still D.returned D.faults door.entry.now) (doorway_of D.count D.still D.returned D.faults result.0.now)
                seats.items result.1.seats.items (starts_of result.1.dones.items) result.1.faulted }
            ensures staff { HasStaffed desk.entry.now hands.items result.1.hands.items result.1.resteds.items result.1.staff (deque_len hands) }
            ensures channels { result.1.staff ≡ 0 → HaveNoChannel (starts_of result.1.dones.items) }
        {
            let mut hands = hands;
            let mut workings = workings;
            let mut resteds = resteds;
            let staff = begin_all(
                scope,
                rt,
                desk,
                left_out,
                gate,
                &mut hands,
                receivers,
                &mut workings,
            );
            let senders = senders_to(desk.alloc(), staff, senders);
            let (seats, dones, faulted) = serve_links(
                rt, desk, gate, door, seats, sittings, dones, senders,
            );
            rest_all(rt, desk, gate, workings, &mut resteds);
            let left = Left {
                seats,
                dones,
                hands,
                resteds,
                staff,
                faulted,
            };
            (door, left)
        },
    );
    take_back(door);
    left
}

// Hands the links back in order, joins all seats, and closes the desk.
fn settle<D: Door>(desk: Desk, door: &mut D, first: Seat, left: Left<D::Link>) -> Served
    requires ready { IsSeatOfDesk desk first }
    requires split { AllSplit desk first.view (seats_of (starts_of left.dones.items) ++ left.seats.items) (froms_of left.resteds.items ++ left.hands.items) }
    requires given { length left.dones.items ≤ (D.count door.old).given - (D.count door.old).back }
    requires few { length left.dones.items ≤ 2 ^ 31 }
    ensures tied { IsTied D.Link.Source D.Link.Sink desk.fixed result.picture.history left.dones.items }
    ensures setup { result.picture.setup ≡ desk.fixed }
    ensures legal { IsLegal desk.fixed result.picture.history }
    ensures complete { All IsComplete result.picture.history }
    ensures counted { result.counts ≡ counted left.dones.items }
    ensures faulted { result.faulted ≡ left.faulted }
    ensures worked { All IsRested left.resteds.items }
    ensures door { HasTakenBack (doorway_of D.count D.still D.returned D.faults door.old)
        (doorway_of D.count D.still D.returned D.faults door.new) (backs_of left.dones.items) }
{
    let Left {
        seats,
        dones,
        hands,
        resteds,
        staff: _,
        faulted,
    } = left;
    let mut first = first;
    let counts = join_sessions(&desk, door, &mut first, dones);
    join_seats(&desk, &mut first, seats);
    join_workers(&desk, &mut first, resteds);
    join_seats(&desk, &mut first, hands);
    let picture = desk.close(first);
    picture.keeps();
    Served {
        picture,
        counts,
        faulted,
    }
}

/// Serves so many links of a door, each by a session on a thread of its own, with so many workers beside them, and closes the picture when all
/// are over. It asks for a picture that nothing was entered into.
///
/// It takes all seats, the ends of the job channel, which has 1,024 places, and the room for what comes back, before it listens; `Memory` is
/// answered then, and the door wasn't called. A session whose thread can't be started is served by the caller. A worker that can't be started
/// is left out, and it alone; where none was started, no session has a channel, and each renews its flights itself. A fault of the door ends
/// no session: those that run are waited for.
///
/// `HasServedWhole` says what stands then: one legal history that ties all links, and the counts.
pub fn serve<R: Threads + Wait + Sync, D: Door, G: Gate + Sync>(
    rt: &R,
    alloc: Global,
    picture: Picture,
    port: u16,
    sessions: u32,
    workers: u32,
    door: &mut D,
    gate: &G,
) -> Result<Served, Memory>
    requires sync { IsSync R.row }
    requires opening { picture.history ≡ [] }
    requires few { sessions + workers ≤ 2 ^ 31 }
    ensures served { IfOk result (λ served. HasServedWhole D.Link.Source D.Link.Sink picture.setup port sessions workers
        (doorway_of D.count D.still D.returned D.faults door.old) (doorway_of D.count D.still D.returned D.faults door.new)
        served.faulted served.picture served.counts) }
    ensures uncalled { IfErr result (λ _. door.new ≡ door.old) }
{
    let mut seats = VecDeque::with_capacity(alloc, sessions as usize)?;
    let mut hands = VecDeque::with_capacity(alloc, workers as usize)?;
    let room = take_room::<D::Link>(alloc, sessions, workers)?;
    let Ok((desk, first)) = Desk::make(alloc, picture) else {
        return Err(Memory);
    };
    let mut first = first;
    split_all(&desk, &mut first, &mut seats, sessions);
    split_all(&desk, &mut first, &mut hands, workers);
    let Ok(()) = door.listen(port, sessions) else {
        let Room { dones, resteds, .. } = room;
        let left = Left {
            seats,
            dones,
            hands,
            resteds,
            staff: 0,
            faulted: true,
        };
        return Ok(settle(desk, door, first, left));
    };
    // No worker has this place.
    let left_out = AtomicU64::new(u64::MAX);
    let left = serve_beside(rt, &desk, &left_out, gate, door, seats, hands, room);
    Ok(settle(desk, door, first, left))
}
