//! The room that serving takes before it listens.
ghost use Rattle.std.specs.Prelude.{◌≡◌, ◌≤◌, [], IfOk};
ghost use Rattle.std.specs.VecDeque.{deque_capacity};

use crate::sitting::{Done, Sitting};
use crate::worked::{Rested, Working};
use mt_io::Duplex;
use mt_memory::Memory;
use mt_workers::{JobReceiver, JobSender, jobs};
use std::alloc::Global;
use std::collections::VecDeque;

/// How many jobs the channel holds.
const PLACES: usize = 1_024;

/// The room for sessions and workers that run and that have ended, a sender for each session and a receiver for each worker.
#[derive(Drop)]
pub(crate) struct Room<L: Duplex> {
    pub(crate) sittings: VecDeque<Sitting<L>>,
    pub(crate) dones: VecDeque<Done<L>>,
    pub(crate) workings: VecDeque<Working>,
    pub(crate) resteds: VecDeque<Rested>,
    pub(crate) senders: VecDeque<JobSender>,
    pub(crate) receivers: VecDeque<JobReceiver>,
}

// So many other ends of a channel that take jobs.
fn senders_of(alloc: Global, sender: &JobSender, many: u32) -> Result<VecDeque<JobSender>, Memory> {
    let mut senders = VecDeque::new(alloc);
    for _ in 0..many {
        senders.push_back(sender.share()?)?;
    }
    Ok(senders)
}

// So many other ends of a channel that give jobs.
fn receivers_of(
    alloc: Global,
    receiver: &JobReceiver,
    many: u32,
) -> Result<VecDeque<JobReceiver>, Memory> {
    let mut receivers = VecDeque::new(alloc);
    for _ in 0..many {
        receivers.push_back(receiver.share()?)?;
    }
    Ok(receivers)
}

// The ends of the job channel: one for each session and one for each worker. Without workers no channel is made.
fn ends_of(
    alloc: Global,
    sessions: u32,
    workers: u32,
) -> Result<(VecDeque<JobSender>, VecDeque<JobReceiver>), Memory> {
    if workers == 0 {
        return Ok((VecDeque::new(alloc), VecDeque::new(alloc)));
    }
    let (sender, receiver) = jobs(alloc, PLACES)?;
    let senders = senders_of(alloc, &sender, sessions)?;
    let receivers = receivers_of(alloc, &receiver, workers)?;
    Ok((senders, receivers))
}

/// Takes all room. Without workers there is no channel.
pub(crate) fn take_room<L: Duplex + Drop>(
    alloc: Global,
    sessions: u32,
    workers: u32,
) -> Result<Room<L>, Memory>
    ensures empty { IfOk result (λ r. (r.sittings.items ≡ []) × (r.dones.items ≡ []) × (r.workings.items ≡ []) × (r.resteds.items ≡ [])) }
    ensures sessions { IfOk result (λ r. (sessions ≤ deque_capacity r.sittings) × (sessions ≤ deque_capacity r.dones)) }
    ensures workers { IfOk result (λ r. (workers ≤ deque_capacity r.workings) × (workers ≤ deque_capacity r.resteds)) }
{
    let (senders, receivers) = ends_of(alloc, sessions, workers)?;
    Ok(Room {
        sittings: VecDeque::with_capacity(alloc, sessions as usize)?,
        dones: VecDeque::with_capacity(alloc, sessions as usize)?,
        workings: VecDeque::with_capacity(alloc, workers as usize)?,
        resteds: VecDeque::with_capacity(alloc, workers as usize)?,
        senders,
        receivers,
    })
}
