//! Jobs through a channel, from many threads to many.
ghost use Rattle.std.specs.Prelude.{◌≡◌, IfOk, None, false};

use crate::inbox::Inbox;
use crate::job::Job;
use crate::outbox::Outbox;
use crossbeam_channel::{Receiver, Sender, bounded};
use mt_memory::Memory;
use std::alloc::Global;
use std::marker::Model;
use std::sync::Wait;
use std::thread::Threads;

/// The end of a channel that takes jobs. It tells nothing of them.
#[derive(Drop)]
pub struct JobSender {
    sender: Sender<Job, Global>,
}

/// The end of a channel that gives jobs: none once all senders are gone and no job is left. It tells nothing of them, but whether it has said that
/// no job will come.
#[derive(Drop)]
pub struct JobReceiver {
    receiver: Receiver<Job, Global>,
    over: bool,
}

impl Model for JobReceiver {
    ghost use Rattle.std.specs.Prelude.{Bool};

    ghost Value = { Bool };

    ghost view = { λ r. r.over };
}

/// The two ends of a channel with so many places.
pub fn jobs(alloc: Global, places: usize) -> Result<(JobSender, JobReceiver), Memory>
    ensures { IfOk result (λ ends. ends.1 ≡ false) }
{
    let (sender, receiver) = bounded(alloc, places)?;
    let receiver = JobReceiver {
        receiver,
        over: false,
    };
    Ok((JobSender { sender }, receiver))
}

impl JobSender {
    /// Another such end of the same channel.
    pub fn share(&self) -> Result<JobSender, Memory> {
        Ok(JobSender {
            sender: self.sender.clone()?,
        })
    }
}

impl JobReceiver {
    /// Another such end of the same channel.
    pub fn share(&self) -> Result<JobReceiver, Memory>
        ensures { IfOk result (λ end. end ≡ false) }
    {
        Ok(JobReceiver {
            receiver: self.receiver.clone()?,
            over: false,
        })
    }
}

impl Outbox for JobSender {
    ghost jobs = { λ _. None };

    fn hand<R: Threads + Wait + Sync>(&mut self, rt: &R, job: Job) -> Result<(), Job> {
        match self.sender.try_send(rt, job) {
            Ok(()) => Ok(()),
            Err(refused) => Err(refused.into_inner()),
        }
    }
}

impl Inbox for JobReceiver {
    ghost left = { λ _. None };

    ghost is_over = { λ receiver. receiver };

    fn next<R: Threads + Wait + Sync>(&mut self, rt: &R) -> Option<Job> {
        match self.receiver.recv(rt) {
            Ok(job) => Some(job),
            Err(_) => {
                self.over = true;
                None
            }
        }
    }
}
