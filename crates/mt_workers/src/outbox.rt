//! Where jobs go.
ghost use Rattle.std.specs.Prelude.{◌≡◌, ◌≤◌, [], vec_len, vec_capacity, map, IfOk, MatchResult, Option, Some};
ghost use Rattle.mt_workers.specs.Jobs.{GivesBack, Jobs, TakesJob};

use crate::job::Job;
use mt_memory::Memory;
use std::alloc::Global;
use std::sync::Wait;
use std::thread::Threads;

/// Takes jobs, for others to do.
pub trait Outbox {
    /// The jobs that it took and how many it has room for, where it tells them.
    ghost jobs: { Self → Option Jobs };

    /// Takes a job, or gives it back. An outbox that tells its jobs gives one back exactly where it holds as many as it has room for.
    fn hand<R: Threads + Wait + Sync>(&mut self, rt: &R, job: Job) -> Result<(), Job>
        ensures { MatchResult result (λ _. TakesJob (jobs self.old) job.call (jobs self.new))
            (λ back. (back ≡ job) × GivesBack (jobs self.old) (jobs self.new)) };
}

/// No outbox: it has room for no job.
#[derive(Drop)]
pub struct NoOutbox;

impl Outbox for NoOutbox {
    ghost use Rattle.mt_workers.specs.Jobs.{no_jobs};

    ghost jobs = { λ _. Some no_jobs };

    fn hand<R: Threads + Wait + Sync>(&mut self, rt: &R, job: Job) -> Result<(), Job> {
        Err(job)
    }
}

/// Jobs in memory, as many as it has room for.
#[derive(Drop)]
pub struct MemOutbox {
    taken: Vec<Job>,
    room: usize,
    ghost within: { vec_len taken ≤ room },
    ghost reserved: { room ≤ vec_capacity taken },
}

impl MemOutbox {
    ghost use Rattle.mt_workers.specs.MemJobs.{jobs_of};

    /// An outbox that took nothing and has room for so many jobs. It takes all its memory here.
    pub fn make(alloc: Global, room: u32) -> Result<MemOutbox, Memory>
        ensures { IfOk result (λ outbox. jobs_of outbox ≡ record { taken = []; room = room }) }
    {
        let room = room as usize;
        Ok(MemOutbox {
            taken: Vec::with_capacity(alloc, room)?,
            room,
        })
    }

    /// The jobs that it took, in order.
    pub fn taken(&self) -> &[Job]
        ensures { map (λ job. job.call) result.now ≡ (jobs_of self.now).taken }
    {
        &self.taken
    }
}

impl Outbox for MemOutbox {
    ghost use Rattle.mt_workers.specs.MemJobs.{jobs_of};

    ghost jobs = { λ outbox. Some (jobs_of outbox) };

    fn hand<R: Threads + Wait + Sync>(&mut self, rt: &R, job: Job) -> Result<(), Job> {
        if self.taken.len() == self.room {
            return Err(job);
        }
        match self.taken.push(job) {
            Ok(()) => Ok(()),
            Err(_) => unreachable!(),
        }
    }
}
