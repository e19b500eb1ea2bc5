//! Where jobs come from.
ghost use Rattle.std.specs.Prelude.{◌≡◌, ◌≤◌, ◌∷◌, [], ℕ, Bool, true, List, length, Option, Some, MatchOption};
ghost use Rattle.mt_workers.specs.Jobs.{AreTaken, AreJobsOver};

use crate::job::Job;
use mt_base::Calls;
use std::sync::Wait;
use std::thread::Threads;

/// Gives jobs, to be done.
pub trait Inbox {
    /// The flights of the jobs that are left, where it tells them.
    ghost left: { Self → Option (List (List ℕ)) };

    /// Whether it has said that no job will come.
    ghost is_over: { Self → Bool };

    /// The next job; none where no job will come. An inbox that tells its jobs gives the first, and none exactly where none is left.
    fn next<R: Threads + Wait + Sync>(&mut self, rt: &R) -> Option<Job>
        ensures jobs { MatchOption result (AreTaken (left self.old) (left self.new) [] × AreJobsOver (left self.new))
            (λ job. AreTaken (left self.old) (left self.new) (job.call ∷ [])) }
        ensures over { MatchOption result (is_over self.new ≡ true) (λ _. is_over self.new ≡ is_over self.old) };
}

/// Jobs in memory.
#[derive(Drop)]
pub struct MemInbox {
    calls: Calls,
    at: usize,
    over: bool,
    ghost within: { at ≤ length calls },
}

impl MemInbox {
    /// An inbox that has the jobs of these flights left, in order, and tells them.
    pub fn of(calls: Calls) -> MemInbox
        ensures { ⟦<MemInbox as Inbox>⟧.left result ≡ Some calls }
    {
        MemInbox {
            calls,
            at: 0,
            over: false,
        }
    }
}

impl Inbox for MemInbox {
    ghost use Rattle.std.specs.Prelude.{drop};

    ghost left = { λ inbox. Some (drop inbox.at inbox.calls) };

    ghost is_over = { λ inbox. inbox.over };

    fn next<R: Threads + Wait + Sync>(&mut self, rt: &R) -> Option<Job> {
        let calls = self.calls.items();
        if self.at == calls.len() {
            self.over = true;
            return None;
        }
        let call = calls[self.at];
        self.at += 1;
        Some(Job { call })
    }
}
